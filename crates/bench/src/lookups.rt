// Look-ups in the projection of a session: nodes 1 to 64, and the keys of collection 1, which are multiples of 4.
use crate::sums;
use shell_player::session::ShellSession;

// A number of what is found at the nth place.
fn look_up(way: u8, session: ShellSession, n: u64) -> u64 {
    if way == b'v' {
        let binding = session.binding_value(n % 64 + 1, 1);
        return binding.unsigned;
    }
    if way == b'a' {
        let node = session.node_availability(n % 64 + 1);
        return node.availability as u64;
    }
    let entry = session.entry_value(1, n % 30 * 4 + 4);
    entry.text_len as u64
}

pub(crate) fn look_up_often(way: u8, session: ShellSession, times: u64) -> u64 {
    let mut sum: u64 = 0;
    for left in (1..=times).rev() {
        sum = sums::mix(sum, look_up(way, session, left));
    }
    sum
}
