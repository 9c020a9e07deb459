// A collection of the session, printed for paper.
ghost use Rattle.std.specs.Prelude.{◌≡◌, ◌≤◌, min, length};
ghost use Rattle.spec_session.specs.Session.{Session};
ghost use Rattle.spec_panel_print.specs.Print.{collection_print};
ghost use Rattle.spec_panel_print.specs.PrintSizes.{print_bytes};
ghost use Rattle.spec_replay.specs.Answers.{print_lines};
ghost use Rattle.spec_replay.specs.Replay.{State, asked, onward};
ghost use Rattle.bytes_printer.specs.Prints.{Prints};
ghost use Rattle.shell_player.specs.Holds.{Holds};
ghost use Rattle.script_calls.specs.ReplayHolds.{ReplayHolds, ReplayStepped};

use crate::state;
use crate::state::{ReplayState, ReplayStep};
use panel_print::PRINT_BYTES;
use shell_player::session::ShellSession;

// No print has more bytes than the longest, so that more are never lent.
fn lent_bytes(room: u64) -> usize
    ensures { (result ≡ min room print_bytes) × (result ≤ print_bytes) }
{
    if room < PRINT_BYTES as u64 {
        return room as usize;
    }
    PRINT_BYTES
}

fn print_lent(
    session: ShellSession,
    collection: u64,
    lent: &mut [u8],
    out: &mut [u8],
) -> Option<usize>
    ensures { (m : Session) → Holds session m
        → Prints out.old (Some 0) (print_lines (length lent.old) (collection_print m.projection collection)) out.new result }
{
    let answer = session_views::print::print_collection(session, collection, lent);
    script_answers::paper::print_collection(out, Some(0), answer, lent)
}

// A print into so many bytes, all zero.
fn print_into(session: ShellSession, collection: u64, room: u64, out: &mut [u8]) -> Option<usize>
    ensures { (m : Session) → Holds session m
        → Prints out.old (Some 0) (print_lines room (collection_print m.projection collection)) out.new result }
{
    let mut lent = [0u8; PRINT_BYTES];
    let end = lent_bytes(room);
    print_lent(session, collection, &mut lent[0..end], out)
}

// The print of a collection, if it has no more bytes than the room.
pub fn print_collection(
    state: ReplayState,
    collection: u64,
    room: u64,
    out: &mut [u8],
) -> ReplayStep
    ensures { (m : State) → ReplayHolds state m
        → ReplayStepped state out.old out.new result (asked m (λ (x : Session). onward m (print_lines room (collection_print x.projection collection)))) }
{
    if state.exists {
        let session = state.session;
        let printed = print_into(session, collection, room, out);
        return ReplayStep {
            state,
            printed,
            stopped: false,
        };
    }
    state::no_session(state, out)
}
