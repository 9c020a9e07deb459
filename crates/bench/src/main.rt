// Uses one set, session, projection, text or list many times. The input is a letter for the use, a space, how often in decimal, a line end and the data. What is
// printed depends on the uses.
//   r q k d reading, the quick check and the check of a set, and what it depends on; the data is the set
//   i       bringing in a term list; the data is the list
//   t w     the UTF-8 check of a text, and the writing of a list that repeats it; the data is the text
//   b l     batches on a session by value, and on one in lent memory
//   v a e   look-ups of bindings, availabilities and entries
//   o       operations in place on a projection
//   p x s   pages of 64 keys, the same with each row taken apart, and as many single look-ups
// The data of the last four lines is a set that fills the panel, a set that is applied to it and one that takes it back, each after its length as a u32.
#![tactic(auto)]

mod dependencies;
mod imports;
mod lent;
mod lists;
mod lookups;
mod pages;
mod projections;
mod sessions;
mod sets;
mod sums;
mod texts;

ghost use Rattle.std.specs.Prelude.{◌+◌, ◌≤◌, length};

use std::io;

// The most bytes of the input.
const INPUT_BYTES: usize = 65536;

// The length of the set that the data begins with, or 0 where it does not fit.
fn set_length(rest: &[u8]) -> usize
    requires { 4 ≤ length rest.now }
    ensures { 4 + result ≤ length rest.now }
{
    let room = rest.len() - 4;
    match bytes_wire::read_u32_at(rest, 0) {
        Some(n) => { if n as usize <= room { n as usize } else { 0 } }
        None => 0,
    }
}

// The uses of a filled panel.
fn use_panel(way: u8, times: u64, fill: &[u8], forth: &[u8], back: &[u8]) -> u64 {
    if way == b'o' {
        return projections::replay_often(fill, forth, times);
    }
    if way == b'l' {
        return lent::apply_often(fill, forth, back, times);
    }
    let session = sessions::filled(fill);
    if way == b'b' {
        return sessions::apply_often(session, forth, back, times);
    }
    match way {
        b'p' | b'x' | b's' => pages::use_pages(way, session, times),
        _ => lookups::look_up_often(way, session, times),
    }
}

// Cuts the third set.
fn with_two(way: u8, times: u64, fill: &[u8], forth: &[u8], rest: &[u8]) -> u64 {
    if rest.len() < 4 {
        return 0;
    }
    let size = set_length(rest);
    use_panel(way, times, fill, forth, &rest[4..4 + size])
}

// Cuts the second set.
fn with_fill(way: u8, times: u64, fill: &[u8], rest: &[u8]) -> u64 {
    if rest.len() < 4 {
        return 0;
    }
    let size = set_length(rest);
    with_two(way, times, fill, &rest[4..4 + size], &rest[4 + size..])
}

// Cuts the first set.
fn with_data(way: u8, times: u64, rest: &[u8]) -> u64 {
    if rest.len() < 4 {
        return 0;
    }
    let size = set_length(rest);
    with_fill(way, times, &rest[4..4 + size], &rest[4 + size..])
}

fn use_often(way: u8, data: &mut [u8], times: u64) -> u64 {
    match way {
        b'r' | b'q' | b'k' => sets::use_often(way, data, times),
        b'd' => dependencies::depend_often(data, times),
        b'i' => imports::import_often(data, times),
        b't' => texts::check_often(data, times),
        b'w' => lists::write_often(data, times),
        _ => with_data(way, times, data),
    }
}

fn run(input: &mut [u8]) -> u64 {
    let end = script_reader::line_end(input, 0);
    if end < 3 {
        return 0;
    }
    if input.len() - end < 1 {
        return 0;
    }
    let way = input[0];
    match bytes_decimal::read_u64(&input[2..end]) {
        Some(times) => use_often(way, &mut input[end + 1..], times),
        None => 0,
    }
}

fn main(rt: HostRuntime) -> io::Result<()> {
    let mut input = [0u8; INPUT_BYTES];
    let n = bytes_input::read_full(&mut rt.reader(), &mut input)?;
    rt.println(run(&mut input[..n]))
}
