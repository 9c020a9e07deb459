// Reads sets from standard input, one to a line in lower-case hex, makes of each the list that it stands for, and writes that list in the edition
// that it was read in. What is printed is the lines as they came where the writer gives the bytes of each set; a question mark stands for a set
// that is not readable in either edition.
#![tactic(auto)]

ghost use Rattle.std.specs.Prelude.{◌-◌, ◌≤◌, length};

mod lists;

use patch_writer::set::write_patch_set;
use projection_patch::patch::{ProjectionPatchEdition, ProjectionPatchSet};
use std::io;

// Lines are read at once, as many as there are in so many bytes.
const INPUT_BYTES: usize = 1048576;

// Two digits for each byte of a set, and the line's end.
const LINE_BYTES: usize = 65537;

// The digit of a value below 16.
fn digit(value: u8) -> u8 {
    if value < 10 {
        b'0' + value
    } else {
        b'a' - 10 + value % 16
    }
}

// Prints bytes in hex, and the line's end.
fn print_line(rt: &impl Print, bytes: &[u8]) -> io::Result<()> {
    let mut line = [10u8; LINE_BYTES];
    if ProjectionPatchSet::BYTES < bytes.len() {
        return Ok(());
    }
    for i in 0..bytes.len() {
        line[2 * i] = digit(bytes[i] / 16);
        line[2 * i + 1] = digit(bytes[i] % 16);
    }
    rt.write_all(&line[..2 * bytes.len() + 1])
}

// Writes the list of a set that is read in the edition, and prints what was written; false where there is none.
fn rewrite_in(rt: &impl Print, set: &[u8], edition: ProjectionPatchEdition) -> io::Result<bool> {
    let Some(list) = lists::list_of(set, edition) else {
        return Ok(false);
    };
    let mut out = [0u8; ProjectionPatchSet::BYTES];
    if let Ok(n) = write_patch_set(list, set, edition, &mut out) {
        if n <= ProjectionPatchSet::BYTES {
            print_line(rt, &out[0..n])?;
            return Ok(true);
        }
    }
    Ok(false)
}

fn rewrite(rt: &impl Print, set: &[u8]) -> io::Result<()> {
    if rewrite_in(rt, set, ProjectionPatchEdition::V1)? {
        return Ok(());
    }
    if rewrite_in(rt, set, ProjectionPatchEdition::V2)? {
        return Ok(());
    }
    rt.println("?")
}

fn rewrite_line(rt: &impl Print, line: &[u8]) -> io::Result<()> {
    let mut set = [0u8; ProjectionPatchSet::BYTES];
    if let Ok(n) = bytes_hex::decode_hex(line, &mut set) {
        if n <= ProjectionPatchSet::BYTES {
            return rewrite(rt, &set[0..n]);
        }
    }
    rt.println("?")
}

// Where the line behind the one that ends at an index starts.
fn next_start(bytes: &[u8], end: usize) -> usize
    requires { end ≤ length bytes.now }
    ensures { (end ≤ result) × ((result ≤ length bytes.now) × (length bytes.now - result ≤ length bytes.now - end - 1)) }
{
    if end < bytes.len() { end + 1 } else { end }
}

fn rewrite_lines(rt: &impl Print, input: &[u8]) -> io::Result<()> {
    let mut start = 0;
    while start < input.len() {
        let end = script_reader::line_end(input, start);
        rewrite_line(rt, &input[start..end])?;
        start = next_start(input, end);
    }
    Ok(())
}

fn run(rt: &(impl Input + Print), input: &mut [u8; INPUT_BYTES]) -> io::Result<()> {
    let n = bytes_input::read_full(&mut rt.reader(), input)?;
    rewrite_lines(rt, &input[0..n])
}

fn main(rt: HostRuntime) -> io::Result<()> {
    let mut input = [0u8; INPUT_BYTES];
    run(&rt, &mut input)
}
