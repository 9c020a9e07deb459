// Runs the writer and the patch checks on refused lists and sets, and on slices that are too short for the answer. Each item of standard input is
// three u32, which say what it is (0 a set, 1 a list, 2 a list of wide texts), how many places are lent and how many bytes follow, and these bytes: the set, or the row of
// the list (`lists::set_of`). docs/DECISIONS.md says how the files stdin and stdout were made.
#![tactic(auto)]

mod checks;
mod lists;
mod writes;

use std::io;

// The most bytes of an item.
const BYTES: usize = 32769;

// The most items that are read.
const ITEMS: usize = 1000;

fn run(rt: &(impl Input + Print), list: u32, places: usize, item: &mut [u8]) -> io::Result<()> {
    bytes_input::read_full(&mut rt.reader(), item)?;
    match list {
        1 => writes::write(rt, item, &writes::texts(), places),
        2 => writes::write(rt, item, &writes::wide_texts(), places),
        _ => checks::check(rt, item, places),
    }
}

// Reads an item and runs it; false where there is none.
fn next_item(rt: &(impl Input + Print)) -> io::Result<bool> {
    let mut lengths = [0u8; 12];
    let mut item = [0u8; BYTES];
    if bytes_input::read_full(&mut rt.reader(), &mut lengths)? < 12 {
        return Ok(false);
    }
    let Some(list) = bytes_wire::read_u32_at(&lengths, 0) else {
        return Ok(false);
    };
    let Some(places) = bytes_wire::read_u32_at(&lengths, 4) else {
        return Ok(false);
    };
    let Some(size) = bytes_wire::read_u32_at(&lengths, 8) else {
        return Ok(false);
    };
    let size = size as usize;
    if BYTES < size {
        return Ok(false);
    }
    run(rt, list, places as usize, &mut item[0..size])?;
    Ok(true)
}

fn main(rt: HostRuntime) -> io::Result<()> {
    writes::untouched(&rt)?;
    for _ in 0..ITEMS {
        if !next_item(&rt)? {
            break;
        }
    }
    Ok(())
}
