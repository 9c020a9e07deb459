// The writer on one list: its answer and the Adler-32 of the whole output, which held the byte aa everywhere. A refusal leaves it as it was.
ghost use Rattle.std.specs.Prelude.{◌<◌};

use crate::lists;
use patch_part_writer::written::WriteRefusal;
use patch_writer::set::write_patch_set;
use projection_patch::patch::{ProjectionPatchEdition, ProjectionPatchSet};
use std::io;

// The places of the output.
const OUTPUT: usize = 32800;

// The bytes of the texts, and of those that have characters of each width.
const TEXTS: usize = 220;

const WIDE_TEXTS: usize = 726;

fn wide(byte: u8) -> u32
    ensures { result < 256 }
{
    byte as u32
}

// RFC 1950.
fn adler32(bytes: &[u8]) -> u64 {
    let mut a: u32 = 1;
    let mut b: u32 = 0;
    for &byte in bytes {
        a = (a + wide(byte)) % 65521;
        b = (b + a) % 65521;
    }
    (b as u64) * 65536 + (a as u64)
}

fn show_digest(rt: &impl Print, bytes: &[u8]) -> io::Result<()> {
    let digest = adler32(bytes);
    println!(rt; " {digest:08x}")
}

fn show_answer(rt: &impl Print, written: Result<usize, WriteRefusal>) -> io::Result<()> {
    match written {
        Ok(n) => print!(rt; "wrote {n}"),
        Err(refusal) => {
            let number = refusal.number();
            print!(rt; "refused {number}")
        }
    }
}

// The texts: the letter a, but for a surrogate at 0, the last scalar value at 10 and a character of two bytes at 20.
pub(crate) fn texts() -> [u8; TEXTS] {
    let mut texts = [b'a'; TEXTS];
    bytes_wire::write_bytes_at(&mut texts, 0, b"\xed\xa0\x80");
    bytes_wire::write_bytes_at(&mut texts, 10, b"\xf4\x8f\xbf\xbf");
    bytes_wire::write_bytes_at(&mut texts, 20, b"\xc3\xa9");
    texts
}

// From 240 on 121 characters of two bytes, from 482 on 81 of three.
fn wide_byte(i: usize) -> u8 {
    if i < 240 {
        return b'a';
    }
    if i < 482 {
        return if i % 2 == 0 { 0xc3 } else { 0xa9 };
    }
    match (i - 482) % 3 {
        0 => 0xe6,
        1 => 0x97,
        _ => 0xa5,
    }
}

// Texts of each width, and a byte at 725 that is in no text.
pub(crate) fn wide_texts() -> [u8; WIDE_TEXTS] {
    let mut texts = [0xffu8; WIDE_TEXTS];
    for i in 0..WIDE_TEXTS - 1 {
        texts[i] = wide_byte(i);
    }
    texts
}

// Writes into the first places of the output.
fn write_front(
    set: ProjectionPatchSet,
    lent: &[u8],
    out: &mut [u8],
    places: usize,
) -> Result<usize, WriteRefusal> {
    if out.len() < places {
        return Err(WriteRefusal::OutputTooShort);
    }
    write_patch_set(set, lent, ProjectionPatchEdition::V1, &mut out[0..places])
}

pub(crate) fn write(rt: &impl Print, row: &[u8], lent: &[u8], places: usize) -> io::Result<()> {
    let mut out = [0xaau8; OUTPUT];
    show_answer(rt, write_front(lists::set_of(row), lent, &mut out, places))?;
    show_digest(rt, &out)
}

// The output that nothing was written into.
pub(crate) fn untouched(rt: &impl Print) -> io::Result<()> {
    let out = [0xaau8; OUTPUT];
    rt.print("untouched")?;
    show_digest(rt, &out)
}
