// The keys of a table that must be there at the start, or must be absent, written as two numbers each.
ghost use Rattle.std.specs.Prelude.{◌≡◌, List, ◌∷◌, ℕ, ◌+◌, ◌*◌, ◌≤◌, length};
ghost use Rattle.spec_dependencies.specs.Settled.{Settled};
ghost use Rattle.spec_dependencies.specs.Dependencies.{keys_at_start};
ghost use Rattle.spec_dependencies.specs.Answer.{pair_length, all_words, words_written};
ghost use Rattle.set_dependencies.specs.SettledRows.{settled_of, SettledTable};
ghost use Rattle.set_dependencies.specs.WrittenKeys.{KeysLeft};

use crate::settled_rows;
use crate::settled_rows::SettledKey;

// How many numbers a key is.
pub const PAIR: usize = 2;

// Writes a key behind the first keys, which are so many, if it must be so at the start, and answers how many they are then. A key without
// room is not written.
fn write_key(settled: SettledKey, at_start: bool, out: &mut [u64], written: usize) -> usize
    requires { pair_length * written ≤ length out.old }
    ensures left { (t : List Settled) (total : ℕ) (whole : List ℕ) → pair_length * total ≤ length out.old
        → KeysLeft at_start (settled_of settled ∷ t) written out.old total whole → KeysLeft at_start t result out.new total whole }
    ensures within { (result ≤ written + 1) × (pair_length * result ≤ length out.old) }
{
    if settled.at_start != at_start {
        return written;
    }
    if out.len() / PAIR <= written {
        return written;
    }
    let at = PAIR * written;
    out[at] = settled.collection;
    out[at + 1] = settled.key;
    written + 1
}

// Writes the keys that must be so at the start, in the table's order, from the start of out, and answers how many they are.
pub fn write_keys(table: &[u8], count: usize, at_start: bool, out: &mut [u64]) -> usize
    ensures all { (t : List Settled) → SettledTable count table.now t → pair_length * length (keys_at_start at_start t) ≤ length out.old
        → (result ≡ length (keys_at_start at_start t)) × (out.new ≡ words_written (all_words (keys_at_start at_start t)) out.old) }
    ensures within { pair_length * result ≤ length out.old }
{
    let mut i: usize = 0;
    let mut written: usize = 0;
    while i < count {
        let row = bytes_records::record_at(table, settled_rows::WIDTH, count, i);
        written = write_key(settled_rows::settled_key(row), at_start, out, written);
        i += 1;
    }
    written
}
