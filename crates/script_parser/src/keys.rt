// The fields of a page: a collection, how many places are lent, and keys, as many as stand in the line.
ghost use Rattle.std.specs.Prelude.{◌≡◌, List, ℕ, ◌≤◌, length, IfSome};
ghost use Rattle.spec_replay.specs.Lines.{space};
ghost use Rattle.spec_replay.specs.Script.{Command, up_to_end, line_keys, page_arguments};
ghost use Rattle.script_parser.specs.Fields.{fields_after};
ghost use Rattle.script_parser.specs.Keys.{keys_then, page_then};

use crate::fields;
use crate::fields::SPACE;

// Keys in the first places.
#[derive(Clone, Copy)]
pub struct KeyFields {
    pub keys: [u64; KeyFields::MOST],
    pub count: usize,
}

impl KeyFields {
    // So many keys can stand in a line.
    pub const MOST: usize = 128;
}

// A page of the keys in the first places.
#[derive(Clone, Copy)]
pub struct PageFields {
    pub collection: u64,
    pub room: u8,
    pub keys: [u64; KeyFields::MOST],
    pub count: usize,
}

impl PageFields {
    // So many places of an answer table can be lent to a page.
    pub const PLACES: u64 = 128;
}

// Reads the fields behind the one that ends at index end, each of which is to be a key; None where one is none, or where there are too many.
fn read_keys(line: &[u8], end: usize) -> Option<KeyFields>
    ensures told { (next : List ℕ → Command) → up_to_end line_keys next (fields_after space line.now end) ≡ keys_then result next }
    ensures within { IfSome result (λ r. (r.count ≤ line_keys) × (length r.keys ≡ line_keys)) }
{
    let mut keys = [0u64; KeyFields::MOST];
    let mut count: usize = 0;
    let mut at = end;
    while at < line.len() {
        if KeyFields::MOST <= count {
            return None;
        }
        let (key, to) = fields::number_after(line, at, SPACE)?;
        keys[count] = key;
        count += 1;
        at = to;
    }
    Some(KeyFields { keys, count })
}

// Reads the fields behind the word, which ends at index end; None where the line is no page.
pub fn read_page(line: &[u8], end: usize) -> Option<PageFields>
    ensures told { page_arguments (fields_after space line.now end) ≡ page_then result }
    ensures within { IfSome result (λ r. (r.count ≤ line_keys) × (length r.keys ≡ line_keys)) }
{
    let numbers = fields::read_numbers(line, end, 2, SPACE)?;
    let [collection, room, ..] = numbers.values;
    if PageFields::PLACES < room {
        return None;
    }
    let KeyFields { keys, count } = read_keys(line, numbers.end)?;
    Some(PageFields {
        collection,
        room: room as u8,
        keys,
        count,
    })
}
