// The entries of one collection in a table of the entries of all collections: how many there are, and the one at a
// position. After crates/prom-ui/src/local_projection_state.rs.
ghost use Rattle.std.specs.Prelude.{◌≡◌, List, map, ◌≤◌, ◌<◌, get_or};
ghost use Rattle.std.proofs.Math.Option.{none, some};
ghost use Rattle.spec_lists.specs.Lists.{All};
ghost use Rattle.spec_patch.specs.Sizes.{projection_entries};
ghost use Rattle.spec_projection.specs.Projection.{Entry, Projection};
ghost use Rattle.spec_projection.specs.Lookups.{keyed_value, entry_at, entry_count};
ghost use Rattle.spec_projection.specs.Valid.{FitsEntry, Valid};
ghost use Rattle.bytes_records.specs.Table.{HoldsRows};
ghost use Rattle.panel_rows.specs.Rows.{entry_width, entry_row};
ghost use Rattle.local_projection_state.specs.Stores.{Stored};
ghost use Rattle.panel_lookups.specs.Nth.{counts_for, Nth, entry_lookup};

use panel_rows::values::ValueLookup;
use panel_rows::{fields, values};

// An entry's key, and its value with its mark, or every field zero.
#[derive(Drop)]
pub struct EntryLookup {
    pub key: u64,
    pub value: ValueLookup,
}

// 1 where the row at a position is of the collection, else 0.
fn counts_for(table: &[u8], count: usize, at: usize, collection: u64) -> usize
    ensures counted { (es : List Entry) (d : Entry) → All FitsEntry es → HoldsRows entry_width count table.now (map entry_row es) → at < count
        → result ≡ counts_for collection (get_or es at d) }
    ensures within { result ≤ 1 }
{
    let row = bytes_records::record_at(table, panel_rows::ENTRY_WIDTH, count, at);
    if fields::entry_collection(row) == collection {
        return 1;
    }
    0
}

// How many entries a collection has.
pub fn entry_count(table: &[u8], count: usize, collection: u64) -> usize
    ensures { (p : Projection) → Stored entry_row entry_width projection_entries count table.now p.entries → Valid p
        → result ≡ entry_count p collection }
{
    if table.len() / panel_rows::ENTRY_WIDTH < count {
        return 0;
    }
    let mut n = 0;
    for i in 0..count {
        n += counts_for(table, count, i, collection);
    }
    n
}

// The position of a collection's entry, by its position in the collection.
fn find_nth(table: &[u8], count: usize, collection: u64, position: usize) -> Option<usize>
    ensures { (es : List Entry) → All FitsEntry es → HoldsRows entry_width count table.now (map entry_row es)
        → Nth collection position es result }
{
    if table.len() / panel_rows::ENTRY_WIDTH < count {
        return None;
    }
    let mut left = position;
    for i in 0..count {
        let n = counts_for(table, count, i, collection);
        if left < n {
            return Some(i);
        }
        left -= n;
    }
    None
}

fn no_entry() -> EntryLookup
    ensures { result ≡ entry_lookup none }
{
    let value = values::no_value();
    EntryLookup { key: 0, value }
}

// The key, the mark and the value that are stored in a row.
fn stored_entry(row: &[u8]) -> EntryLookup
    ensures { (e : Entry) → FitsEntry e → row.now ≡ entry_row e → result ≡ entry_lookup (some (keyed_value e)) }
{
    let key = fields::entry_key(row);
    let value = values::stored_value(row, panel_rows::ENTRY_VALUE, fields::entry_mark(row));
    EntryLookup { key, value }
}

// The entry at a position of its collection.
pub fn entry_at(table: &[u8], count: usize, collection: u64, position: usize) -> EntryLookup
    ensures { (p : Projection) → Stored entry_row entry_width projection_entries count table.now p.entries → Valid p
        → result ≡ entry_lookup (entry_at p collection position) }
{
    let width = panel_rows::ENTRY_WIDTH;
    match find_nth(table, count, collection, position) {
        Some(i) => stored_entry(bytes_records::record_at(table, width, count, i)),
        None => no_entry(),
    }
}
