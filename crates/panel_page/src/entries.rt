// The rows of a page, filled while the rows of a table go by.
ghost use Rattle.std.specs.Prelude.{◌≡◌, List, [], ◌∷◌, ◌++◌, map, ℕ, ◌+◌, ◌*◌, ◌≤◌, ◌<◌, length, get_or};
ghost use Rattle.std.proofs.Math.Option.{none};
ghost use Rattle.spec_lists.specs.Lists.{All};
ghost use Rattle.spec_patch.specs.Sizes.{largest_u64};
ghost use Rattle.spec_projection.specs.Projection.{Entry};
ghost use Rattle.spec_projection.specs.Lookups.{entries_in};
ghost use Rattle.spec_projection.specs.Valid.{FitsEntry, Grouped};
ghost use Rattle.spec_page.specs.Page.{find_from};
ghost use Rattle.bytes_records.specs.Table.{HoldsRows};
ghost use Rattle.panel_rows.specs.Rows.{entry_width, entry_row, filled_row};
ghost use Rattle.panel_page.specs.PageTable.{page_width};
ghost use Rattle.panel_page.specs.Index.{Indexed};
ghost use Rattle.panel_page.specs.Answering.{answering, mixed, page_answer_of, answers_in};
ghost use Rattle.panel_page.specs.Shown.{Shows};

use crate::rows::PageLookup;
use crate::{index, rows};
use panel_rows::{fields, written};

// Writes a row into the place of key i if it is equal to this key.
fn answer_place(keys: &[u64], i: usize, key: u64, head: &[u8], rest: &[u8], answers: &mut [u8])
    requires { (i < length keys.now) × (((get_or head.now 0 0 ≡ 1) × (length head.now + length rest.now ≤ page_width)) × (length answers.old ≡ length keys.now * page_width)) }
    ensures { (f : ℕ → List ℕ) → Shows (length keys.now) answers.old (mixed f (answering key (filled_row page_width head.now rest.now) f) keys.now (i + 1))
        → Shows (length keys.now) answers.new (mixed f (answering key (filled_row page_width head.now rest.now) f) keys.now i) }
{
    if keys[i] != key {
        return;
    }
    let from = i * PageLookup::WIDTH;
    let end = from + PageLookup::WIDTH;
    written::write_row(&mut answers[from..end], head, rest);
}

// Writes a row into the place of each key that is equal to this one.
fn answer_key(
    keys: &[u64],
    key: u64,
    heads: &[usize],
    earlier: &[usize],
    head: &[u8],
    rest: &[u8],
    answers: &mut [u8],
)
    requires { Indexed (length keys.now) keys.now heads.now earlier.now × (((get_or head.now 0 0 ≡ 1) × (length head.now + length rest.now ≤ page_width)) × (length answers.old ≡ length keys.now * page_width)) }
    ensures { (f : ℕ → List ℕ) → Shows (length keys.now) answers.old (map f keys.now)
        → Shows (length keys.now) answers.new (map (answering key (filled_row page_width head.now rest.now) f) keys.now) }
{
    let mut next = heads[index::key_place(key)];
    while 0 < next {
        let i = next - 1;
        answer_place(keys, i, key, head, rest, answers);
        next = earlier[i];
    }
}

// Writes the answer of the entry in a row, which has this position in its collection, for each key that is its own.
fn answer_entry(
    keys: &[u64],
    heads: &[usize],
    earlier: &[usize],
    row: &[u8],
    position: u64,
    answers: &mut [u8],
)
    requires { Indexed (length keys.now) keys.now heads.now earlier.now × ((length row.now ≤ entry_width) × (length answers.old ≡ length keys.now * page_width)) }
    ensures { (e : Entry) → FitsEntry e → row.now ≡ entry_row e → (f : ℕ → List ℕ)
        → Shows (length keys.now) answers.old (map f keys.now)
        → Shows (length keys.now) answers.new (map (answering e.key (page_answer_of position e) f) keys.now) }
{
    let key = fields::entry_key(row);
    let head = rows::answer_head(position);
    let rest = fields::value_part(row, panel_rows::ENTRY_MARK);
    answer_key(keys, key, heads, earlier, &head, rest, answers);
}

// Writes the answer of a row's entry if it is one of the collection. Answers the position of the next.
fn answer_row(
    keys: &[u64],
    heads: &[usize],
    earlier: &[usize],
    row: &[u8],
    collection: u64,
    position: u64,
    answers: &mut [u8],
) -> u64
    requires { Indexed (length keys.now) keys.now heads.now earlier.now × ((length row.now ≤ entry_width) × ((length answers.old ≡ length keys.now * page_width) × (position < largest_u64))) }
    ensures filled { (l : List Entry) (e : Entry) → FitsEntry e → row.now ≡ entry_row e → position ≡ length (entries_in collection l)
        → (e.collection ≡ collection → find_from 0 e.key (entries_in collection l) ≡ none)
        → Shows (length keys.now) answers.old (map (answers_in collection l) keys.now)
        → Shows (length keys.now) answers.new (map (answers_in collection (l ++ e ∷ [])) keys.now)
        × (result ≡ length (entries_in collection (l ++ e ∷ []))) }
    ensures next { result ≤ position + 1 }
{
    if fields::entry_collection(row) != collection {
        return position;
    }
    answer_entry(keys, heads, earlier, row, position, answers);
    position + 1
}

// Writes the answers of a collection's entries over rows of keys that were not found. Each row of the table is read once.
pub(crate) fn answer_rows(
    table: &[u8],
    count: usize,
    collection: u64,
    keys: &[u64],
    heads: &[usize],
    earlier: &[usize],
    answers: &mut [u8],
)
    requires { Indexed (length keys.now) keys.now heads.now earlier.now × (length answers.old ≡ length keys.now * page_width) }
    ensures { (es : List Entry) → All FitsEntry es → Grouped es → HoldsRows entry_width count table.now (map entry_row es)
        → Shows (length keys.now) answers.old (map (answers_in collection []) keys.now)
        → Shows (length keys.now) answers.new (map (answers_in collection es) keys.now) }
{
    let width = panel_rows::ENTRY_WIDTH;
    let mut position: u64 = 0;
    let mut i: usize = 0;
    while i < count {
        let row = bytes_records::record_at(table, width, count, i);
        position = answer_row(keys, heads, earlier, row, collection, position, answers);
        i += 1;
    }
}
