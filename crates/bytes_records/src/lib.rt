// Tables of fixed-width records in one lent byte slice, changed in place. A contract speaks of the rows that the table
// holds, whichever these are (`HoldsRows`). Nothing is asked of a count or a position: a call that does not fit is refused.
// The bytes are lent, with the count beside them, and no `Vec` of rows: the engine uses no heap, and C lends its memory as bytes.
#![tactic(auto)]

ghost use Rattle.std.specs.Prelude.{List, [], ◌∷◌, ◌≡◌, ℕ, ◌+◌, ◌-◌, ◌*◌, ◌≤◌, ◌<◌, length, get_or};
ghost use Rattle.bytes_records.specs.Positions.{insert_at, remove_at, replace_at, move_at, first_index};
ghost use Rattle.bytes_records.specs.Table.{HoldsRows, Changed, can_insert, can_remove, can_replace, can_move};
ghost use Rattle.bytes_records.specs.Keys.{leading_numbers};
ghost use Rattle.bytes_records.specs.Search.{is_above, is_pair, Rising, Starts, find_first_row, WithinRows, place_of, PlaceWithin};

use std::cmp::Ordering;

pub mod keys;
pub mod moves;

// Inserts row before the record at position `at`, or last. Answers whether it could: there is such a position, row is
// one record wide, and there is room.
pub fn insert_record(table: &mut [u8], width: usize, count: usize, at: usize, row: &[u8]) -> bool
    requires { 0 < width }
    ensures { Changed width count (count + 1) (insert_at at row.now)
        (can_insert (length table.old) width count at row.now) table.old table.new result }
{
    if count < at {
        return false;
    }
    if row.len() != width {
        return false;
    }
    if table.len() / width <= count {
        return false;
    }
    let from = at * width;
    let end = count * width + width;
    moves::push_front(&mut table[from..end], row);
    true
}

// Removes the record at position `at`, and sets the place that this frees at the end to 0. Answers whether there is one.
pub fn remove_record(table: &mut [u8], width: usize, count: usize, at: usize) -> bool
    requires { 0 < width }
    ensures { Changed width count (count - 1) (remove_at at)
        (can_remove (length table.old) width count at) table.old table.new result }
{
    if count <= at {
        return false;
    }
    if table.len() / width < count {
        return false;
    }
    let from = at * width;
    let end = count * width;
    moves::pop_front(&mut table[from..end], width);
    true
}

// Writes row over the record at position `at`. Answers whether there is one, as wide as row.
pub fn replace_record(table: &mut [u8], width: usize, count: usize, at: usize, row: &[u8]) -> bool
    requires { 0 < width }
    ensures { Changed width count count (replace_at at row.now)
        (can_replace (length table.old) width count at row.now) table.old table.new result }
{
    if count <= at {
        return false;
    }
    if row.len() != width {
        return false;
    }
    if table.len() / width < count {
        return false;
    }
    let from = at * width;
    let end = from + width;
    moves::copy(row, &mut table[from..end]);
    true
}

// Takes the record at position `from` out, and inserts row to stand at position `to`. Only the bytes from the one position
// to the other are moved. Answers whether there are such positions, and row is one record wide.
pub fn move_record(
    table: &mut [u8],
    width: usize,
    count: usize,
    from: usize,
    to: usize,
    row: &[u8],
) -> bool
    requires { 0 < width }
    ensures { Changed width count count (move_at from to row.now)
        (can_move (length table.old) width count from to row.now) table.old table.new result }
{
    if count <= from {
        return false;
    }
    if count <= to {
        return false;
    }
    if row.len() != width {
        return false;
    }
    if table.len() / width < count {
        return false;
    }
    if from < to {
        let start = from * width;
        let end = to * width + width;
        moves::push_back(&mut table[start..end], row);
    } else {
        let start = to * width;
        let end = from * width + width;
        moves::push_front(&mut table[start..end], row);
    }
    true
}

// The record at position `at`, or no bytes where there is none.
pub fn record_at(table: &[u8], width: usize, count: usize, at: usize) -> &[u8]
    requires { 0 < width }
    ensures row { (rows : List (List ℕ)) → HoldsRows width count table.now rows → result.now ≡ get_or rows at [] }
    ensures within { length result.now ≤ width }
{
    if count <= at {
        return &table[..0];
    }
    if table.len() / width < count {
        return &table[..0];
    }
    let start = at * width;
    let stop = start + width;
    &table[start..stop]
}

// The position of the first record whose first number is above id, or the count, in a table that rises by it: where a
// record of that id goes to stand last among those of the same id.
pub fn find_above(table: &[u8], width: usize, count: usize, id: u64) -> usize
    requires { 8 ≤ width }
    ensures first { (rows : List (List ℕ)) → HoldsRows width count table.now rows → Rising rows
        → result ≡ first_index (is_above id) rows }
    ensures within { result ≤ count }
{
    if table.len() / width < count {
        return count;
    }
    // the rows are no slice of their own, of which the library's `partition_point` could halve
    let mut low = 0;
    let mut high = count;
    while low < high {
        let middle = low + (high - low) / 2;
        let from = middle * width;
        let end = from + 8;
        if id < keys::number_of(&table[from..end]) {
            high = middle;
        } else {
            low = middle + 1;
        }
    }
    low
}

// The position of the first record whose first number is not below id, or the count, in a table that rises by it.
fn find_start(table: &[u8], width: usize, count: usize, id: u64) -> usize
    requires { 8 ≤ width }
    ensures start { (rows : List (List ℕ)) → HoldsRows width count table.now rows → Rising rows
        → Starts id result rows }
    ensures within { result ≤ count }
{
    if id == 0 {
        return 0;
    }
    find_above(table, width, count, id - 1)
}

// The first record that begins with the numbers id and second, in a table that rises by the first.
pub fn find_pair(table: &[u8], width: usize, count: usize, id: u64, second: u64) -> Option<usize>
    requires { 16 ≤ width }
    ensures first { (rows : List (List ℕ)) → HoldsRows width count table.now rows → Rising rows
        → result ≡ find_first_row (is_pair id second) rows }
    ensures within { WithinRows count result }
{
    if table.len() / width < count {
        return None;
    }
    let start = find_start(table, width, count, id);
    for at in start..count {
        let from = at * width;
        let middle = from + 8;
        let end = middle + 8;
        if keys::number_of(&table[from..middle]) != id {
            return None;
        }
        if keys::number_of(&table[middle..end]) == second {
            return Some(at);
        }
    }
    None
}

// Where a record stands, or else the position before which it is to be inserted: of the record that begins with the number id and, behind it, the number second of so many bytes, in a table
// that ascends by the two.
pub fn find_pair_place(
    table: &[u8],
    width: usize,
    count: usize,
    id: u64,
    size: usize,
    second: u64,
) -> Result<usize, usize>
    requires { (size ≤ 8) × (8 + size ≤ width) }
    ensures first { (rows : List (List ℕ)) → HoldsRows width count table.now rows
        → result ≡ place_of (leading_numbers (8 ∷ size ∷ [])) (id ∷ second ∷ []) rows }
    ensures within { PlaceWithin count result }
{
    if table.len() / width < count {
        return Err(count);
    }
    for place in 0..count {
        let from = place * width;
        let end = from + width;
        match keys::compare(&table[from..end], id, size, second) {
            Ordering::Less => {}
            Ordering::Equal => {
                return Ok(place);
            }
            Ordering::Greater => {
                return Err(place);
            }
        }
    }
    Err(count)
}

// The place of a record that begins with the number id, in a table that ascends by it.
pub fn find_place(table: &[u8], width: usize, count: usize, id: u64) -> Result<usize, usize>
    requires { 8 ≤ width }
    ensures first { (rows : List (List ℕ)) → HoldsRows width count table.now rows
        → result ≡ place_of (leading_numbers (8 ∷ [])) (id ∷ []) rows }
    ensures within { PlaceWithin count result }
{
    find_pair_place(table, width, count, id, 0, 0)
}
