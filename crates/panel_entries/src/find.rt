use projection_patch::contract_primitives::CollectionKey;
// Positions of entries in a table of the entries of all collections, whose rows begin with the collection and the key.
ghost use Rattle.std.specs.Prelude.{◌≡◌, List, map, ℕ, ◌≤◌};
ghost use Rattle.spec_lists.specs.Lists.{All};
ghost use Rattle.spec_projection.specs.Projection.{Entry};
ghost use Rattle.spec_projection.specs.Entries.{is_entry};
ghost use Rattle.spec_projection.specs.Valid.{FitsEntry, Grouped};
ghost use Rattle.bytes_records.specs.Table.{HoldsRows};
ghost use Rattle.bytes_records.specs.Search.{find_first_row, WithinRows};
ghost use Rattle.projection_patch.specs.Meaning.{before_of};
ghost use Rattle.panel_plan.specs.PlanRows.{planned_entry_width, planned_entry_row};
ghost use Rattle.panel_entries.specs.EntryRows.{KeyedRow};
ghost use Rattle.panel_entries.specs.Places.{neighbour_of, is_placed, neighbour_key, place_before, PositionWithin, is_itself, place_before_other};

// The position of a collection's key, in rows of any width.
pub fn find_entry(
    table: &[u8],
    width: usize,
    count: usize,
    collection: u64,
    key: u64,
) -> Option<usize>
    requires { 16 ≤ width }
    ensures first { (row : Entry → List ℕ) → KeyedRow row → (es : List Entry) → All FitsEntry es → Grouped es → HoldsRows width count table.now (map row es)
        → result ≡ find_first_row (is_entry collection key) es }
    ensures within { WithinRows count result }
{
    bytes_records::find_pair(table, width, count, collection, key)
}

// Whether a neighbour is named, and its key.
pub fn has_neighbour(before: Option<CollectionKey>) -> bool
    ensures { result ≡ is_placed (before_of before) }
{
    before.is_some()
}

pub fn neighbour_key(before: Option<CollectionKey>) -> u64
    ensures { result ≡ neighbour_key (before_of before) }
{
    match before {
        None => 0,
        Some(neighbour) => neighbour.raw(),
    }
}

// Where an entry goes: before its neighbour, or last of its collection. The neighbour is a test and a number, as that is faster: for an optional key
// the operation that holds it would be copied, by loads wider than the stores before them.
pub fn seek_place(
    table: &[u8],
    count: usize,
    collection: u64,
    placed: bool,
    neighbour: u64,
) -> Option<usize>
    ensures first { (es : List Entry) → All FitsEntry es → Grouped es → HoldsRows planned_entry_width count table.now (map planned_entry_row es)
        → result ≡ place_before collection (neighbour_of placed neighbour) es }
    ensures within { PositionWithin count result }
{
    let width = panel_plan::ENTRY_WIDTH;
    if placed {
        return find_entry(table, width, count, collection, neighbour);
    }
    Some(bytes_records::find_above(table, width, count, collection))
}

// The same of an optional key.
pub fn place_before(
    table: &[u8],
    count: usize,
    collection: u64,
    before: Option<CollectionKey>,
) -> Option<usize>
    ensures first { (es : List Entry) → All FitsEntry es → Grouped es → HoldsRows planned_entry_width count table.now (map planned_entry_row es)
        → result ≡ place_before collection (before_of before) es }
    ensures within { PositionWithin count result }
{
    seek_place(
        table,
        count,
        collection,
        has_neighbour(before),
        neighbour_key(before),
    )
}

fn is_itself(key: u64, before: Option<CollectionKey>) -> bool
    ensures { result ≡ is_itself key (before_of before) }
{
    match before {
        None => false,
        Some(neighbour) => neighbour.raw() == key,
    }
}

// Where an entry goes that is taken out: a neighbour that is the entry itself is not there.
pub fn place_before_other(
    table: &[u8],
    count: usize,
    collection: u64,
    key: u64,
    before: Option<CollectionKey>,
) -> Option<usize>
    ensures first { (es : List Entry) → All FitsEntry es → Grouped es → HoldsRows planned_entry_width count table.now (map planned_entry_row es)
        → result ≡ place_before_other collection key (before_of before) es }
    ensures within { PositionWithin count result }
{
    if is_itself(key, before) {
        return None;
    }
    seek_place(
        table,
        count,
        collection,
        has_neighbour(before),
        neighbour_key(before),
    )
}
