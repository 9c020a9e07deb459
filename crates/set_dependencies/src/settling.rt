// What operations expect of keys, judged one after the other by what is settled so far.
ghost use Rattle.std.specs.Prelude.{◌≡◌, List, [], ◌∷◌, ◌<◌};
ghost use Rattle.spec_dependencies.specs.Expectations.{neighbour, expectations};
ghost use Rattle.spec_dependencies.specs.Settled.{Settled, settled_key, judge};
ghost use Rattle.bytes_records.specs.Search.{place_of};
ghost use Rattle.projection_patch.specs.Meaning.{before_of, operation_of};
ghost use Rattle.set_dependencies.specs.SettledRows.{row_capacity, SettledTable, SettledIn};
ghost use Rattle.set_dependencies.specs.Settling.{expected_of, left_of, expectation_of, SettlesAgain, SettlesTo, Judges};

use crate::settled_rows::{SettledKey, SettledPlaces};
use crate::{find_settled, insert_settled, settled_rows};
use projection_patch::contract_primitives::{CollectionKey, StaticNodeId};
use projection_patch::patch::ProjectionPatchOperation;

// What an operation does with a key that it looks for: an added one must be absent, the others must be there; a taken one is gone afterwards.
#[derive(Clone, Copy)]
pub enum KeyUse {
    Added,
    Kept,
    Taken,
}

impl KeyUse {
    // Whether the key must be there.
    fn expected(self) -> bool
        ensures { result ≡ expected_of self }
    {
        match self {
            KeyUse::Added => false,
            KeyUse::Kept => true,
            KeyUse::Taken => true,
        }
    }

    // Whether the key is there afterwards.
    fn left(self) -> bool
        ensures { result ≡ left_of self }
    {
        match self {
            KeyUse::Added => true,
            KeyUse::Kept => true,
            KeyUse::Taken => false,
        }
    }
}

// Whether a key that is settled already, in the row at position `at`, is as expected; it keeps what it must be at the start.
fn settle_again(
    rows: &mut [u8],
    count: usize,
    at: usize,
    collection: u64,
    key: u64,
    key_use: KeyUse,
) -> bool
    ensures { (t : List Settled) → SettledTable count rows.old t → place_of settled_key (collection ∷ key ∷ []) t ≡ Ok at
        → SettlesAgain (judge (expectation_of collection key key_use) t) count result rows.new }
{
    let row = bytes_records::record_at(rows, settled_rows::WIDTH, count, at);
    let old = settled_rows::settled_key(row);
    if old.present != key_use.expected() {
        return false;
    }
    let new = settled_rows::settled_row(SettledKey {
        collection,
        key,
        at_start: old.at_start,
        present: key_use.left(),
    });
    bytes_records::replace_record(rows, settled_rows::WIDTH, count, at, &new)
}

// A key that is not settled yet, before the row at position `at`: it must be at the start as expected.
fn settle_first(
    table: &mut [u8],
    places: SettledPlaces,
    at: usize,
    collection: u64,
    key: u64,
    key_use: KeyUse,
) -> SettledPlaces
    ensures { (t : List Settled) → SettledIn places table.old t → place_of settled_key (collection ∷ key ∷ []) t ≡ Err at
        → places.count < row_capacity → SettlesTo (judge (expectation_of collection key key_use) t) (Some result) table.new }
{
    let row = settled_rows::settled_row(SettledKey {
        collection,
        key,
        at_start: key_use.expected(),
        present: key_use.left(),
    });
    insert_settled::insert_near(table, places, at, &row)
}

// Judges one key that an operation looks for: where the rows of the table are now, or none where the key is not as expected. A table that is
// full stays as it is; one of as many rows as a set can look for never is.
fn settle(
    table: &mut [u8],
    places: SettledPlaces,
    collection: u64,
    key: u64,
    key_use: KeyUse,
) -> Option<SettledPlaces>
    ensures { (t : List Settled) → SettledIn places table.old t → places.count < row_capacity
        → SettlesTo (judge (expectation_of collection key key_use) t) result table.new }
{
    let rows = settled_rows::rows_from(table, places.start);
    match find_settled::find_by_halving(rows, settled_rows::WIDTH, places.count, collection, key) {
        Ok(at) => {
            if table.len() / settled_rows::WIDTH < places.start {
                return None;
            }
            let from = places.start * settled_rows::WIDTH;
            if settle_again(
                &mut table[from..],
                places.count,
                at,
                collection,
                key,
                key_use,
            ) {
                return Some(places);
            }
            None
        }
        Err(at) => Some(settle_first(table, places, at, collection, key, key_use)),
    }
}

// Judges the key of an operation, and then that a named neighbour is there.
fn settle_beside(
    table: &mut [u8],
    places: SettledPlaces,
    collection: StaticNodeId,
    key: CollectionKey,
    key_use: KeyUse,
    before: Option<CollectionKey>,
) -> Option<SettledPlaces>
    ensures { Judges places table.old table.new result (expectation_of collection.0 key.0 key_use ∷ neighbour collection.0 (before_of before)) }
{
    let node = collection.raw();
    let more = settle(table, places, node, key.raw(), key_use)?;
    match before {
        None => Some(more),
        Some(beside) => settle(table, more, node, beside.raw(), KeyUse::Kept),
    }
}

// Judges what an operation expects. Bindings and availabilities expect nothing.
pub fn settle_operation(
    table: &mut [u8],
    places: SettledPlaces,
    operation: ProjectionPatchOperation,
) -> Option<SettledPlaces>
    ensures { Judges places table.old table.new result (expectations (operation_of [] operation)) }
{
    let alone = None;
    match operation {
        ProjectionPatchOperation::SetBindingValue { .. } => Some(places),
        ProjectionPatchOperation::SetNodeAvailability { .. } => Some(places),
        ProjectionPatchOperation::CollectionInsert {
            collection,
            key,
            before,
            ..
        } => settle_beside(table, places, collection, key, KeyUse::Added, before),
        ProjectionPatchOperation::CollectionUpdate {
            collection,
            key,
            ..
        } => settle_beside(table, places, collection, key, KeyUse::Kept, alone),
        ProjectionPatchOperation::CollectionRemove { collection, key } => {
            settle_beside(table, places, collection, key, KeyUse::Taken, alone)
        }
        ProjectionPatchOperation::CollectionMove {
            collection,
            key,
            before,
        } => settle_beside(table, places, collection, key, KeyUse::Kept, before),
    }
}
