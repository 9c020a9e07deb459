// Operations on the entries of a collection, in place on a lent table of the planned entries of all collections. A refusal leaves
// every byte. After crates/prom-ui/src/local_projection_state.rs.
#![tactic(auto)]

pub mod find;

ghost use Rattle.std.specs.Prelude.{◌≡◌, OnErr, List, [], ℕ, ◌≤◌, ◌<◌, get_or};
ghost use Rattle.spec_projection.specs.Projection.{Projection};
ghost use Rattle.spec_projection.specs.FirstMatch.{find_first};
ghost use Rattle.spec_projection.specs.Entries.{is_entry};
ghost use Rattle.spec_projection.specs.Apply.{apply_insert, apply_update, apply_remove, apply_move};
ghost use Rattle.spec_projection.specs.Valid.{Valid};
ghost use Rattle.bytes_records.specs.Positions.{insert_at, remove_at};
ghost use Rattle.bytes_records.specs.Table.{HoldsRows};
ghost use Rattle.spec_patch.specs.Patch.{unsigned};
ghost use Rattle.projection_patch.specs.Meaning.{before_of};
ghost use Rattle.panel_plan.specs.PlanRows.{planned_entry_width, PlannedEntries};
ghost use Rattle.panel_bindings.specs.Change.{Became};
ghost use Rattle.panel_entries.specs.Places.{without_at};

use local_projection_state::LocalProjectionApplicationError;
use projection_patch::contract_primitives::CollectionKey;

// Replaces the mark and the source of a key, in its place.
pub fn update_entry(
    table: &mut [u8],
    count: usize,
    collection: u64,
    key: u64,
    mark: u64,
    source: u64,
) -> Result<usize, LocalProjectionApplicationError>
    ensures made { (p : Projection) → PlannedEntries count table.old p.entries → Valid p
        → Became (λ n q. PlannedEntries n table.new q.entries) result
        (apply_update p (record { collection = collection; key = key; mark = mark; value = unsigned source })) }
    ensures kept { OnErr result (table.new ≡ table.old) }
{
    let width = panel_plan::ENTRY_WIDTH;
    let Some(at) = find::find_entry(table, width, count, collection, key) else {
        return Err(LocalProjectionApplicationError::KeyRule);
    };
    let row = panel_plan::entry_row(collection, key, mark, source);
    bytes_records::replace_record(table, width, count, at, &row);
    Ok(count)
}

// Removes a key, and frees its place.
pub fn remove_entry(
    table: &mut [u8],
    count: usize,
    collection: u64,
    key: u64,
) -> Result<usize, LocalProjectionApplicationError>
    ensures made { (p : Projection) → PlannedEntries count table.old p.entries → Valid p
        → Became (λ n q. PlannedEntries n table.new q.entries) result (apply_remove p collection key) }
    ensures kept { OnErr result (table.new ≡ table.old) }
{
    let width = panel_plan::ENTRY_WIDTH;
    let Some(at) = find::find_entry(table, width, count, collection, key) else {
        return Err(LocalProjectionApplicationError::KeyRule);
    };
    bytes_records::remove_record(table, width, count, at);
    Ok(count - 1)
}

// Inserts a key that is absent before its neighbour, or last of its collection.
pub fn insert_entry(
    table: &mut [u8],
    count: usize,
    collection: u64,
    key: u64,
    before: Option<CollectionKey>,
    mark: u64,
    source: u64,
) -> Result<usize, LocalProjectionApplicationError>
    ensures made { (p : Projection) → PlannedEntries count table.old p.entries → Valid p
        → Became (λ n q. PlannedEntries n table.new q.entries) result
        (apply_insert p (before_of before) (record { collection = collection; key = key; mark = mark; value = unsigned source })) }
    ensures kept { OnErr result (table.new ≡ table.old) }
{
    let width = panel_plan::ENTRY_WIDTH;
    if find::find_entry(table, width, count, collection, key).is_some() {
        return Err(LocalProjectionApplicationError::KeyRule);
    }
    let (placed, neighbour) = (find::has_neighbour(before), find::neighbour_key(before));
    let Some(at) = find::seek_place(table, count, collection, placed, neighbour) else {
        return Err(LocalProjectionApplicationError::KeyRule);
    };
    let row = panel_plan::entry_row(collection, key, mark, source);
    if bytes_records::insert_record(table, width, count, at, &row) {
        return Ok(count + 1);
    }
    Err(LocalProjectionApplicationError::ProjectionFull)
}

// Takes the row at position from out, and inserts it before the one at position to.
fn move_row(table: &mut [u8], count: usize, from: usize, to: usize)
    requires { (from < count) × (to ≤ count) }
    ensures { (rows : List (List ℕ)) → HoldsRows planned_entry_width count table.old rows
        → HoldsRows planned_entry_width count table.new (insert_at (without_at from to) (get_or rows from []) (remove_at from rows)) }
{
    let width = panel_plan::ENTRY_WIDTH;
    let mut row = [0u8; panel_plan::ENTRY_WIDTH];
    bytes_records::moves::copy(
        bytes_records::record_at(table, width, count, from),
        &mut row,
    );
    if from < to {
        bytes_records::move_record(table, width, count, from, to - 1, &row);
    } else {
        bytes_records::move_record(table, width, count, from, to, &row);
    }
}

// Moves a key before its neighbour, or to the end of its collection.
pub fn move_entry(
    table: &mut [u8],
    count: usize,
    collection: u64,
    key: u64,
    before: Option<CollectionKey>,
) -> Result<usize, LocalProjectionApplicationError>
    ensures made { (p : Projection) → PlannedEntries count table.old p.entries → Valid p
        → Became (λ n q. PlannedEntries n table.new q.entries) result
        (apply_move p (before_of before) (find_first (is_entry collection key) p.entries)) }
    ensures kept { OnErr result (table.new ≡ table.old) }
{
    let Some(from) = find::find_entry(table, panel_plan::ENTRY_WIDTH, count, collection, key) else {
        return Err(LocalProjectionApplicationError::KeyRule);
    };
    let Some(to) = find::place_before_other(table, count, collection, key, before) else {
        return Err(LocalProjectionApplicationError::KeyRule);
    };
    move_row(table, count, from, to);
    Ok(count)
}
