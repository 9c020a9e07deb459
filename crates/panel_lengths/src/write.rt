// Writes each collection's length, counted over the entries of a plan.
ghost use Rattle.std.specs.Prelude.{◌≡◌, true, map, ◌+◌, ◌-◌, ◌*◌, ◌≤◌, length};
ghost use Rattle.spec_patch.specs.Sizes.{projection_entries};
ghost use Rattle.spec_projection.specs.Projection.{Projection};
ghost use Rattle.spec_projection.specs.Valid.{Valid};
ghost use Rattle.spec_lengths.specs.Lengths.{collection_lengths};
ghost use Rattle.panel_rows.specs.Rows.{id_width, length_width, length_row, field_at};
ghost use Rattle.bytes_records.specs.Table.{HoldsRows};
ghost use Rattle.local_projection_state.specs.Stores.{StoredLengths};
ghost use Rattle.panel_plan.specs.PlanRows.{planned_entry_width, PlannedEntries};
ghost use Rattle.panel_writing.specs.Writing.{ClearBehind};
ghost use Rattle.panel_lengths.specs.Runs.{runs, leading, collections_from, can_write_lengths, written_lengths};

use local_projection_state::LocalProjectionState;
use panel_rows::fields;

// The collection of a plan's row.
fn collection_at(plan: &[u8], i: usize) -> u64
    requires { i ≤ projection_entries }
    ensures { result ≡ field_at (i * planned_entry_width) id_width plan.now }
{
    fields::number_at(plan, i * panel_plan::ENTRY_WIDTH, panel_rows::ID_WIDTH)
}

// The first row from one on that is not of the collection, or the count.
fn run_end(plan: &[u8], from: usize, count: usize, collection: u64) -> usize
    requires { (from ≤ count) × (count ≤ projection_entries) }
    ensures { result ≡ from + leading collection (collections_from from (count - from) plan.now) }
{
    for i in from..count {
        if collection_at(plan, i) != collection {
            return i;
        }
    }
    count
}

// Writes a row for each run of rows of one collection, and zeros behind them.
fn write_runs(plan: &[u8], count: usize, to: &mut [u8])
    requires { (count ≤ projection_entries) × (count * length_width ≤ length to.old) }
    ensures held { HoldsRows length_width (length (runs (collections_from 0 count plan.now))) to.new (map length_row (runs (collections_from 0 count plan.now))) }
    ensures long { length to.new ≡ length to.old }
{
    bytes_records::moves::clear(to);
    let mut rows = 0;
    // each turn goes past a whole run, of another length each time
    let mut i = 0;
    while i < count {
        let collection = collection_at(plan, i);
        let end = run_end(plan, i + 1, count, collection);
        let row = panel_rows::length_row(collection, (end - i) as u64);
        bytes_records::insert_record(to, panel_rows::LENGTH_WIDTH, rows, rows, &row);
        rows += 1;
        i = end;
    }
}

// Writes the lengths of the collections of so many rows of a plan, in the places of as many rows, and of those that were used. Answers whether
// it is a table of lengths, and has a place for each; another is left as it is.
pub fn write_lengths(plan: &[u8], count: usize, used: usize, to: &mut [u8]) -> bool
    ensures told { result ≡ can_write_lengths count used to.old }
    ensures made { to.new ≡ written_lengths count used plan.now to.old }
    ensures stores { result ≡ true → ClearBehind used length_width to.old → (p : Projection) → PlannedEntries count plan.now p.entries → Valid p → StoredLengths to.new (collection_lengths p) }
{
    if LocalProjectionState::ENTRIES < count {
        return false;
    }
    if LocalProjectionState::ENTRIES < used {
        return false;
    }
    if to.len() != LocalProjectionState::LENGTH_BYTES {
        return false;
    }
    let size = count.max(used) * panel_rows::LENGTH_WIDTH;
    write_runs(plan, count, &mut to[0..size]);
    true
}
