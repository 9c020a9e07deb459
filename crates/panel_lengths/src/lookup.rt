// A collection's length, looked up in the table of lengths without a look at the entries.
ghost use Rattle.std.specs.Prelude.{◌≡◌, ◌≤◌};
ghost use Rattle.spec_patch.specs.Sizes.{projection_entries};
ghost use Rattle.spec_projection.specs.Projection.{Projection};
ghost use Rattle.spec_projection.specs.Lookups.{entry_count};
ghost use Rattle.spec_projection.specs.Valid.{Valid};
ghost use Rattle.spec_lengths.specs.Lengths.{collection_lengths};
ghost use Rattle.local_projection_state.specs.Stores.{StoredLengths};
ghost use Rattle.panel_lengths.specs.LengthRows.{collection_at, entries_at};

use local_projection_state::LocalProjectionState;
use panel_rows::fields;

// The collection of a row, and its length.
fn row_collection(table: &[u8], i: usize) -> u64
    requires { i ≤ projection_entries }
    ensures { result ≡ collection_at i table.now }
{
    fields::number_at(table, i * panel_rows::LENGTH_WIDTH, panel_rows::ID_WIDTH)
}

fn row_length(table: &[u8], i: usize) -> u64
    requires { i ≤ projection_entries }
    ensures { result ≡ entries_at i table.now }
{
    let at = i * panel_rows::LENGTH_WIDTH + panel_rows::LENGTH;
    fields::number_at(table, at, panel_rows::COUNT_WIDTH)
}

// How many entries a collection has; 0 where none is stored.
pub fn collection_length(table: &[u8], collection: u64) -> u64
    ensures { (p : Projection) → StoredLengths table.now (collection_lengths p) → Valid p → result ≡ entry_count p collection }
{
    for i in 0..LocalProjectionState::ENTRIES {
        let length = row_length(table, i);
        if length == 0 {
            return 0;
        }
        if row_collection(table, i) == collection {
            return length;
        }
    }
    0
}
