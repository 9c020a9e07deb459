// How many rows of one table are used, by the head of a lent session.
ghost use Rattle.std.specs.Prelude.{◌≡◌, ◌<◌, get_or};
ghost use Rattle.session_lent.specs.Head.{head_numbers, counts_at};
ghost use Rattle.session_lent.specs.LentSession.{table_shaped, bindings_shaped, availabilities_shaped, entries_shaped};
ghost use Rattle.session_lent_views.specs.Views.{table_rows, lengths_shaped};

use local_projection_state::LocalProjectionState;
use session_lent::head;

// The rows of a table whose count has this place in the head; none where head and table cannot be a session's: one has another length, or the
// count is over its capacity.
fn rows_at(head: &[u64], place: usize, table: usize, bytes: usize, capacity: usize) -> Option<usize>
    requires { place < head_numbers }
    ensures { result ≡ table_rows (table_shaped head.now (get_or head.now place 0) table bytes capacity) (get_or head.now place 0) }
{
    if head.len() != head::NUMBERS || table != bytes {
        return None;
    }
    let count = head[place] as usize;
    if capacity < count {
        return None;
    }
    Some(count)
}

pub(crate) fn binding_rows(head: &[u64], table: usize) -> Option<usize>
    ensures { result ≡ table_rows (bindings_shaped head.now table) (counts_at head.now).bindings }
{
    rows_at(
        head,
        8,
        table,
        LocalProjectionState::BINDING_BYTES,
        LocalProjectionState::BINDINGS,
    )
}

pub(crate) fn availability_rows(head: &[u64], table: usize) -> Option<usize>
    ensures { result ≡ table_rows (availabilities_shaped head.now table) (counts_at head.now).availabilities }
{
    rows_at(
        head,
        9,
        table,
        LocalProjectionState::AVAILABILITY_BYTES,
        LocalProjectionState::AVAILABILITIES,
    )
}

pub(crate) fn entry_rows(head: &[u64], table: usize) -> Option<usize>
    ensures { result ≡ table_rows (entries_shaped head.now table) (counts_at head.now).entries }
{
    rows_at(
        head,
        10,
        table,
        LocalProjectionState::ENTRY_BYTES,
        LocalProjectionState::ENTRIES,
    )
}

// The entries that a table of lengths tells of.
pub(crate) fn length_rows(head: &[u64], table: usize) -> Option<usize>
    ensures { result ≡ table_rows (lengths_shaped head.now table) (counts_at head.now).entries }
{
    rows_at(
        head,
        10,
        table,
        LocalProjectionState::LENGTH_BYTES,
        LocalProjectionState::ENTRIES,
    )
}
