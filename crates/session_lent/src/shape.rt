// Whether lent slices can hold a session: their lengths, and the counts in the head.
ghost use Rattle.std.specs.Prelude.{◌≡◌, ◌&&◌, eqb};
ghost use Rattle.panel_rows.specs.Rows.{length_bytes};
ghost use Rattle.session_lent.specs.LentSession.{anchors_shaped, half_shaped};

use crate::head;
use active_projection_target_catalog::catalog::ActiveProjectionTargetCatalog;
use local_projection_state::LocalProjectionState;

// Whether lists of so many numbers are anchors: at most 128 of each kind, and two numbers for each binding.
pub fn anchors_shaped(nodes: usize, pairs: usize, collections: usize) -> bool
    ensures { result ≡ anchors_shaped nodes pairs collections }
{
    nodes <= ActiveProjectionTargetCatalog::ANCHORS
        && pairs <= 2 * ActiveProjectionTargetCatalog::ANCHORS
        && pairs % 2 == 0
        && collections <= ActiveProjectionTargetCatalog::ANCHORS
}

// Whether a head and tables of these lengths are a half of a session's memory: no count is over its capacity.
pub fn half_shaped(head: &[u64], bindings: usize, availability: usize, entries: usize) -> bool
    ensures { result ≡ half_shaped head.now bindings availability entries }
{
    head.len() == head::NUMBERS
        && panel_changes::tables_fit(bindings, availability, entries)
        && panel_changes::counts_fit(head::counts_in(head))
}

// Whether anchors of so many numbers, the half that is read and the half that is written are a session's memory.
pub fn memory_shaped(
    nodes: usize,
    pairs: usize,
    collections: usize,
    head: &[u64],
    bindings: usize,
    availability: usize,
    entries: usize,
    to_head: &[u64],
    to_bindings: usize,
    to_availability: usize,
    to_entries: usize,
    to_lengths: usize,
) -> bool
    ensures { result ≡ (anchors_shaped nodes pairs collections && (half_shaped head.now bindings availability entries && (half_shaped to_head.now to_bindings to_availability to_entries && eqb to_lengths length_bytes))) }
{
    anchors_shaped(nodes, pairs, collections)
        && half_shaped(head, bindings, availability, entries)
        && half_shaped(to_head, to_bindings, to_availability, to_entries)
        && to_lengths == LocalProjectionState::LENGTH_BYTES
}
