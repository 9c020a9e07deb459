// Creation of a session in lent memory.
ghost use Rattle.std.specs.Prelude.{◌≡◌, length};
ghost use Rattle.session_lifecycle.specs.Meaning.{limits_of};
ghost use Rattle.session_lent.specs.Steps.{room_shaped, CreationCall};

use crate::{head, shape};
use local_projection_state::LocalProjectionState;
use session_lifecycle::state::ShellLifecycleLimits;

// A list of anchors is over its capacity, or the slices cannot hold a session: one has another length, or the numbers of the bindings are no
// pairs.
#[derive(Clone, Copy)]
pub enum LentCreationRefusal {
    AnchorsOverCapacity,
    NoSession,
}

fn room_shaped(
    head: usize,
    pairs: usize,
    bindings: usize,
    availability: usize,
    entries: usize,
    lengths: usize,
) -> bool
    ensures { result ≡ room_shaped head pairs bindings availability entries lengths }
{
    head == head::NUMBERS
        && pairs % 2 == 0
        && lengths == LocalProjectionState::LENGTH_BYTES
        && panel_changes::tables_fit(bindings, availability, entries)
}

// Makes the slices hold a new session with these anchors. Unless it is created, every slice stays.
pub fn create_session(
    id: u64,
    limits: ShellLifecycleLimits,
    nodes: &[u64],
    pairs: &[u64],
    collections: &[u64],
    head: &mut [u64],
    bindings: &mut [u8],
    availability: &mut [u8],
    entries: &mut [u8],
    lengths: &mut [u8],
) -> Result<(), LentCreationRefusal>
    ensures { CreationCall id (limits_of limits) nodes.now pairs.now collections.now head.old bindings.old availability.old entries.old lengths.old
        result head.new bindings.new availability.new entries.new lengths.new }
{
    if !room_shaped(
        head.len(),
        pairs.len(),
        bindings.len(),
        availability.len(),
        entries.len(),
        lengths.len(),
    ) {
        return Err(LentCreationRefusal::NoSession);
    }
    if !shape::anchors_shaped(nodes.len(), pairs.len(), collections.len()) {
        return Err(LentCreationRefusal::AnchorsOverCapacity);
    }
    head::store_new(head, id, limits);
    bytes_records::moves::clear(bindings);
    bytes_records::moves::clear(availability);
    bytes_records::moves::clear(entries);
    bytes_records::moves::clear(lengths);
    Ok(())
}
