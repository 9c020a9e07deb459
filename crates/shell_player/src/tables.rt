// A session with other tables. Each table is put in place by a call of its own, straight where it stands in the session: a projection that is
// made anew is put together beside the session first.
ghost use Rattle.std.specs.Prelude.{◌≡◌};
ghost use Rattle.shell_player.specs.Batches.{session_of};

use crate::session::ShellSession;
use local_projection_state::{LocalProjectionState, ProjectionCounts};
use session_lifecycle::state::ShellLocalState;

fn put_bindings(
    place: &mut [u8; LocalProjectionState::BINDING_BYTES],
    table: [u8; LocalProjectionState::BINDING_BYTES],
)
    ensures { place.new ≡ table }
{
    *place = table;
}

fn put_availability(
    place: &mut [u8; LocalProjectionState::AVAILABILITY_BYTES],
    table: [u8; LocalProjectionState::AVAILABILITY_BYTES],
)
    ensures { place.new ≡ table }
{
    *place = table;
}

fn put_entries(
    place: &mut [u8; LocalProjectionState::ENTRY_BYTES],
    table: [u8; LocalProjectionState::ENTRY_BYTES],
)
    ensures { place.new ≡ table }
{
    *place = table;
}

fn put_lengths(
    place: &mut [u8; LocalProjectionState::LENGTH_BYTES],
    table: [u8; LocalProjectionState::LENGTH_BYTES],
)
    ensures { place.new ≡ table }
{
    *place = table;
}

// The session with another state, and with these counts and tables for its projection.
pub(crate) fn with_tables(
    session: ShellSession,
    state: ShellLocalState,
    counts: ProjectionCounts,
    bindings: [u8; LocalProjectionState::BINDING_BYTES],
    availability: [u8; LocalProjectionState::AVAILABILITY_BYTES],
    entries: [u8; LocalProjectionState::ENTRY_BYTES],
    lengths: [u8; LocalProjectionState::LENGTH_BYTES],
) -> ShellSession
    ensures { result ≡ session_of session.context state counts bindings availability entries lengths }
{
    let mut next = session;
    next.state = state;
    next.local_projection.counts.bindings = counts.bindings;
    next.local_projection.counts.availabilities = counts.availabilities;
    next.local_projection.counts.entries = counts.entries;
    put_bindings(&mut next.local_projection.bindings, bindings);
    put_availability(&mut next.local_projection.availability, availability);
    put_entries(&mut next.local_projection.entries, entries);
    put_lengths(&mut next.local_projection.lengths, lengths);
    next
}
