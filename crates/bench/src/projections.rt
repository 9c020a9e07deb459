// The operations of a set on a projection, without a session.
use crate::sums;
use local_projection_state::{LocalProjectionState, ProjectionCounts};
use projection_patch::patch::ProjectionPatchEdition;

fn filled(fill: &[u8]) -> LocalProjectionState {
    let empty = LocalProjectionState::empty();
    let application = panel_application::apply_projection_patch_set(
        empty,
        fill,
        ProjectionPatchEdition::V1,
    );
    application.state
}

// Applies the operations of a set that takes the panel back itself, each time from the panel's tables to others, and sums the numbers of
// entries.
pub(crate) fn replay_often(fill: &[u8], set: &[u8], times: u64) -> u64 {
    let state = filled(fill);
    let mut bindings = [0u8; LocalProjectionState::BINDING_BYTES];
    let mut availability = [0u8; LocalProjectionState::AVAILABILITY_BYTES];
    let mut entries = [0u8; LocalProjectionState::ENTRY_BYTES];
    let mut lengths = [0u8; LocalProjectionState::LENGTH_BYTES];
    let used = ProjectionCounts {
        bindings: LocalProjectionState::BINDINGS,
        availabilities: LocalProjectionState::AVAILABILITIES,
        entries: LocalProjectionState::ENTRIES,
    };
    let mut sum: u64 = 0;
    for _ in 0..times {
        let change = panel_changes::apply_set(
            &state.bindings,
            &state.availability,
            &state.entries,
            state.counts,
            set,
            ProjectionPatchEdition::V1,
            &mut bindings,
            &mut availability,
            &mut entries,
            &mut lengths,
            used,
        );
        if let Ok(counts) = change {
            sum = sums::mix(sum, counts.entries as u64);
        }
    }
    sum
}
