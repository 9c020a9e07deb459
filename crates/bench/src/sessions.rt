// Batches on a session.
ghost use Rattle.std.specs.Prelude.{◌≡◌, length};

use crate::sums;
use active_projection_target_catalog::catalog::BindingPair;
use patch_walk::SetCounts;
use projection_patch::patch::{ProjectionPatchEdition, ProjectionPatchSet};
use session_from_pairs::pairs::BindingAnchors;
use session_gates::gates::OrderedProjectionPatchBatchEnvelope;
use session_lifecycle::state::{ShellLifecycleLimits, ShellSessionId};
use session_steps::answers::{
    ProjectionPatchApplicationDisposition, ProjectionPatchApplicationResult,
};
use shell_player::session::ShellSession;

// How many patches and operations a set has; none, where it is not readable.
pub(crate) fn counted(set: &[u8]) -> SetCounts {
    let none = SetCounts {
        patch_count: 0,
        operation_count: 0,
    };
    patch_walk::read_set(set, ProjectionPatchEdition::V1).unwrap_or(none)
}

pub(crate) fn envelope(number: u64, counts: SetCounts) -> OrderedProjectionPatchBatchEnvelope {
    OrderedProjectionPatchBatchEnvelope {
        session_id: ShellSessionId(1),
        sequence_no: number,
        patch_count: counts.patch_count as u64,
        stimulus_bytes: 1,
    }
}

// The nodes of the panel.
pub(crate) const NODES: usize = 64;

pub(crate) fn nodes() -> [u64; NODES]
    ensures { 64 ≡ length result }
{
    let mut ids = [0u64; NODES];
    for i in 0..NODES {
        ids[i] = i as u64 + 1;
    }
    ids
}

// Slot 1 of each node, and zeros behind them.
fn pairs() -> [BindingPair; BindingAnchors::LENT] {
    let mut all = [BindingPair { node: 0, slot: 0 }; BindingAnchors::LENT];
    for i in 0..NODES {
        all[i] = BindingPair {
            node: i as u64 + 1,
            slot: 1,
        };
    }
    all
}

pub(crate) fn limits() -> ShellLifecycleLimits {
    ShellLifecycleLimits {
        max_transition_stimulus_bytes: 1,
        max_diagnostics_per_transition: 1,
        max_patches_per_transition: ProjectionPatchSet::PATCHES as u64,
        max_target_references_per_transition: ProjectionPatchSet::PLACES as u64,
    }
}

// A session with anchors for nodes 1 to 64, slot 1 of each and collections 1 to 4.
fn created() -> ShellSession {
    let anchors = nodes();
    let collections = [1u64, 2, 3, 4];
    let creation = session_from_pairs::create_from(
        1,
        limits(),
        &anchors,
        pairs(),
        NODES,
        &collections,
    );
    creation.session
}

// A session whose first batch, with the number 1, was this set.
pub(crate) fn filled(fill: &[u8]) -> ShellSession {
    let counts = counted(fill);
    let step = created().apply_projection_patch_batch(
        envelope(1, counts),
        counts.operation_count as u64,
        fill,
        ProjectionPatchEdition::V1,
    );
    step.session
}

// One more where the batch was applied.
pub(crate) fn raised(count: u64, res: ProjectionPatchApplicationResult) -> u64 {
    let disposition = res.disposition;
    match disposition {
        ProjectionPatchApplicationDisposition::Applied => sums::after(count),
        _ => count,
    }
}

// Applies both sets in turn, and counts the batches that were applied.
pub(crate) fn apply_often(session: ShellSession, forth: &[u8], back: &[u8], times: u64) -> u64 {
    let away = counted(forth);
    let home = counted(back);
    let mut panel = session;
    let mut number: u64 = 2;
    let mut applied: u64 = 0;
    for _ in 0..times {
        let one = panel.apply_projection_patch_batch(
            envelope(number, away),
            away.operation_count as u64,
            forth,
            ProjectionPatchEdition::V1,
        );
        panel = one.session;
        let first = one.result;
        applied = raised(applied, first);
        number = sums::after(number);
        let two = panel.apply_projection_patch_batch(
            envelope(number, home),
            home.operation_count as u64,
            back,
            ProjectionPatchEdition::V1,
        );
        panel = two.session;
        let second = two.result;
        applied = raised(applied, second);
        number = sums::after(number);
    }
    applied
}
