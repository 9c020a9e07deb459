// Steps 1 to 8 of a batch with their reasons, in their order. The anchors are lent as numbers.
ghost use Rattle.std.specs.Prelude.{◌≡◌, List};
ghost use Rattle.spec_patch.specs.Patch.{Patch};
ghost use Rattle.spec_patch.specs.Read.{patches, read_set};
ghost use Rattle.spec_session.specs.Session.{Catalogue};
ghost use Rattle.spec_explain.specs.Walk.{walk_patches, tested};
ghost use Rattle.spec_explain.specs.Explain.{target_known, targets_known};
ghost use Rattle.projection_patch.specs.Meaning.{edition_of};
ghost use Rattle.session_lifecycle.specs.Meaning.{lifecycle_of, cursor_of, limits_of};
ghost use Rattle.session_gates.specs.Gates.{batch_envelope_of};
ghost use Rattle.session_gates.specs.Lent.{Lent};
ghost use Rattle.session_explain.specs.Reasons.{step_to};
ghost use Rattle.session_explain.specs.Steps.{clean_by, set_by, checks_by};

use crate::reasons::BatchReason;
use crate::{gates, reading, targets};
use check_quick::inspection;
use check_quick::inspection::SetInspection;
use projection_patch::patch::ProjectionPatchEdition;
use session_gates::gates::OrderedProjectionPatchBatchEnvelope;
use session_lifecycle::state::{ProjectionReplayCursor, ShellLifecycleLimits, ShellLocalState};

// Step 7, where so many targets are absent: the first operation that has one.
fn explain_targets(
    set: &[u8],
    edition: ProjectionPatchEdition,
    nodes: &[u64],
    bindings: &[u64],
    collections: &[u64],
    absent: usize,
) -> Result<(), BatchReason>
    ensures { (c : Catalogue) (ps : List Patch) → Lent c nodes.now bindings.now collections.now → read_set (edition_of edition) set.now ≡ patches ps
        → result ≡ step_to (targets_known absent (walk_patches (tested (target_known c)) 0 tt ps)) }
{
    match targets::first_unknown(set, edition, nodes, bindings, collections) {
        Ok(Some((patch, operation))) => Err(BatchReason::UnknownTarget(absent, patch, operation)),
        Ok(None) => Ok(()),
        Err(_) => Ok(()),
    }
}

// Steps 5 to 8 of a set without findings, which has so many patches, operations and absent targets.
fn explain_clean(
    limits: ShellLifecycleLimits,
    cursor: ProjectionReplayCursor,
    nodes: &[u64],
    bindings: &[u64],
    collections: &[u64],
    envelope: OrderedProjectionPatchBatchEnvelope,
    declared: u64,
    set: &[u8],
    edition: ProjectionPatchEdition,
    patch_count: usize,
    operation_count: usize,
    absent: usize,
) -> Result<(), BatchReason>
    ensures { (c : Catalogue) (ps : List Patch) → Lent c nodes.now bindings.now collections.now → read_set (edition_of edition) set.now ≡ patches ps
        → result ≡ step_to (clean_by c (limits_of limits) (cursor_of cursor) (batch_envelope_of envelope) declared patch_count operation_count absent ps) }
{
    gates::explain_counts(
        limits,
        envelope,
        declared,
        patch_count as u64,
        operation_count as u64,
    )?;
    explain_targets(set, edition, nodes, bindings, collections, absent)?;
    gates::explain_cursor(cursor, envelope)
}

// Steps 4 to 8.
fn explain_set(
    limits: ShellLifecycleLimits,
    cursor: ProjectionReplayCursor,
    nodes: &[u64],
    bindings: &[u64],
    collections: &[u64],
    envelope: OrderedProjectionPatchBatchEnvelope,
    declared: u64,
    set: &[u8],
    edition: ProjectionPatchEdition,
) -> Result<(), BatchReason>
    ensures { (c : Catalogue) → Lent c nodes.now bindings.now collections.now
        → result ≡ step_to (set_by (edition_of edition) c (limits_of limits) (cursor_of cursor) (batch_envelope_of envelope) declared set.now) }
{
    let inspected = inspection::inspect_set(set, edition, nodes, bindings, collections);
    let Ok(readable) = inspected else {
        return reading::explain_check(set, edition);
    };
    match readable {
        SetInspection::Found => reading::explain_findings(set, edition),
        SetInspection::Clean {
            patch_count,
            operation_count,
            absent,
        } => explain_clean(
            limits,
            cursor,
            nodes,
            bindings,
            collections,
            envelope,
            declared,
            set,
            edition,
            patch_count,
            operation_count,
            absent,
        ),
    }
}

// Steps 1 to 8.
pub fn explain_checks(
    id: u64,
    limits: ShellLifecycleLimits,
    state: ShellLocalState,
    nodes: &[u64],
    bindings: &[u64],
    collections: &[u64],
    envelope: OrderedProjectionPatchBatchEnvelope,
    declared: u64,
    set: &[u8],
    edition: ProjectionPatchEdition,
) -> Result<(), BatchReason>
    ensures { (c : Catalogue) → Lent c nodes.now bindings.now collections.now
        → result ≡ step_to (checks_by (edition_of edition) id (limits_of limits) (lifecycle_of state.lifecycle) (cursor_of state.replay_cursor) c (batch_envelope_of envelope) declared set.now) }
{
    gates::explain_preflight(id, limits, state.lifecycle, envelope)?;
    explain_set(
        limits,
        state.replay_cursor,
        nodes,
        bindings,
        collections,
        envelope,
        declared,
        set,
        edition,
    )
}
