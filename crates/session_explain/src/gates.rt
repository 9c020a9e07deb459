// The steps of a batch that do not look into the set's bytes, each with its reason.
ghost use Rattle.std.specs.Prelude.{◌≡◌};
ghost use Rattle.spec_explain.specs.Explain.{next_number};
ghost use Rattle.spec_lists.specs.Options.{optional_to};
ghost use Rattle.session_lifecycle.specs.Meaning.{lifecycle_of, cursor_of, limits_of};
ghost use Rattle.session_gates.specs.Gates.{batch_envelope_of};
ghost use Rattle.session_explain.specs.Reasons.{over_to, step_to};
ghost use Rattle.session_explain.specs.Steps.{declared_by, explain_preflight_by, references_by, explain_counts_by, explain_replay_by};

use crate::reasons::{BatchReason, DeclaredLimit};
use session_gates::gates;
use session_gates::gates::OrderedProjectionPatchBatchEnvelope;
use session_lifecycle::lifecycle;
use session_lifecycle::state::{ProjectionReplayCursor, ShellLifecycle, ShellLifecycleLimits};

// The reason of declared figures over their limits.
fn over_declared(
    which: DeclaredLimit,
    limits: ShellLifecycleLimits,
    envelope: OrderedProjectionPatchBatchEnvelope,
) -> BatchReason
    ensures { result ≡ over_to which (limits_of limits) (batch_envelope_of envelope) }
{
    BatchReason::DeclaredLimits(
        which,
        envelope.patch_count,
        limits.max_patches_per_transition,
        envelope.stimulus_bytes,
        limits.max_transition_stimulus_bytes,
    )
}

// Step 3: the declared figures are within their limits.
fn explain_declared(
    limits: ShellLifecycleLimits,
    envelope: OrderedProjectionPatchBatchEnvelope,
) -> Result<(), BatchReason>
    ensures { result ≡ step_to (declared_by (limits_of limits) (batch_envelope_of envelope)) }
{
    if limits.max_patches_per_transition < envelope.patch_count {
        if limits.max_transition_stimulus_bytes < envelope.stimulus_bytes {
            return Err(over_declared(DeclaredLimit::Both, limits, envelope));
        }
        return Err(over_declared(DeclaredLimit::Patches, limits, envelope));
    }
    if limits.max_transition_stimulus_bytes < envelope.stimulus_bytes {
        return Err(over_declared(DeclaredLimit::Bytes, limits, envelope));
    }
    Ok(())
}

// Steps 1 to 3: the session's own id, a lifecycle that is not Closed, declared figures within their limits.
pub fn explain_preflight(
    id: u64,
    limits: ShellLifecycleLimits,
    lifecycle: ShellLifecycle,
    envelope: OrderedProjectionPatchBatchEnvelope,
) -> Result<(), BatchReason>
    ensures { result ≡ step_to (explain_preflight_by id (limits_of limits) (lifecycle_of lifecycle) (batch_envelope_of envelope)) }
{
    let session_id = envelope.session_id;
    if session_id.0 != id {
        return Err(BatchReason::ForeignSession {
            named: session_id.0,
            own: id,
        });
    }
    if lifecycle::is_closed(lifecycle) {
        return Err(BatchReason::SessionClosed);
    }
    explain_declared(limits, envelope)
}

// Step 6: the target references are within their limit.
fn explain_references(limits: ShellLifecycleLimits, references: u64) -> Result<(), BatchReason>
    ensures { result ≡ step_to (references_by (limits_of limits) references) }
{
    let limit = limits.max_target_references_per_transition;
    if limit < references {
        return Err(BatchReason::ReferencesOver {
            actual: references,
            limit,
        });
    }
    Ok(())
}

// Steps 5 and 6: both declared counts are the actual ones.
pub fn explain_counts(
    limits: ShellLifecycleLimits,
    envelope: OrderedProjectionPatchBatchEnvelope,
    declared: u64,
    patches: u64,
    references: u64,
) -> Result<(), BatchReason>
    ensures { result ≡ step_to (explain_counts_by (limits_of limits) (batch_envelope_of envelope) declared patches references) }
{
    if envelope.patch_count == patches {
        if declared == references {
            return explain_references(limits, references);
        }
    }
    Err(BatchReason::CountsDiffer(envelope.patch_count, patches, declared, references))
}

// The one number that a cursor takes; Uninitialized asks for none, and after the last there is none.
fn number_after(cursor: ProjectionReplayCursor) -> Option<u64>
    ensures { result ≡ optional_to (next_number (cursor_of cursor)) }
{
    match cursor {
        ProjectionReplayCursor::Uninitialized => None,
        ProjectionReplayCursor::At(last) => {
            if last == 0xffff_ffff_ffff_ffff {
                return None;
            }
            Some(last + 1)
        }
    }
}

// Step 8: the cursor takes the batch's number.
pub fn explain_cursor(
    cursor: ProjectionReplayCursor,
    envelope: OrderedProjectionPatchBatchEnvelope,
) -> Result<(), BatchReason>
    ensures { result ≡ step_to (explain_replay_by (cursor_of cursor) (batch_envelope_of envelope)) }
{
    match gates::evaluate_replay_compatibility(cursor, envelope) {
        Ok(()) => Ok(()),
        Err(_) => Err(BatchReason::CursorMismatch {
            takes: number_after(cursor),
        }),
    }
}
