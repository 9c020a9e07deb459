// The tests of a batch that do not look into the set's bytes.
ghost use Rattle.std.specs.Prelude.{◌≡◌};
ghost use Rattle.spec_session.specs.Batch.{takes_number};
ghost use Rattle.session_lifecycle.specs.Meaning.{lifecycle_of, cursor_of, limits_of};
ghost use Rattle.session_gates.specs.Gates.{one_refusal, step_of, batch_envelope_of, preflight_by, counts_by, replay_by};

use session_lifecycle::diagnostics::ShellRefusal;
use session_lifecycle::lifecycle;
use session_lifecycle::state::{
    ProjectionReplayCursor, ShellLifecycle, ShellLifecycleLimits, ShellSessionId,
};

#[derive(Clone, Copy)]
pub struct OrderedProjectionPatchBatchEnvelope {
    pub session_id: ShellSessionId,
    pub sequence_no: u64,
    pub patch_count: u64,
    pub stimulus_bytes: u64,
}

// A refusal with its logical count.
#[derive(Clone, Copy)]
pub struct GateRefusal {
    pub refusal: ShellRefusal,
    pub logical: u64,
}

// A rejection has one diagnostic, but for absent targets.
impl From<ShellRefusal> for GateRefusal {
    ghost from_gives = { λ refusal alone. alone ≡ one_refusal refusal };

    fn from(refusal: ShellRefusal) -> GateRefusal {
        GateRefusal {
            refusal,
            logical: 1,
        }
    }
}

// Steps 1 to 3: the session's own id, a lifecycle that is not Closed, declared figures within their limits.
pub fn evaluate_preflight(
    id: u64,
    limits: ShellLifecycleLimits,
    lifecycle: ShellLifecycle,
    envelope: OrderedProjectionPatchBatchEnvelope,
) -> Result<(), ShellRefusal>
    ensures { step_of result ≡ preflight_by id (limits_of limits) (lifecycle_of lifecycle) (batch_envelope_of envelope) }
{
    if envelope.session_id.0 != id {
        return Err(ShellRefusal::SessionMismatch);
    }
    if lifecycle::is_closed(lifecycle) {
        return Err(ShellRefusal::SessionClosed);
    }
    if limits.max_patches_per_transition < envelope.patch_count {
        return Err(ShellRefusal::ResourceLimitExceeded);
    }
    if limits.max_transition_stimulus_bytes < envelope.stimulus_bytes {
        return Err(ShellRefusal::ResourceLimitExceeded);
    }
    Ok(())
}

// Steps 5 and 6: both declared counts are the actual ones, and the target references are within their limit.
pub fn evaluate_counts(
    limits: ShellLifecycleLimits,
    envelope: OrderedProjectionPatchBatchEnvelope,
    declared: u64,
    patches: u64,
    references: u64,
) -> Result<(), ShellRefusal>
    ensures { step_of result ≡ counts_by (limits_of limits) (batch_envelope_of envelope) declared patches references }
{
    if envelope.patch_count != patches {
        return Err(ShellRefusal::CountsDiffer);
    }
    if declared != references {
        return Err(ShellRefusal::CountsDiffer);
    }
    if limits.max_target_references_per_transition < references {
        return Err(ShellRefusal::ResourceLimitExceeded);
    }
    Ok(())
}

// Whether the cursor takes a sequence number.
fn takes_number(cursor: ProjectionReplayCursor, number: u64) -> bool
    ensures { result ≡ takes_number (cursor_of cursor) number }
{
    match cursor {
        ProjectionReplayCursor::Uninitialized => true,
        ProjectionReplayCursor::At(last) => last < u64::MAX && number == last + 1,
    }
}

// Step 8: without patches the cursor is not asked.
pub fn evaluate_replay_compatibility(
    cursor: ProjectionReplayCursor,
    envelope: OrderedProjectionPatchBatchEnvelope,
) -> Result<(), ShellRefusal>
    ensures { step_of result ≡ replay_by (cursor_of cursor) (batch_envelope_of envelope) }
{
    if envelope.patch_count == 0 {
        return Ok(());
    }
    if takes_number(cursor, envelope.sequence_no) {
        return Ok(());
    }
    Err(ShellRefusal::ReplayCursorMismatch)
}
