// Steps 1 to 8 in order. One pass over the set finds what steps 4 to 7 ask of it; in which order they refuse is decided after it. The
// anchors are lent as numbers, as that pass wants them.
ghost use Rattle.std.specs.Prelude.{◌≡◌, true};
ghost use Rattle.spec_session.specs.Session.{Session};
ghost use Rattle.spec_session.specs.Batch.{known_targets, batch_checks};
ghost use Rattle.projection_patch.specs.Meaning.{edition_of};
ghost use Rattle.session_lifecycle.specs.Meaning.{lifecycle_of, cursor_of, limits_of};
ghost use Rattle.session_gates.specs.Gates.{reading_refused, gate_of, batch_envelope_of, preflight_by, inspection_by, erased, check_counted, Decides};
ghost use Rattle.session_gates.specs.Seen.{Seen};

use crate::gates;
use crate::gates::{GateRefusal, OrderedProjectionPatchBatchEnvelope};
use check_quick::inspection;
use check_quick::inspection::SetInspection;
use projection_patch::patch::ProjectionPatchEdition;
use projection_patch::read_values::ProjectionPatchReadFault;
use session_lifecycle::diagnostics::ShellRefusal;
use session_lifecycle::state::{ProjectionReplayCursor, ShellLifecycleLimits, ShellLocalState};

// The refusal of a set that does not read.
impl From<ProjectionPatchReadFault> for GateRefusal {
    ghost from_gives = { λ fault alone. alone ≡ reading_refused fault };

    fn from(fault: ProjectionPatchReadFault) -> GateRefusal {
        GateRefusal::from(match fault {
            ProjectionPatchReadFault::Malformed => ShellRefusal::Malformed,
            ProjectionPatchReadFault::OverCapacity => ShellRefusal::OverCapacity,
        })
    }
}

// Step 7, where so many operations have an absent target.
fn check_targets(absent: u64) -> Result<(), GateRefusal>
    ensures { gate_of result ≡ known_targets absent }
{
    if 0 < absent {
        return Err(GateRefusal {
            refusal: ShellRefusal::InvalidTarget,
            logical: absent,
        });
    }
    Ok(())
}

// Steps 4 to 8, by what the pass over the set found.
fn check_inspection(
    limits: ShellLifecycleLimits,
    cursor: ProjectionReplayCursor,
    envelope: OrderedProjectionPatchBatchEnvelope,
    declared: u64,
    inspected: Result<SetInspection, ProjectionPatchReadFault>,
) -> Result<(), GateRefusal>
    ensures { gate_of result ≡ inspection_by (limits_of limits) (cursor_of cursor) (batch_envelope_of envelope) declared inspected }
{
    let readable = inspected?;
    match readable {
        SetInspection::Found => Err(ShellRefusal::ChecksFailed.into()),
        SetInspection::Clean {
            patch_count,
            operation_count,
            absent,
        } => {
            gates::evaluate_counts(
                limits,
                envelope,
                declared,
                patch_count as u64,
                operation_count as u64,
            )?;
            check_targets(absent as u64)?;
            gates::evaluate_replay_compatibility(cursor, envelope)?;
            Ok(())
        }
    }
}

// Steps 1 to 8.
pub fn check_batch(
    id: u64,
    limits: ShellLifecycleLimits,
    state: ShellLocalState,
    nodes: &[u64],
    bindings: &[u64],
    collections: &[u64],
    envelope: OrderedProjectionPatchBatchEnvelope,
    declared: u64,
    set: &[u8],
    edition: ProjectionPatchEdition,
) -> Result<(), GateRefusal>
    ensures checked { (s : Session) → Seen s id limits state nodes.now bindings.now collections.now
        → gate_of result ≡ erased (batch_checks (edition_of edition) s (batch_envelope_of envelope) declared set.now) }
    ensures whatever { check_counted (gate_of result) ≡ true }
    ensures preflight { Decides (preflight_by id (limits_of limits) (lifecycle_of state.lifecycle) (batch_envelope_of envelope)) (gate_of result) }
{
    gates::evaluate_preflight(id, limits, state.lifecycle, envelope)?;
    let inspected = inspection::inspect_set(set, edition, nodes, bindings, collections);
    check_inspection(limits, state.replay_cursor, envelope, declared, inspected)
}
