// The operations of a set, read and planned in order: each value's source is the position of its bytes in the set, and its mark
// the id of its patch.
// After crates/prom-ui/src/local_projection_state.rs.
#![tactic(auto)]

ghost use Rattle.std.specs.Prelude.{◌≡◌, false, List, [], ◌≤◌, length};
ghost use Rattle.spec_patch.specs.Sizes.{set_bytes};
ghost use Rattle.spec_patch.specs.Patch.{Patch};
ghost use Rattle.spec_projection.specs.Projection.{Projection};
ghost use Rattle.spec_projection.specs.Valid.{Valid};
ghost use Rattle.projection_patch.specs.Meaning.{edition_of, operation_of};
ghost use Rattle.patch_walk.specs.Steps.{step_answer, StepWithin, AtSteps};
ghost use Rattle.panel_plan.specs.Plan.{plan_of};
ghost use Rattle.panel_plan.specs.PlanRows.{StoredPlan};
ghost use Rattle.panel_plan.specs.SetValues.{value_offset};
ghost use Rattle.panel_steps.specs.Runs.{run_head, RunTold};
ghost use Rattle.panel_steps.specs.declared.PlanStop.TheVariants.{Unreadable};

use local_projection_state::{
    LocalProjectionApplicationError, LocalProjectionState, ProjectionCounts,
};
use patch_walk::{SetCursor, SetStep};
use projection_patch::patch::{ProjectionPatchEdition, ProjectionPatchOperation};
use projection_patch::read_values::ProjectionPatchReadFault;
use projection_patch::widths;

// Why a run stopped: of a refusal the cursor at the operation that is refused, and the rows of the plan before it, which the tables still hold.
#[derive(Clone, Copy)]
pub enum PlanStop {
    Refused {
        error: LocalProjectionApplicationError,
        cursor: SetCursor,
        held: ProjectionCounts,
    },
    Unreadable(ProjectionPatchReadFault),
}

impl From<ProjectionPatchReadFault> for PlanStop {
    ghost from_gives = { λ fault stop. stop ≡ Unreadable fault };

    fn from(fault: ProjectionPatchReadFault) -> PlanStop {
        PlanStop::Unreadable(fault)
    }
}

// How many bytes of an operation stand before its value: the kind and the ids.
fn value_offset(operation: ProjectionPatchOperation) -> usize
    ensures { result ≡ value_offset (operation_of [] operation) }
{
    match operation {
        ProjectionPatchOperation::SetBindingValue { .. } => widths::PAST_SLOT,
        ProjectionPatchOperation::SetNodeAvailability { .. } => 0,
        ProjectionPatchOperation::CollectionInsert { before, .. } => match before {
            None => widths::PAST_NO_NEIGHBOUR,
            Some(_) => widths::PAST_NEIGHBOUR,
        },
        ProjectionPatchOperation::CollectionUpdate { .. } => widths::PAST_KEY,
        ProjectionPatchOperation::CollectionRemove { .. } => 0,
        ProjectionPatchOperation::CollectionMove { .. } => 0,
    }
}

// The cursor behind the next patch's head, where a patch has no operations left, or none at the end. Heads are read by themselves: an operation
// is then taken from where it was read, and not copied into a step that may be either.
fn next_head(
    set: &[u8],
    cursor: SetCursor,
    edition: ProjectionPatchEdition,
) -> Result<Option<SetCursor>, ProjectionPatchReadFault>
    ensures is { result ≡ run_head (step_answer false (edition_of edition) cursor set.now) }
    ensures within { StepWithin cursor (length set.now) (step_answer false (edition_of edition) cursor set.now) }
{
    match patch_walk::next_step(set, cursor, false, edition)? {
        SetStep::Head(_, next) => Ok(Some(next)),
        SetStep::Operation(_, _) => Err(ProjectionPatchReadFault::Malformed),
        SetStep::End => Ok(None),
    }
}

// Plans the operations from a cursor on, on the plan that a batch starts from.
pub fn plan_steps(
    bindings: &mut [u8],
    availability: &mut [u8],
    entries: &mut [u8],
    counts: ProjectionCounts,
    set: &[u8],
    edition: ProjectionPatchEdition,
    from: SetCursor,
) -> Result<ProjectionCounts, PlanStop>
    requires { length set.now ≤ set_bytes }
    ensures { (p : Projection) (ps : List Patch) → Valid p → StoredPlan counts bindings.old availability.old entries.old (plan_of p)
        → AtSteps (edition_of edition) set.now from [] ps
        → RunTold (edition_of edition) p ps set.now bindings.new availability.new entries.new result }
{
    let mut held = counts;
    let mut cursor = from;
    loop {
        if cursor.operations_left == 0 {
            let Some(next) = next_head(set, cursor, edition)? else {
                return Ok(held);
            };
            cursor = next;
        } else {
            let (operation, next) = match patch_walk::next_step(set, cursor, false, edition) {
                Ok(SetStep::Operation(operation, next)) => (operation, next),
                Ok(SetStep::Head(_, _)) => return Err(ProjectionPatchReadFault::Malformed.into()),
                Ok(SetStep::End) => return Err(ProjectionPatchReadFault::Malformed.into()),
                Err(_) => return Err(ProjectionPatchReadFault::Malformed.into()),
            };
            let at = cursor.at + value_offset(operation);
            let source = (LocalProjectionState::ENTRIES + at) as u64;
            match panel_operations::apply_operation(
                bindings,
                availability,
                entries,
                held,
                cursor.patch_id,
                operation,
                source,
            ) {
                Ok(n) => {
                    held = n;
                    cursor = next;
                }
                Err(error) => {
                    return Err(PlanStop::Refused {
                        error,
                        cursor,
                        held,
                    });
                }
            }
        }
    }
}
