// Step 9 of a batch: the first operation of a set that does not apply, and the rule that it breaks.
ghost use Rattle.std.specs.Prelude.{◌≡◌, List, [], ◌-◌, ◌≤◌, length};
ghost use Rattle.spec_patch.specs.Sizes.{set_bytes};
ghost use Rattle.spec_patch.specs.Patch.{Patch};
ghost use Rattle.spec_patch.specs.Read.{patches, read_set};
ghost use Rattle.spec_projection.specs.Projection.{Projection};
ghost use Rattle.spec_projection.specs.Valid.{Valid};
ghost use Rattle.spec_explain.specs.Walk.{Halt, halted, walk_patches};
ghost use Rattle.spec_explain.specs.Explain.{step_kept, applies};
ghost use Rattle.projection_patch.specs.Meaning.{edition_of};
ghost use Rattle.patch_walk.specs.Steps.{AtSteps};
ghost use Rattle.local_projection_state.specs.Stores.{StoredTables};
ghost use Rattle.panel_plan.specs.Plan.{plan_of};
ghost use Rattle.panel_plan.specs.PlanRows.{StoredPlan};
ghost use Rattle.panel_steps.specs.Runs.{HaltsAt};
ghost use Rattle.session_explain.specs.Refused.{StandsFor, reason_refused_to};
ghost use Rattle.session_explain.specs.Reasons.{step_to};

use crate::reasons::{BatchReason, OperationRule};
use crate::rules;
use bytes_records::moves;
use local_projection_state::{LocalProjectionState, ProjectionCounts};
use panel_plan::fill;
use panel_steps::PlanStop;
use patch_walk::{SetCursor, SetStep};
use projection_patch::patch::ProjectionPatchEdition;
use projection_patch::read_values::ProjectionPatchReadFault;

// The operation that fails, by its patch and its index there, with its rule; none where all apply.
type FirstRefused = Result<Option<(usize, usize, OperationRule)>, ProjectionPatchReadFault>;

// How many of a count are passed where so many are left.
fn passed(count: usize, left: usize) -> usize
    ensures { result ≡ count - left }
{
    count.saturating_sub(left)
}

// The operation at a cursor in a set of so many patches, and the rule that it breaks on the planned entries, of one that was refused there.
fn refused_at(
    entries: &[u8],
    count: usize,
    set: &[u8],
    edition: ProjectionPatchEdition,
    patches: usize,
    cursor: SetCursor,
) -> FirstRefused
    ensures { (h : Halt Projection) → HaltsAt (edition_of edition) set.now patches cursor h → StandsFor count entries.now h.left
        → result ≡ reason_refused_to (halted h) }
{
    let step = patch_walk::next_step(set, cursor, false, edition)?;
    let SetStep::Operation(operation, _) = step else {
        return Err(ProjectionPatchReadFault::Malformed);
    };
    let rule = rules::rule_of(entries, count, operation);
    let patch = passed(passed(patches, cursor.patches_left), 1);
    let index = passed(cursor.operation_count, cursor.operations_left);
    Ok(Some((patch, index, rule)))
}

// Plans the operations from a cursor on, as a batch does, and tells the first that is refused.
fn refused_from(
    bindings: &mut [u8],
    availability: &mut [u8],
    entries: &mut [u8],
    counts: ProjectionCounts,
    set: &[u8],
    edition: ProjectionPatchEdition,
    from: SetCursor,
) -> FirstRefused
    requires { length set.now ≤ set_bytes }
    ensures { (p : Projection) (ps : List Patch) → Valid p → StoredPlan counts bindings.old availability.old entries.old (plan_of p) → AtSteps (edition_of edition) set.now from [] ps
        → result ≡ reason_refused_to (walk_patches step_kept 0 p ps) }
{
    match panel_steps::plan_steps(bindings, availability, entries, counts, set, edition, from) {
        Ok(_) => Ok(None),
        Err(stop) => match stop {
            PlanStop::Refused { cursor, held, .. } => refused_at(
                entries,
                held.entries,
                set,
                edition,
                from.patches_left,
                cursor,
            ),
            PlanStop::Unreadable(fault) => Err(fault),
        },
    }
}

// Of a set that is known to be readable, on what the tables store. Tables that store nothing are told as if all applied.
pub fn first_refused(
    bindings: &[u8],
    availability: &[u8],
    entries: &[u8],
    counts: ProjectionCounts,
    set: &[u8],
    edition: ProjectionPatchEdition,
) -> FirstRefused
    ensures { (p : Projection) (ps : List Patch) → StoredTables counts bindings.now availability.now entries.now p → read_set (edition_of edition) set.now ≡ patches ps
        → result ≡ reason_refused_to (walk_patches step_kept 0 p ps) }
{
    if availability.len() != LocalProjectionState::AVAILABILITY_BYTES {
        return Ok(None);
    }
    let mut plan_bindings = [0u8; panel_plan::BINDING_BYTES];
    let mut plan_availability = [0u8; LocalProjectionState::AVAILABILITY_BYTES];
    let mut plan_entries = [0u8; panel_plan::ENTRY_BYTES];
    fill::plan_bindings(bindings, counts.bindings, &mut plan_bindings);
    moves::copy(availability, &mut plan_availability);
    fill::plan_entries(entries, counts.entries, &mut plan_entries);
    let start = patch_walk::open_set(set, edition)?;
    refused_from(
        &mut plan_bindings,
        &mut plan_availability,
        &mut plan_entries,
        counts,
        set,
        edition,
        start,
    )
}

// Step 9 with its reason, on lent tables.
pub fn explain_tables(
    bindings: &[u8],
    availability: &[u8],
    entries: &[u8],
    counts: ProjectionCounts,
    set: &[u8],
    edition: ProjectionPatchEdition,
) -> Result<(), BatchReason>
    ensures { (p : Projection) (ps : List Patch) → StoredTables counts bindings.now availability.now entries.now p → read_set (edition_of edition) set.now ≡ patches ps
        → result ≡ step_to (applies (walk_patches step_kept 0 p ps)) }
{
    match first_refused(bindings, availability, entries, counts, set, edition) {
        Ok(Some((patch, operation, rule))) => Err(BatchReason::OperationFails(
            patch, operation, rule,
        )),
        Ok(None) => Ok(()),
        Err(_) => Ok(()),
    }
}

// The same on a panel by value.
pub fn explain_operations(
    panel: LocalProjectionState,
    set: &[u8],
    edition: ProjectionPatchEdition,
) -> Result<(), BatchReason>
    ensures { (p : Projection) (ps : List Patch) → StoredTables panel.counts panel.bindings panel.availability panel.entries p → read_set (edition_of edition) set.now ≡ patches ps
        → result ≡ step_to (applies (walk_patches step_kept 0 p ps)) }
{
    explain_tables(
        &panel.bindings,
        &panel.availability,
        &panel.entries,
        panel.counts,
        set,
        edition,
    )
}
