// One batch on a lent session: steps 1 to 8 on what its head and anchors tell, then step 9 from one half of the memory to the other.
ghost use Rattle.std.specs.Prelude.{◌≡◌, true, ◌&&◌, List, ◌≤◌, length};
ghost use Rattle.spec_patch.specs.Patch.{Patch};
ghost use Rattle.spec_patch.specs.Read.{patches, read_set};
ghost use Rattle.spec_projection.specs.Projection.{Projection};
ghost use Rattle.spec_projection.specs.Apply.{replay_steps, apply_steps};
ghost use Rattle.projection_patch.specs.Meaning.{edition_of};
ghost use Rattle.local_projection_state.specs.Stores.{StoredTables};
ghost use Rattle.panel_changes.specs.SetChanges.{StoredAfter, ChangeBecame};
ghost use Rattle.panel_changes.specs.PlanMemory.{plan_in, ClearPlan};
ghost use Rattle.session_gates.specs.Gates.{batch_envelope_of};
ghost use Rattle.session_lent.specs.Head.{head_numbers, counts_at, moved_head};
ghost use Rattle.session_lent.specs.LentSession.{half_shaped, LentRoom};
ghost use Rattle.session_lent.specs.Batches.{KeptUnlessChanged, ShapedCall, BatchCallOnSlices, PlanGivenBack};

use crate::{head, shape};
use local_projection_state::{LocalProjectionState, ProjectionCounts};
use panel_changes::SetRefusal;
use projection_patch::patch::ProjectionPatchEdition;
use session_gates::batch;
use session_gates::gates::OrderedProjectionPatchBatchEnvelope;
use session_steps::answers::ProjectionPatchApplicationResult;
use session_steps::{answers, checks};

// Step 9 of the batch with a number: the tables and the head of the next session are written where every operation applies, and nothing otherwise.
fn commit<'a>(
    head: &[u64],
    bindings: &'a [u8],
    availability: &'a [u8],
    entries: &'a [u8],
    sequence_no: u64,
    set: &[u8],
    edition: ProjectionPatchEdition,
    to_head: &mut [u64],
    to_bindings: &mut [u8],
    to_availability: &mut [u8],
    to_entries: &mut [u8],
    to_lengths: &mut [u8],
    plan_bindings: &mut [u8; panel_plan::BINDING_BYTES],
    plan_availability: &mut [u8; LocalProjectionState::AVAILABILITY_BYTES],
    plan_entries: &mut [u8; panel_plan::ENTRY_BYTES],
) -> Result<ProjectionCounts, SetRefusal>
    requires { (length head.now ≡ head_numbers) × (length to_head.old ≡ head_numbers) }
    ensures changed { (p : Projection) (ps : List Patch) → StoredTables (counts_at head.now) bindings.now availability.now entries.now p
        → read_set (edition_of edition) set.now ≡ patches ps → LentRoom to_head.old to_bindings.old to_availability.old to_entries.old to_lengths.old
        → ClearPlan (plan_in plan_bindings.old plan_availability.old plan_entries.old)
        → ChangeBecame (λ n q. (to_head.new ≡ moved_head head.now sequence_no n) × StoredAfter n to_bindings.new to_availability.new to_entries.new to_lengths.new q) result (apply_steps p (replay_steps ps)) }
    ensures kept { KeptUnlessChanged result to_head.old to_bindings.old to_availability.old to_entries.old to_lengths.old to_head.new to_bindings.new to_availability.new to_entries.new to_lengths.new }
    ensures cleared { (p : Projection) (ps : List Patch) → StoredTables (counts_at head.now) bindings.now availability.now entries.now p
        → read_set (edition_of edition) set.now ≡ patches ps → ClearPlan (plan_in plan_bindings.old plan_availability.old plan_entries.old) → ClearPlan (plan_in plan_bindings.new plan_availability.new plan_entries.new) }
{
    let counts = head::counts_in(head);
    let used = head::counts_in(to_head);
    let change = panel_changes::apply_set_with_plan(
        bindings,
        availability,
        entries,
        counts,
        set,
        edition,
        to_bindings,
        to_availability,
        to_entries,
        to_lengths,
        used,
        plan_bindings,
        plan_availability,
        plan_entries,
    );
    match change {
        Ok(next) => {
            head::store_moved(head, sequence_no, next, to_head);
            Ok(next)
        }
        Err(refused) => Err(refused),
    }
}

// One batch on memory of the right shape.
pub fn apply_shaped<'a>(
    head: &[u64],
    nodes: &[u64],
    pairs: &[u64],
    collections: &[u64],
    bindings: &'a [u8],
    availability: &'a [u8],
    entries: &'a [u8],
    envelope: OrderedProjectionPatchBatchEnvelope,
    declared: u64,
    set: &[u8],
    edition: ProjectionPatchEdition,
    to_head: &mut [u64],
    to_bindings: &mut [u8],
    to_availability: &mut [u8],
    to_entries: &mut [u8],
    to_lengths: &mut [u8],
    plan_bindings: &mut [u8; panel_plan::BINDING_BYTES],
    plan_availability: &mut [u8; LocalProjectionState::AVAILABILITY_BYTES],
    plan_entries: &mut [u8; panel_plan::ENTRY_BYTES],
) -> ProjectionPatchApplicationResult
    requires { (length head.now ≡ head_numbers) × (length to_head.old ≡ head_numbers) }
    ensures called { ShapedCall (edition_of edition) (batch_envelope_of envelope) declared set.now head.now nodes.now pairs.now collections.now bindings.now availability.now entries.now
        to_head.old to_bindings.old to_availability.old to_entries.old to_lengths.old
        (plan_in plan_bindings.old plan_availability.old plan_entries.old) result to_head.new to_bindings.new to_availability.new to_entries.new to_lengths.new }
    ensures cleared { PlanGivenBack head.now nodes.now pairs.now collections.now bindings.now availability.now entries.now
        (plan_in plan_bindings.old plan_availability.old plan_entries.old) (plan_in plan_bindings.new plan_availability.new plan_entries.new) }
{
    let limits = head::limits_in(head);
    let state = head::state_in(head);
    let cap = limits.max_diagnostics_per_transition;
    let cursor = state.replay_cursor;
    let session_id = state.session_id;
    let gate = batch::check_batch(
        session_id.0,
        limits,
        state,
        nodes,
        pairs,
        collections,
        envelope,
        declared,
        set,
        edition,
    );
    if let Err(refused) = gate {
        return answers::rejected(cap, refused.refusal, refused.logical, cursor);
    }
    if checks::is_empty(envelope) {
        return answers::unchanged(cursor);
    }
    let number = envelope.sequence_no;
    let change = commit(
        head,
        bindings,
        availability,
        entries,
        number,
        set,
        edition,
        to_head,
        to_bindings,
        to_availability,
        to_entries,
        to_lengths,
        plan_bindings,
        plan_availability,
        plan_entries,
    );
    answers::concluded(cap, change, cursor, number)
}

// One batch: steps 1 to 9; none where the slices cannot hold a session: one has another length, or a count is over its capacity. The session in
// the first slices stays; the next one is written to the others where the answer is Applied, and nothing
// is written otherwise. The plan is made in memory of zeros, which are zeros again afterwards.
pub fn apply_projection_patch_batch<'a>(
    head: &[u64],
    nodes: &[u64],
    pairs: &[u64],
    collections: &[u64],
    bindings: &'a [u8],
    availability: &'a [u8],
    entries: &'a [u8],
    envelope: OrderedProjectionPatchBatchEnvelope,
    declared_target_reference_count: u64,
    set: &[u8],
    edition: ProjectionPatchEdition,
    to_head: &mut [u64],
    to_bindings: &mut [u8],
    to_availability: &mut [u8],
    to_entries: &mut [u8],
    to_lengths: &mut [u8],
    plan_bindings: &mut [u8; panel_plan::BINDING_BYTES],
    plan_availability: &mut [u8; LocalProjectionState::AVAILABILITY_BYTES],
    plan_entries: &mut [u8; panel_plan::ENTRY_BYTES],
) -> Option<ProjectionPatchApplicationResult>
    ensures called { BatchCallOnSlices (edition_of edition) (batch_envelope_of envelope) declared_target_reference_count set.now head.now nodes.now pairs.now collections.now bindings.now availability.now entries.now
        to_head.old to_bindings.old to_availability.old to_entries.old to_lengths.old
        (plan_in plan_bindings.old plan_availability.old plan_entries.old) result to_head.new to_bindings.new to_availability.new to_entries.new to_lengths.new }
    ensures cleared { PlanGivenBack head.now nodes.now pairs.now collections.now bindings.now availability.now entries.now
        (plan_in plan_bindings.old plan_availability.old plan_entries.old) (plan_in plan_bindings.new plan_availability.new plan_entries.new) }
{
    if !shape::memory_shaped(
        nodes.len(),
        pairs.len(),
        collections.len(),
        head,
        bindings.len(),
        availability.len(),
        entries.len(),
        to_head,
        to_bindings.len(),
        to_availability.len(),
        to_entries.len(),
        to_lengths.len(),
    ) {
        return None;
    }
    Some(apply_shaped(
        head,
        nodes,
        pairs,
        collections,
        bindings,
        availability,
        entries,
        envelope,
        declared_target_reference_count,
        set,
        edition,
        to_head,
        to_bindings,
        to_availability,
        to_entries,
        to_lengths,
        plan_bindings,
        plan_availability,
        plan_entries,
    ))
}
