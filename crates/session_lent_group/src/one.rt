// One batch of a group from one half to another.
ghost use Rattle.std.specs.Prelude.{◌≡◌, length};
ghost use Rattle.projection_patch.specs.Meaning.{edition_of};
ghost use Rattle.panel_changes.specs.PlanMemory.{no_plan};
ghost use Rattle.session_gates.specs.Gates.{batch_envelope_of};
ghost use Rattle.session_lent.specs.Head.{head_numbers};
ghost use Rattle.session_lent.specs.Batches.{ShapedCall};

use local_projection_state::LocalProjectionState;
use session_group::GroupBatch;
use session_lent::batch;
use session_steps::answers::ProjectionPatchApplicationResult;

// One batch with the bytes of its set, in a plan of its own.
pub(crate) fn send_one<'a>(
    head: &[u64],
    nodes: &[u64],
    pairs: &[u64],
    collections: &[u64],
    bindings: &'a [u8],
    availability: &'a [u8],
    entries: &'a [u8],
    sent: GroupBatch,
    set: &[u8],
    to_head: &mut [u64],
    to_bindings: &mut [u8],
    to_availability: &mut [u8],
    to_entries: &mut [u8],
    to_lengths: &mut [u8],
) -> ProjectionPatchApplicationResult
    requires { (length head.now ≡ head_numbers) × (length to_head.old ≡ head_numbers) }
    ensures { ShapedCall (edition_of sent.edition) (batch_envelope_of sent.envelope) sent.declared_target_reference_count set.now head.now nodes.now pairs.now collections.now bindings.now availability.now entries.now
        to_head.old to_bindings.old to_availability.old to_entries.old to_lengths.old no_plan result to_head.new to_bindings.new to_availability.new to_entries.new to_lengths.new }
{
    let mut plan_bindings = [0u8; panel_plan::BINDING_BYTES];
    let mut plan_availability = [0u8; LocalProjectionState::AVAILABILITY_BYTES];
    let mut plan_entries = [0u8; panel_plan::ENTRY_BYTES];
    let envelope = sent.envelope;
    let declared = sent.declared_target_reference_count;
    let edition = sent.edition;
    batch::apply_shaped(
        head,
        nodes,
        pairs,
        collections,
        bindings,
        availability,
        entries,
        envelope,
        declared,
        set,
        edition,
        to_head,
        to_bindings,
        to_availability,
        to_entries,
        to_lengths,
        &mut plan_bindings,
        &mut plan_availability,
        &mut plan_entries,
    )
}
