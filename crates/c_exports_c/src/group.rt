// The exported call that sends a group of batches.
ghost use Rattle.session_lent.specs.Halves.{anchors_with, half_with};
ghost use Rattle.c_exports.specs.Groups.{ExportedGroup};

use c_answers::groups::GeysertrayGroupAnswer;
use c_exports::group;
use local_projection_state::LocalProjectionState;
use session_lent::head;

#[unsafe(no_mangle)]
pub extern "C" fn geysertray_group<'a>(
    head: &[u64; head::NUMBERS],
    nodes: &[u64],
    pairs: &[u64],
    collections: &[u64],
    bindings: &'a [u8; LocalProjectionState::BINDING_BYTES],
    availability: &'a [u8; LocalProjectionState::AVAILABILITY_BYTES],
    entries: &'a [u8; LocalProjectionState::ENTRY_BYTES],
    batches: &[u64],
    sets: &[u8],
    first_head: &mut [u64; head::NUMBERS],
    first_bindings: &mut [u8; LocalProjectionState::BINDING_BYTES],
    first_availability: &mut [u8; LocalProjectionState::AVAILABILITY_BYTES],
    first_entries: &mut [u8; LocalProjectionState::ENTRY_BYTES],
    first_lengths: &mut [u8; LocalProjectionState::LENGTH_BYTES],
    second_head: &mut [u64; head::NUMBERS],
    second_bindings: &mut [u8; LocalProjectionState::BINDING_BYTES],
    second_availability: &mut [u8; LocalProjectionState::AVAILABILITY_BYTES],
    second_entries: &mut [u8; LocalProjectionState::ENTRY_BYTES],
    second_lengths: &mut [u8; LocalProjectionState::LENGTH_BYTES],
) -> GeysertrayGroupAnswer
    ensures { ExportedGroup batches.now sets.now (anchors_with nodes.now pairs.now collections.now) (half_with head.now bindings.now availability.now entries.now)
        (half_with first_head.old first_bindings.old first_availability.old first_entries.old first_lengths.old) (half_with second_head.old second_bindings.old second_availability.old second_entries.old second_lengths.old) result
        (half_with first_head.new first_bindings.new first_availability.new first_entries.new first_lengths.new) (half_with second_head.new second_bindings.new second_availability.new second_entries.new second_lengths.new) }
{
    group::geysertray_group(
        head,
        nodes,
        pairs,
        collections,
        bindings,
        availability,
        entries,
        batches,
        sets,
        first_head,
        first_bindings,
        first_availability,
        first_entries,
        first_lengths,
        second_head,
        second_bindings,
        second_availability,
        second_entries,
        second_lengths,
    )
}
