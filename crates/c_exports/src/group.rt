// The exported call that sends a group of batches. The numbers of each batch are told together, and the sets lie end to end.
ghost use Rattle.session_lent.specs.Halves.{anchors_with, half_with};
ghost use Rattle.c_exports.specs.Groups.{ExportedGroup};

use c_answers::groups;
use c_answers::groups::GeysertrayGroupAnswer;
use local_projection_state::LocalProjectionState;
use session_lent::head;
use session_lent_group::group;

const NO_SUCH: u64 = 4;

// Several batches as if sent singly in order, or none. A batch is seven numbers: session id, sequence number, patch count, stimulus bytes, target
// references, edition and the bytes of its set. The half that is read stays; the answer tells in which half the session stands, and the two that are
// lent to work in can be lent to a later call, whatever came of the group.
pub fn geysertray_group<'a>(
    head: &[u64; head::NUMBERS],
    nodes: &[u64],
    pairs: &[u64],
    collections: &[u64],
    bindings: &'a [u8; LocalProjectionState::BINDING_BYTES],
    availability: &'a [u8; LocalProjectionState::AVAILABILITY_BYTES],
    entries: &'a [u8; LocalProjectionState::ENTRY_BYTES],
    batches: &[u64],
    sets: &[u8],
    first_head: &mut [u64; head::NUMBERS],
    first_bindings: &mut [u8; LocalProjectionState::BINDING_BYTES],
    first_availability: &mut [u8; LocalProjectionState::AVAILABILITY_BYTES],
    first_entries: &mut [u8; LocalProjectionState::ENTRY_BYTES],
    first_lengths: &mut [u8; LocalProjectionState::LENGTH_BYTES],
    second_head: &mut [u64; head::NUMBERS],
    second_bindings: &mut [u8; LocalProjectionState::BINDING_BYTES],
    second_availability: &mut [u8; LocalProjectionState::AVAILABILITY_BYTES],
    second_entries: &mut [u8; LocalProjectionState::ENTRY_BYTES],
    second_lengths: &mut [u8; LocalProjectionState::LENGTH_BYTES],
) -> GeysertrayGroupAnswer
    ensures { ExportedGroup batches.now sets.now (anchors_with nodes.now pairs.now collections.now) (half_with head.now bindings.now availability.now entries.now)
        (half_with first_head.old first_bindings.old first_availability.old first_entries.old first_lengths.old) (half_with second_head.old second_bindings.old second_availability.old second_entries.old second_lengths.old) result
        (half_with first_head.new first_bindings.new first_availability.new first_entries.new first_lengths.new) (half_with second_head.new second_bindings.new second_availability.new second_entries.new second_lengths.new) }
{
    let count = batches.len();
    if count % groups::BATCH_NUMBERS != 0 {
        return groups::no_group(NO_SUCH);
    }
    let read = groups::read_batches(batches);
    if read.known {
        let places = read.batches;
        let answer = group::apply_projection_patch_batches(
            head,
            nodes,
            pairs,
            collections,
            bindings,
            availability,
            entries,
            places,
            count / groups::BATCH_NUMBERS,
            sets,
            first_head,
            first_bindings,
            first_availability,
            first_entries,
            first_lengths,
            second_head,
            second_bindings,
            second_availability,
            second_entries,
            second_lengths,
        );
        return groups::group_told(answer);
    }
    groups::no_group(NO_SUCH)
}
