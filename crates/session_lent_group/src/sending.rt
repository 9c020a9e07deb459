// Batches from one half to another, until one of them is applied.
ghost use Rattle.std.specs.Prelude.{◌≡◌, List, ℕ, length};
ghost use Rattle.spec_session.specs.Session.{Session};
ghost use Rattle.session_lent.specs.Head.{head_numbers};
ghost use Rattle.session_lent.specs.Halves.{anchors_with, half_with, HeldIn, RoomIn};
ghost use Rattle.session_lent_group.specs.Sendings.{LeftFits, run_left, SentOn, SentFits};

use crate::one;
use crate::places::{GroupLeft, RefusedBatch};
use session_steps::answers::ProjectionPatchApplicationDisposition;

// The place behind the batch that was applied, and the byte behind its set; none where no batch was. A batch without patches leaves the session,
// so that the next one goes from the same half to the same other.
pub(crate) fn send_until_applied<'a>(
    head: &[u64],
    nodes: &[u64],
    pairs: &[u64],
    collections: &[u64],
    bindings: &'a [u8],
    availability: &'a [u8],
    entries: &'a [u8],
    left: GroupLeft,
    sets: &[u8],
    to_head: &mut [u64],
    to_bindings: &mut [u8],
    to_availability: &mut [u8],
    to_entries: &mut [u8],
    to_lengths: &mut [u8],
) -> Result<Option<(usize, usize)>, RefusedBatch>
    requires { LeftFits left sets.now × ((length head.now ≡ head_numbers) × (length to_head.old ≡ head_numbers)) }
    ensures holding { (m : Session) (l : List ℕ) → HeldIn (anchors_with nodes.now pairs.now collections.now) (half_with head.now bindings.now availability.now entries.now l) m
        → RoomIn (half_with to_head.old to_bindings.old to_availability.old to_entries.old to_lengths.old)
        → SentOn result (anchors_with nodes.now pairs.now collections.now) (half_with to_head.new to_bindings.new to_availability.new to_entries.new to_lengths.new) left sets.now m (run_left left m sets.now) }
    ensures whatever { SentFits result left sets.now (half_with to_head.old to_bindings.old to_availability.old to_entries.old to_lengths.old) (half_with to_head.new to_bindings.new to_availability.new to_entries.new to_lengths.new) }
{
    let mut at = left.at;
    for place in left.place..left.count {
        let batch = left.batches[place];
        let end = at + batch.bytes;
        let answer = one::send_one(
            head,
            nodes,
            pairs,
            collections,
            bindings,
            availability,
            entries,
            batch,
            &sets[at..end],
            to_head,
            to_bindings,
            to_availability,
            to_entries,
            to_lengths,
        );
        match answer.disposition {
            ProjectionPatchApplicationDisposition::Applied => return Ok(Some((place + 1, end))),
            ProjectionPatchApplicationDisposition::NoChange => {}
            ProjectionPatchApplicationDisposition::Rejected => return Err(RefusedBatch {
                place,
                answer,
            }),
        }
        at = end;
    }
    Ok(None)
}
