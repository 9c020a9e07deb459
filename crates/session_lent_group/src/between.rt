// Batches from the half where the session stands to another, and from there back, as long as any are left.
ghost use Rattle.std.specs.Prelude.{◌≡◌, length};
ghost use Rattle.spec_session.specs.Session.{Session};
ghost use Rattle.session_lent.specs.Head.{head_numbers};
ghost use Rattle.session_lent.specs.Halves.{Half, anchors_with, half_with, HeldIn, RoomIn};
ghost use Rattle.session_lent_group.specs.Sendings.{LeftFits, run_left, RanOn, RanFits};

use crate::places::{GroupLeft, LentHalf, RefusedBatch};
use crate::{places, sending};

// The half in which the session stands in the end. The first half has it now. After a batch that was applied the two are exchanged, and so is what the rest tells of them.
pub(crate) fn send_between(
    nodes: &[u64],
    pairs: &[u64],
    collections: &[u64],
    left: GroupLeft,
    sets: &[u8],
    head: &mut [u64],
    bindings: &mut [u8],
    availability: &mut [u8],
    entries: &mut [u8],
    lengths: &mut [u8],
    to_head: &mut [u64],
    to_bindings: &mut [u8],
    to_availability: &mut [u8],
    to_entries: &mut [u8],
    to_lengths: &mut [u8],
) -> Result<LentHalf, RefusedBatch>
    requires { LeftFits left sets.now × ((length head.old ≡ head_numbers) × (length to_head.old ≡ head_numbers)) }
    ensures holding { (m : Session) → HeldIn (anchors_with nodes.now pairs.now collections.now) (half_with head.old bindings.old availability.old entries.old lengths.old) m
        → RoomIn (half_with to_head.old to_bindings.old to_availability.old to_entries.old to_lengths.old) → (own : Half)
        → RanOn result (anchors_with nodes.now pairs.now collections.now) own (half_with head.new bindings.new availability.new entries.new lengths.new) (half_with to_head.new to_bindings.new to_availability.new to_entries.new to_lengths.new) (run_left left m sets.now) }
    ensures whatever { RanFits result left.count }
{
    let applied = sending::send_until_applied(
        head,
        nodes,
        pairs,
        collections,
        bindings,
        availability,
        entries,
        left,
        sets,
        to_head,
        to_bindings,
        to_availability,
        to_entries,
        to_lengths,
    )?;
    let Some((place, at)) = applied else {
        return Ok(LentHalf::First);
    };
    let half = send_between(
        nodes,
        pairs,
        collections,
        places::left_from(left, place, at),
        sets,
        to_head,
        to_bindings,
        to_availability,
        to_entries,
        to_lengths,
        head,
        bindings,
        availability,
        entries,
        lengths,
    )?;
    Ok(places::turned(half))
}
