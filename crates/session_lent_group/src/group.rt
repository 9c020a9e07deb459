// The call: a group of batches on a session in lent memory, and what it answers.
ghost use Rattle.std.specs.Prelude.{◌≡◌, true, ◌&&◌, List, [], ℕ, eqb, length};
ghost use Rattle.spec_session.specs.Session.{Session};
ghost use Rattle.session_lifecycle.specs.Meaning.{cursor_of};
ghost use Rattle.panel_rows.specs.Rows.{length_bytes};
ghost use Rattle.session_lent.specs.Head.{head_numbers, state_at};
ghost use Rattle.session_lent.specs.LentSession.{half_shaped};
ghost use Rattle.session_lent.specs.Halves.{anchors_with, half_with, HeldIn, RoomIn};
ghost use Rattle.session_lent_group.specs.Sendings.{LeftFits, run_left, standing, RanOn, RanFits};
ghost use Rattle.session_lent_group.specs.LentGroups.{own_shaped, ConcludedAs, LentGroupCall};

use crate::places::{GroupLeft, LentHalf, RefusedBatch};
use crate::{between, places, sending};
use local_projection_state::LocalProjectionState;
use session_group::{GroupAnswer, GroupBatch};
use session_lent::{head, shape};
use session_lifecycle::state::ProjectionReplayCursor;
use session_steps::answers::ProjectionPatchApplicationResult;

// Whether a head and tables of these lengths can be worked in.
fn work_shaped(
    head: &[u64],
    bindings: usize,
    availability: usize,
    entries: usize,
    lengths: usize,
) -> bool
    ensures { result ≡ (half_shaped head.now bindings availability entries && eqb lengths length_bytes) }
{
    shape::half_shaped(head, bindings, availability, entries)
        && lengths == LocalProjectionState::LENGTH_BYTES
}

fn head_cursor(head: &[u64]) -> ProjectionReplayCursor
    requires { length head.now ≡ head_numbers }
    ensures { cursor_of result ≡ (state_at head.now).cursor }
{
    head::state_in(head).replay_cursor
}

// The cursor that the head in a place tells.
fn cursor_in(half: LentHalf, own: &[u64], first: &[u64], second: &[u64]) -> ProjectionReplayCursor
    requires { (length own.now ≡ head_numbers) × ((length first.now ≡ head_numbers) × (length second.now ≡ head_numbers)) }
    ensures { cursor_of result ≡ (state_at (standing half own.now first.now second.now)).cursor }
{
    match half {
        LentHalf::Own => head_cursor(own),
        LentHalf::First => head_cursor(first),
        LentHalf::Second => head_cursor(second),
    }
}

// The answer to a run. The cursor of a refused group is the one from before it.
fn concluded(
    run: Result<LentHalf, RefusedBatch>,
    count: usize,
    own: &[u64],
    first: &[u64],
    second: &[u64],
) -> (GroupAnswer, LentHalf)
    requires { (length own.now ≡ head_numbers) × ((length first.now ≡ head_numbers) × (length second.now ≡ head_numbers)) }
    ensures { ConcludedAs run count own.now first.now second.now result }
{
    match run {
        Ok(half) => {
            let cursor = cursor_in(half, own, first, second);
            (GroupAnswer::Taken { count, cursor }, half)
        }
        Err(refused) => {
            let answer = ProjectionPatchApplicationResult {
                replay_cursor: head_cursor(own),
                ..refused.answer
            };
            let place = refused.place;
            (GroupAnswer::RefusedAt { place, answer }, LentHalf::Own)
        }
    }
}

// All batches that are left, from the own half on.
fn send_all<'a>(
    head: &[u64],
    nodes: &[u64],
    pairs: &[u64],
    collections: &[u64],
    bindings: &'a [u8],
    availability: &'a [u8],
    entries: &'a [u8],
    left: GroupLeft,
    sets: &[u8],
    first_head: &mut [u64],
    first_bindings: &mut [u8],
    first_availability: &mut [u8],
    first_entries: &mut [u8],
    first_lengths: &mut [u8],
    second_head: &mut [u64],
    second_bindings: &mut [u8],
    second_availability: &mut [u8],
    second_entries: &mut [u8],
    second_lengths: &mut [u8],
) -> Result<LentHalf, RefusedBatch>
    requires { LeftFits left sets.now × ((length head.now ≡ head_numbers) × ((length first_head.old ≡ head_numbers) × (length second_head.old ≡ head_numbers))) }
    ensures holding { (m : Session) (l : List ℕ) → HeldIn (anchors_with nodes.now pairs.now collections.now) (half_with head.now bindings.now availability.now entries.now l) m
        → RoomIn (half_with first_head.old first_bindings.old first_availability.old first_entries.old first_lengths.old)
        → RoomIn (half_with second_head.old second_bindings.old second_availability.old second_entries.old second_lengths.old)
        → RanOn result (anchors_with nodes.now pairs.now collections.now) (half_with head.now bindings.now availability.now entries.now l)
        (half_with first_head.new first_bindings.new first_availability.new first_entries.new first_lengths.new) (half_with second_head.new second_bindings.new second_availability.new second_entries.new second_lengths.new) (run_left left m sets.now) }
    ensures whatever { RanFits result left.count }
{
    let applied = sending::send_until_applied(
        head,
        nodes,
        pairs,
        collections,
        bindings,
        availability,
        entries,
        left,
        sets,
        first_head,
        first_bindings,
        first_availability,
        first_entries,
        first_lengths,
    )?;
    let Some((place, at)) = applied else {
        return Ok(LentHalf::Own);
    };
    between::send_between(
        nodes,
        pairs,
        collections,
        places::left_from(left, place, at),
        sets,
        first_head,
        first_bindings,
        first_availability,
        first_entries,
        first_lengths,
        second_head,
        second_bindings,
        second_availability,
        second_entries,
        second_lengths,
    )
}

// A group where the own half and the first half to work in have their shape; the second is looked at here.
fn apply_group<'a>(
    head: &[u64],
    nodes: &[u64],
    pairs: &[u64],
    collections: &[u64],
    bindings: &'a [u8],
    availability: &'a [u8],
    entries: &'a [u8],
    batches: [GroupBatch; GroupBatch::MOST],
    count: usize,
    sets: &[u8],
    first_head: &mut [u64],
    first_bindings: &mut [u8],
    first_availability: &mut [u8],
    first_entries: &mut [u8],
    first_lengths: &mut [u8],
    second_head: &mut [u64],
    second_bindings: &mut [u8],
    second_availability: &mut [u8],
    second_entries: &mut [u8],
    second_lengths: &mut [u8],
) -> Option<(GroupAnswer, LentHalf)>
    requires { own_shaped (anchors_with nodes.now pairs.now collections.now) (half_with head.now bindings.now availability.now entries.now []) (half_with first_head.old first_bindings.old first_availability.old first_entries.old first_lengths.old) ≡ true }
    ensures { LentGroupCall (anchors_with nodes.now pairs.now collections.now) (half_with head.now bindings.now availability.now entries.now) batches count sets.now
        (half_with first_head.old first_bindings.old first_availability.old first_entries.old first_lengths.old) (half_with second_head.old second_bindings.old second_availability.old second_entries.old second_lengths.old) result
        (half_with first_head.new first_bindings.new first_availability.new first_entries.new first_lengths.new) (half_with second_head.new second_bindings.new second_availability.new second_entries.new second_lengths.new) }
{
    if !work_shaped(
        second_head,
        second_bindings.len(),
        second_availability.len(),
        second_entries.len(),
        second_lengths.len(),
    ) {
        return None;
    }
    if !session_group::is_group(batches, count, sets.len()) {
        return Some((GroupAnswer::NotAGroup, LentHalf::Own));
    }
    let run = send_all(
        head,
        nodes,
        pairs,
        collections,
        bindings,
        availability,
        entries,
        places::first_left(batches, count),
        sets,
        first_head,
        first_bindings,
        first_availability,
        first_entries,
        first_lengths,
        second_head,
        second_bindings,
        second_availability,
        second_entries,
        second_lengths,
    );
    Some(concluded(run, count, head, first_head, second_head))
}

// All batches are taken as if sent singly in order, and the answer tells in which half the session stands then; or the session in the own half is
// the one that stands. None where the slices cannot hold a session: one has another length, or a count is over its capacity. Both halves to work in can be lent to a later call, whatever came of the group. Places behind the count are not looked at.
pub fn apply_projection_patch_batches<'a>(
    head: &[u64],
    nodes: &[u64],
    pairs: &[u64],
    collections: &[u64],
    bindings: &'a [u8],
    availability: &'a [u8],
    entries: &'a [u8],
    batches: [GroupBatch; GroupBatch::MOST],
    count: usize,
    sets: &[u8],
    first_head: &mut [u64],
    first_bindings: &mut [u8],
    first_availability: &mut [u8],
    first_entries: &mut [u8],
    first_lengths: &mut [u8],
    second_head: &mut [u64],
    second_bindings: &mut [u8],
    second_availability: &mut [u8],
    second_entries: &mut [u8],
    second_lengths: &mut [u8],
) -> Option<(GroupAnswer, LentHalf)>
    ensures { LentGroupCall (anchors_with nodes.now pairs.now collections.now) (half_with head.now bindings.now availability.now entries.now) batches count sets.now
        (half_with first_head.old first_bindings.old first_availability.old first_entries.old first_lengths.old) (half_with second_head.old second_bindings.old second_availability.old second_entries.old second_lengths.old) result
        (half_with first_head.new first_bindings.new first_availability.new first_entries.new first_lengths.new) (half_with second_head.new second_bindings.new second_availability.new second_entries.new second_lengths.new) }
{
    if !shape::memory_shaped(
        nodes.len(),
        pairs.len(),
        collections.len(),
        head,
        bindings.len(),
        availability.len(),
        entries.len(),
        first_head,
        first_bindings.len(),
        first_availability.len(),
        first_entries.len(),
        first_lengths.len(),
    ) {
        return None;
    }
    apply_group(
        head,
        nodes,
        pairs,
        collections,
        bindings,
        availability,
        entries,
        batches,
        count,
        sets,
        first_head,
        first_bindings,
        first_availability,
        first_entries,
        first_lengths,
        second_head,
        second_bindings,
        second_availability,
        second_entries,
        second_lengths,
    )
}
