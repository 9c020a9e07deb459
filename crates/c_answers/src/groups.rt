// A group by numbers: seven for each batch, and what its call answers.
ghost use Rattle.std.specs.Prelude.{◌≡◌, min, length};
ghost use Rattle.spec_group.specs.Group.{group_batches};
ghost use Rattle.session_lifecycle.specs.Meaning.{cursor_of};
ghost use Rattle.session_group.specs.Groups.{batch_means, Names};
ghost use Rattle.c_answers.specs.GroupNumbers.{batch_numbers, batch_of_numbers, batch_count, batches_told, editions_known, half_number, taken_to, not_a_group_to, group_with, group_absent, group_to, group_told};

use crate::answers::GeysertrayAnswer;
use crate::{answers, asked};
use projection_patch::patch::ProjectionPatchEdition;
use session_gates::gates::OrderedProjectionPatchBatchEnvelope;
use session_group::{GroupAnswer, GroupBatch};
use session_lent_group::places::LentHalf;
use session_lifecycle::state::{ProjectionReplayCursor, ShellSessionId};

// How many batches were taken; the place from 0 of the first that was refused; the half in which the session stands now, 0 its own, 1 the first and
// 2 the second of those to work in; and the answer: 0 with the cursor afterwards, the refused batch's own with the cursor from before the group, 2
// and 17 for what is no group, 3 no session in the memory, 4 no such edition or numbers that are no sevens.
#[repr(C)]
#[derive(Clone, Copy)]
pub struct GeysertrayGroupAnswer {
    pub count: u64,
    pub place: u64,
    pub half: u64,
    pub answer: GeysertrayAnswer,
}

// The batches in the first eight places, and whether each of them has an edition.
#[derive(Clone, Copy)]
pub struct BatchesRead {
    pub known: bool,
    pub batches: [GroupBatch; GroupBatch::MOST],
}

// How many numbers tell a batch.
pub const BATCH_NUMBERS: usize = 7;

const NO_SESSION: u64 = 3;

// The batch of seven numbers; its edition is the first or the second.
fn batch_of(numbers: &[u64]) -> GroupBatch
    requires { length numbers.now ≡ batch_numbers }
    ensures { batch_means result ≡ batch_of_numbers numbers.now }
{
    let envelope = OrderedProjectionPatchBatchEnvelope {
        session_id: ShellSessionId(numbers[0]),
        sequence_no: numbers[1],
        patch_count: numbers[2],
        stimulus_bytes: numbers[3],
    };
    let edition = asked::edition_of(numbers[5]);
    GroupBatch {
        envelope,
        declared_target_reference_count: numbers[4],
        edition,
        bytes: numbers[6] as usize,
    }
}

// The batch of a place that is not used.
fn no_batch() -> GroupBatch {
    let envelope = OrderedProjectionPatchBatchEnvelope {
        session_id: ShellSessionId(0),
        sequence_no: 0,
        patch_count: 0,
        stimulus_bytes: 0,
    };
    GroupBatch {
        envelope,
        declared_target_reference_count: 0,
        edition: ProjectionPatchEdition::V1,
        bytes: 0,
    }
}

// How many batches are looked at.
fn places_used(count: usize) -> usize
    ensures { result ≡ min count group_batches }
{
    count.min(GroupBatch::MOST)
}

// Reads as many batches as a group can have.
pub fn read_batches(numbers: &[u64]) -> BatchesRead
    ensures known { result.known ≡ editions_known numbers.now (min (batch_count numbers.now) group_batches) }
    ensures named { Names (batch_count numbers.now) result.batches (batches_told numbers.now) }
{
    let used = places_used(numbers.len() / BATCH_NUMBERS);
    let mut known = true;
    let mut batches = [no_batch(); GroupBatch::MOST];
    for place in 0..used {
        let from = place * BATCH_NUMBERS;
        let end = from + BATCH_NUMBERS;
        let at = from + 5;
        known &= asked::is_edition(numbers[at]);
        batches[place] = batch_of(&numbers[from..end]);
    }
    BatchesRead { known, batches }
}

fn half_number(half: LentHalf) -> u64
    ensures { result ≡ half_number half }
{
    match half {
        LentHalf::Own => 0,
        LentHalf::First => 1,
        LentHalf::Second => 2,
    }
}

fn taken_to(cursor: ProjectionReplayCursor) -> GeysertrayAnswer
    ensures { result ≡ taken_to (cursor_of cursor) }
{
    GeysertrayAnswer {
        disposition: 0,
        number: 0,
        stage: 0,
        logical: 0,
        emitted: 0,
        has_cursor: answers::cursor_kind(cursor),
        cursor: answers::cursor_number(cursor),
    }
}

fn not_a_group() -> GeysertrayAnswer
    ensures { result ≡ not_a_group_to }
{
    GeysertrayAnswer {
        disposition: 2,
        number: GroupAnswer::NOT_A_GROUP,
        stage: 0,
        logical: 0,
        emitted: 0,
        has_cursor: 0,
        cursor: 0,
    }
}

// Nothing but the disposition tells that there was no session, or no such edition.
pub fn no_group(disposition: u64) -> GeysertrayGroupAnswer
    ensures { result ≡ group_absent disposition }
{
    let answer = answers::unanswered(disposition);
    GeysertrayGroupAnswer {
        count: 0,
        place: 0,
        half: 0,
        answer,
    }
}

fn group_of(
    count: usize,
    place: usize,
    half: u64,
    answer: GeysertrayAnswer,
) -> GeysertrayGroupAnswer
    ensures { result ≡ group_with count place half answer }
{
    GeysertrayGroupAnswer {
        count: count as u64,
        place: place as u64,
        half,
        answer,
    }
}

fn group_to(answer: GroupAnswer, half: u64) -> GeysertrayGroupAnswer
    ensures { result ≡ group_to half answer }
{
    match answer {
        GroupAnswer::NotAGroup => group_of(0, 0, half, not_a_group()),
        GroupAnswer::Taken { count, cursor } => group_of(count, 0, half, taken_to(cursor)),
        GroupAnswer::RefusedAt { place, answer } => {
            group_of(0, place, half, answers::answer_of(answer))
        }
    }
}

pub fn group_told(answer: Option<(GroupAnswer, LentHalf)>) -> GeysertrayGroupAnswer
    ensures { result ≡ group_told answer }
{
    match answer {
        Some((group, half)) => group_to(group, half_number(half)),
        None => no_group(NO_SESSION),
    }
}
