// Several batches, or none: the sets of a group lie end to end in one lent slice. Methods stand beside their struct, so the call is a function
// that takes the session first.
#![tactic(auto)]

ghost use Rattle.std.specs.Prelude.{◌≡◌, ◌≤◌, eqb, length};
ghost use Rattle.spec_session.specs.Session.{Session};
ghost use Rattle.spec_splitting.specs.Splitting.{is_rejected};
ghost use Rattle.spec_group.specs.Group.{group_batches, total_bytes, run_group, conclude_group};
ghost use Rattle.session_steps.specs.Answers.{disposition_told};
ghost use Rattle.shell_player.specs.Holds.{Holds};
ghost use Rattle.session_group.specs.Groups.{named_batch, names_group, answer_number, no_group, all_taken, first_refused, GroupBecame, GroupCall, AnswerFits, AnyGroupCall};

use projection_patch::patch::ProjectionPatchEdition;
use session_gates::gates::OrderedProjectionPatchBatchEnvelope;
use session_lifecycle::state::ProjectionReplayCursor;
use session_steps::answers::{
    ProjectionPatchApplicationDisposition, ProjectionPatchApplicationResult,
};
use shell_player::session::ShellSession;

// One batch of a group, and how many bytes its set has.
#[derive(Clone, Copy)]
pub struct GroupBatch {
    pub envelope: OrderedProjectionPatchBatchEnvelope,
    pub declared_target_reference_count: u64,
    pub edition: ProjectionPatchEdition,
    pub bytes: usize,
}

impl GroupBatch {
    // The most batches of a group.
    pub const MOST: usize = 8;
}

// What came of a group: it is none; all batches were taken, and the cursor stands there; or the place from 0 of the first refused batch with its
// own answer, in which the cursor is the one from before the group.
#[derive(Drop)]
pub enum GroupAnswer {
    NotAGroup,
    Taken {
        count: usize,
        cursor: ProjectionReplayCursor,
    },
    RefusedAt {
        place: usize,
        answer: ProjectionPatchApplicationResult,
    },
}

impl GroupAnswer {
    pub const NOT_A_GROUP: u64 = 17;

    // 17 for what is no group, 0 for a group: the number of its refused batch stands in that batch's answer.
    pub fn number(self) -> u64
        ensures { result ≡ answer_number self }
    {
        match self {
            GroupAnswer::NotAGroup => GroupAnswer::NOT_A_GROUP,
            GroupAnswer::Taken {
                count: _,
                cursor: _,
            } => 0,
            GroupAnswer::RefusedAt {
                place: _,
                answer: _,
            } => 0,
        }
    }
}

// The session after a group, and the group's answer.
#[derive(Drop)]
pub struct ProjectionPatchGroup {
    pub session: ShellSession,
    pub answer: GroupAnswer,
}

fn not_a_group(session: ShellSession) -> ProjectionPatchGroup
    ensures { result ≡ no_group session }
{
    ProjectionPatchGroup {
        session,
        answer: GroupAnswer::NotAGroup,
    }
}

fn all_taken(session: ShellSession, count: usize) -> ProjectionPatchGroup
    ensures { result ≡ all_taken session count }
{
    let state = session.state;
    let cursor = state.replay_cursor;
    ProjectionPatchGroup {
        session,
        answer: GroupAnswer::Taken { count, cursor },
    }
}

// The session is the one from before the group, and so is the cursor in the answer.
fn refused_at(
    session: ShellSession,
    place: usize,
    res: ProjectionPatchApplicationResult,
) -> ProjectionPatchGroup
    ensures { result ≡ first_refused session place res }
{
    let state = session.state;
    let disposition = res.disposition;
    let diagnostics = res.diagnostics;
    let replay_cursor = state.replay_cursor;
    let answer = ProjectionPatchApplicationResult {
        disposition,
        diagnostics,
        replay_cursor,
    };
    ProjectionPatchGroup {
        session,
        answer: GroupAnswer::RefusedAt { place, answer },
    }
}

// A batch without patches is not refused.
fn is_rejected(disposition: ProjectionPatchApplicationDisposition) -> bool
    ensures { result ≡ is_rejected (disposition_told disposition) }
{
    match disposition {
        ProjectionPatchApplicationDisposition::Applied => false,
        ProjectionPatchApplicationDisposition::NoChange => false,
        ProjectionPatchApplicationDisposition::Rejected => true,
    }
}

// Whether the lengths add up to so many bytes. What is left of them is counted down, so that no sum runs over.
fn adds_up(batches: [GroupBatch; GroupBatch::MOST], count: usize, bytes: usize) -> bool
    requires { count ≤ group_batches }
    ensures { result ≡ eqb (total_bytes (named_batch count batches)) bytes }
{
    let mut left = bytes;
    let mut place: usize = 0;
    while place < count {
        let batch = batches[place];
        let size = batch.bytes;
        if left < size {
            return false;
        }
        left -= size;
        place += 1;
    }
    left == 0
}

// One to eight batches whose lengths add up to the lent bytes.
pub fn is_group(batches: [GroupBatch; GroupBatch::MOST], count: usize, bytes: usize) -> bool
    ensures { result ≡ names_group count batches bytes }
{
    if count < 1 {
        return false;
    }
    if GroupBatch::MOST < count {
        return false;
    }
    adds_up(batches, count, bytes)
}

// Each batch goes to the session just handed back, until one is rejected.
fn send_all(
    session: ShellSession,
    batches: [GroupBatch; GroupBatch::MOST],
    count: usize,
    sets: &[u8],
) -> ProjectionPatchGroup
    requires { (count ≤ group_batches) × (total_bytes (named_batch count batches) ≡ length sets.now) }
    ensures holding { (m : Session) → Holds session m → GroupBecame result (conclude_group m count (run_group 0 m (named_batch count batches) sets.now)) }
    ensures whatever { AnswerFits count session result.session result.answer }
    ensures numbered { answer_number result.answer ≡ 0 }
{
    let mut next = session;
    let mut at: usize = 0;
    let mut place: usize = 0;
    while place < count {
        let batch = batches[place];
        let envelope = batch.envelope;
        let declared = batch.declared_target_reference_count;
        let edition = batch.edition;
        let end = at + batch.bytes;
        let step = next.apply_projection_patch_batch(envelope, declared, &sets[at..end], edition);
        let result = step.result;
        let disposition = result.disposition;
        if is_rejected(disposition) {
            return refused_at(session, place, result);
        }
        next = step.session;
        at = end;
        place += 1;
    }
    all_taken(next, count)
}

// All batches are taken as if sent singly in order, or the session is the one that came. Places behind the count are not looked at.
pub fn apply_projection_patch_batches(
    session: ShellSession,
    batches: [GroupBatch; GroupBatch::MOST],
    count: usize,
    sets: &[u8],
) -> ProjectionPatchGroup
    ensures holding { GroupCall session batches count sets.now result }
    ensures whatever { AnyGroupCall session batches count sets.now result }
{
    if is_group(batches, count, sets.len()) {
        return send_all(session, batches, count, sets);
    }
    not_a_group(session)
}
