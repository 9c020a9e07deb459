// What the calls on a session answer, as numbers.
ghost use Rattle.std.specs.Prelude.{◌≡◌};
ghost use Rattle.session_lifecycle.specs.Meaning.{cursor_of, disposition_means, answer_of};
ghost use Rattle.session_steps.specs.Answers.{disposition_told, batch_answer_of};
ghost use Rattle.session_lent.specs.Head.{cursor_kind, cursor_number};
ghost use Rattle.c_answers.specs.Answers.{disposition_number, answer_to, lifecycle_number_to, session_absent, no_step, batch_told, step_told, creation_told};

use session_creation::CreationRefusal;
use session_lent::creation::LentCreationRefusal;
use session_lent::head;
use session_lifecycle::lifecycle::{ShellTransitionDisposition, ShellTransitionResult};
use session_lifecycle::state::ProjectionReplayCursor;
use session_steps::answers::{
    ProjectionPatchApplicationDisposition, ProjectionPatchApplicationResult,
};

// 0 Applied, 1 NoChange, 2 Rejected, 3 no session in the memory, 4 no such edition; the diagnostics; the cursor after the call, if there is one.
#[repr(C)]
#[derive(Clone, Copy)]
pub struct GeysertrayAnswer {
    pub disposition: u64,
    pub number: u64,
    pub stage: u64,
    pub logical: u64,
    pub emitted: u64,
    pub has_cursor: u64,
    pub cursor: u64,
}

// The same of a lifecycle step, with 4 for no such command, and the lifecycle after it: 0 Created, 1 Active, 2 Suspended, 3 Closed.
#[repr(C)]
#[derive(Clone, Copy)]
pub struct GeysertrayLifecycle {
    pub disposition: u64,
    pub number: u64,
    pub stage: u64,
    pub logical: u64,
    pub emitted: u64,
    pub lifecycle: u64,
    pub has_cursor: u64,
    pub cursor: u64,
    pub stimulus_bytes: u64,
}

const NO_SESSION: u64 = 3;

fn disposition_number(disposition: ProjectionPatchApplicationDisposition) -> u64
    ensures { result ≡ disposition_number (disposition_told disposition) }
{
    match disposition {
        ProjectionPatchApplicationDisposition::Applied => 0,
        ProjectionPatchApplicationDisposition::NoChange => 1,
        ProjectionPatchApplicationDisposition::Rejected => 2,
    }
}

fn step_number(disposition: ShellTransitionDisposition) -> u64
    ensures { result ≡ disposition_number (disposition_means disposition) }
{
    match disposition {
        ShellTransitionDisposition::Applied => 0,
        ShellTransitionDisposition::NoChange => 1,
        ShellTransitionDisposition::Rejected => 2,
    }
}

// 1 where there is a cursor.
pub(crate) fn cursor_kind(cursor: ProjectionReplayCursor) -> u64
    ensures { result ≡ cursor_kind (cursor_of cursor) }
{
    match cursor {
        ProjectionReplayCursor::Uninitialized => 0,
        ProjectionReplayCursor::At(_) => 1,
    }
}

pub(crate) fn cursor_number(cursor: ProjectionReplayCursor) -> u64
    ensures { result ≡ cursor_number (cursor_of cursor) }
{
    match cursor {
        ProjectionReplayCursor::Uninitialized => 0,
        ProjectionReplayCursor::At(n) => n,
    }
}

pub(crate) fn answer_of(res: ProjectionPatchApplicationResult) -> GeysertrayAnswer
    ensures { result ≡ answer_to (batch_answer_of res) }
{
    let disposition = res.disposition;
    let diagnostics = res.diagnostics;
    let cursor = res.replay_cursor;
    GeysertrayAnswer {
        disposition: disposition_number(disposition),
        number: diagnostics.stable_code,
        stage: diagnostics.evaluation_stage,
        logical: diagnostics.logical_diagnostic_count,
        emitted: diagnostics.emitted_diagnostic_count,
        has_cursor: cursor_kind(cursor),
        cursor: cursor_number(cursor),
    }
}

// Nothing but the disposition tells that there was no session, or no such edition.
pub fn unanswered(disposition: u64) -> GeysertrayAnswer
    ensures { result ≡ session_absent disposition }
{
    GeysertrayAnswer {
        disposition,
        number: 0,
        stage: 0,
        logical: 0,
        emitted: 0,
        has_cursor: 0,
        cursor: 0,
    }
}

fn step_of(res: ShellTransitionResult) -> GeysertrayLifecycle
    ensures { result ≡ lifecycle_number_to (answer_of res) }
{
    let disposition = res.disposition;
    let diagnostics = res.diagnostics;
    let state = res.state;
    let lifecycle = state.lifecycle;
    let cursor = state.replay_cursor;
    GeysertrayLifecycle {
        disposition: step_number(disposition),
        number: diagnostics.stable_code,
        stage: diagnostics.evaluation_stage,
        logical: diagnostics.logical_diagnostic_count,
        emitted: diagnostics.emitted_diagnostic_count,
        lifecycle: head::lifecycle_number(lifecycle),
        has_cursor: cursor_kind(cursor),
        cursor: cursor_number(cursor),
        stimulus_bytes: res.stimulus_bytes,
    }
}

pub fn no_step(disposition: u64) -> GeysertrayLifecycle
    ensures { result ≡ no_step disposition }
{
    GeysertrayLifecycle {
        disposition,
        number: 0,
        stage: 0,
        logical: 0,
        emitted: 0,
        lifecycle: 0,
        has_cursor: 0,
        cursor: 0,
        stimulus_bytes: 0,
    }
}

pub fn created(answer: Result<(), LentCreationRefusal>) -> u64
    ensures { result ≡ creation_told answer }
{
    match answer {
        Ok(()) => 0,
        Err(LentCreationRefusal::AnchorsOverCapacity) => CreationRefusal::ANCHORS_OVER_CAPACITY,
        Err(LentCreationRefusal::NoSession) => NO_SESSION,
    }
}

pub fn stepped(answer: Option<ShellTransitionResult>) -> GeysertrayLifecycle
    ensures { result ≡ step_told answer }
{
    match answer {
        Some(result) => step_of(result),
        None => no_step(NO_SESSION),
    }
}

pub fn answered(answer: Option<ProjectionPatchApplicationResult>) -> GeysertrayAnswer
    ensures { result ≡ batch_told answer }
{
    match answer {
        Some(result) => answer_of(result),
        None => unanswered(NO_SESSION),
    }
}
