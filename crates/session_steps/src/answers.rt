// The answers of a batch.
ghost use Rattle.std.specs.Prelude.{◌≡◌};
ghost use Rattle.spec_session.specs.Session.{at};
ghost use Rattle.spec_session.specs.Diagnostics.{of_operation};
ghost use Rattle.spec_session.specs.Lifecycle.{applied, no_change};
ghost use Rattle.local_projection_state.specs.Faults.{application_fault_of};
ghost use Rattle.session_lifecycle.specs.Meaning.{refusal_of, cursor_of};
ghost use Rattle.session_steps.specs.Answers.{batch_answer_of, rejected_at, answer_at, change_answer};

use local_projection_state::{LocalProjectionApplicationError, ProjectionCounts};
use panel_changes::SetRefusal;
use session_lifecycle::diagnostics;
use session_lifecycle::diagnostics::{ShellDiagnostics, ShellRefusal};
use session_lifecycle::state::ProjectionReplayCursor;

#[derive(Clone, Copy)]
pub enum ProjectionPatchApplicationDisposition {
    Applied,
    NoChange,
    Rejected,
}

#[derive(Drop)]
pub struct ProjectionPatchApplicationResult {
    pub disposition: ProjectionPatchApplicationDisposition,
    pub diagnostics: ShellDiagnostics,
    pub replay_cursor: ProjectionReplayCursor,
}

fn refusal_of(error: LocalProjectionApplicationError) -> ShellRefusal
    ensures { refusal_of result ≡ of_operation (application_fault_of error) }
{
    match error {
        LocalProjectionApplicationError::KeyRule => ShellRefusal::KeyRule,
        LocalProjectionApplicationError::ProjectionFull => ShellRefusal::ProjectionFull,
    }
}

pub fn rejected(
    cap: u64,
    refusal: ShellRefusal,
    logical: u64,
    cursor: ProjectionReplayCursor,
) -> ProjectionPatchApplicationResult
    ensures { batch_answer_of result ≡ rejected_at cap (refusal_of refusal) logical (cursor_of cursor) }
{
    ProjectionPatchApplicationResult {
        disposition: ProjectionPatchApplicationDisposition::Rejected,
        diagnostics: diagnostics::apply_diagnostic_cap(cap, refusal, logical),
        replay_cursor: cursor,
    }
}

pub fn unchanged(cursor: ProjectionReplayCursor) -> ProjectionPatchApplicationResult
    ensures { batch_answer_of result ≡ answer_at no_change (cursor_of cursor) }
{
    ProjectionPatchApplicationResult {
        disposition: ProjectionPatchApplicationDisposition::NoChange,
        diagnostics: diagnostics::no_diagnostics(),
        replay_cursor: cursor,
    }
}

fn applied_at(number: u64) -> ProjectionPatchApplicationResult
    ensures { batch_answer_of result ≡ answer_at applied (at number) }
{
    ProjectionPatchApplicationResult {
        disposition: ProjectionPatchApplicationDisposition::Applied,
        diagnostics: diagnostics::no_diagnostics(),
        replay_cursor: ProjectionReplayCursor::At(number),
    }
}

// The answer of step 9, by what came of the operations.
pub fn concluded(
    cap: u64,
    change: Result<ProjectionCounts, SetRefusal>,
    cursor: ProjectionReplayCursor,
    number: u64,
) -> ProjectionPatchApplicationResult
    ensures { batch_answer_of result ≡ change_answer cap (cursor_of cursor) number change }
{
    match change {
        Ok(_) => applied_at(number),
        Err(refused) => match refused {
            SetRefusal::Operation(error) => rejected(cap, refusal_of(error), 1, cursor),
            SetRefusal::Unreadable(_) => rejected(cap, ShellRefusal::Malformed, 1, cursor),
            SetRefusal::BadTables => rejected(cap, ShellRefusal::Malformed, 1, cursor),
        },
    }
}
