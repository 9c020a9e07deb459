// The lines of creation, of a lifecycle step and of a batch, and those without a session or a command.
ghost use Rattle.std.specs.Prelude.{◌≡◌};
ghost use Rattle.spec_session.specs.Session.{Creation};
ghost use Rattle.spec_replay.specs.Answers.{creation_line, lifecycle_line, batch_line, no_session_line, other_line};
ghost use Rattle.bytes_printer.specs.Prints.{Prints};
ghost use Rattle.session_lifecycle.specs.Meaning.{disposition_means, answer_of};
ghost use Rattle.session_steps.specs.Answers.{disposition_told, batch_answer_of};
ghost use Rattle.script_answers.specs.CreationAnswers.{creation_to};

use crate::fields;
use session_creation::CreationRefusal;
use session_lifecycle::lifecycle::{ShellTransitionDisposition, ShellTransitionResult};
use session_steps::answers::{
    ProjectionPatchApplicationDisposition, ProjectionPatchApplicationResult,
};

pub fn print_creation(
    out: &mut [u8],
    at: Option<usize>,
    answer: Result<(), CreationRefusal>,
) -> Option<usize>
    ensures { (c : Creation) → answer ≡ creation_to c → Prints out.old at (creation_line c) out.new result }
{
    match answer {
        Ok(()) => listing_lines::print_number_line(out, at, 83, 0),
        Err(refusal) => { listing_lines::print_number_line(out, at, 83, refusal.number()) }
    }
}

pub fn print_lifecycle(
    out: &mut [u8],
    at: Option<usize>,
    res: ShellTransitionResult,
) -> Option<usize>
    ensures { Prints out.old at (lifecycle_line (answer_of res)) out.new result }
{
    let disposition = res.disposition;
    let diagnostics = res.diagnostics;
    let state = res.state;
    let lifecycle = state.lifecycle;
    let cursor = state.replay_cursor;
    let letter = bytes_printer::print_byte(out, at, 76);
    let outcome = fields::print_outcome(out, letter, disposition, diagnostics);
    let word = fields::print_lifecycle(out, outcome, lifecycle);
    let place = fields::print_cursor(out, word, cursor);
    let bytes = bytes_printer::print_field_u64(out, place, res.stimulus_bytes);
    bytes_printer::print_newline(out, bytes)
}

// A batch's disposition as that of a lifecycle step.
fn transition_disposition(
    disposition: ProjectionPatchApplicationDisposition,
) -> ShellTransitionDisposition
    ensures { disposition_means result ≡ disposition_told disposition }
{
    match disposition {
        ProjectionPatchApplicationDisposition::Applied => ShellTransitionDisposition::Applied,
        ProjectionPatchApplicationDisposition::NoChange => ShellTransitionDisposition::NoChange,
        ProjectionPatchApplicationDisposition::Rejected => ShellTransitionDisposition::Rejected,
    }
}

pub fn print_batch(
    out: &mut [u8],
    at: Option<usize>,
    res: ProjectionPatchApplicationResult,
) -> Option<usize>
    ensures { Prints out.old at (batch_line (batch_answer_of res)) out.new result }
{
    let told = res.disposition;
    let disposition = transition_disposition(told);
    let diagnostics = res.diagnostics;
    let cursor = res.replay_cursor;
    let letter = bytes_printer::print_byte(out, at, 82);
    let outcome = fields::print_outcome(out, letter, disposition, diagnostics);
    let place = fields::print_cursor(out, outcome, cursor);
    bytes_printer::print_newline(out, place)
}

// The answer to a call of a session where there is none.
pub fn print_no_session(out: &mut [u8], at: Option<usize>) -> Option<usize>
    ensures { Prints out.old at no_session_line out.new result }
{
    let letter = bytes_printer::print_byte(out, at, 78);
    bytes_printer::print_newline(out, letter)
}

// The answer to a line that is no command.
pub fn print_other(out: &mut [u8], at: Option<usize>, number: u64) -> Option<usize>
    ensures { Prints out.old at (other_line number) out.new result }
{
    listing_lines::print_number_line(out, at, 63, number)
}
