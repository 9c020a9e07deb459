// The lines of a group.
ghost use Rattle.spec_group.specs.Group.{taken, refused_at};
ghost use Rattle.spec_replay.specs.Answers.{group_lines};
ghost use Rattle.bytes_printer.specs.Prints.{Prints};
ghost use Rattle.session_lifecycle.specs.Meaning.{cursor_of};
ghost use Rattle.session_steps.specs.Answers.{batch_answer_of};
ghost use Rattle.session_group.specs.Groups.{group_answer_of};

use crate::{fields, session};
use session_group::GroupAnswer;
use session_lifecycle::state::ProjectionReplayCursor;
use session_steps::answers::ProjectionPatchApplicationResult;

// How many batches were taken, and the cursor afterwards.
fn print_taken(
    out: &mut [u8],
    at: Option<usize>,
    count: usize,
    cursor: ProjectionReplayCursor,
) -> Option<usize>
    ensures { Prints out.old at (group_lines (taken count (cursor_of cursor))) out.new result }
{
    let letter = bytes_printer::print_byte(out, at, 85);
    let zero = bytes_printer::print_field_u64(out, letter, 0);
    let counted = bytes_printer::print_field_u64(out, zero, count as u64);
    let told = fields::print_cursor(out, counted, cursor);
    bytes_printer::print_newline(out, told)
}

// None was taken: the place of the first refused batch, and its own answer.
fn print_refused(
    out: &mut [u8],
    at: Option<usize>,
    place: usize,
    answer: ProjectionPatchApplicationResult,
) -> Option<usize>
    ensures { Prints out.old at (group_lines (refused_at place (batch_answer_of answer))) out.new result }
{
    let letter = bytes_printer::print_byte(out, at, 85);
    let zero = bytes_printer::print_field_u64(out, letter, 0);
    let none = bytes_printer::print_field_u64(out, zero, 0);
    let told = bytes_printer::print_field_u64(out, none, place as u64);
    let line = bytes_printer::print_newline(out, told);
    session::print_batch(out, line, answer)
}

pub fn print_group(out: &mut [u8], at: Option<usize>, answer: GroupAnswer) -> Option<usize>
    ensures { Prints out.old at (group_lines (group_answer_of answer)) out.new result }
{
    match answer {
        GroupAnswer::NotAGroup => listing_lines::print_number_line(
            out,
            at,
            85,
            GroupAnswer::NOT_A_GROUP,
        ),
        GroupAnswer::Taken { count, cursor } => print_taken(out, at, count, cursor),
        GroupAnswer::RefusedAt { place, answer } => print_refused(out, at, place, answer),
    }
}
