// The lines of a set-up of senders, of a registration, and of a turn.
ghost use Rattle.std.specs.Prelude.{◌≡◌};
ghost use Rattle.spec_turns.specs.Turns.{SetUp};
ghost use Rattle.spec_replay.specs.Answers.{set_up_line, register_line, turn_line};
ghost use Rattle.bytes_printer.specs.Prints.{Prints};
ghost use Rattle.session_turns.specs.Meaning.{set_up_to, set_up_answered};
ghost use Rattle.session_turns.specs.Runs.{turn_answer_of};
ghost use Rattle.script_answers.specs.TurnAnswers.{register_answer_of};

use session_turns::{RegisterRefusal, SenderTurns, SetUpRefusal, Turn};

pub fn print_set_up(
    out: &mut [u8],
    at: Option<usize>,
    answer: Result<SenderTurns, SetUpRefusal>,
) -> Option<usize>
    ensures { (s : SetUp) → set_up_answered answer ≡ set_up_answered (set_up_to s) → Prints out.old at (set_up_line s) out.new result }
{
    match answer {
        Ok(_) => listing_lines::print_number_line(out, at, 74, 0),
        Err(refusal) => { listing_lines::print_number_line(out, at, 74, refusal.number()) }
    }
}

pub fn print_registration(
    out: &mut [u8],
    at: Option<usize>,
    answer: Result<(), RegisterRefusal>,
) -> Option<usize>
    ensures { Prints out.old at (register_line (register_answer_of answer)) out.new result }
{
    match answer {
        Ok(()) => listing_lines::print_number_line(out, at, 74, 0),
        Err(refusal) => { listing_lines::print_number_line(out, at, 74, refusal.number()) }
    }
}

pub fn print_turn(out: &mut [u8], at: Option<usize>, answer: Option<Turn>) -> Option<usize>
    ensures { Prints out.old at (turn_line (turn_answer_of answer)) out.new result }
{
    let letter = bytes_printer::print_byte(out, at, 74);
    match answer {
        None => {
            let word = bytes_printer::print_field_bytes(out, letter, b"none");
            bytes_printer::print_newline(out, word)
        }
        Some(turn) => {
            let named = bytes_printer::print_field_u64(out, letter, turn.sender as u64);
            let numbered = bytes_printer::print_field_u64(out, named, turn.number);
            bytes_printer::print_newline(out, numbered)
        }
    }
}
