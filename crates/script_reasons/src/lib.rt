// The line that a replay prints of the rule behind a refusal, printed into a lent slice.
#![tactic(auto)]

pub mod figures;
pub mod words;

ghost use Rattle.spec_explain.specs.Explain.{given};
ghost use Rattle.spec_replay.specs.Reasons.{reason_line};
ghost use Rattle.bytes_printer.specs.Prints.{Prints};
ghost use Rattle.session_explain.specs.Meaning.{printed_reason_of, explanation_of};

use session_explain::numbers;
use session_explain::reasons::{BatchExplanation, BatchReason};

fn print_given(out: &mut [u8], at: Option<usize>, reason: BatchReason) -> Option<usize>
    ensures { Prints out.old at (reason_line (given (printed_reason_of reason))) out.new result }
{
    let letter = bytes_printer::print_byte(out, at, 87);
    let number = bytes_printer::print_field_u64(out, letter, numbers::number_of(reason));
    let name = words::print_word(out, number, reason);
    figures::print_figures(out, name, reason)
}

// The answer of explain.
pub fn print_reason(
    out: &mut [u8],
    at: Option<usize>,
    explanation: BatchExplanation,
) -> Option<usize>
    ensures { Prints out.old at (reason_line (explanation_of explanation)) out.new result }
{
    match explanation {
        BatchExplanation::None => {
            let letter = bytes_printer::print_byte(out, at, 87);
            let zero = bytes_printer::print_field_u64(out, letter, 0);
            bytes_printer::print_newline(out, zero)
        }
        BatchExplanation::Withheld => {
            let letter = bytes_printer::print_byte(out, at, 87);
            let zero = bytes_printer::print_field_u64(out, letter, 0);
            let word = bytes_printer::print_field_bytes(out, zero, b"withheld");
            bytes_printer::print_newline(out, word)
        }
        BatchExplanation::Given(reason) => print_given(out, at, reason),
    }
}
