// The figures of the rules, each with the tab before it, and the end of the line.
ghost use Rattle.std.specs.Prelude.{[], ◌∷◌};
ghost use Rattle.spec_decimal.specs.Decimal.{decimal};
ghost use Rattle.spec_listing.specs.Listing.{fields};
ghost use Rattle.spec_replay.specs.Answers.{dash, place_field};
ghost use Rattle.spec_replay.specs.Reasons.{inside_fields, takes_field, figure_fields};
ghost use Rattle.bytes_printer.specs.Prints.{spaced_field, Prints};
ghost use Rattle.spec_lists.specs.Options.{optional_of};
ghost use Rattle.patch_locate.specs.Answers.{inside_of};
ghost use Rattle.session_explain.specs.Meaning.{finding_place_of, printed_reason_of};

use check_set::check_set::CheckPlace;
use patch_locate::rules::Inside;
use session_explain::reasons::BatchReason;

fn print_two(out: &mut [u8], at: Option<usize>, a: u64, b: u64) -> Option<usize>
    ensures { Prints out.old at (fields (decimal a ∷ decimal b ∷ [])) out.new result }
{
    let first = bytes_printer::print_field_u64(out, at, a);
    let second = bytes_printer::print_field_u64(out, first, b);
    bytes_printer::print_newline(out, second)
}

fn print_three(out: &mut [u8], at: Option<usize>, a: u64, b: u64, c: u64) -> Option<usize>
    ensures { Prints out.old at (fields (decimal a ∷ decimal b ∷ decimal c ∷ [])) out.new result }
{
    let first = bytes_printer::print_field_u64(out, at, a);
    print_two(out, first, b, c)
}

fn print_four(out: &mut [u8], at: Option<usize>, a: u64, b: u64, c: u64, d: u64) -> Option<usize>
    ensures { Prints out.old at (fields (decimal a ∷ decimal b ∷ decimal c ∷ decimal d ∷ [])) out.new result }
{
    let first = bytes_printer::print_field_u64(out, at, a);
    print_three(out, first, b, c, d)
}

// None, and the end of the line.
fn print_none(out: &mut [u8], at: Option<usize>) -> Option<usize>
    ensures { Prints out.old at (fields (dash ∷ [])) out.new result }
{
    let none = bytes_printer::print_field_bytes(out, at, b"-");
    bytes_printer::print_newline(out, none)
}

fn print_inside(out: &mut [u8], at: Option<usize>, inside: Inside) -> Option<usize>
    ensures { Prints out.old at (fields (inside_fields (inside_of inside))) out.new result }
{
    match inside {
        Inside::Outside => {
            let patch = bytes_printer::print_field_bytes(out, at, b"-");
            print_none(out, patch)
        }
        Inside::Patch(i) => {
            let patch = bytes_printer::print_field_u64(out, at, i as u64);
            print_none(out, patch)
        }
        Inside::Operation(i, j) => print_two(out, at, i as u64, j as u64),
    }
}

fn print_takes(out: &mut [u8], at: Option<usize>, takes: Option<u64>) -> Option<usize>
    ensures { Prints out.old at (fields (takes_field (optional_of takes) ∷ [])) out.new result }
{
    match takes {
        None => print_none(out, at),
        Some(n) => {
            let number = bytes_printer::print_field_u64(out, at, n);
            bytes_printer::print_newline(out, number)
        }
    }
}

fn print_place(out: &mut [u8], at: Option<usize>, place: CheckPlace) -> Option<usize>
    ensures { Prints out.old at (spaced_field (place_field (finding_place_of place))) out.new result }
{
    match place {
        CheckPlace::Patch(index) => bytes_printer::print_field_u64(out, at, index as u64),
        CheckPlace::Set => bytes_printer::print_field_bytes(out, at, b"set"),
    }
}

// The figures of a reason.
pub fn print_figures(out: &mut [u8], at: Option<usize>, reason: BatchReason) -> Option<usize>
    ensures { Prints out.old at (fields (figure_fields (printed_reason_of reason))) out.new result }
{
    match reason {
        BatchReason::ForeignSession { named, own } => print_two(out, at, named, own),
        BatchReason::SessionClosed => bytes_printer::print_newline(out, at),
        BatchReason::DeclaredLimits(_, a, b, c, d) => print_four(out, at, a, b, c, d),
        BatchReason::Unreadable(stop) => {
            let byte = bytes_printer::print_field_u64(out, at, stop.at as u64);
            print_inside(out, byte, stop.inside)
        }
        BatchReason::HasFindings(place, count, kind, domain, secondary) => {
            let named = print_place(out, at, place);
            print_four(out, named, count as u64, kind, domain, secondary)
        }
        BatchReason::CountsDiffer(a, b, c, d) => print_four(out, at, a, b, c, d),
        BatchReason::ReferencesOver { actual, limit } => print_two(out, at, actual, limit),
        BatchReason::UnknownTarget(count, patch, operation) => {
            print_three(out, at, count as u64, patch as u64, operation as u64)
        }
        BatchReason::CursorMismatch { takes } => print_takes(out, at, takes),
        BatchReason::OperationFails(patch, operation, _) => {
            print_two(out, at, patch as u64, operation as u64)
        }
    }
}
