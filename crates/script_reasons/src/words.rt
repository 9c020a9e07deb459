// The names of the rules, each with the tab before it.
ghost use Rattle.std.specs.Prelude.{◌≡◌};
ghost use Rattle.spec_explain.specs.ReadingRule.{reading_word};
ghost use Rattle.spec_explain.specs.OperationRule.{operation_word};
ghost use Rattle.spec_explain.specs.Reason.{limit_word, reason_word};
ghost use Rattle.bytes_printer.specs.Prints.{spaced_field, Prints};
ghost use Rattle.patch_locate.specs.Answers.{reading_rule_of};
ghost use Rattle.session_explain.specs.Meaning.{limit_of, operation_rule_of, printed_reason_of};

use patch_locate::rules::ReadingRule;
use session_explain::reasons::{BatchReason, DeclaredLimit, OperationRule};

fn print_limit(out: &mut [u8], at: Option<usize>, which: DeclaredLimit) -> Option<usize>
    ensures { Prints out.old at (spaced_field (limit_word (limit_of which))) out.new result }
{
    match which {
        DeclaredLimit::Patches => bytes_printer::print_field_bytes(out, at, b"declared-patches"),
        DeclaredLimit::Bytes => bytes_printer::print_field_bytes(out, at, b"declared-bytes"),
        DeclaredLimit::Both => bytes_printer::print_field_bytes(
            out,
            at,
            b"declared-patches-and-bytes",
        ),
    }
}

fn print_reading(out: &mut [u8], at: Option<usize>, rule: ReadingRule) -> Option<usize>
    ensures { Prints out.old at (spaced_field (reading_word (reading_rule_of rule))) out.new result }
{
    match rule {
        ReadingRule::SetTooLong => bytes_printer::print_field_bytes(out, at, b"set-too-long"),
        ReadingRule::WrongHeading => bytes_printer::print_field_bytes(out, at, b"heading"),
        ReadingRule::TooFewBytes => bytes_printer::print_field_bytes(out, at, b"too-few-bytes"),
        ReadingRule::OperationTag => bytes_printer::print_field_bytes(out, at, b"operation-tag"),
        ReadingRule::ValueKind => bytes_printer::print_field_bytes(out, at, b"value-kind"),
        ReadingRule::OptionalTag => bytes_printer::print_field_bytes(out, at, b"optional"),
        ReadingRule::AvailabilityTag => bytes_printer::print_field_bytes(out, at, b"availability"),
        ReadingRule::QuadTag => bytes_printer::print_field_bytes(out, at, b"quad"),
        ReadingRule::ScoreRange => bytes_printer::print_field_bytes(out, at, b"score"),
        ReadingRule::NotUtf8 => bytes_printer::print_field_bytes(out, at, b"text-not-utf8"),
        ReadingRule::PatchCount => bytes_printer::print_field_bytes(out, at, b"patch-count"),
        ReadingRule::OperationCount => bytes_printer::print_field_bytes(
            out,
            at,
            b"operation-count",
        ),
        ReadingRule::TextLength => bytes_printer::print_field_bytes(out, at, b"text-length"),
        ReadingRule::CharacterCount => bytes_printer::print_field_bytes(
            out,
            at,
            b"text-characters",
        ),
        ReadingRule::BytesLeft => bytes_printer::print_field_bytes(out, at, b"bytes-left"),
    }
}

fn print_operation(out: &mut [u8], at: Option<usize>, rule: OperationRule) -> Option<usize>
    ensures { Prints out.old at (spaced_field (operation_word (operation_rule_of rule))) out.new result }
{
    match rule {
        OperationRule::KeyPresent => bytes_printer::print_field_bytes(out, at, b"key-present"),
        OperationRule::KeyAbsent => bytes_printer::print_field_bytes(out, at, b"key-absent"),
        OperationRule::NeighbourAbsent => bytes_printer::print_field_bytes(
            out,
            at,
            b"neighbour-absent",
        ),
        OperationRule::BindingsFull => bytes_printer::print_field_bytes(out, at, b"bindings-full"),
        OperationRule::AvailabilitiesFull => bytes_printer::print_field_bytes(
            out,
            at,
            b"availabilities-full",
        ),
        OperationRule::EntriesFull => bytes_printer::print_field_bytes(out, at, b"entries-full"),
    }
}

// The rule's name.
pub fn print_word(out: &mut [u8], at: Option<usize>, reason: BatchReason) -> Option<usize>
    ensures { Prints out.old at (spaced_field (reason_word (printed_reason_of reason))) out.new result }
{
    match reason {
        BatchReason::ForeignSession { .. } => bytes_printer::print_field_bytes(
            out,
            at,
            b"foreign-session",
        ),
        BatchReason::SessionClosed => bytes_printer::print_field_bytes(out, at, b"closed"),
        BatchReason::DeclaredLimits(which, _, _, _, _) => print_limit(out, at, which),
        BatchReason::Unreadable(stop) => print_reading(out, at, stop.rule),
        BatchReason::HasFindings(_, _, _, _, _) => bytes_printer::print_field_bytes(
            out,
            at,
            b"findings",
        ),
        BatchReason::CountsDiffer(_, _, _, _) => bytes_printer::print_field_bytes(
            out,
            at,
            b"counts-differ",
        ),
        BatchReason::ReferencesOver { .. } => bytes_printer::print_field_bytes(
            out,
            at,
            b"references",
        ),
        BatchReason::UnknownTarget(_, _, _) => bytes_printer::print_field_bytes(
            out,
            at,
            b"unknown-target",
        ),
        BatchReason::CursorMismatch { .. } => bytes_printer::print_field_bytes(out, at, b"cursor"),
        BatchReason::OperationFails(_, _, rule) => print_operation(out, at, rule),
    }
}
