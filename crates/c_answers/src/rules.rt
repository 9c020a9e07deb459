// The numbers of the rules behind a refusal, from 1 to 31.
ghost use Rattle.std.specs.Prelude.{◌≡◌};
ghost use Rattle.patch_locate.specs.Answers.{reading_rule_of};
ghost use Rattle.session_explain.specs.Meaning.{limit_of, operation_rule_of, printed_reason_of};
ghost use Rattle.c_answers.specs.Explanations.{limit_rule, reading_rule, operation_rule, rule_number};

use patch_locate::rules::ReadingRule;
use session_explain::reasons::{BatchReason, DeclaredLimit, OperationRule};

fn limit_rule(which: DeclaredLimit) -> u64
    ensures { result ≡ limit_rule (limit_of which) }
{
    match which {
        DeclaredLimit::Patches => 3,
        DeclaredLimit::Bytes => 4,
        DeclaredLimit::Both => 5,
    }
}

fn reading_rule(rule: ReadingRule) -> u64
    ensures { result ≡ reading_rule (reading_rule_of rule) }
{
    match rule {
        ReadingRule::SetTooLong => 6,
        ReadingRule::WrongHeading => 7,
        ReadingRule::TooFewBytes => 8,
        ReadingRule::OperationTag => 9,
        ReadingRule::ValueKind => 10,
        ReadingRule::OptionalTag => 11,
        ReadingRule::AvailabilityTag => 12,
        ReadingRule::QuadTag => 13,
        ReadingRule::ScoreRange => 14,
        ReadingRule::NotUtf8 => 15,
        ReadingRule::PatchCount => 16,
        ReadingRule::OperationCount => 17,
        ReadingRule::TextLength => 18,
        ReadingRule::CharacterCount => 19,
        ReadingRule::BytesLeft => 20,
    }
}

fn operation_rule(rule: OperationRule) -> u64
    ensures { result ≡ operation_rule (operation_rule_of rule) }
{
    match rule {
        OperationRule::KeyPresent => 26,
        OperationRule::KeyAbsent => 27,
        OperationRule::NeighbourAbsent => 28,
        OperationRule::BindingsFull => 29,
        OperationRule::AvailabilitiesFull => 30,
        OperationRule::EntriesFull => 31,
    }
}

// The number of the rule that a reason tells.
pub(crate) fn rule_number(reason: BatchReason) -> u64
    ensures { result ≡ rule_number (printed_reason_of reason) }
{
    match reason {
        BatchReason::ForeignSession { .. } => 1,
        BatchReason::SessionClosed => 2,
        BatchReason::DeclaredLimits(which, _, _, _, _) => limit_rule(which),
        BatchReason::Unreadable(stop) => reading_rule(stop.rule),
        BatchReason::HasFindings(_, _, _, _, _) => 21,
        BatchReason::CountsDiffer(_, _, _, _) => 22,
        BatchReason::ReferencesOver { .. } => 23,
        BatchReason::UnknownTarget(_, _, _) => 24,
        BatchReason::CursorMismatch { .. } => 25,
        BatchReason::OperationFails(_, _, rule) => operation_rule(rule),
    }
}
