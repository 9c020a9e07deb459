// 01's number of each reason.
ghost use Rattle.std.specs.Prelude.{◌≡◌};
ghost use Rattle.session_explain.specs.Numbers.{reading_number_told, operation_number_told, number_told};

use crate::reasons::{BatchReason, OperationRule};
use patch_locate::rules::ReadingRule;

fn reading_number(rule: ReadingRule) -> u64
    ensures { result ≡ reading_number_told rule }
{
    match rule {
        ReadingRule::SetTooLong => 12,
        ReadingRule::WrongHeading => 10,
        ReadingRule::TooFewBytes => 10,
        ReadingRule::OperationTag => 10,
        ReadingRule::ValueKind => 10,
        ReadingRule::OptionalTag => 10,
        ReadingRule::AvailabilityTag => 10,
        ReadingRule::QuadTag => 10,
        ReadingRule::ScoreRange => 10,
        ReadingRule::NotUtf8 => 10,
        ReadingRule::PatchCount => 12,
        ReadingRule::OperationCount => 12,
        ReadingRule::TextLength => 12,
        ReadingRule::CharacterCount => 12,
        ReadingRule::BytesLeft => 10,
    }
}

fn operation_number(rule: OperationRule) -> u64
    ensures { result ≡ operation_number_told rule }
{
    match rule {
        OperationRule::KeyPresent => 8,
        OperationRule::KeyAbsent => 8,
        OperationRule::NeighbourAbsent => 8,
        OperationRule::BindingsFull => 9,
        OperationRule::AvailabilitiesFull => 9,
        OperationRule::EntriesFull => 9,
    }
}

// The number of the refusal that a reason is behind.
pub fn number_of(reason: BatchReason) -> u64
    ensures { result ≡ number_told reason }
{
    match reason {
        BatchReason::ForeignSession { .. } => 1,
        BatchReason::SessionClosed => 2,
        BatchReason::DeclaredLimits(_, _, _, _, _) => 4,
        BatchReason::Unreadable(stop) => reading_number(stop.rule),
        BatchReason::HasFindings(_, _, _, _, _) => 11,
        BatchReason::CountsDiffer(_, _, _, _) => 5,
        BatchReason::ReferencesOver { .. } => 4,
        BatchReason::UnknownTarget(_, _, _) => 6,
        BatchReason::CursorMismatch { .. } => 7,
        BatchReason::OperationFails(_, _, rule) => operation_number(rule),
    }
}
