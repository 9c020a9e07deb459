// Where a rule was broken, and the figures that it went by.
ghost use Rattle.std.specs.Prelude.{◌≡◌};
ghost use Rattle.spec_lists.specs.Options.{optional_of};
ghost use Rattle.patch_locate.specs.Answers.{inside_of};
ghost use Rattle.session_explain.specs.Meaning.{finding_place_of, printed_reason_of};
ghost use Rattle.c_answers.specs.Explanations.{in_no_patch, in_one_patch, in_one_operation, inside_place, findings_place, rule_place, figures_to, taken_figure, rule_figures};

use check_set::check_set::CheckPlace;
use patch_locate::rules::Inside;
use session_explain::reasons::BatchReason;

// The patch and the operation that a rule tells, by their indices from 0: 1 where it tells one.
#[repr(C)]
#[derive(Clone, Copy)]
pub struct GeysertrayRulePlace {
    pub has_patch: u64,
    pub patch: u64,
    pub has_operation: u64,
    pub operation: u64,
}

// So many figures of a rule, in the order of docs/RULES.md without patch and operation; the others are 0.
#[repr(C)]
#[derive(Clone, Copy)]
pub struct GeysertrayFigures {
    pub count: u64,
    pub first: u64,
    pub second: u64,
    pub third: u64,
    pub fourth: u64,
}

pub(crate) fn no_place() -> GeysertrayRulePlace
    ensures { result ≡ in_no_patch }
{
    GeysertrayRulePlace {
        has_patch: 0,
        patch: 0,
        has_operation: 0,
        operation: 0,
    }
}

fn patch_place(patch: usize) -> GeysertrayRulePlace
    ensures { result ≡ in_one_patch patch }
{
    GeysertrayRulePlace {
        has_patch: 1,
        patch: patch as u64,
        has_operation: 0,
        operation: 0,
    }
}

fn operation_place(patch: usize, operation: usize) -> GeysertrayRulePlace
    ensures { result ≡ in_one_operation patch operation }
{
    GeysertrayRulePlace {
        has_patch: 1,
        patch: patch as u64,
        has_operation: 1,
        operation: operation as u64,
    }
}

fn inside_place(inside: Inside) -> GeysertrayRulePlace
    ensures { result ≡ inside_place (inside_of inside) }
{
    match inside {
        Inside::Outside => no_place(),
        Inside::Patch(i) => patch_place(i),
        Inside::Operation(i, j) => operation_place(i, j),
    }
}

fn findings_place(place: CheckPlace) -> GeysertrayRulePlace
    ensures { result ≡ findings_place (finding_place_of place) }
{
    match place {
        CheckPlace::Patch(i) => patch_place(i),
        CheckPlace::Set => no_place(),
    }
}

pub(crate) fn rule_place(reason: BatchReason) -> GeysertrayRulePlace
    ensures { result ≡ rule_place (printed_reason_of reason) }
{
    match reason {
        BatchReason::ForeignSession { .. } => no_place(),
        BatchReason::SessionClosed => no_place(),
        BatchReason::DeclaredLimits(_, _, _, _, _) => no_place(),
        BatchReason::Unreadable(stop) => inside_place(stop.inside),
        BatchReason::HasFindings(place, _, _, _, _) => findings_place(place),
        BatchReason::CountsDiffer(_, _, _, _) => no_place(),
        BatchReason::ReferencesOver { .. } => no_place(),
        BatchReason::UnknownTarget(_, patch, operation) => operation_place(patch, operation),
        BatchReason::CursorMismatch { .. } => no_place(),
        BatchReason::OperationFails(patch, operation, _) => operation_place(patch, operation),
    }
}

pub(crate) fn figures(
    count: u64,
    first: u64,
    second: u64,
    third: u64,
    fourth: u64,
) -> GeysertrayFigures
    ensures { result ≡ figures_to count first second third fourth }
{
    GeysertrayFigures {
        count,
        first,
        second,
        third,
        fourth,
    }
}

fn taken_figure(takes: Option<u64>) -> GeysertrayFigures
    ensures { result ≡ taken_figure (optional_of takes) }
{
    match takes {
        None => figures(0, 0, 0, 0, 0),
        Some(n) => figures(1, n, 0, 0, 0),
    }
}

pub(crate) fn rule_figures(reason: BatchReason) -> GeysertrayFigures
    ensures { result ≡ rule_figures (printed_reason_of reason) }
{
    match reason {
        BatchReason::ForeignSession { named, own } => figures(2, named, own, 0, 0),
        BatchReason::SessionClosed => figures(0, 0, 0, 0, 0),
        BatchReason::DeclaredLimits(_, a, b, c, d) => figures(4, a, b, c, d),
        BatchReason::Unreadable(stop) => figures(1, stop.at as u64, 0, 0, 0),
        BatchReason::HasFindings(_, n, kind, domain, secondary) => figures(
            4, n as u64, kind, domain, secondary,
        ),
        BatchReason::CountsDiffer(a, b, c, d) => figures(4, a, b, c, d),
        BatchReason::ReferencesOver { actual, limit } => figures(2, actual, limit, 0, 0),
        BatchReason::UnknownTarget(n, _, _) => figures(1, n as u64, 0, 0, 0),
        BatchReason::CursorMismatch { takes } => taken_figure(takes),
        BatchReason::OperationFails(_, _, _) => figures(0, 0, 0, 0, 0),
    }
}
