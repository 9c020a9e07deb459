// The rule behind a batch's refusal, as numbers.
ghost use Rattle.std.specs.Prelude.{◌≡◌};
ghost use Rattle.spec_explain.specs.Explain.{given};
ghost use Rattle.session_explain.specs.Meaning.{printed_reason_of, explanation_of};
ghost use Rattle.c_answers.specs.Explanations.{not_explained, explanation_told, lent_explanation_told};

use crate::figures::{GeysertrayFigures, GeysertrayRulePlace};
use crate::{figures, rules};
use session_explain::numbers;
use session_explain::reasons::{BatchExplanation, BatchReason};

// 0 the batch would be taken; 2 it would be refused, with this number and by this rule, GEYSERTRAY_RULE_ and its name, or both are 0 where the
// session's limit of 0 diagnostics withholds them; 3 no session in the memory; 4 no such edition.
#[repr(C)]
#[derive(Clone, Copy)]
pub struct GeysertrayExplanation {
    pub disposition: u64,
    pub number: u64,
    pub rule: u64,
    pub place: GeysertrayRulePlace,
    pub figures: GeysertrayFigures,
}

const REFUSED: u64 = 2;

const NO_SESSION: u64 = 3;

pub fn not_explained(disposition: u64) -> GeysertrayExplanation
    ensures { result ≡ not_explained disposition }
{
    let place = figures::no_place();
    let none = figures::figures(0, 0, 0, 0, 0);
    GeysertrayExplanation {
        disposition,
        number: 0,
        rule: 0,
        place,
        figures: none,
    }
}

fn reason_told(reason: BatchReason) -> GeysertrayExplanation
    ensures { result ≡ explanation_told (given (printed_reason_of reason)) }
{
    let number = numbers::number_of(reason);
    let rule = rules::rule_number(reason);
    let place = figures::rule_place(reason);
    let told = figures::rule_figures(reason);
    GeysertrayExplanation {
        disposition: REFUSED,
        number,
        rule,
        place,
        figures: told,
    }
}

fn explanation_told(explanation: BatchExplanation) -> GeysertrayExplanation
    ensures { result ≡ explanation_told (explanation_of explanation) }
{
    match explanation {
        BatchExplanation::None => not_explained(0),
        BatchExplanation::Withheld => not_explained(REFUSED),
        BatchExplanation::Given(reason) => reason_told(reason),
    }
}

pub fn lent_explanation_told(answer: Option<BatchExplanation>) -> GeysertrayExplanation
    ensures { result ≡ lent_explanation_told answer }
{
    match answer {
        Some(explanation) => explanation_told(explanation),
        None => not_explained(NO_SESSION),
    }
}
