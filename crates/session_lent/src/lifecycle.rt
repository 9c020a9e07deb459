// The lifecycle step of a lent session: it changes one number of the head.
ghost use Rattle.std.specs.Prelude.{◌≡◌};
ghost use Rattle.session_lent.specs.Steps.{TransitionCall};
ghost use Rattle.session_lifecycle.specs.Meaning.{stimulus_of};

use crate::head;
use session_lifecycle::lifecycle;
use session_lifecycle::lifecycle::{
    ShellTransitionDisposition, ShellTransitionInput, ShellTransitionResult,
};

// One lifecycle step; none where the head has another number of numbers. Unless it is applied the head stays.
pub fn transition(head: &mut [u64], input: ShellTransitionInput) -> Option<ShellTransitionResult>
    ensures { TransitionCall head.old (stimulus_of input.stimulus) input.stimulus_bytes result head.new }
{
    if head.len() != head::NUMBERS {
        return None;
    }
    let limits = head::limits_in(head);
    let state = head::state_in(head);
    let result = lifecycle::evaluate_lifecycle_transition(limits, state, input);
    if let ShellTransitionDisposition::Applied = result.disposition {
        head[1] = head::lifecycle_number(result.state.lifecycle);
    }
    Some(result)
}
