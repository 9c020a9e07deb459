// The state of a session after a step.
ghost use Rattle.std.specs.Prelude.{◌≡◌};
ghost use Rattle.session_lifecycle.specs.Meaning.{shell_state_of};
ghost use Rattle.session_steps.specs.States.{moved_to, next_state};

use session_lifecycle::lifecycle::{ShellTransitionDisposition, ShellTransitionResult};
use session_lifecycle::state::{ProjectionReplayCursor, ShellLocalState};

// After a batch that was applied: the cursor is at its number.
pub fn advanced(state: ShellLocalState, number: u64) -> ShellLocalState
    ensures { shell_state_of result ≡ moved_to (shell_state_of state) number }
{
    ShellLocalState {
        replay_cursor: ProjectionReplayCursor::At(number),
        ..state
    }
}

// After a lifecycle step: the answer's state where it was applied, else the one before.
pub fn next_state(state: ShellLocalState, res: ShellTransitionResult) -> ShellLocalState
    ensures { result ≡ next_state state res.disposition res.state }
{
    match res.disposition {
        ShellTransitionDisposition::Applied => res.state,
        ShellTransitionDisposition::NoChange => state,
        ShellTransitionDisposition::Rejected => state,
    }
}
