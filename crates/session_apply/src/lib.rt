// The outermost lifecycle call: the session stands behind a mutable reference, as `ShellSession::apply` of
// crates/prom-ui-runtime/src/shell_player.rs takes it.
#![tactic(auto)]

ghost use Rattle.std.specs.Prelude.{◌≡◌};
ghost use Rattle.session_apply.specs.Applied.{is_applied, Stepped, StepsInPlace};

use session_lifecycle::lifecycle::{
    ShellTransitionDisposition, ShellTransitionInput, ShellTransitionResult,
};
use shell_player::session::{ShellSession, ShellTransition};

// Whether the next session is to be stored.
fn is_applied(disposition: ShellTransitionDisposition) -> bool
    ensures { result ≡ is_applied disposition }
{
    match disposition {
        ShellTransitionDisposition::Applied => true,
        ShellTransitionDisposition::NoChange => false,
        ShellTransitionDisposition::Rejected => false,
    }
}

// The lifecycle step; the next session is stored where it was applied.
pub fn apply(session: &mut ShellSession, input: ShellTransitionInput) -> ShellTransitionResult
    ensures { StepsInPlace session.old input result session.new }
{
    let found = *session;
    let step = found.transition(input);
    let result = step.result;
    let disposition = result.disposition;
    if is_applied(disposition) {
        *session = step.session;
    }
    result
}

// The same on a session by value, for callers that keep it in a local.
pub fn applied_once(session: ShellSession, input: ShellTransitionInput) -> ShellTransition
    ensures { Stepped session input result }
{
    let mut next = session;
    let result = apply(&mut next, input);
    ShellTransition {
        session: next,
        result,
    }
}
