// The lifecycle transition of a session, on its limits and its state.
ghost use Rattle.std.specs.Prelude.{◌≡◌};
ghost use Rattle.spec_session.specs.Session.{Limits};
ghost use Rattle.spec_session.specs.Lifecycle.{transition, is_closed, disposition_of, reject_lifecycle, enter_lifecycle, lifecycle_step};
ghost use Rattle.session_lifecycle.specs.Meaning.{refusal_of, lifecycle_of, command_of, stimulus_of, candidate_of, disposition_means, answer_of, limits_of, shell_state_of, bare, entered_or_refused};

use crate::diagnostics::{ShellDiagnostics, ShellRefusal, apply_diagnostic_cap, no_diagnostics};
use crate::state::{ShellLifecycle, ShellLifecycleLimits, ShellLocalState};

#[derive(Clone, Copy)]
pub enum ShellLifecycleCommand {
    Activate,
    Suspend,
    Resume,
    Close,
}

#[derive(Clone, Copy)]
pub enum ShellLifecycleStimulus {
    Command(ShellLifecycleCommand),
    ExplicitNoOp,
}

#[derive(Clone, Copy)]
pub struct ShellTransitionInput {
    pub stimulus: ShellLifecycleStimulus,
    pub stimulus_bytes: u64,
}

#[derive(Clone, Copy)]
pub enum ShellTransitionDisposition {
    Applied,
    NoChange,
    Rejected,
}

#[derive(Clone, Copy)]
pub struct ShellTransitionResult {
    pub disposition: ShellTransitionDisposition,
    pub state: ShellLocalState,
    pub diagnostics: ShellDiagnostics,
    pub stimulus_bytes: u64,
}

pub fn is_closed(lifecycle: ShellLifecycle) -> bool
    ensures { result ≡ is_closed (lifecycle_of lifecycle) }
{
    matches!(lifecycle, ShellLifecycle::Closed)
}

// The lifecycle that a command enters, if the pair is listed.
fn entered_by(previous: ShellLifecycle, command: ShellLifecycleCommand) -> Option<ShellLifecycle>
    ensures { candidate_of result ≡ transition (lifecycle_of previous) (command_of command) }
{
    match (previous, command) {
        (ShellLifecycle::Created, ShellLifecycleCommand::Activate) => Some(ShellLifecycle::Active),
        (ShellLifecycle::Active, ShellLifecycleCommand::Suspend) => Some(ShellLifecycle::Suspended),
        (ShellLifecycle::Suspended, ShellLifecycleCommand::Resume) => Some(ShellLifecycle::Active),
        (ShellLifecycle::Closed, ShellLifecycleCommand::Close) => None,
        (_, ShellLifecycleCommand::Close) => Some(ShellLifecycle::Closed),
        _ => None,
    }
}

// The lifecycle after a stimulus; an explicit no-op passes and changes nothing.
fn calculate_candidate_lifecycle(
    previous: ShellLifecycle,
    stimulus: ShellLifecycleStimulus,
) -> Option<ShellLifecycle>
    ensures { candidate_of result ≡ transition (lifecycle_of previous) (stimulus_of stimulus) }
{
    match stimulus {
        ShellLifecycleStimulus::ExplicitNoOp => Some(previous),
        ShellLifecycleStimulus::Command(command) => entered_by(previous, command),
    }
}

fn disposition_of(stimulus: ShellLifecycleStimulus) -> ShellTransitionDisposition
    ensures { disposition_means result ≡ disposition_of (stimulus_of stimulus) }
{
    match stimulus {
        ShellLifecycleStimulus::Command(_) => ShellTransitionDisposition::Applied,
        ShellLifecycleStimulus::ExplicitNoOp => ShellTransitionDisposition::NoChange,
    }
}

// A rejection tells the state as it was, with one diagnostic.
fn reject(
    limits: ShellLifecycleLimits,
    previous: ShellLocalState,
    bytes: u64,
    refusal: ShellRefusal,
) -> ShellTransitionResult
    ensures { answer_of result ≡ (reject_lifecycle (bare (limits_of limits) (shell_state_of previous)) bytes (refusal_of refusal)).answer }
{
    ShellTransitionResult {
        disposition: ShellTransitionDisposition::Rejected,
        state: previous,
        diagnostics: apply_diagnostic_cap(limits.max_diagnostics_per_transition, refusal, 1),
        stimulus_bytes: bytes,
    }
}

// The state with the lifecycle that the stimulus enters; the cursor never moves here.
fn enter(
    previous: ShellLocalState,
    input: ShellTransitionInput,
    lifecycle: ShellLifecycle,
) -> ShellTransitionResult
    ensures { (l : Limits) → answer_of result ≡ (enter_lifecycle (bare l (shell_state_of previous)) input.stimulus_bytes (disposition_of (stimulus_of input.stimulus)) (lifecycle_of lifecycle)).answer }
{
    ShellTransitionResult {
        disposition: disposition_of(input.stimulus),
        state: ShellLocalState {
            lifecycle,
            ..previous
        },
        diagnostics: no_diagnostics(),
        stimulus_bytes: input.stimulus_bytes,
    }
}

// Closed is refused first, then a pair that is not listed, then a byte figure over the limit.
fn entered_lifecycle(
    limits: ShellLifecycleLimits,
    previous: ShellLocalState,
    input: ShellTransitionInput,
) -> Result<ShellLifecycle, ShellRefusal>
    ensures { entered_or_refused (bare (limits_of limits) (shell_state_of previous)) (stimulus_of input.stimulus) input.stimulus_bytes result
        ≡ lifecycle_step (bare (limits_of limits) (shell_state_of previous)) (stimulus_of input.stimulus) input.stimulus_bytes }
{
    if is_closed(previous.lifecycle) {
        return Err(ShellRefusal::SessionClosed);
    }
    let lifecycle = calculate_candidate_lifecycle(previous.lifecycle, input.stimulus).ok_or(
        ShellRefusal::InvalidLifecycle,
    )?;
    if limits.max_transition_stimulus_bytes < input.stimulus_bytes {
        return Err(ShellRefusal::ResourceLimitExceeded);
    }
    Ok(lifecycle)
}

pub fn evaluate_lifecycle_transition(
    limits: ShellLifecycleLimits,
    previous: ShellLocalState,
    input: ShellTransitionInput,
) -> ShellTransitionResult
    ensures { answer_of result ≡ (lifecycle_step (bare (limits_of limits) (shell_state_of previous)) (stimulus_of input.stimulus) input.stimulus_bytes).answer }
{
    match entered_lifecycle(limits, previous, input) {
        Ok(lifecycle) => enter(previous, input, lifecycle),
        Err(refusal) => reject(limits, previous, input.stimulus_bytes, refusal),
    }
}
