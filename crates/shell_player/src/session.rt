// The session by value, and its lifecycle step.
ghost use Rattle.std.specs.Prelude.{◌≡◌};
ghost use Rattle.spec_session.specs.Session.{Session};
ghost use Rattle.spec_session.specs.Lifecycle.{state_of, lifecycle_step};
ghost use Rattle.session_lifecycle.specs.Meaning.{stimulus_of, answer_of, bare, limits_of, lifecycle_of, cursor_of, shell_state_of};
ghost use Rattle.shell_player.specs.Holds.{Holds};
ghost use Rattle.shell_player.specs.Steps.{new_state, after_transition};

use local_projection_state::LocalProjectionState;
use session_lifecycle::lifecycle;
use session_lifecycle::lifecycle::{ShellTransitionInput, ShellTransitionResult};
use session_lifecycle::state::{ProjectionReplayCursor, ShellLifecycle, ShellLocalState};
use session_steps::checks::ActivatedShellSessionContext;
use session_steps::states;

#[derive(Clone, Copy)]
pub struct ShellSession {
    pub context: ActivatedShellSessionContext,
    pub state: ShellLocalState,
    pub local_projection: LocalProjectionState,
}

// The session after a lifecycle step, and the step's answer.
#[derive(Drop)]
pub struct ShellTransition {
    pub session: ShellSession,
    pub result: ShellTransitionResult,
}

impl ShellSession {
    // A session that was just activated: Created and Uninitialized, with an empty projection.
    pub fn new(context: ActivatedShellSessionContext) -> ShellSession
        ensures { result ≡ new_state context }
    {
        let session_id = context.session_id;
        let state = ShellLocalState {
            session_id,
            lifecycle: ShellLifecycle::Created,
            replay_cursor: ProjectionReplayCursor::Uninitialized,
        };
        let local_projection = LocalProjectionState::empty();
        ShellSession {
            context,
            state,
            local_projection,
        }
    }

    pub fn state(self) -> ShellLocalState
        ensures whatever { result ≡ self.state }
        ensures holding { (m : Session) → Holds self m → shell_state_of result ≡ state_of m }
    {
        self.state
    }

    pub fn lifecycle(self) -> ShellLifecycle
        ensures whatever { result ≡ self.state.lifecycle }
        ensures holding { (m : Session) → Holds self m → lifecycle_of result ≡ m.lifecycle }
    {
        let state = self.state;
        state.lifecycle
    }

    pub fn replay_cursor(self) -> ProjectionReplayCursor
        ensures whatever { result ≡ self.state.replay_cursor }
        ensures holding { (m : Session) → Holds self m → cursor_of result ≡ m.cursor }
    {
        let state = self.state;
        state.replay_cursor
    }

    // The lifecycle step: the session that it leads to, which is the old one unless it was applied.
    pub fn transition(self, input: ShellTransitionInput) -> ShellTransition
        ensures whatever { result ≡ after_transition self result.result }
        ensures holding { (m : Session) → Holds self m → (answer_of result.result ≡ (lifecycle_step m (stimulus_of input.stimulus) input.stimulus_bytes).answer)
            × Holds result.session (lifecycle_step m (stimulus_of input.stimulus) input.stimulus_bytes).next }
        ensures answered { answer_of result.result ≡ (lifecycle_step (bare (limits_of self.context.limits) (shell_state_of self.state)) (stimulus_of input.stimulus) input.stimulus_bytes).answer }
    {
        let context = self.context;
        let limits = context.limits;
        let state = self.state;
        let result = lifecycle::evaluate_lifecycle_transition(limits, state, input);
        let next = states::next_state(state, result);
        let mut session = self;
        session.state = next;
        ShellTransition { session, result }
    }
}
