// The state of a replay: its set-up, the session of the latest creation if there is one, the turns of the latest senders, and the edition of sets.
ghost use Rattle.std.specs.Prelude.{◌≡◌};
ghost use Rattle.spec_replay.specs.Replay.{State, onward};
ghost use Rattle.spec_replay.specs.Answers.{no_session_line};
ghost use Rattle.script_calls.specs.ReplayHolds.{ReplayHolds, ReplayStepped, with_latest, with_latest_turns};

use crate::setup::ReplaySetup;
use projection_patch::patch::ProjectionPatchEdition;
use script_answers::session;
use session_turns::SenderTurns;
use shell_player::session::ShellSession;

// Turns of no senders stand for none.
#[derive(Drop)]
pub struct ReplayState {
    pub setup: ReplaySetup,
    pub exists: bool,
    pub session: ShellSession,
    pub turns: SenderTurns,
    pub edition: ProjectionPatchEdition,
}

// The state after a line, where what was printed ends, and whether the replay stops there.
#[derive(Drop)]
pub struct ReplayStep {
    pub state: ReplayState,
    pub printed: Option<usize>,
    pub stopped: bool,
}

// The state with another session.
pub fn with_latest(state: ReplayState, session: ShellSession) -> ReplayState
    ensures { result ≡ with_latest state session }
{
    let mut next = state;
    next.session = session;
    next
}

// The state with other turns.
pub fn with_turns(state: ReplayState, turns: SenderTurns) -> ReplayState
    ensures { result ≡ with_latest_turns state turns }
{
    let mut next = state;
    next.turns = turns;
    next
}

// The answer where a session or senders are asked for and there are none.
pub fn no_session(state: ReplayState, out: &mut [u8]) -> ReplayStep
    ensures { (m : State) → ReplayHolds state m → ReplayStepped state out.old out.new result (onward m no_session_line) }
{
    let printed = session::print_no_session(out, Some(0));
    ReplayStep {
        state,
        printed,
        stopped: false,
    }
}
