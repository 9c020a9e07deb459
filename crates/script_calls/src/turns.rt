// Turns among senders: their set-up, registering, and the turn call.
ghost use Rattle.spec_session.specs.Session.{Session};
ghost use Rattle.spec_turns.specs.Turns.{Turns, set_up};
ghost use Rattle.spec_turns.specs.Turns as model;
ghost use Rattle.spec_replay.specs.Replay.{State, asked, asked_turns, settled, registered, turned};
ghost use Rattle.session_lifecycle.specs.Meaning.{cursor_of};
ghost use Rattle.script_calls.specs.ReplayHolds.{ReplayHolds, ReplayStepped};

use crate::state;
use crate::state::{ReplayState, ReplayStep};
use session_lifecycle::state::ProjectionReplayCursor;
use session_turns::SenderTurns;

// A new circle of senders; a refused one leaves the circle before it as it was.
pub fn set_up(state: ReplayState, senders: u64, out: &mut [u8]) -> ReplayStep
    ensures { (m : State) → ReplayHolds state m → ReplayStepped state out.old out.new result (settled m (set_up senders)) }
{
    let made = SenderTurns::new(senders as usize);
    let printed = script_answers::turns::print_set_up(out, Some(0), made);
    let turns = made.unwrap_or(state.turns);
    let next = state::with_turns(state, turns);
    ReplayStep {
        state: next,
        printed,
        stopped: false,
    }
}

// A sender waits for its turn from now on.
pub fn register(state: ReplayState, sender: u64, out: &mut [u8]) -> ReplayStep
    ensures { (m : State) → ReplayHolds state m
        → ReplayStepped state out.old out.new result (asked_turns m (λ (t : Turns). registered m (model.register t sender))) }
{
    let own = state.turns;
    if 0 < own.senders {
        let step = own.register(sender as usize);
        let answer = step.answer;
        let printed = script_answers::turns::print_registration(out, Some(0), answer);
        let waiting = step.turns;
        let next = state::with_turns(state, waiting);
        return ReplayStep {
            state: next,
            printed,
            stopped: false,
        };
    }
    state::no_session(state, out)
}

// Whose turn it is while the session's cursor stands so.
fn turn_at(state: ReplayState, cursor: ProjectionReplayCursor, out: &mut [u8]) -> ReplayStep
    ensures { (m : State) → ReplayHolds state m
        → ReplayStepped state out.old out.new result (asked_turns m (λ (t : Turns). turned m (model.turn t (cursor_of cursor)))) }
{
    let own = state.turns;
    if 0 < own.senders {
        let step = own.turn(cursor);
        let answer = step.answer;
        let printed = script_answers::turns::print_turn(out, Some(0), answer);
        let spent = step.turns;
        let next = state::with_turns(state, spent);
        return ReplayStep {
            state: next,
            printed,
            stopped: false,
        };
    }
    state::no_session(state, out)
}

// Whose turn it is, and the number for its batch.
pub fn turn(state: ReplayState, out: &mut [u8]) -> ReplayStep
    ensures { (m : State) → ReplayHolds state m
        → ReplayStepped state out.old out.new result (asked m (λ (x : Session). asked_turns m (λ (t : Turns). turned m (model.turn t x.cursor)))) }
{
    if state.exists {
        let session = state.session;
        let cursor = session.replay_cursor();
        return turn_at(state, cursor, out);
    }
    state::no_session(state, out)
}
