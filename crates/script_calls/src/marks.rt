// Which patch wrote a row of the session's projection.
ghost use Rattle.spec_projection.specs.Lookups.{binding_mark, availability_mark, entry_mark};
ghost use Rattle.spec_session.specs.Session.{Session};
ghost use Rattle.spec_replay.specs.Replay.{State, asked, onward};
ghost use Rattle.spec_replay.specs.Answers.{mark_line};
ghost use Rattle.script_calls.specs.ReplayHolds.{ReplayHolds, ReplayStepped};

use crate::state;
use crate::state::{ReplayState, ReplayStep};
use script_answers::value;

// The mark of a binding.
pub fn binding_mark(state: ReplayState, node: u64, slot: u32, out: &mut [u8]) -> ReplayStep
    ensures { (m : State) → ReplayHolds state m
        → ReplayStepped state out.old out.new result (asked m (λ (x : Session). onward m (mark_line (binding_mark x.projection node slot)))) }
{
    if state.exists {
        let session = state.session;
        let lookup = session.binding_value(node, slot);
        let printed = value::print_mark(out, Some(0), lookup.found, lookup.mark);
        return ReplayStep {
            state,
            printed,
            stopped: false,
        };
    }
    state::no_session(state, out)
}

// The mark of a node's availability.
pub fn availability_mark(state: ReplayState, node: u64, out: &mut [u8]) -> ReplayStep
    ensures { (m : State) → ReplayHolds state m
        → ReplayStepped state out.old out.new result (asked m (λ (x : Session). onward m (mark_line (availability_mark x.projection node)))) }
{
    if state.exists {
        let session = state.session;
        let lookup = session.node_availability(node);
        let printed = value::print_mark(out, Some(0), lookup.found, lookup.mark);
        return ReplayStep {
            state,
            printed,
            stopped: false,
        };
    }
    state::no_session(state, out)
}

// The mark of a collection's key.
pub fn entry_mark(state: ReplayState, collection: u64, key: u64, out: &mut [u8]) -> ReplayStep
    ensures { (m : State) → ReplayHolds state m
        → ReplayStepped state out.old out.new result (asked m (λ (x : Session). onward m (mark_line (entry_mark x.projection collection key)))) }
{
    if state.exists {
        let session = state.session;
        let lookup = session.entry_value(collection, key);
        let printed = value::print_mark(out, Some(0), lookup.found, lookup.mark);
        return ReplayStep {
            state,
            printed,
            stopped: false,
        };
    }
    state::no_session(state, out)
}
