// What a replay shows of the session: its projection, and values and lengths of it.
ghost use Rattle.spec_projection.specs.Lookups.{binding_of, availability_of, entry_of, entry_count};
ghost use Rattle.spec_session.specs.Session.{Session};
ghost use Rattle.spec_listing.specs.Listing.{projection_lines};
ghost use Rattle.spec_replay.specs.Replay.{State, asked, onward};
ghost use Rattle.spec_replay.specs.Answers.{value_line, availability_answer_line, length_line};
ghost use Rattle.script_calls.specs.ReplayHolds.{ReplayHolds, ReplayStepped};

use crate::state;
use crate::state::{ReplayState, ReplayStep};
use script_answers::value;

// The projection as a listing.
pub fn show(state: ReplayState, out: &mut [u8]) -> ReplayStep
    ensures { (m : State) → ReplayHolds state m
        → ReplayStepped state out.old out.new result (asked m (λ (x : Session). onward m (projection_lines x.projection))) }
{
    if state.exists {
        let session = state.session;
        let projection = session.local_projection;
        let printed = listing_lines::tables::print_projection(out, Some(0), projection);
        return ReplayStep {
            state,
            printed,
            stopped: false,
        };
    }
    state::no_session(state, out)
}

// The value of a binding.
pub fn binding_value(state: ReplayState, node: u64, slot: u32, out: &mut [u8]) -> ReplayStep
    ensures { (m : State) → ReplayHolds state m
        → ReplayStepped state out.old out.new result (asked m (λ (x : Session). onward m (value_line (binding_of x.projection node slot)))) }
{
    if state.exists {
        let session = state.session;
        let lookup = session.binding_value(node, slot);
        let printed = value::print_value(out, Some(0), lookup);
        return ReplayStep {
            state,
            printed,
            stopped: false,
        };
    }
    state::no_session(state, out)
}

// A node's availability.
pub fn node_availability(state: ReplayState, node: u64, out: &mut [u8]) -> ReplayStep
    ensures { (m : State) → ReplayHolds state m
        → ReplayStepped state out.old out.new result (asked m (λ (x : Session). onward m (availability_answer_line (availability_of x.projection node)))) }
{
    if state.exists {
        let session = state.session;
        let lookup = session.node_availability(node);
        let printed = value::print_availability(out, Some(0), lookup);
        return ReplayStep {
            state,
            printed,
            stopped: false,
        };
    }
    state::no_session(state, out)
}

// The value of a collection's key.
pub fn entry_value(state: ReplayState, collection: u64, key: u64, out: &mut [u8]) -> ReplayStep
    ensures { (m : State) → ReplayHolds state m
        → ReplayStepped state out.old out.new result (asked m (λ (x : Session). onward m (value_line (entry_of x.projection collection key)))) }
{
    if state.exists {
        let session = state.session;
        let lookup = session.entry_value(collection, key);
        let printed = value::print_value(out, Some(0), lookup);
        return ReplayStep {
            state,
            printed,
            stopped: false,
        };
    }
    state::no_session(state, out)
}

// How many entries a collection has, as it is stored.
pub fn collection_length(state: ReplayState, collection: u64, out: &mut [u8]) -> ReplayStep
    ensures { (m : State) → ReplayHolds state m
        → ReplayStepped state out.old out.new result (asked m (λ (x : Session). onward m (length_line (entry_count x.projection collection)))) }
{
    if state.exists {
        let session = state.session;
        let length = session.collection_length(collection);
        let printed = listing_lines::print_number_line(out, Some(0), 90, length);
        return ReplayStep {
            state,
            printed,
            stopped: false,
        };
    }
    state::no_session(state, out)
}
