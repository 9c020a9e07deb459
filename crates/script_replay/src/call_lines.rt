// Lines that call the session or the senders' turns, or make one of these; and the edition.
ghost use Rattle.std.specs.Prelude.{ℕ};
ghost use Rattle.spec_replay.specs.Replay.{State, replay_line};
ghost use Rattle.script_parser.specs.Meaning.{call_of};
ghost use Rattle.script_calls.specs.ReplayHolds.{ReplayHolds, ReplayStepped};

use crate::setup_lines;
use script_calls::state::{ReplayState, ReplayStep};
use script_calls::{calls, marks, paper, turns, views};
use script_parser::CallLine;

pub(crate) fn call(state: ReplayState, wanted: CallLine, out: &mut [u8]) -> ReplayStep
    ensures { (m : State) → ReplayHolds state m → (number : ℕ) → ReplayStepped state out.old out.new result (replay_line number m (call_of wanted)) }
{
    match wanted {
        CallLine::Create => calls::create_latest(state, out),
        CallLine::Apply(input) => calls::apply(state, input, out),
        CallLine::Show => views::show(state, out),
        CallLine::ValueBinding(node, slot) => views::binding_value(state, node, slot, out),
        CallLine::ValueNode(node) => views::node_availability(state, node, out),
        CallLine::ValueEntry(collection, key) => views::entry_value(state, collection, key, out),
        CallLine::MarkBinding(node, slot) => marks::binding_mark(state, node, slot, out),
        CallLine::MarkNode(node) => marks::availability_mark(state, node, out),
        CallLine::MarkEntry(collection, key) => marks::entry_mark(state, collection, key, out),
        CallLine::Senders(count) => turns::set_up(state, count, out),
        CallLine::Wait(sender) => turns::register(state, sender, out),
        CallLine::Turn => turns::turn(state, out),
        CallLine::Edition(edition) => setup_lines::in_edition(state, edition),
        CallLine::Print(collection, room) => {
            paper::print_collection(state, collection, room, out)
        }
        CallLine::Length(collection) => views::collection_length(state, collection, out),
    }
}
