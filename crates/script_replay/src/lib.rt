// One line of a replay script: the command that it asks for is run, and its answer printed.
#![tactic(auto)]

mod batch_lines;
mod call_lines;
mod dependency_lines;
mod group_lines;
mod import_lines;
mod page_lines;
mod set_lines;
mod setup_lines;

ghost use Rattle.spec_replay.specs.Script.{command};
ghost use Rattle.spec_replay.specs.Replay.{State, replay_line};
ghost use Rattle.script_calls.specs.ReplayHolds.{ReplayHolds, ReplayStepped};

use script_calls::state::{ReplayState, ReplayStep};
use script_parser::ScriptCommand;
use set_dependencies::settled_rows;
pub use setup_lines::start;

// Room for the longest answer: the keys that a set depends on, of which a set of 32,768 bytes has at most 2,520. `dependencies_fit` proves that
// it holds these; a listing has at most 102,150 bytes.
pub const ANSWER_BYTES: usize = 52 + settled_rows::ROWS * 44;

// Runs the line of a number, from 1, without its LF. As much of its answer as fits stands from the start of out; the state is that after the
// line whether it fits or not, and stays as it is where the replay stops.
pub fn run_line(state: ReplayState, number: u64, line: &[u8], out: &mut [u8]) -> ReplayStep
    ensures { (m : State) → ReplayHolds state m → ReplayStepped state out.old out.new result (replay_line number m (command line.now)) }
{
    if ScriptCommand::LINE_BYTES < line.len() {
        return setup_lines::other(state, number, out);
    }
    match script_parser::parse_line(line) {
        ScriptCommand::Nothing => setup_lines::nothing(state),
        ScriptCommand::Setup(wanted) => setup_lines::set_up(state, wanted),
        ScriptCommand::Call(wanted) => call_lines::call(state, wanted, out),
        ScriptCommand::WithSet(wanted, from) => {
            set_lines::run_with_set(state, wanted, from, number, line, out)
        }
        ScriptCommand::Group(end) => group_lines::run_group(state, end, number, line, out),
        ScriptCommand::Page(end) => page_lines::run_page(state, end, number, line, out),
        ScriptCommand::Other => setup_lines::other(state, number, out),
    }
}
