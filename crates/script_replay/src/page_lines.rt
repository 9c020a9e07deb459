// Lines of a page of keys.
ghost use Rattle.spec_replay.specs.Lines.{space};
ghost use Rattle.spec_replay.specs.Script.{page_arguments};
ghost use Rattle.spec_replay.specs.Replay.{State, replay_line};
ghost use Rattle.script_parser.specs.Fields.{fields_after};
ghost use Rattle.script_calls.specs.ReplayHolds.{ReplayHolds, ReplayStepped};

use crate::setup_lines;
use script_calls::pages;
use script_calls::state::{ReplayState, ReplayStep};
use script_parser::keys;

// A page, whose word ends at index end of the line.
pub(crate) fn run_page(
    state: ReplayState,
    end: usize,
    number: u64,
    line: &[u8],
    out: &mut [u8],
) -> ReplayStep
    ensures { (m : State) → ReplayHolds state m
        → ReplayStepped state out.old out.new result (replay_line number m (page_arguments (fields_after space line.now end))) }
{
    match keys::read_page(line, end) {
        Some(page) => {
            let asked = page.keys;
            pages::look_up(state, page.collection, page.room, &asked[..page.count], out)
        }
        None => setup_lines::other(state, number, out),
    }
}
