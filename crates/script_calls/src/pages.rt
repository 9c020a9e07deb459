// A page of keys of the session, looked up together.
ghost use Rattle.std.proofs.Math.Option.{none};
ghost use Rattle.std.specs.Prelude.{◌/◌, length, replicate};
ghost use Rattle.spec_session.specs.Session.{Session};
ghost use Rattle.spec_page.specs.Page.{page};
ghost use Rattle.spec_replay.specs.Answers.{page_lines};
ghost use Rattle.spec_replay.specs.Replay.{State, asked, onward};
ghost use Rattle.bytes_printer.specs.Prints.{Prints};
ghost use Rattle.panel_page.specs.PageTable.{page_width};
ghost use Rattle.shell_player.specs.Holds.{Holds};
ghost use Rattle.script_calls.specs.ReplayHolds.{ReplayHolds, ReplayStepped};

use crate::state;
use crate::state::{ReplayState, ReplayStep};
use panel_page::rows::PageLookup;
use shell_player::session::ShellSession;

// As many places as a room can count.
const PAGE_BYTES: usize = u8::MAX as usize * PageLookup::WIDTH;

fn page_lent(
    session: ShellSession,
    collection: u64,
    keys: &[u64],
    lent: &mut [u8],
    out: &mut [u8],
) -> Option<usize>
    ensures { (m : Session) → Holds session m
        → Prints out.old (Some 0) (page_lines (length keys.now) (page m.projection collection keys.now (replicate (length lent.old / page_width) none))) out.new result }
{
    let answer = session_views::page::collection_page(session, collection, keys, lent);
    script_answers::page::print_page(out, Some(0), answer, lent)
}

// A page into so many places, all zero.
fn page_into(
    session: ShellSession,
    collection: u64,
    room: u8,
    keys: &[u64],
    out: &mut [u8],
) -> Option<usize>
    ensures { (m : Session) → Holds session m
        → Prints out.old (Some 0) (page_lines (length keys.now) (page m.projection collection keys.now (replicate room none))) out.new result }
{
    let mut lent = [0u8; PAGE_BYTES];
    let end = room as usize * PageLookup::WIDTH;
    page_lent(session, collection, keys, &mut lent[0..end], out)
}

// The keys of a collection, looked up into so many places.
pub fn look_up(
    state: ReplayState,
    collection: u64,
    room: u8,
    keys: &[u64],
    out: &mut [u8],
) -> ReplayStep
    ensures { (m : State) → ReplayHolds state m
        → ReplayStepped state out.old out.new result (asked m (λ (x : Session). onward m (page_lines (length keys.now) (page x.projection collection keys.now (replicate room none))))) }
{
    if state.exists {
        let session = state.session;
        let printed = page_into(session, collection, room, keys, out);
        return ReplayStep {
            state,
            printed,
            stopped: false,
        };
    }
    state::no_session(state, out)
}
