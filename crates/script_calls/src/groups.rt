// Several batches, or none.
ghost use Rattle.std.specs.Prelude.{List};
ghost use Rattle.spec_session.specs.Session.{Session};
ghost use Rattle.spec_group.specs.Group as model;
ghost use Rattle.spec_replay.specs.Replay.{State, asked, grouped};
ghost use Rattle.session_group.specs.Groups.{Names};
ghost use Rattle.script_calls.specs.ReplayHolds.{ReplayHolds, ReplayStepped};

use crate::state;
use crate::state::{ReplayState, ReplayStep};
use script_answers::group;
use session_group::GroupBatch;

// A group of so many batches, the first eight of which stand in the places; their sets lie end to end.
pub fn apply_group(
    state: ReplayState,
    batches: [GroupBatch; GroupBatch::MOST],
    count: usize,
    sets: &[u8],
    out: &mut [u8],
) -> ReplayStep
    ensures { (m : State) → ReplayHolds state m → (bs : List model.GroupBatch) → Names count batches bs
        → ReplayStepped state out.old out.new result (asked m (λ (x : Session). grouped m (model.group x bs sets.now))) }
{
    if state.exists {
        let session = state.session;
        let step = session_group::apply_projection_patch_batches(session, batches, count, sets);
        let answer = step.answer;
        let printed = group::print_group(out, Some(0), answer);
        let after = step.session;
        let next = state::with_latest(state, after);
        return ReplayStep {
            state: next,
            printed,
            stopped: false,
        };
    }
    state::no_session(state, out)
}
