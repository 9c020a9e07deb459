// Lines that print nothing, and any other line: what sets up the next creation, the edition of sets, and a remark.
ghost use Rattle.std.specs.Prelude.{List, ℕ};
ghost use Rattle.spec_replay.specs.Answers.{other_line};
ghost use Rattle.spec_replay.specs.Script as script;
ghost use Rattle.spec_replay.specs.Replay as replay;
ghost use Rattle.spec_replay.specs.Replay.{Setup, State, stops, replay_line};
ghost use Rattle.projection_patch.specs.Meaning.{edition_of};
ghost use Rattle.script_parser.specs.Meaning.{setup_of};
ghost use Rattle.script_calls.specs.SetsUp.{SetsUp};
ghost use Rattle.script_calls.specs.ReplayHolds.{ReplayHolds, ReplayStepped};
ghost use Rattle.script_replay.specs.SetupLines.{next_setup};

use active_projection_target_catalog::catalog::{ActiveProjectionTargetCatalog, BindingPair};
use projection_patch::patch::ProjectionPatchEdition;
use script_answers::session;
use script_calls::setup::ReplaySetup;
use script_calls::state::{ReplayState, ReplayStep};
use script_parser::SetupLine;
use session_lifecycle::state::ShellLifecycleLimits;
use session_turns::SenderTurns;

// The state before the first line: no limits, no anchors, no session and no senders, and sets of the first edition. What stands for no session is what a creation gives that is refused.
pub fn start() -> ReplayState
    ensures { ReplayHolds result replay.start }
{
    let limits = ShellLifecycleLimits {
        max_transition_stimulus_bytes: 0,
        max_diagnostics_per_transition: 0,
        max_patches_per_transition: 0,
        max_target_references_per_transition: 0,
    };
    let setup = ReplaySetup::new(0, limits);
    let pairs = [BindingPair { node: 0, slot: 0 }; ActiveProjectionTargetCatalog::ANCHORS];
    let refused = session_creation::create_shell_session(
        0,
        limits,
        &[],
        pairs,
        ActiveProjectionTargetCatalog::ANCHORS + 1,
        &[],
    );
    let session = refused.session;
    ReplayState {
        setup,
        exists: false,
        session,
        turns: SenderTurns::none(),
        edition: ProjectionPatchEdition::V1,
    }
}

// A line that asks for nothing.
pub(crate) fn nothing(state: ReplayState) -> ReplayStep
    ensures { (m : State) → ReplayHolds state m → (number : ℕ) (out : List ℕ) → ReplayStepped state out out result (replay_line number m script.nothing) }
{
    ReplayStep {
        state,
        printed: Some(0),
        stopped: false,
    }
}

// What a line makes of the set-up.
fn next_setup(own: ReplaySetup, line: SetupLine) -> ReplaySetup
    ensures { (m : Setup) → SetsUp own m → SetsUp result (next_setup m line) }
{
    match line {
        SetupLine::Session(id, limits) => ReplaySetup::new(id, limits),
        SetupLine::Node(node) => own.with_node(node),
        SetupLine::Binding(node, slot) => {
            let pair = BindingPair { node, slot };
            own.with_binding(pair)
        }
        SetupLine::Collection(collection) => own.with_collection(collection),
    }
}

// A line for the next creation; session and turns stay.
pub(crate) fn set_up(state: ReplayState, line: SetupLine) -> ReplayStep
    ensures { (m : State) → ReplayHolds state m → (number : ℕ) (out : List ℕ) → ReplayStepped state out out result (replay_line number m (setup_of line)) }
{
    let own = state.setup;
    let setup = next_setup(own, line);
    let mut next = state;
    next.setup = setup;
    ReplayStep {
        state: next,
        printed: Some(0),
        stopped: false,
    }
}

// The edition of every set from here on.
pub(crate) fn in_edition(state: ReplayState, edition: ProjectionPatchEdition) -> ReplayStep
    ensures { (m : State) → ReplayHolds state m → (number : ℕ) (out : List ℕ) → ReplayStepped state out out result (replay_line number m (script.edition (edition_of edition))) }
{
    let setup = state.setup;
    let session = state.session;
    let turns = state.turns;
    let next = ReplayState {
        setup,
        exists: state.exists,
        session,
        turns,
        edition,
    };
    ReplayStep {
        state: next,
        printed: Some(0),
        stopped: false,
    }
}

// Any other line ends the replay.
pub(crate) fn other(state: ReplayState, number: u64, out: &mut [u8]) -> ReplayStep
    ensures { ReplayStepped state out.old out.new result (stops (other_line number)) }
{
    let printed = session::print_other(out, Some(0), number);
    ReplayStep {
        state,
        printed,
        stopped: true,
    }
}
