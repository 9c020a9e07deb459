// Creation, lifecycle steps and batches.
ghost use Rattle.std.specs.Prelude.{◌≡◌, min};
ghost use Rattle.spec_session.specs.Session.{create, Session};
ghost use Rattle.spec_session.specs.Lifecycle.{lifecycle_step};
ghost use Rattle.spec_session.specs.Batch.{batch};
ghost use Rattle.spec_replay.specs.Replay.{Setup, State, kept_anchors, asked, created, applied, batched};
ghost use Rattle.session_lifecycle.specs.Meaning.{stimulus_of};
ghost use Rattle.session_gates.specs.Gates.{batch_envelope_of};
ghost use Rattle.session_creation.specs.Creation.{Creates};
ghost use Rattle.script_calls.specs.SetsUp.{SetsUp};
ghost use Rattle.script_calls.specs.ReplayHolds.{is_created, ReplayHolds, ReplayStepped};

use crate::setup::ReplaySetup;
use crate::state;
use crate::state::{ReplayState, ReplayStep};
use script_answers::session;
use session_creation::{CreationRefusal, ShellSessionCreation};
use session_gates::gates::OrderedProjectionPatchBatchEnvelope;
use session_lifecycle::lifecycle::ShellTransitionInput;

// A lifecycle step of the session.
pub fn apply(state: ReplayState, input: ShellTransitionInput, out: &mut [u8]) -> ReplayStep
    ensures { (m : State) → ReplayHolds state m
        → ReplayStepped state out.old out.new result (asked m (λ (x : Session). applied m (lifecycle_step x (stimulus_of input.stimulus) input.stimulus_bytes))) }
{
    if state.exists {
        let session = state.session;
        let step = session_apply::applied_once(session, input);
        let result = step.result;
        let printed = session::print_lifecycle(out, Some(0), result);
        let after = step.session;
        let next = state::with_latest(state, after);
        return ReplayStep {
            state: next,
            printed,
            stopped: false,
        };
    }
    state::no_session(state, out)
}

// A batch of patches for the session.
pub fn apply_batch(
    state: ReplayState,
    envelope: OrderedProjectionPatchBatchEnvelope,
    references: u64,
    set: &[u8],
    out: &mut [u8],
) -> ReplayStep
    ensures { (m : State) → ReplayHolds state m
        → ReplayStepped state out.old out.new result (asked m (λ (x : Session). batched m (batch m.edition x (batch_envelope_of envelope) references set.now))) }
{
    if state.exists {
        let session = state.session;
        let edition = state.edition;
        let step = session.apply_projection_patch_batch(envelope, references, set, edition);
        let result = step.result;
        let printed = session::print_batch(out, Some(0), result);
        let after = step.session;
        let next = state::with_latest(state, after);
        return ReplayStep {
            state: next,
            printed,
            stopped: false,
        };
    }
    state::no_session(state, out)
}

fn is_created(answer: Result<(), CreationRefusal>) -> bool
    ensures { result ≡ is_created answer }
{
    match answer {
        Ok(()) => true,
        Err(_) => false,
    }
}

// As many anchors as a set-up can keep.
fn held(count: usize) -> usize
    ensures { result ≡ min count kept_anchors }
{
    if count < ReplaySetup::KEPT {
        return count;
    }
    ReplaySetup::KEPT
}

// The creation that a set-up asks for.
fn create_session(setup: ReplaySetup) -> ShellSessionCreation
    ensures { (m : Setup) → SetsUp setup m → Creates (create m.id m.limits m.catalogue) result }
{
    let id = setup.id;
    let limits = setup.limits;
    let nodes = setup.nodes;
    let pairs = setup.pairs;
    let collections = setup.collections;
    let node_count = held(setup.node_count);
    let collection_count = held(setup.collection_count);
    session_from_pairs::create_from(
        id,
        limits,
        &nodes[0..node_count],
        pairs,
        setup.pair_count,
        &collections[0..collection_count],
    )
}

// A new session, or none where the set-up has too many anchors.
pub fn create_latest(state: ReplayState, out: &mut [u8]) -> ReplayStep
    ensures { (m : State) → ReplayHolds state m
        → ReplayStepped state out.old out.new result (created m (create m.setup.id m.setup.limits m.setup.catalogue)) }
{
    let setup = state.setup;
    let creation = create_session(setup);
    let answer = creation.answer;
    let printed = session::print_creation(out, Some(0), answer);
    let session = creation.session;
    let exists = is_created(answer);
    let mut next = state;
    next.session = session;
    next.exists = exists;
    ReplayStep {
        state: next,
        printed,
        stopped: false,
    }
}
