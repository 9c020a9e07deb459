// Creation of a session from its anchors. After crates/prom-ui-runtime/src/shell_player.rs.
#![tactic(auto)]

ghost use Rattle.std.specs.Prelude.{◌≡◌};
ghost use Rattle.spec_session.specs.Session.{creation_number, too_many_anchors};
ghost use Rattle.session_creation.specs.Creation.{anchors_within, no_session_lem, creation_with};

use active_projection_target_catalog::catalog::{ActiveProjectionTargetCatalog, BindingPair};
use local_projection_state::LocalProjectionState;
use session_lifecycle::state::{
    ProjectionReplayCursor, ShellLifecycle, ShellLifecycleLimits, ShellLocalState, ShellSessionId,
};
use session_steps::checks::ActivatedShellSessionContext;
use shell_player::session::ShellSession;

// Why there is no session.
#[derive(Clone, Copy)]
pub enum CreationRefusal {
    AnchorsOverCapacity,
}

impl CreationRefusal {
    pub const ANCHORS_OVER_CAPACITY: u64 = 13;

    pub fn number(self) -> u64
        ensures { result ≡ creation_number too_many_anchors }
    {
        match self {
            CreationRefusal::AnchorsOverCapacity => CreationRefusal::ANCHORS_OVER_CAPACITY,
        }
    }
}

// The session, which stands for none where creation was refused.
#[derive(Drop)]
pub struct ShellSessionCreation {
    pub answer: Result<(), CreationRefusal>,
    pub session: ShellSession,
}

// Whether no list of anchors is over its capacity.
fn anchors_within(nodes: usize, pairs: usize, collections: usize) -> bool
    ensures { result ≡ anchors_within nodes pairs collections }
{
    nodes <= ActiveProjectionTargetCatalog::ANCHORS
        && pairs <= ActiveProjectionTargetCatalog::ANCHORS
        && collections <= ActiveProjectionTargetCatalog::ANCHORS
}

// What stands in the place of a session where there is none: id 0, Closed, limits 0, no anchors, an empty projection.
fn no_session() -> ShellSession
    ensures { result ≡ no_session_lem }
{
    let no_pairs = [BindingPair { node: 0, slot: 0 }; ActiveProjectionTargetCatalog::ANCHORS];
    let context = ActivatedShellSessionContext {
        session_id: ShellSessionId(0),
        limits: ShellLifecycleLimits {
            max_transition_stimulus_bytes: 0,
            max_diagnostics_per_transition: 0,
            max_patches_per_transition: 0,
            max_target_references_per_transition: 0,
        },
        catalog: ActiveProjectionTargetCatalog::from_snapshot(&[], no_pairs, 0, &[]),
    };
    let state = ShellLocalState {
        session_id: ShellSessionId(0),
        lifecycle: ShellLifecycle::Closed,
        replay_cursor: ProjectionReplayCursor::Uninitialized,
    };
    let local_projection = LocalProjectionState::empty();
    ShellSession {
        context,
        state,
        local_projection,
    }
}

// Creates a session with these anchors. The pairs stand in the array that the session keeps, so many as are given; `session_from_pairs`
// makes it of a lent list, with zeros behind them, and calls this.
pub fn create_shell_session(
    id: u64,
    limits: ShellLifecycleLimits,
    nodes: &[u64],
    pairs: [BindingPair; ActiveProjectionTargetCatalog::ANCHORS],
    given: usize,
    collections: &[u64],
) -> ShellSessionCreation
    ensures { result ≡ creation_with id limits nodes.now pairs given collections.now }
{
    if anchors_within(nodes.len(), given, collections.len()) {
        let context = ActivatedShellSessionContext {
            session_id: ShellSessionId(id),
            limits,
            catalog: ActiveProjectionTargetCatalog::from_snapshot(nodes, pairs, given, collections),
        };
        return ShellSessionCreation {
            answer: Ok(()),
            session: ShellSession::new(context),
        };
    }
    ShellSessionCreation {
        answer: Err(CreationRefusal::AnchorsOverCapacity),
        session: no_session(),
    }
}
