// A set applied to a state, whole or not at all. After crates/prom-ui/src/local_projection_state.rs.
#![tactic(auto)]

ghost use Rattle.std.specs.Prelude.{◌≡◌, List};
ghost use Rattle.spec_patch.specs.Patch.{Patch};
ghost use Rattle.spec_patch.specs.Read.{patches, read_set};
ghost use Rattle.spec_projection.specs.Projection.{Projection};
ghost use Rattle.spec_projection.specs.Apply.{replay_steps, apply_steps};
ghost use Rattle.projection_patch.specs.Meaning.{edition_of};
ghost use Rattle.local_projection_state.specs.Stores.{Stores};
ghost use Rattle.panel_application.specs.Application.{apply_set, refusal_number, outcome_number, StepsBecame, SetBecame, StateKeptUnlessApplied};

use check_quick::quick_set;
use check_quick::quick_set::QuickCheck;
use local_projection_state::{
    LocalProjectionApplicationError, LocalProjectionState, ProjectionCounts,
};
use panel_changes::SetRefusal;
use projection_patch::patch::ProjectionPatchEdition;
use projection_patch::read_values::ProjectionPatchReadFault;

// Why a set is not applied.
#[derive(Clone, Copy)]
pub enum ProjectionRefusal {
    Operation(LocalProjectionApplicationError),
    Findings,
    Unreadable(ProjectionPatchReadFault),
}

impl ProjectionRefusal {
    pub fn number(self) -> u64
        ensures { result ≡ refusal_number self }
    {
        match self {
            ProjectionRefusal::Operation(error) => error.number(),
            ProjectionRefusal::Findings => 11,
            ProjectionRefusal::Unreadable(fault) => fault.number(),
        }
    }
}

// The state afterwards, which is the one before where the set was refused.
#[derive(Drop)]
pub struct ProjectionApplication {
    pub state: LocalProjectionState,
    pub outcome: Result<(), ProjectionRefusal>,
}

// The number of a refusal; 0 says that there is none.
pub fn outcome_number(outcome: Result<(), ProjectionRefusal>) -> u64
    ensures { result ≡ outcome_number outcome }
{
    match outcome {
        Ok(()) => 0,
        Err(refusal) => refusal.number(),
    }
}

// The state of these tables.
fn state_of(
    counts: ProjectionCounts,
    bindings: [u8; LocalProjectionState::BINDING_BYTES],
    availability: [u8; LocalProjectionState::AVAILABILITY_BYTES],
    entries: [u8; LocalProjectionState::ENTRY_BYTES],
    lengths: [u8; LocalProjectionState::LENGTH_BYTES],
) -> LocalProjectionState
    ensures { result ≡ record { counts = counts; bindings = bindings; availability = availability; entries = entries; lengths = lengths } }
{
    LocalProjectionState {
        counts,
        bindings,
        availability,
        entries,
        lengths,
    }
}

// Applies all operations of a readable set, from the state's tables to new ones. The first that fails hands the state back as it came.
fn apply_readable(
    state: LocalProjectionState,
    set: &[u8],
    edition: ProjectionPatchEdition,
) -> ProjectionApplication
    ensures steps { (ps : List Patch) (p : Projection) → read_set (edition_of edition) set.now ≡ patches ps → Stores state p
        → StepsBecame result.state result.outcome (apply_steps p (replay_steps ps)) }
    ensures kept { StateKeptUnlessApplied state result.state result.outcome }
{
    let mut bindings = [0u8; LocalProjectionState::BINDING_BYTES];
    let mut availability = [0u8; LocalProjectionState::AVAILABILITY_BYTES];
    let mut entries = [0u8; LocalProjectionState::ENTRY_BYTES];
    let mut lengths = [0u8; LocalProjectionState::LENGTH_BYTES];
    let used = panel_changes::none_used();
    match panel_changes::apply_set(
        &state.bindings,
        &state.availability,
        &state.entries,
        state.counts,
        set,
        edition,
        &mut bindings,
        &mut availability,
        &mut entries,
        &mut lengths,
        used,
    ) {
        Ok(counts) => ProjectionApplication {
            state: state_of(counts, bindings, availability, entries, lengths),
            outcome: Ok(()),
        },
        Err(SetRefusal::Operation(error)) => ProjectionApplication {
            state,
            outcome: Err(ProjectionRefusal::Operation(error)),
        },
        Err(SetRefusal::Unreadable(fault)) => ProjectionApplication {
            state,
            outcome: Err(ProjectionRefusal::Unreadable(fault)),
        },
        Err(SetRefusal::BadTables) => ProjectionApplication {
            state,
            outcome: Err(ProjectionRefusal::Unreadable(ProjectionPatchReadFault::Malformed)),
        },
    }
}

// Applies a set: 12 or 10 where it does not read, 11 where it has findings, 8 or 9 at the first operation that fails.
pub fn apply_projection_patch_set(
    state: LocalProjectionState,
    set: &[u8],
    edition: ProjectionPatchEdition,
) -> ProjectionApplication
    ensures applied { (p : Projection) → Stores state p → SetBecame result.state result.outcome (apply_set (edition_of edition) p set.now) }
    ensures kept { StateKeptUnlessApplied state result.state result.outcome }
{
    match quick_set::quick_check(set, edition) {
        Ok(QuickCheck::Clean { .. }) => apply_readable(state, set, edition),
        Ok(QuickCheck::Found) => ProjectionApplication {
            state,
            outcome: Err(ProjectionRefusal::Findings),
        },
        Err(fault) => ProjectionApplication {
            state,
            outcome: Err(ProjectionRefusal::Unreadable(fault)),
        },
    }
}
