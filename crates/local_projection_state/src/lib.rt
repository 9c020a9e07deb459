// What a session stores of a panel: three tables of fixed-width rows, and one of each collection's length; and why an operation on them is
// refused. After crates/prom-ui/src/local_projection_state.rs.
#![tactic(auto)]

ghost use Rattle.std.specs.Prelude.{◌≡◌};
ghost use Rattle.spec_projection.specs.Projection.{empty};
ghost use Rattle.spec_projection.specs.Apply.{operation_fault_number};
ghost use Rattle.local_projection_state.specs.Stores.{Stores};
ghost use Rattle.local_projection_state.specs.Faults.{application_fault_of};

// How many rows of each table are used.
#[derive(Clone, Copy)]
pub struct ProjectionCounts {
    pub bindings: usize,
    pub availabilities: usize,
    pub entries: usize,
}

// Each table has its rows in stored order, and zeros in every unused place. The lengths have no count: none of them is 0, so that the first
// row that is all zeros ends them.
#[derive(Clone, Copy)]
pub struct LocalProjectionState {
    pub counts: ProjectionCounts,
    pub bindings: [u8; LocalProjectionState::BINDING_BYTES],
    pub availability: [u8; LocalProjectionState::AVAILABILITY_BYTES],
    pub entries: [u8; LocalProjectionState::ENTRY_BYTES],
    pub lengths: [u8; LocalProjectionState::LENGTH_BYTES],
}

impl LocalProjectionState {
    // The most bindings, availabilities and entries of all collections.
    pub const BINDINGS: usize = 64;

    pub const AVAILABILITIES: usize = 64;

    pub const ENTRIES: usize = 128;

    // The tables, in bytes.
    pub const BINDING_BYTES: usize = LocalProjectionState::BINDINGS * panel_rows::BINDING_WIDTH;

    pub const AVAILABILITY_BYTES: usize = LocalProjectionState::AVAILABILITIES
        * panel_rows::AVAILABILITY_WIDTH;

    pub const ENTRY_BYTES: usize = LocalProjectionState::ENTRIES * panel_rows::ENTRY_WIDTH;

    // A length for each collection that has an entry.
    pub const LENGTH_BYTES: usize = LocalProjectionState::ENTRIES * panel_rows::LENGTH_WIDTH;

    // A panel without records.
    pub fn empty() -> LocalProjectionState
        ensures { Stores result empty }
    {
        LocalProjectionState {
            counts: ProjectionCounts {
                bindings: 0,
                availabilities: 0,
                entries: 0,
            },
            bindings: [0u8; LocalProjectionState::BINDING_BYTES],
            availability: [0u8; LocalProjectionState::AVAILABILITY_BYTES],
            entries: [0u8; LocalProjectionState::ENTRY_BYTES],
            lengths: [0u8; LocalProjectionState::LENGTH_BYTES],
        }
    }
}

// Why an operation is refused.
#[derive(Clone, Copy)]
pub enum LocalProjectionApplicationError {
    KeyRule,
    ProjectionFull,
}

impl LocalProjectionApplicationError {
    // The number of a refusal.
    pub fn number(self) -> u64
        ensures { result ≡ operation_fault_number (application_fault_of self) }
    {
        match self {
            LocalProjectionApplicationError::KeyRule => 8,
            LocalProjectionApplicationError::ProjectionFull => 9,
        }
    }
}
