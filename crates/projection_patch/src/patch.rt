// What a patch is made of. After crates/prom-ui/src/projection_patch.rs.
ghost use Rattle.std.specs.Prelude.{◌≡◌};
ghost use Rattle.spec_patch.specs.Edition.{has_kind};
ghost use Rattle.projection_patch.specs.Meaning.{edition_of};
ghost use Rattle.projection_patch.specs.ReadAnswers.{quad_tag_answer, availability_tag_answer};

use crate::binding_graph::BindingTarget;
use crate::contract_primitives::{
    CollectionKey, Epoch, Revision, StaticDocumentId, StaticNodeId, StaticSurfaceId,
};
use crate::read_values::ProjectionPatchReadFault;

// A patch; finding 13 reports 0.
#[derive(Clone, Copy, PartialEq, Eq)]
pub struct ProjectionPatchId(u64);

impl ProjectionPatchId {
    pub fn new(raw: u64) -> ProjectionPatchId
        ensures { result.0 ≡ raw }
    {
        ProjectionPatchId(raw)
    }

    pub fn raw(self) -> u64
        ensures { result ≡ self.0 }
    {
        self.0
    }
}

// A stream of patches; finding 14 reports 0.
#[derive(Clone, Copy, PartialEq, Eq)]
pub struct ProjectionPatchStreamId(u64);

impl ProjectionPatchStreamId {
    pub fn new(raw: u64) -> ProjectionPatchStreamId
        ensures { result.0 ≡ raw }
    {
        ProjectionPatchStreamId(raw)
    }

    pub fn raw(self) -> u64
        ensures { result ≡ self.0 }
    {
        self.0
    }
}

// A patch's place in its stream.
#[derive(Clone, Copy, PartialEq, Eq)]
pub struct ProjectionPatchSequence(u64);

impl ProjectionPatchSequence {
    pub fn new(raw: u64) -> ProjectionPatchSequence
        ensures { result.0 ≡ raw }
    {
        ProjectionPatchSequence(raw)
    }

    pub fn raw(self) -> u64
        ensures { result ≡ self.0 }
    {
        self.0
    }
}

#[derive(Clone, Copy)]
pub struct ProjectionPatchEnvelope {
    pub patch_id: ProjectionPatchId,
    pub stream_id: ProjectionPatchStreamId,
    pub document_id: StaticDocumentId,
    pub surface_id: Option<StaticSurfaceId>,
    pub previous_projection_revision: Revision,
    pub projection_revision: Revision,
    pub epoch: Epoch,
    pub sequence: ProjectionPatchSequence,
}

// The edition that a set is written in. The second has match scores.
#[derive(Clone, Copy)]
pub enum ProjectionPatchEdition {
    V1,
    V2,
}

impl ProjectionPatchEdition {
    #[tactic(auto, unfolding(spec_patch::specs::Edition::has_kind, spec_patch::specs::Edition::kinds, spec_patch::specs::Edition::added_kinds))]
    pub fn has_scores(self) -> bool
        ensures { result ≡ has_kind (edition_of self) 5 }
    {
        match self {
            ProjectionPatchEdition::V1 => false,
            ProjectionPatchEdition::V2 => true,
        }
    }
}

#[derive(Clone, Copy)]
pub enum ProjectionQuadState {
    N,
    F,
    T,
    S,
}

impl TryFrom<u8> for ProjectionQuadState {
    type Error = ProjectionPatchReadFault;

    ghost try_from_gives = { λ tag answer. answer ≡ quad_tag_answer tag };

    #[tactic(auto, unfolding(spec_patch::specs::Read::quad_after))]
    fn try_from(tag: u8) -> Result<ProjectionQuadState, ProjectionPatchReadFault> {
        match tag {
            0 => Ok(ProjectionQuadState::N),
            1 => Ok(ProjectionQuadState::F),
            2 => Ok(ProjectionQuadState::T),
            3 => Ok(ProjectionQuadState::S),
            _ => Err(ProjectionPatchReadFault::Malformed),
        }
    }
}

// A text is the len bytes from start on, of the slice that is lent beside the value.
#[derive(Clone, Copy)]
pub enum ProjectionPatchValue {
    Quad(ProjectionQuadState),
    SignedScalar(i64),
    UnsignedScalar(u64),
    Text { start: usize, len: usize },
    Score(u8),
}

#[derive(Clone, Copy)]
pub enum ProjectionNodeAvailability {
    Available,
    Unavailable,
    Hidden,
    Pending,
    Stale,
}

impl TryFrom<u8> for ProjectionNodeAvailability {
    type Error = ProjectionPatchReadFault;

    ghost try_from_gives = { λ tag answer. answer ≡ availability_tag_answer tag };

    #[tactic(auto, unfolding(spec_patch::specs::Read::availability_after))]
    fn try_from(tag: u8) -> Result<ProjectionNodeAvailability, ProjectionPatchReadFault> {
        match tag {
            0 => Ok(ProjectionNodeAvailability::Available),
            1 => Ok(ProjectionNodeAvailability::Unavailable),
            2 => Ok(ProjectionNodeAvailability::Hidden),
            3 => Ok(ProjectionNodeAvailability::Pending),
            4 => Ok(ProjectionNodeAvailability::Stale),
            _ => Err(ProjectionPatchReadFault::Malformed),
        }
    }
}

#[derive(Clone, Copy)]
pub enum ProjectionPatchOperation {
    SetBindingValue {
        target: BindingTarget,
        value: ProjectionPatchValue,
    },
    SetNodeAvailability {
        node: StaticNodeId,
        availability: ProjectionNodeAvailability,
    },
    CollectionInsert {
        collection: StaticNodeId,
        key: CollectionKey,
        before: Option<CollectionKey>,
        value: ProjectionPatchValue,
    },
    CollectionUpdate {
        collection: StaticNodeId,
        key: CollectionKey,
        value: ProjectionPatchValue,
    },
    CollectionRemove {
        collection: StaticNodeId,
        key: CollectionKey,
    },
    CollectionMove {
        collection: StaticNodeId,
        key: CollectionKey,
        before: Option<CollectionKey>,
    },
}

impl ProjectionPatchValue {
    // The most bytes of a text, and the most characters.
    pub const TEXT_BYTES: usize = 240;

    pub const TEXT_CHARACTERS: usize = 160;
    // The highest match score.
    pub const HIGHEST_SCORE: u8 = 100;
}

// A patch's head: its envelope, and how many operations follow it.
#[derive(Clone, Copy)]
pub struct ProjectionPatch {
    pub envelope: ProjectionPatchEnvelope,
    pub operation_count: usize,
}

impl ProjectionPatch {
    // The most operations of a patch.
    pub const OPERATIONS: usize = 128;
}

// A place in a list of operations.
#[derive(Clone, Copy)]
pub struct OperationPlace {
    pub operation: ProjectionPatchOperation,
}

// A patch list by value, in fixed memory: the first patch_count heads, and the operations of all their patches in order. No set that can be written has more
// operations than there are places.
#[derive(Clone, Copy)]
pub struct ProjectionPatchSet {
    pub patch_count: usize,
    pub patches: [ProjectionPatch; ProjectionPatchSet::PATCHES],
    pub operations: [OperationPlace; ProjectionPatchSet::PLACES],
}

impl ProjectionPatchSet {
    // The most patches of a set, and the most bytes.
    pub const PATCHES: usize = 64;

    pub const BYTES: usize = 32768;
    // 10 bytes at least for an operation, and 61 for each patch of at most 128.
    pub const PLACES: usize = 3120;
}
