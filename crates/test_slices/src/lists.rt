// The patch lists that are written: sixty-four heads, and operations that are alike but for up to two texts.
ghost use Rattle.std.specs.Prelude.{◌<◌};

use projection_patch::binding_graph::{BindingSlot, BindingTarget};
use projection_patch::contract_primitives::{Epoch, Revision, StaticDocumentId, StaticNodeId};
use projection_patch::patch::{
    OperationPlace, ProjectionNodeAvailability, ProjectionPatch, ProjectionPatchEnvelope,
    ProjectionPatchId, ProjectionPatchOperation, ProjectionPatchSequence, ProjectionPatchSet,
    ProjectionPatchStreamId, ProjectionPatchValue,
};

fn head(operation_count: usize) -> ProjectionPatch {
    let envelope = ProjectionPatchEnvelope {
        patch_id: ProjectionPatchId::new(1),
        stream_id: ProjectionPatchStreamId::new(2),
        document_id: StaticDocumentId::new(3),
        surface_id: None,
        previous_projection_revision: Revision::new(4),
        projection_revision: Revision::new(5),
        epoch: Epoch::new(6),
        sequence: ProjectionPatchSequence::new(7),
    };
    ProjectionPatch {
        envelope,
        operation_count,
    }
}

fn pending() -> OperationPlace {
    OperationPlace {
        operation: ProjectionPatchOperation::SetNodeAvailability {
            node: StaticNodeId::new(5),
            availability: ProjectionNodeAvailability::Pending,
        },
    }
}

fn text(start: usize, len: usize) -> OperationPlace {
    let target = BindingTarget {
        node: StaticNodeId::new(5),
        slot: BindingSlot(0),
    };
    let value = ProjectionPatchValue::Text { start, len };
    OperationPlace {
        operation: ProjectionPatchOperation::SetBindingValue { target, value },
    }
}

// The heads of patches with so many operations each, the first 24 and the later ones.
fn heads(first: usize, later: usize) -> [ProjectionPatch; ProjectionPatchSet::PATCHES] {
    let mut patches = [head(first); ProjectionPatchSet::PATCHES];
    let other = head(later);
    for p in 24..ProjectionPatchSet::PATCHES {
        patches[p] = other;
    }
    patches
}

// The kth number of a row.
fn field(row: &[u8], k: usize) -> usize
    requires { k < 8 }
{
    match bytes_wire::read_u64_at(row, 8 * k) {
        Some(n) => n as usize,
        None => 0,
    }
}

// The list of a row, eight numbers: its patches; the operations of each of the first 24, and of each later one; how many of the first operations
// set a text, all others being alike; start and length of the first text, and of the second.
pub(crate) fn set_of(row: &[u8]) -> ProjectionPatchSet {
    let mut operations = [pending(); ProjectionPatchSet::PLACES];
    let texts = field(row, 3);
    if 0 < texts {
        operations[0] = text(field(row, 4), field(row, 5));
    }
    if 1 < texts {
        operations[1] = text(field(row, 6), field(row, 7));
    }
    ProjectionPatchSet {
        patch_count: field(row, 0),
        patches: heads(field(row, 1), field(row, 2)),
        operations,
    }
}
