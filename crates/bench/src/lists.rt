// Writing of one list: a patch of 128 bindings, each with the text that the data is.
use patch_part_writer::written::WriteRefusal;
use patch_writer::set::write_patch_set;
use projection_patch::binding_graph::{BindingSlot, BindingTarget};
use projection_patch::contract_primitives::{Epoch, Revision, StaticDocumentId, StaticNodeId};
use projection_patch::patch::{
    OperationPlace, ProjectionPatch, ProjectionPatchEdition, ProjectionPatchEnvelope,
    ProjectionPatchId, ProjectionPatchOperation, ProjectionPatchSequence, ProjectionPatchSet,
    ProjectionPatchStreamId, ProjectionPatchValue,
};

fn head() -> ProjectionPatch {
    let envelope = ProjectionPatchEnvelope {
        patch_id: ProjectionPatchId::new(100),
        stream_id: ProjectionPatchStreamId::new(1),
        document_id: StaticDocumentId::new(1),
        surface_id: None,
        previous_projection_revision: Revision::new(0),
        projection_revision: Revision::new(1),
        epoch: Epoch::new(1),
        sequence: ProjectionPatchSequence::new(0),
    };
    ProjectionPatch {
        envelope,
        operation_count: ProjectionPatch::OPERATIONS,
    }
}

fn binding(node: u64, len: usize) -> OperationPlace {
    let target = BindingTarget {
        node: StaticNodeId::new(node),
        slot: BindingSlot(1),
    };
    let value = ProjectionPatchValue::Text { start: 0, len };
    OperationPlace {
        operation: ProjectionPatchOperation::SetBindingValue { target, value },
    }
}

// Nodes 1 to 128, each with a text of so many bytes.
fn list(len: usize) -> ProjectionPatchSet {
    let mut operations = [binding(1, len); ProjectionPatchSet::PLACES];
    for i in 0..ProjectionPatch::OPERATIONS {
        operations[i] = binding(i as u64 + 1, len);
    }
    ProjectionPatchSet {
        patch_count: 1,
        patches: [head(); ProjectionPatchSet::PATCHES],
        operations,
    }
}

fn bytes(written: Result<usize, WriteRefusal>) -> u64 {
    written.map_or(0, |n| n as u64)
}

pub(crate) fn write_often(text: &[u8], times: u64) -> u64 {
    let set = list(text.len());
    let mut out = [0u8; ProjectionPatchSet::BYTES];
    let mut last = 0;
    for _ in 0..times {
        last = bytes(write_patch_set(set, text, ProjectionPatchEdition::V1, &mut out));
    }
    last
}
