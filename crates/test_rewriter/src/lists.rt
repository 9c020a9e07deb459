// The list that a set of an edition stands for, whose texts stay in the set.
use projection_patch::contract_primitives::{Epoch, Revision, StaticDocumentId, StaticNodeId};
use projection_patch::patch::{
    OperationPlace, ProjectionNodeAvailability, ProjectionPatch, ProjectionPatchEdition,
    ProjectionPatchEnvelope, ProjectionPatchId, ProjectionPatchOperation, ProjectionPatchSequence,
    ProjectionPatchSet, ProjectionPatchStreamId, ProjectionPatchValue,
};
use projection_patch::read_operations;

// A list as far as it was read: its operations so far, and where the next part starts.
#[derive(Clone, Copy)]
struct ListRead {
    list: ProjectionPatchSet,
    used: usize,
    at: usize,
}

fn nothing() -> ProjectionPatch {
    let envelope = ProjectionPatchEnvelope {
        patch_id: ProjectionPatchId::new(0),
        stream_id: ProjectionPatchStreamId::new(0),
        document_id: StaticDocumentId::new(0),
        surface_id: None,
        previous_projection_revision: Revision::new(0),
        projection_revision: Revision::new(0),
        epoch: Epoch::new(0),
        sequence: ProjectionPatchSequence::new(0),
    };
    ProjectionPatch {
        envelope,
        operation_count: 0,
    }
}

fn unused() -> OperationPlace {
    OperationPlace {
        operation: ProjectionPatchOperation::SetNodeAvailability {
            node: StaticNodeId::new(0),
            availability: ProjectionNodeAvailability::Available,
        },
    }
}

// The value with its text's start counted from the start of the set.
fn moved_value(value: ProjectionPatchValue, by: usize) -> ProjectionPatchValue {
    match value {
        ProjectionPatchValue::Text { start, len } => ProjectionPatchValue::Text {
            start: start.wrapping_add(by),
            len,
        },
        _ => value,
    }
}

fn moved(operation: ProjectionPatchOperation, by: usize) -> ProjectionPatchOperation {
    match operation {
        ProjectionPatchOperation::SetBindingValue { target, value } => {
            ProjectionPatchOperation::SetBindingValue {
                target,
                value: moved_value(value, by),
            }
        }
        ProjectionPatchOperation::CollectionInsert {
            collection,
            key,
            before,
            value,
        } => ProjectionPatchOperation::CollectionInsert {
            collection,
            key,
            before,
            value: moved_value(value, by),
        },
        ProjectionPatchOperation::CollectionUpdate {
            collection,
            key,
            value,
        } => ProjectionPatchOperation::CollectionUpdate {
            collection,
            key,
            value: moved_value(value, by),
        },
        _ => operation,
    }
}

// Reads so many operations behind those that were read; None where one is not readable.
fn with_operations(
    before: ListRead,
    set: &[u8],
    count: usize,
    edition: ProjectionPatchEdition,
) -> Option<ListRead> {
    let mut list = before.list;
    let mut operations = list.operations;
    let mut used = before.used;
    let mut at = before.at;
    for _ in 0..count {
        if ProjectionPatchSet::PLACES <= used {
            return None;
        }
        let part = set.get(at..)?;
        let (operation, taken) = read_operations::read_operation(part, edition).ok()?;
        operations[used] = OperationPlace {
            operation: moved(operation, at),
        };
        used += 1;
        at = at.wrapping_add(taken);
    }
    list.operations = operations;
    Some(ListRead { list, used, at })
}

// Reads the patch behind those that were read.
fn with_patch(
    before: ListRead,
    set: &[u8],
    index: usize,
    edition: ProjectionPatchEdition,
) -> Option<ListRead> {
    if ProjectionPatchSet::PATCHES <= index {
        return None;
    }
    let part = set.get(before.at..)?;
    let (head, taken) = patch_sets::read_patch_head(part).ok()?;
    let mut list = before.list;
    let mut patches = list.patches;
    patches[index] = head;
    list.patches = patches;
    let next = ListRead {
        list,
        used: before.used,
        at: before.at.wrapping_add(taken),
    };
    with_operations(next, set, head.operation_count, edition)
}

// The list of a set that is readable.
pub(crate) fn list_of(set: &[u8], edition: ProjectionPatchEdition) -> Option<ProjectionPatchSet> {
    let (count, at) = patch_sets::read_heading(set, edition).ok()?;
    let list = ProjectionPatchSet {
        patch_count: count,
        patches: [nothing(); ProjectionPatchSet::PATCHES],
        operations: [unused(); ProjectionPatchSet::PLACES],
    };
    let mut read = ListRead { list, used: 0, at };
    for index in 0..count {
        read = with_patch(read, set, index, edition)?;
    }
    Some(read.list)
}
