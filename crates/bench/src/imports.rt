// Bringing in of one term list.
use projection_patch::contract_primitives::{Epoch, Revision, StaticDocumentId};
use projection_patch::patch::{
    ProjectionPatchEdition, ProjectionPatchEnvelope, ProjectionPatchId, ProjectionPatchSequence,
    ProjectionPatchSet, ProjectionPatchStreamId,
};

// The length of the set, or the refusal's number.
fn import(list: &[u8], sequence: u64, out: &mut [u8]) -> u64 {
    let envelope = ProjectionPatchEnvelope {
        patch_id: ProjectionPatchId::new(1),
        stream_id: ProjectionPatchStreamId::new(1),
        document_id: StaticDocumentId::new(1),
        surface_id: None,
        previous_projection_revision: Revision::new(0),
        projection_revision: Revision::new(1),
        epoch: Epoch::new(1),
        sequence: ProjectionPatchSequence::new(sequence),
    };
    match patch_import::import_terms(list, ProjectionPatchEdition::V1, 9, envelope, out) {
        Ok(size) => size as u64,
        Err(refusal) => refusal.number(),
    }
}

// Brings in the list; a new sequence for each use keeps the uses apart. The last answer.
pub(crate) fn import_often(list: &[u8], times: u64) -> u64 {
    let mut out = [0u8; ProjectionPatchSet::BYTES];
    let mut last = 0;
    for left in (1..=times).rev() {
        last = import(list, left, &mut out);
    }
    last
}
