// The exported call that tells by which rule a batch would be refused. It changes nothing.
ghost use Rattle.c_exports.specs.Explain.{ExportedExplanation};

use c_answers::explanations::GeysertrayExplanation;
use c_answers::{asked, explanations};
use local_projection_state::LocalProjectionState;
use session_gates::gates::OrderedProjectionPatchBatchEnvelope;
use session_lent::head;
use session_lifecycle::state::ShellSessionId;

const NO_SUCH: u64 = 4;

// By which rule geysertray_batch would refuse a batch with these arguments, and with which figures. It takes longer than the batch.
pub fn geysertray_explain(
    head: &[u64; head::NUMBERS],
    nodes: &[u64],
    pairs: &[u64],
    collections: &[u64],
    bindings: &[u8; LocalProjectionState::BINDING_BYTES],
    availability: &[u8; LocalProjectionState::AVAILABILITY_BYTES],
    entries: &[u8; LocalProjectionState::ENTRY_BYTES],
    session_id: u64,
    sequence_no: u64,
    patch_count: u64,
    stimulus_bytes: u64,
    target_references: u64,
    set: &[u8],
    edition: u64,
) -> GeysertrayExplanation
    ensures { ExportedExplanation edition (record { session = session_id; sequence = sequence_no; patches = patch_count; stimulus_bytes = stimulus_bytes }) target_references set.now
        head.now nodes.now pairs.now collections.now bindings.now availability.now entries.now result }
{
    if asked::is_edition(edition) {
        let envelope = OrderedProjectionPatchBatchEnvelope {
            session_id: ShellSessionId(session_id),
            sequence_no,
            patch_count,
            stimulus_bytes,
        };
        let told = asked::edition_of(edition);
        let answer = session_lent_explain::explain_lent_batch(
            head,
            nodes,
            pairs,
            collections,
            bindings,
            availability,
            entries,
            envelope,
            target_references,
            set,
            told,
        );
        return explanations::lent_explanation_told(answer);
    }
    explanations::not_explained(NO_SUCH)
}
