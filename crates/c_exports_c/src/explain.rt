// The exported call that tells by which rule a batch would be refused.
ghost use Rattle.c_exports.specs.Explain.{ExportedExplanation};

use c_answers::explanations::GeysertrayExplanation;
use c_exports::explain;
use local_projection_state::LocalProjectionState;
use session_lent::head;

#[unsafe(no_mangle)]
pub extern "C" fn geysertray_explain(
    head: &[u64; head::NUMBERS],
    nodes: &[u64],
    pairs: &[u64],
    collections: &[u64],
    bindings: &[u8; LocalProjectionState::BINDING_BYTES],
    availability: &[u8; LocalProjectionState::AVAILABILITY_BYTES],
    entries: &[u8; LocalProjectionState::ENTRY_BYTES],
    session_id: u64,
    sequence_no: u64,
    patch_count: u64,
    stimulus_bytes: u64,
    target_references: u64,
    set: &[u8],
    edition: u64,
) -> GeysertrayExplanation
    ensures { ExportedExplanation edition (record { session = session_id; sequence = sequence_no; patches = patch_count; stimulus_bytes = stimulus_bytes }) target_references set.now
        head.now nodes.now pairs.now collections.now bindings.now availability.now entries.now result }
{
    explain::geysertray_explain(
        head,
        nodes,
        pairs,
        collections,
        bindings,
        availability,
        entries,
        session_id,
        sequence_no,
        patch_count,
        stimulus_bytes,
        target_references,
        set,
        edition,
    )
}
