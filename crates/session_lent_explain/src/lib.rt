// The rule behind the refusal of a batch on a session in lent memory. All slices are read, and none is changed.
#![tactic(auto)]

ghost use Rattle.std.specs.Prelude.{◌≡◌, length};
ghost use Rattle.spec_session.specs.Session.{Session};
ghost use Rattle.spec_explain.specs.Explain.{explain_steps};
ghost use Rattle.projection_patch.specs.Meaning.{edition_of};
ghost use Rattle.session_gates.specs.Gates.{batch_envelope_of};
ghost use Rattle.session_explain.specs.Reasons.{step_to};
ghost use Rattle.session_lent.specs.Head.{head_numbers};
ghost use Rattle.session_lent_explain.specs.LentExplain.{HoldsSession, ExplainView};

use projection_patch::patch::ProjectionPatchEdition;
use session_explain::reasons::{BatchExplanation, BatchReason};
use session_explain::{checks, operations, reasons};
use session_gates::gates::OrderedProjectionPatchBatchEnvelope;
use session_lent::{head, shape};

// All steps, on memory of the right shape.
fn explain_steps(
    head: &[u64],
    nodes: &[u64],
    pairs: &[u64],
    collections: &[u64],
    bindings: &[u8],
    availability: &[u8],
    entries: &[u8],
    envelope: OrderedProjectionPatchBatchEnvelope,
    declared: u64,
    set: &[u8],
    edition: ProjectionPatchEdition,
) -> Result<(), BatchReason>
    requires { length head.now ≡ head_numbers }
    ensures { (m : Session) → HoldsSession head.now nodes.now pairs.now collections.now bindings.now availability.now entries.now m
        → result ≡ step_to (explain_steps (edition_of edition) m (batch_envelope_of envelope) declared set.now) }
{
    let limits = head::limits_in(head);
    let state = head::state_in(head);
    checks::explain_checks(
        state.session_id.0,
        limits,
        state,
        nodes,
        pairs,
        collections,
        envelope,
        declared,
        set,
        edition,
    )?;
    let counts = head::counts_in(head);
    operations::explain_tables(bindings, availability, entries, counts, set, edition)
}

// Why the batch with these arguments is refused, if it is; none where the slices cannot hold a session: one has another length, or a count is
// over its capacity. It takes longer than the batch, and is for those who ask.
pub fn explain_lent_batch(
    head: &[u64],
    nodes: &[u64],
    pairs: &[u64],
    collections: &[u64],
    bindings: &[u8],
    availability: &[u8],
    entries: &[u8],
    envelope: OrderedProjectionPatchBatchEnvelope,
    declared_target_reference_count: u64,
    set: &[u8],
    edition: ProjectionPatchEdition,
) -> Option<BatchExplanation>
    ensures { ExplainView (edition_of edition) (batch_envelope_of envelope) declared_target_reference_count set.now head.now nodes.now pairs.now collections.now bindings.now availability.now entries.now result }
{
    if !shape::anchors_shaped(nodes.len(), pairs.len(), collections.len()) {
        return None;
    }
    if !shape::half_shaped(head, bindings.len(), availability.len(), entries.len()) {
        return None;
    }
    let limits = head::limits_in(head);
    let cap = limits.max_diagnostics_per_transition;
    let steps = explain_steps(
        head,
        nodes,
        pairs,
        collections,
        bindings,
        availability,
        entries,
        envelope,
        declared_target_reference_count,
        set,
        edition,
    );
    Some(reasons::under_cap(cap, steps))
}
