// The rule behind a batch's refusal. The session is not changed. Methods stand beside their struct, so the calls are functions that take
// the session first.
ghost use Rattle.std.specs.Prelude.{◌≡◌};
ghost use Rattle.spec_session.specs.Session.{Session};
ghost use Rattle.spec_explain.specs.Explain.{explain_steps, explain};
ghost use Rattle.projection_patch.specs.Meaning.{edition_of};
ghost use Rattle.active_projection_target_catalog.specs.Catalog.{catalogue_of};
ghost use Rattle.session_lifecycle.specs.Meaning.{lifecycle_of, cursor_of, limits_of};
ghost use Rattle.session_gates.specs.Gates.{batch_envelope_of};
ghost use Rattle.shell_player.specs.Holds.{Holds};
ghost use Rattle.session_explain.specs.Reasons.{step_to, explanation_to};
ghost use Rattle.session_explain.specs.Steps.{checks_by};

use crate::reasons::{BatchExplanation, BatchReason};
use crate::{checks, operations, reasons};
use projection_patch::patch::ProjectionPatchEdition;
use session_gates::gates::OrderedProjectionPatchBatchEnvelope;
use session_lifecycle::state::ShellLocalState;
use session_steps::checks::ActivatedShellSessionContext;
use shell_player::session::ShellSession;

// Steps 1 to 8, on what the session was created with and its state.
fn explain_session(
    context: ActivatedShellSessionContext,
    state: ShellLocalState,
    envelope: OrderedProjectionPatchBatchEnvelope,
    declared: u64,
    set: &[u8],
    edition: ProjectionPatchEdition,
) -> Result<(), BatchReason>
    ensures { result ≡ step_to (checks_by (edition_of edition) context.session_id.0 (limits_of context.limits) (lifecycle_of state.lifecycle) (cursor_of state.replay_cursor) (catalogue_of context.catalog) (batch_envelope_of envelope) declared set.now) }
{
    let lent = session_steps::checks::lent_anchors(context.catalog);
    let nodes = lent.nodes;
    let bindings = lent.bindings;
    let collections = lent.collections;
    let node_count = lent.node_count;
    let binding_numbers = lent.binding_numbers;
    let collection_count = lent.collection_count;
    checks::explain_checks(
        context.session_id.0,
        context.limits,
        state,
        &nodes[0..node_count],
        &bindings[0..binding_numbers],
        &collections[0..collection_count],
        envelope,
        declared,
        set,
        edition,
    )
}

// All steps, in their order.
fn explain_steps(
    session: ShellSession,
    envelope: OrderedProjectionPatchBatchEnvelope,
    declared: u64,
    set: &[u8],
    edition: ProjectionPatchEdition,
) -> Result<(), BatchReason>
    ensures { (m : Session) → Holds session m → result ≡ step_to (explain_steps (edition_of edition) m (batch_envelope_of envelope) declared set.now) }
{
    explain_session(
        session.context,
        session.state,
        envelope,
        declared,
        set,
        edition,
    )?;
    operations::explain_operations(session.local_projection, set, edition)
}

// Why the batch with these arguments is refused, if it is. It takes longer than the batch, and is for those who ask.
pub fn explain_batch(
    session: ShellSession,
    envelope: OrderedProjectionPatchBatchEnvelope,
    declared_target_reference_count: u64,
    set: &[u8],
    edition: ProjectionPatchEdition,
) -> BatchExplanation
    ensures { (m : Session) → Holds session m
        → result ≡ explanation_to (explain (edition_of edition) m (batch_envelope_of envelope) declared_target_reference_count set.now) }
{
    let cap = session.context.limits.max_diagnostics_per_transition;
    let declared = declared_target_reference_count;
    reasons::under_cap(
        cap,
        explain_steps(session, envelope, declared, set, edition),
    )
}
