// Steps 1 to 8 of a batch, on what a session tells.
ghost use Rattle.std.specs.Prelude.{◌≡◌, true, ◌≤◌, min, eqb, length, take};
ghost use Rattle.spec_patch.specs.Sizes.{anchors};
ghost use Rattle.spec_session.specs.Session.{Session};
ghost use Rattle.spec_session.specs.Batch.{batch_checks};
ghost use Rattle.projection_patch.specs.Meaning.{edition_of};
ghost use Rattle.active_projection_target_catalog.specs.Catalog.{catalogue_of};
ghost use Rattle.session_lifecycle.specs.Meaning.{lifecycle_of, limits_of};
ghost use Rattle.session_gates.specs.Lent.{Lent};
ghost use Rattle.session_gates.specs.Gates.{gate_of, batch_envelope_of, preflight_by, erased, check_counted, Decides};
ghost use Rattle.session_steps.specs.Checks.{SeenSession};

use active_projection_target_catalog::catalog;
use active_projection_target_catalog::catalog::ActiveProjectionTargetCatalog;
use projection_patch::patch::ProjectionPatchEdition;
use session_gates::batch;
use session_gates::gates::{GateRefusal, OrderedProjectionPatchBatchEnvelope};
use session_lifecycle::state::{ShellLifecycleLimits, ShellLocalState, ShellSessionId};

#[derive(Clone, Copy)]
pub struct ActivatedShellSessionContext {
    pub session_id: ShellSessionId,
    pub limits: ShellLifecycleLimits,
    pub catalog: ActiveProjectionTargetCatalog,
}

// The anchors of a catalogue as they are lent: two numbers for each pair, and how many numbers of each array are used.
#[derive(Drop)]
pub struct LentAnchors {
    pub nodes: [u64; ActiveProjectionTargetCatalog::ANCHORS],
    pub bindings: [u64; ActiveProjectionTargetCatalog::PAIR_NUMBERS],
    pub collections: [u64; ActiveProjectionTargetCatalog::ANCHORS],
    pub node_count: usize,
    pub binding_numbers: usize,
    pub collection_count: usize,
}

// A count of anchors that an array can hold.
fn anchors_held(count: usize) -> usize
    ensures { result ≡ min count anchors }
{
    count.min(ActiveProjectionTargetCatalog::ANCHORS)
}

pub fn lent_anchors(catalog: ActiveProjectionTargetCatalog) -> LentAnchors
    ensures are { Lent (catalogue_of catalog) (take result.node_count result.nodes) (take result.binding_numbers result.bindings) (take result.collection_count result.collections) }
    ensures within { (result.node_count ≤ length result.nodes) × ((result.binding_numbers ≤ length result.bindings) × (result.collection_count ≤ length result.collections)) }
{
    // Arrays are stored from variables: the borrow checker covers no array that is stored straight from a field.
    let nodes = catalog.node_anchors;
    let pairs = catalog.binding_anchors;
    let bindings = catalog::pair_numbers(pairs);
    let collections = catalog.collection_anchors;
    LentAnchors {
        nodes,
        bindings,
        collections,
        node_count: anchors_held(catalog.node_count),
        binding_numbers: 2 * anchors_held(catalog.binding_count),
        collection_count: anchors_held(catalog.collection_count),
    }
}

// Steps 1 to 8, on what the session was created with and its state.
pub fn check_session(
    context: ActivatedShellSessionContext,
    state: ShellLocalState,
    envelope: OrderedProjectionPatchBatchEnvelope,
    declared: u64,
    set: &[u8],
    edition: ProjectionPatchEdition,
) -> Result<(), GateRefusal>
    ensures checked { (s : Session) → SeenSession context state s → gate_of result ≡ erased (batch_checks (edition_of edition) s (batch_envelope_of envelope) declared set.now) }
    ensures whatever { check_counted (gate_of result) ≡ true }
    ensures preflight { Decides (preflight_by context.session_id.0 (limits_of context.limits) (lifecycle_of state.lifecycle) (batch_envelope_of envelope)) (gate_of result) }
{
    let lent = lent_anchors(context.catalog);
    batch::check_batch(
        context.session_id.0,
        context.limits,
        state,
        &lent.nodes[0..lent.node_count],
        &lent.bindings[0..lent.binding_numbers],
        &lent.collections[0..lent.collection_count],
        envelope,
        declared,
        set,
        edition,
    )
}

// Whether a batch has no patches, and so changes nothing.
pub fn is_empty(envelope: OrderedProjectionPatchBatchEnvelope) -> bool
    ensures { result ≡ eqb envelope.patch_count 0 }
{
    envelope.patch_count == 0
}
