// The exported calls on a session: creation, step and batch.
ghost use Rattle.panel_changes.specs.PlanMemory.{plan_in};
ghost use Rattle.session_lent.specs.Batches.{PlanGivenBack};
ghost use Rattle.c_exports.specs.Calls.{ExportedCreation, ExportedStep, ExportedBatch};

use c_answers::answers::{GeysertrayAnswer, GeysertrayLifecycle};
use c_exports::session;
use local_projection_state::LocalProjectionState;
use session_lent::head;

#[unsafe(no_mangle)]
pub extern "C" fn geysertray_create(
    id: u64,
    stimulus_bytes: u64,
    diagnostics: u64,
    patches: u64,
    references: u64,
    nodes: &[u64],
    pairs: &[u64],
    collections: &[u64],
    head: &mut [u64; head::NUMBERS],
    bindings: &mut [u8; LocalProjectionState::BINDING_BYTES],
    availability: &mut [u8; LocalProjectionState::AVAILABILITY_BYTES],
    entries: &mut [u8; LocalProjectionState::ENTRY_BYTES],
    lengths: &mut [u8; LocalProjectionState::LENGTH_BYTES],
) -> u64
    ensures { ExportedCreation id (record { stimulus_bytes = stimulus_bytes; diagnostics = diagnostics; patches = patches; references = references }) nodes.now pairs.now collections.now
        head.old bindings.old availability.old entries.old lengths.old result head.new bindings.new availability.new entries.new lengths.new }
{
    session::geysertray_create(
        id,
        stimulus_bytes,
        diagnostics,
        patches,
        references,
        nodes,
        pairs,
        collections,
        head,
        bindings,
        availability,
        entries,
        lengths,
    )
}

#[unsafe(no_mangle)]
pub extern "C" fn geysertray_lifecycle_step(
    head: &mut [u64; head::NUMBERS],
    command: u64,
    stimulus_bytes: u64,
) -> GeysertrayLifecycle
    ensures { ExportedStep command stimulus_bytes head.old result head.new }
{
    session::geysertray_lifecycle_step(head, command, stimulus_bytes)
}

#[unsafe(no_mangle)]
pub extern "C" fn geysertray_batch<'a>(
    head: &[u64; head::NUMBERS],
    nodes: &[u64],
    pairs: &[u64],
    collections: &[u64],
    bindings: &'a [u8; LocalProjectionState::BINDING_BYTES],
    availability: &'a [u8; LocalProjectionState::AVAILABILITY_BYTES],
    entries: &'a [u8; LocalProjectionState::ENTRY_BYTES],
    session_id: u64,
    sequence_no: u64,
    patch_count: u64,
    stimulus_bytes: u64,
    target_references: u64,
    set: &[u8],
    edition: u64,
    to_head: &mut [u64; head::NUMBERS],
    to_bindings: &mut [u8; LocalProjectionState::BINDING_BYTES],
    to_availability: &mut [u8; LocalProjectionState::AVAILABILITY_BYTES],
    to_entries: &mut [u8; LocalProjectionState::ENTRY_BYTES],
    to_lengths: &mut [u8; LocalProjectionState::LENGTH_BYTES],
    plan_bindings: &mut [u8; panel_plan::BINDING_BYTES],
    plan_availability: &mut [u8; LocalProjectionState::AVAILABILITY_BYTES],
    plan_entries: &mut [u8; panel_plan::ENTRY_BYTES],
) -> GeysertrayAnswer
    ensures called { ExportedBatch edition (record { session = session_id; sequence = sequence_no; patches = patch_count; stimulus_bytes = stimulus_bytes }) target_references set.now
        head.now nodes.now pairs.now collections.now bindings.now availability.now entries.now
        to_head.old to_bindings.old to_availability.old to_entries.old to_lengths.old
        (plan_in plan_bindings.old plan_availability.old plan_entries.old) result to_head.new to_bindings.new to_availability.new to_entries.new to_lengths.new }
    ensures cleared { PlanGivenBack head.now nodes.now pairs.now collections.now bindings.now availability.now entries.now
        (plan_in plan_bindings.old plan_availability.old plan_entries.old) (plan_in plan_bindings.new plan_availability.new plan_entries.new) }
{
    session::geysertray_batch(
        head,
        nodes,
        pairs,
        collections,
        bindings,
        availability,
        entries,
        session_id,
        sequence_no,
        patch_count,
        stimulus_bytes,
        target_references,
        set,
        edition,
        to_head,
        to_bindings,
        to_availability,
        to_entries,
        to_lengths,
        plan_bindings,
        plan_availability,
        plan_entries,
    )
}
