// The exported calls on a session: creation, step and batch. What each answers is what the call of `session_lent` below it answers, as
// numbers; wrong numbers of an edition or of a command are told apart by a disposition of their own, and change nothing.
ghost use Rattle.panel_changes.specs.PlanMemory.{plan_in};
ghost use Rattle.session_lent.specs.Batches.{PlanGivenBack};
ghost use Rattle.c_exports.specs.Calls.{ExportedCreation, ExportedStep, ExportedBatch};

use c_answers::answers::{GeysertrayAnswer, GeysertrayLifecycle};
use c_answers::{answers, asked};
use local_projection_state::LocalProjectionState;
use session_gates::gates::OrderedProjectionPatchBatchEnvelope;
use session_lent::{batch, creation, head, lifecycle};
use session_lifecycle::lifecycle::ShellTransitionInput;
use session_lifecycle::state::{ShellLifecycleLimits, ShellSessionId};

const NO_SUCH: u64 = 4;

const LAST_COMMAND: u64 = 4;

// Makes a new session in one half of a panel's memory: 0, or 13 for too many anchors of a kind, or 3 where the numbers of the bindings are no pairs.
pub fn geysertray_create(
    id: u64,
    stimulus_bytes: u64,
    diagnostics: u64,
    patches: u64,
    references: u64,
    nodes: &[u64],
    pairs: &[u64],
    collections: &[u64],
    head: &mut [u64; head::NUMBERS],
    bindings: &mut [u8; LocalProjectionState::BINDING_BYTES],
    availability: &mut [u8; LocalProjectionState::AVAILABILITY_BYTES],
    entries: &mut [u8; LocalProjectionState::ENTRY_BYTES],
    lengths: &mut [u8; LocalProjectionState::LENGTH_BYTES],
) -> u64
    ensures { ExportedCreation id (record { stimulus_bytes = stimulus_bytes; diagnostics = diagnostics; patches = patches; references = references }) nodes.now pairs.now collections.now
        head.old bindings.old availability.old entries.old lengths.old result head.new bindings.new availability.new entries.new lengths.new }
{
    let limits = ShellLifecycleLimits {
        max_transition_stimulus_bytes: stimulus_bytes,
        max_diagnostics_per_transition: diagnostics,
        max_patches_per_transition: patches,
        max_target_references_per_transition: references,
    };
    let answer = creation::create_session(
        id,
        limits,
        nodes,
        pairs,
        collections,
        head,
        bindings,
        availability,
        entries,
        lengths,
    );
    answers::created(answer)
}

// One lifecycle step: 0 Activate, 1 Suspend, 2 Resume, 3 Close, 4 the explicit no-op.
pub fn geysertray_lifecycle_step(
    head: &mut [u64; head::NUMBERS],
    command: u64,
    stimulus_bytes: u64,
) -> GeysertrayLifecycle
    ensures { ExportedStep command stimulus_bytes head.old result head.new }
{
    if LAST_COMMAND < command {
        return answers::no_step(NO_SUCH);
    }
    let input = ShellTransitionInput {
        stimulus: asked::stimulus_of(command),
        stimulus_bytes,
    };
    let answer = lifecycle::transition(head, input);
    answers::stepped(answer)
}

// One batch, from one half of a panel's memory to the other, which has the next session where the answer is Applied and is left otherwise. It
// is planned in memory of zeros, which are zeros again after the call.
pub fn geysertray_batch<'a>(
    head: &[u64; head::NUMBERS],
    nodes: &[u64],
    pairs: &[u64],
    collections: &[u64],
    bindings: &'a [u8; LocalProjectionState::BINDING_BYTES],
    availability: &'a [u8; LocalProjectionState::AVAILABILITY_BYTES],
    entries: &'a [u8; LocalProjectionState::ENTRY_BYTES],
    session_id: u64,
    sequence_no: u64,
    patch_count: u64,
    stimulus_bytes: u64,
    target_references: u64,
    set: &[u8],
    edition: u64,
    to_head: &mut [u64; head::NUMBERS],
    to_bindings: &mut [u8; LocalProjectionState::BINDING_BYTES],
    to_availability: &mut [u8; LocalProjectionState::AVAILABILITY_BYTES],
    to_entries: &mut [u8; LocalProjectionState::ENTRY_BYTES],
    to_lengths: &mut [u8; LocalProjectionState::LENGTH_BYTES],
    plan_bindings: &mut [u8; panel_plan::BINDING_BYTES],
    plan_availability: &mut [u8; LocalProjectionState::AVAILABILITY_BYTES],
    plan_entries: &mut [u8; panel_plan::ENTRY_BYTES],
) -> GeysertrayAnswer
    ensures called { ExportedBatch edition (record { session = session_id; sequence = sequence_no; patches = patch_count; stimulus_bytes = stimulus_bytes }) target_references set.now
        head.now nodes.now pairs.now collections.now bindings.now availability.now entries.now
        to_head.old to_bindings.old to_availability.old to_entries.old to_lengths.old
        (plan_in plan_bindings.old plan_availability.old plan_entries.old) result to_head.new to_bindings.new to_availability.new to_entries.new to_lengths.new }
    ensures cleared { PlanGivenBack head.now nodes.now pairs.now collections.now bindings.now availability.now entries.now
        (plan_in plan_bindings.old plan_availability.old plan_entries.old) (plan_in plan_bindings.new plan_availability.new plan_entries.new) }
{
    if edition < 1 {
        return answers::unanswered(NO_SUCH);
    }
    if 2 < edition {
        return answers::unanswered(NO_SUCH);
    }
    let envelope = OrderedProjectionPatchBatchEnvelope {
        session_id: ShellSessionId(session_id),
        sequence_no,
        patch_count,
        stimulus_bytes,
    };
    let told = asked::edition_of(edition);
    let answer = batch::apply_projection_patch_batch(
        head,
        nodes,
        pairs,
        collections,
        bindings,
        availability,
        entries,
        envelope,
        target_references,
        set,
        told,
        to_head,
        to_bindings,
        to_availability,
        to_entries,
        to_lengths,
        plan_bindings,
        plan_availability,
        plan_entries,
    );
    answers::answered(answer)
}
