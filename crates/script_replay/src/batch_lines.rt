// Lines of a batch: it is sent, or the rule behind its refusal is asked for.
ghost use Rattle.std.specs.Prelude.{◌≡◌, ℕ};
ghost use Rattle.spec_replay.specs.Replay.{State, replay_line};
ghost use Rattle.session_gates.specs.Gates.{batch_envelope_of};
ghost use Rattle.script_parser.specs.Meaning.{script_envelope_of, with_set_of};
ghost use Rattle.script_parser.specs.declared.SetLine.TheVariants as SetLine;
ghost use Rattle.script_calls.specs.ReplayHolds.{ReplayHolds, ReplayStepped};

use script_calls::state::{ReplayState, ReplayStep};
use script_calls::{calls, reasons};
use script_parser::BatchLine;
use session_gates::gates::OrderedProjectionPatchBatchEnvelope;
use session_lifecycle::state::ShellSessionId;

fn envelope_of(batch: BatchLine) -> OrderedProjectionPatchBatchEnvelope
    ensures { batch_envelope_of result ≡ script_envelope_of batch }
{
    OrderedProjectionPatchBatchEnvelope {
        session_id: ShellSessionId(batch.session_id),
        sequence_no: batch.sequence_no,
        patch_count: batch.patch_count,
        stimulus_bytes: batch.stimulus_bytes,
    }
}

pub(crate) fn apply_batch(
    state: ReplayState,
    batch: BatchLine,
    set: &[u8],
    out: &mut [u8],
) -> ReplayStep
    ensures { (m : State) → ReplayHolds state m → (number : ℕ)
        → ReplayStepped state out.old out.new result (replay_line number m (with_set_of (SetLine.Batch batch) set.now)) }
{
    let envelope = envelope_of(batch);
    calls::apply_batch(state, envelope, batch.target_references, set, out)
}

pub(crate) fn explain_batch(
    state: ReplayState,
    batch: BatchLine,
    set: &[u8],
    out: &mut [u8],
) -> ReplayStep
    ensures { (m : State) → ReplayHolds state m → (number : ℕ)
        → ReplayStepped state out.old out.new result (replay_line number m (with_set_of (SetLine.Explain batch) set.now)) }
{
    let envelope = envelope_of(batch);
    reasons::explain_batch(state, envelope, batch.target_references, set, out)
}
