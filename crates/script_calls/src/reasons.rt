// The rule behind the refusal of a batch for the session.
ghost use Rattle.spec_session.specs.Session.{Session};
ghost use Rattle.spec_explain.specs.Explain.{explain};
ghost use Rattle.spec_replay.specs.Reasons.{reason_line};
ghost use Rattle.spec_replay.specs.Replay.{State, asked, onward};
ghost use Rattle.bytes_printer.specs.Prints.{Prints};
ghost use Rattle.projection_patch.specs.Meaning.{edition_of};
ghost use Rattle.session_gates.specs.Gates.{batch_envelope_of};
ghost use Rattle.shell_player.specs.Holds.{Holds};
ghost use Rattle.script_calls.specs.ReplayHolds.{ReplayHolds, ReplayStepped};

use crate::state;
use crate::state::{ReplayState, ReplayStep};
use projection_patch::patch::ProjectionPatchEdition;
use session_gates::gates::OrderedProjectionPatchBatchEnvelope;
use shell_player::session::ShellSession;

fn print_explained(
    session: ShellSession,
    envelope: OrderedProjectionPatchBatchEnvelope,
    references: u64,
    set: &[u8],
    edition: ProjectionPatchEdition,
    out: &mut [u8],
) -> Option<usize>
    ensures { (m : Session) → Holds session m
        → Prints out.old (Some 0) (reason_line (explain (edition_of edition) m (batch_envelope_of envelope) references set.now)) out.new result }
{
    let explanation = session_explain::batch::explain_batch(
        session, envelope, references, set, edition,
    );
    script_reasons::print_reason(out, Some(0), explanation)
}

// Why a batch with these arguments is refused, if it is; it is not sent.
pub fn explain_batch(
    state: ReplayState,
    envelope: OrderedProjectionPatchBatchEnvelope,
    references: u64,
    set: &[u8],
    out: &mut [u8],
) -> ReplayStep
    ensures { (m : State) → ReplayHolds state m
        → ReplayStepped state out.old out.new result (asked m (λ (x : Session). onward m (reason_line (explain m.edition x (batch_envelope_of envelope) references set.now)))) }
{
    if state.exists {
        let session = state.session;
        let edition = state.edition;
        let printed = print_explained(session, envelope, references, set, edition, out);
        return ReplayStep {
            state,
            printed,
            stopped: false,
        };
    }
    state::no_session(state, out)
}
