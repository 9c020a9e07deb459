// One batch of patches: steps 1 to 8 on what the session tells, then step 9 from its tables to those of the next session.
ghost use Rattle.std.specs.Prelude.{◌≡◌};
ghost use Rattle.projection_patch.specs.Meaning.{edition_of};
ghost use Rattle.shell_player.specs.Batches.{batch_of, BatchCall, AnyBatchCall};

use crate::session::ShellSession;
use crate::tables;
use local_projection_state::LocalProjectionState;
use projection_patch::patch::ProjectionPatchEdition;
use session_gates::gates::OrderedProjectionPatchBatchEnvelope;
use session_steps::answers::ProjectionPatchApplicationResult;
use session_steps::{answers, checks, states};

// The session after a batch, and the batch's answer.
#[derive(Drop)]
pub struct ProjectionPatchBatch {
    pub session: ShellSession,
    pub result: ProjectionPatchApplicationResult,
}

// A batch's session and answer. They are put together by a call, since a struct that is made in place is put together beside it first.
fn batch_of(session: ShellSession, res: ProjectionPatchApplicationResult) -> ProjectionPatchBatch
    ensures { result ≡ batch_of session res }
{
    ProjectionPatchBatch {
        session,
        result: res,
    }
}

impl ShellSession {
    // One batch: steps 1 to 9. The tables of the next session are written once; a batch that is not applied hands the session back as it came.
    pub fn apply_projection_patch_batch(
        self,
        envelope: OrderedProjectionPatchBatchEnvelope,
        declared_target_reference_count: u64,
        set: &[u8],
        edition: ProjectionPatchEdition,
    ) -> ProjectionPatchBatch
        ensures holding { BatchCall self envelope declared_target_reference_count set.now (edition_of edition) result }
        ensures whatever { AnyBatchCall self envelope result }
    {
        let context = self.context;
        let cap = context.limits.max_diagnostics_per_transition;
        let state = self.state;
        let cursor = state.replay_cursor;
        let declared = declared_target_reference_count;
        let gate = checks::check_session(context, state, envelope, declared, set, edition);
        if let Err(refused) = gate {
            return batch_of(
                self,
                answers::rejected(cap, refused.refusal, refused.logical, cursor),
            );
        }
        if checks::is_empty(envelope) {
            return batch_of(self, answers::unchanged(cursor));
        }
        let mut bindings = [0u8; LocalProjectionState::BINDING_BYTES];
        let mut availability = [0u8; LocalProjectionState::AVAILABILITY_BYTES];
        let mut entries = [0u8; LocalProjectionState::ENTRY_BYTES];
        let mut lengths = [0u8; LocalProjectionState::LENGTH_BYTES];
        let used = panel_changes::none_used();
        let change = panel_changes::apply_set(
            &self.local_projection.bindings,
            &self.local_projection.availability,
            &self.local_projection.entries,
            self.local_projection.counts,
            set,
            edition,
            &mut bindings,
            &mut availability,
            &mut entries,
            &mut lengths,
            used,
        );
        let result = answers::concluded(cap, change, cursor, envelope.sequence_no);
        let Ok(n) = change else {
            return batch_of(self, result);
        };
        let moved = states::advanced(state, envelope.sequence_no);
        let session = tables::with_tables(self, moved, n, bindings, availability, entries, lengths);
        batch_of(session, result)
    }
}
