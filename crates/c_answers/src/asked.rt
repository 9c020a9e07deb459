// What is asked for by numbers: commands, editions, the envelope of a patch.
ghost use Rattle.std.specs.Prelude.{◌≡◌};
ghost use Rattle.projection_patch.specs.Meaning.{edition_of, surface_of, envelope_of};
ghost use Rattle.session_lifecycle.specs.Meaning.{stimulus_of};
ghost use Rattle.c_answers.specs.Asked.{command_at, edition_at, is_edition, surface_at, envelope_at};

use projection_patch::contract_primitives::{Epoch, Revision, StaticDocumentId, StaticSurfaceId};
use projection_patch::patch::{
    ProjectionPatchEdition, ProjectionPatchEnvelope, ProjectionPatchId, ProjectionPatchSequence,
    ProjectionPatchStreamId,
};
use session_lifecycle::lifecycle::{ShellLifecycleCommand, ShellLifecycleStimulus};

// The command of a number; any other is the explicit no-op.
pub fn stimulus_of(command: u64) -> ShellLifecycleStimulus
    ensures { stimulus_of result ≡ command_at command }
{
    match command {
        0 => ShellLifecycleStimulus::Command(ShellLifecycleCommand::Activate),
        1 => ShellLifecycleStimulus::Command(ShellLifecycleCommand::Suspend),
        2 => ShellLifecycleStimulus::Command(ShellLifecycleCommand::Resume),
        3 => ShellLifecycleStimulus::Command(ShellLifecycleCommand::Close),
        _ => ShellLifecycleStimulus::ExplicitNoOp,
    }
}

// The first edition, or the second.
pub fn edition_of(edition: u64) -> ProjectionPatchEdition
    ensures { edition_of result ≡ edition_at edition }
{
    if edition == 1 {
        return ProjectionPatchEdition::V1;
    }
    ProjectionPatchEdition::V2
}

pub fn is_edition(edition: u64) -> bool
    ensures { result ≡ is_edition edition }
{
    if edition == 1 {
        return true;
    }
    edition == 2
}

// The surface of a patch, if the first number is not 0.
fn surface_at(has: u64, surface: u64) -> Option<StaticSurfaceId>
    ensures { surface_of result ≡ surface_at has surface }
{
    if has == 0 {
        return None;
    }
    Some(StaticSurfaceId::new(surface))
}

pub fn envelope_at(
    patch_id: u64,
    stream: u64,
    document: u64,
    has_surface: u64,
    surface: u64,
    previous_revision: u64,
    revision: u64,
    epoch: u64,
    sequence: u64,
) -> ProjectionPatchEnvelope
    ensures { envelope_of result ≡ envelope_at patch_id stream document has_surface surface previous_revision revision epoch sequence }
{
    ProjectionPatchEnvelope {
        patch_id: ProjectionPatchId::new(patch_id),
        stream_id: ProjectionPatchStreamId::new(stream),
        document_id: StaticDocumentId::new(document),
        surface_id: surface_at(has_surface, surface),
        previous_projection_revision: Revision::new(previous_revision),
        projection_revision: Revision::new(revision),
        epoch: Epoch::new(epoch),
        sequence: ProjectionPatchSequence::new(sequence),
    }
}
