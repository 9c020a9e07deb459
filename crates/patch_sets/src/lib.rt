// Reading of a patch's head and of the heading.
#![tactic(auto)]

ghost use Rattle.std.specs.Prelude.{◌≡◌, length, drop};
ghost use Rattle.spec_patch.specs.Edition.{letters};
ghost use Rattle.spec_patch.specs.Read.{read_envelope};
ghost use Rattle.bytes_wire.specs.Prefix.{starts_with};
ghost use Rattle.projection_patch.specs.Meaning.{surface_to, edition_of};
ghost use Rattle.patch_sets.specs.Walk.{read_head, read_heading};
ghost use Rattle.spec_lists.specs.Options.{optional_of};
ghost use Rattle.projection_patch.specs.ReadAnswers.{count_answer};
ghost use Rattle.patch_sets.specs.SetAnswers.{envelope_answer, head_answer};

use projection_patch::contract_primitives::{Epoch, Revision, StaticDocumentId, StaticSurfaceId};
use projection_patch::patch::{
    ProjectionPatch, ProjectionPatchEdition, ProjectionPatchEnvelope, ProjectionPatchId,
    ProjectionPatchSequence, ProjectionPatchSet, ProjectionPatchStreamId,
};
use projection_patch::read_values;
use projection_patch::read_values::ProjectionPatchReadFault;

fn surface_of(number: Option<u64>) -> Option<StaticSurfaceId>
    ensures { result ≡ surface_to (optional_of number) }
{
    number.map(StaticSurfaceId::new)
}

fn envelope(part: &[u8]) -> Result<(ProjectionPatchEnvelope, usize), ProjectionPatchReadFault>
    ensures { result ≡ envelope_answer (length part.now) (read_envelope part.now) }
{
    let ((patch, stream), at) = read_values::numbers_at(part, 0)?;
    let (document, at) = read_values::u64_at(part, at)?;
    let (surface, at) = read_values::optional_at(part, at)?;
    let ((previous, revision), at) = read_values::numbers_at(part, at)?;
    let ((epoch, sequence), end) = read_values::numbers_at(part, at)?;
    let envelope = ProjectionPatchEnvelope {
        patch_id: ProjectionPatchId::new(patch),
        stream_id: ProjectionPatchStreamId::new(stream),
        document_id: StaticDocumentId::new(document),
        surface_id: surface_of(surface),
        previous_projection_revision: Revision::new(previous),
        projection_revision: Revision::new(revision),
        epoch: Epoch::new(epoch),
        sequence: ProjectionPatchSequence::new(sequence),
    };
    Ok((envelope, end))
}

// Reads a patch's head from the start of a part: the envelope and the operation count. The answer is the head and how many bytes it took.
pub fn read_patch_head(part: &[u8]) -> Result<(ProjectionPatch, usize), ProjectionPatchReadFault>
    ensures { result ≡ head_answer (length part.now) (read_head part.now) }
{
    let (envelope, at) = envelope(part)?;
    let (operation_count, end) = read_values::count_at(part, at, ProjectionPatch::OPERATIONS)?;
    Ok((
        ProjectionPatch {
            envelope,
            operation_count,
        },
        end,
    ))
}

#[tactic(auto, unfolding(spec_patch::specs::Edition::letters, spec_patch::specs::Edition::edition_digit))]
fn has_letters(set: &[u8], edition: ProjectionPatchEdition) -> bool
    ensures { result ≡ starts_with (letters (edition_of edition)) (drop 4 set.now) }
{
    match edition {
        ProjectionPatchEdition::V1 => bytes_wire::starts_with(
            set,
            4,
            b"UI_DNA2_PROJECTION_PATCH_V1",
        ),
        ProjectionPatchEdition::V2 => bytes_wire::starts_with(
            set,
            4,
            b"UI_DNA2_PROJECTION_PATCH_V2",
        ),
    }
}

// Reads the heading of a set: the patch count, and the position of the first patch.
pub fn read_heading(
    set: &[u8],
    edition: ProjectionPatchEdition,
) -> Result<(usize, usize), ProjectionPatchReadFault>
    ensures { result ≡ count_answer (length set.now) (read_heading (edition_of edition) set.now) }
{
    let letters = bytes_wire::read_u32_at(set, 0).ok_or(ProjectionPatchReadFault::Malformed)?;
    if letters != 27 {
        return Err(ProjectionPatchReadFault::Malformed);
    }
    if has_letters(set, edition) {
        read_values::count_at(set, 31, ProjectionPatchSet::PATCHES)
    } else {
        Err(ProjectionPatchReadFault::Malformed)
    }
}
