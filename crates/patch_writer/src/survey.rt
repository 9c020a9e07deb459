// The passes over a set before anything is written: 12 for any capacity, then 10 for any value, then 12 for the characters of any text. A set is
// about 200 KB, so the pass over its operations measures them and judges their values in one loop.
ghost use Rattle.std.specs.Prelude.{◌≡◌, ◌≤◌, length};
ghost use Rattle.spec_patch.specs.Sizes.{set_patches};
ghost use Rattle.projection_patch.specs.Meaning.{edition_of};
ghost use Rattle.patch_writer.specs.Set.{set_places};
ghost use Rattle.patch_writer.specs.Survey.{head_survey, operation_survey, surveyed, set_survey};

use crate::judgement::{judge_operation, worse_of};
use patch_part_writer::extent::{HEADING_BYTES, head_size, operation_size, operation_text};
use patch_part_writer::written::WriteRefusal;
use projection_patch::patch::{
    OperationPlace, ProjectionPatch, ProjectionPatchEdition, ProjectionPatchSet,
    ProjectionPatchValue,
};
use projection_patch::text_rule::TextFault;

// How many operations the heads count, and the bytes of the heads.
fn survey_heads(heads: &[ProjectionPatch]) -> Result<(usize, usize), WriteRefusal>
    requires { length heads.now ≤ set_patches }
    ensures { result ≡ head_survey heads.now }
{
    let mut operations: usize = 0;
    let mut bytes: usize = 0;
    for head in heads {
        let count = head.operation_count;
        if ProjectionPatch::OPERATIONS < count {
            return Err(WriteRefusal::OverCapacity);
        }
        operations += count;
        bytes += head_size(*head);
    }
    Ok((operations, bytes))
}

// The bytes of the operations, and the judgement of their values.
fn survey_operations(
    places: &[OperationPlace],
    texts: &[u8],
    edition: ProjectionPatchEdition,
) -> Result<(usize, Result<(), TextFault>), WriteRefusal>
    requires { length places.now ≤ set_places }
    ensures { result ≡ operation_survey (edition_of edition) texts.now places.now }
{
    let mut bytes: usize = 0;
    let mut judgement = Ok(());
    for place in places {
        let operation = place.operation;
        let text = operation_text(operation);
        if ProjectionPatchValue::TEXT_BYTES < text.len {
            return Err(WriteRefusal::OverCapacity);
        }
        bytes += operation_size(operation);
        judgement = worse_of(judgement, judge_operation(operation, texts, edition));
    }
    Ok((bytes, judgement))
}

// The bytes of the set before the judgement of its values.
#[tactic(auto, unfolding(crate::specs::Survey::surveyed))]
fn judge(
    operations: usize,
    bytes: usize,
    judgement: Result<(), TextFault>,
) -> Result<(usize, usize), WriteRefusal>
    ensures { result ≡ surveyed operations bytes judgement }
{
    if ProjectionPatchSet::BYTES < bytes {
        return Err(WriteRefusal::OverCapacity);
    }
    judgement?;
    Ok((operations, bytes))
}

// How many operations and bytes a set has that may be written.
pub fn survey_set(
    set: ProjectionPatchSet,
    texts: &[u8],
    edition: ProjectionPatchEdition,
) -> Result<(usize, usize), WriteRefusal>
    ensures { result ≡ set_survey (edition_of edition) texts.now set }
{
    let patch_count = set.patch_count;
    if ProjectionPatchSet::PATCHES < patch_count {
        return Err(WriteRefusal::OverCapacity);
    }
    let (operations, heads) = survey_heads(&set.patches[..patch_count])?;
    if ProjectionPatchSet::PLACES < operations {
        return Err(WriteRefusal::OverCapacity);
    }
    let (rest, judgement) = survey_operations(&set.operations[..operations], texts, edition)?;
    judge(operations, HEADING_BYTES + (heads + rest), judgement)
}
