// The judgement of values before anything is written: of a text by RFC 3629 and by its characters, of a score by the edition and by its number.
ghost use Rattle.std.specs.Prelude.{◌≡◌};
ghost use Rattle.projection_patch.specs.Meaning.{edition_of};
ghost use Rattle.patch_writer.specs.Survey.{judged_text, judged_score, judged_value, judged_operation, worse};

use patch_part_writer::extent::TextPlace;
use projection_patch::patch::{
    ProjectionPatchEdition, ProjectionPatchOperation, ProjectionPatchValue,
};
use projection_patch::read_values;
use projection_patch::text_rule::{TextFault, judge_text};

// The judgement of two values: a malformed one comes before one with too many characters, wherever they stand.
pub fn worse_of(a: Result<(), TextFault>, b: Result<(), TextFault>) -> Result<(), TextFault>
    ensures { result ≡ worse a b }
{
    match a {
        Err(TextFault::Malformed) => a,
        _ => b.and(a),
    }
}

// The judgement of a text; one that is not within the texts is malformed.
#[tactic(auto, unfolding(crate::specs::Survey::judged_text))]
fn judge_place(text: TextPlace, texts: &[u8]) -> Result<(), TextFault>
    ensures { result ≡ judged_text texts.now text }
{
    let start = text.start;
    let len = text.len;
    if !bytes_wire::has_room(texts.len(), start, len) {
        return Err(TextFault::Malformed);
    }
    judge_text(read_values::text_of(texts, start, start + len))
}

// A score in an edition without scores is malformed, and so is one that is too high.
#[tactic(auto, unfolding(crate::specs::Survey::judged_score))]
fn judge_score(score: u8, edition: ProjectionPatchEdition) -> Result<(), TextFault>
    ensures { result ≡ judged_score (edition_of edition) score }
{
    if !edition.has_scores() {
        return Err(TextFault::Malformed);
    }
    if ProjectionPatchValue::HIGHEST_SCORE < score {
        return Err(TextFault::Malformed);
    }
    Ok(())
}

#[tactic(auto, using(std::proofs::lemmas::Grind::common_steps), unfolding(crate::specs::Survey::judged_value, crate::specs::Survey::judged_text, crate::specs::Survey::judged_score, spec_patch::specs::Write::well_formed, spec_patch::specs::Write::allowed_value, spec_patch::specs::Write::few_enough, spec_patch::specs::Encode::kind_of, spec_patch::specs::Edition::kinds, spec_patch::specs::Edition::has_kind))]
fn judge_value(
    value: ProjectionPatchValue,
    texts: &[u8],
    edition: ProjectionPatchEdition,
) -> Result<(), TextFault>
    ensures { result ≡ judged_value (edition_of edition) texts.now value }
{
    match value {
        ProjectionPatchValue::Quad(_) => Ok(()),
        ProjectionPatchValue::SignedScalar(_) => Ok(()),
        ProjectionPatchValue::UnsignedScalar(_) => Ok(()),
        ProjectionPatchValue::Text { start, len } => judge_place(TextPlace { start, len }, texts),
        ProjectionPatchValue::Score(score) => judge_score(score, edition),
    }
}

// The judgement of the operation's value; one without a value fits.
#[tactic(auto, using(std::proofs::lemmas::Grind::common_steps), unfolding(crate::specs::Survey::judged_operation, crate::specs::Survey::judged_value, spec_patch::specs::Write::value_passes))]
pub fn judge_operation(
    operation: ProjectionPatchOperation,
    texts: &[u8],
    edition: ProjectionPatchEdition,
) -> Result<(), TextFault>
    ensures { result ≡ judged_operation (edition_of edition) texts.now operation }
{
    match operation {
        ProjectionPatchOperation::SetBindingValue { target: _, value } => judge_value(
            value, texts, edition,
        ),
        ProjectionPatchOperation::SetNodeAvailability {
            node: _,
            availability: _,
        } => Ok(()),
        ProjectionPatchOperation::CollectionInsert {
            collection: _,
            key: _,
            before: _,
            value,
        } => judge_value(value, texts, edition),
        ProjectionPatchOperation::CollectionUpdate {
            collection: _,
            key: _,
            value,
        } => judge_value(value, texts, edition),
        ProjectionPatchOperation::CollectionRemove {
            collection: _,
            key: _,
        } => Ok(()),
        ProjectionPatchOperation::CollectionMove {
            collection: _,
            key: _,
            before: _,
        } => Ok(()),
    }
}
