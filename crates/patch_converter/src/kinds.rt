// Whether an edition has the kinds of a set's values.
ghost use Rattle.std.specs.Prelude.{◌≡◌, List, [], ℕ};
ghost use Rattle.spec_patch.specs.Patch.{Patch};
ghost use Rattle.spec_patch.specs.Read.{patches, read_set};
ghost use Rattle.spec_patch.specs.Write.{value_passes};
ghost use Rattle.spec_conversion.specs.Conversion.{kind_in, all_kinds};
ghost use Rattle.projection_patch.specs.Meaning.{edition_of, value_of, operation_of};
ghost use Rattle.patch_walk.specs.Steps.{AtSteps};

use patch_walk::{SetCursor, SetStep};
use projection_patch::patch::{
    ProjectionPatchEdition, ProjectionPatchOperation, ProjectionPatchValue,
};

#[tactic(auto, unfolding(spec_patch::specs::Encode::kind_of, spec_patch::specs::Edition::kinds, spec_patch::specs::Edition::has_kind))]
fn has_kind(value: ProjectionPatchValue, edition: ProjectionPatchEdition) -> bool
    ensures { (texts : List ℕ) → result ≡ kind_in (edition_of edition) (value_of texts value) }
{
    match value {
        ProjectionPatchValue::Quad(_) => true,
        ProjectionPatchValue::SignedScalar(_) => true,
        ProjectionPatchValue::UnsignedScalar(_) => true,
        ProjectionPatchValue::Text { start: _, len: _ } => true,
        ProjectionPatchValue::Score(_) => edition.has_scores(),
    }
}

// An operation without a value passes.
#[tactic(auto, unfolding(spec_patch::specs::Write::value_passes))]
fn has_kind_of(operation: ProjectionPatchOperation, edition: ProjectionPatchEdition) -> bool
    ensures { (texts : List ℕ) → result ≡ value_passes (kind_in (edition_of edition)) (operation_of texts operation) }
{
    match operation {
        ProjectionPatchOperation::SetBindingValue { target: _, value } => has_kind(value, edition),
        ProjectionPatchOperation::SetNodeAvailability {
            node: _,
            availability: _,
        } => true,
        ProjectionPatchOperation::CollectionInsert {
            collection: _,
            key: _,
            before: _,
            value,
        } => has_kind(value, edition),
        ProjectionPatchOperation::CollectionUpdate {
            collection: _,
            key: _,
            value,
        } => has_kind(value, edition),
        ProjectionPatchOperation::CollectionRemove {
            collection: _,
            key: _,
        } => true,
        ProjectionPatchOperation::CollectionMove {
            collection: _,
            key: _,
            before: _,
        } => true,
    }
}

// The values of the patches that are left at a cursor.
fn has_kinds_left(
    set: &[u8],
    first: SetCursor,
    from: ProjectionPatchEdition,
    to: ProjectionPatchEdition,
) -> bool
    ensures { (ps : List Patch) → AtSteps (edition_of from) set.now first [] ps → result ≡ all_kinds (edition_of to) ps }
{
    let mut cursor = first;
    loop {
        match patch_walk::next_step(set, cursor, false, from) {
            Ok(SetStep::Head(_, next)) => {
                cursor = next;
            }
            Ok(SetStep::Operation(operation, next)) => {
                if !has_kind_of(operation, to) {
                    return false;
                }
                cursor = next;
            }
            Ok(SetStep::End) => {
                return true;
            }
            Err(_) => {
                return false;
            }
        }
    }
}

// The values of a set that is read in the edition from. An edition with scores has every kind.
pub fn has_every_kind(set: &[u8], from: ProjectionPatchEdition, to: ProjectionPatchEdition) -> bool
    ensures { (ps : List Patch) → read_set (edition_of from) set.now ≡ patches ps → result ≡ all_kinds (edition_of to) ps }
{
    if to.has_scores() {
        return true;
    }
    let Ok(cursor) = patch_walk::open_set(set, from) else {
        return false;
    };
    has_kinds_left(set, cursor, from, to)
}
