// The way through a whole set: where its reading stops, and by which rule.
ghost use Rattle.std.specs.Prelude.{◌≡◌, ◌≤◌, length, drop};
ghost use Rattle.spec_patch.specs.Sizes.{set_patches, patch_operations};
ghost use Rattle.spec_patch.specs.Encode.{heading};
ghost use Rattle.spec_explain.specs.ReadingRule.{patch_count, operation_count_lem};
ghost use Rattle.spec_explain.specs.Locate.{repeated, counted, locate_patch, locate_letters, locate_patches, locate};
ghost use Rattle.projection_patch.specs.Meaning.{edition_of};
ghost use Rattle.patch_locate.specs.Answers.{located_answer, within_to, located_set};
ghost use Rattle.patch_locate.specs.Fields.{operation_in, patch_fields};

use crate::fields;
use crate::rules::{Inside, ReadingRule, Stop};
use projection_patch::patch::{ProjectionPatch, ProjectionPatchEdition, ProjectionPatchSet};

// A stop that has no place yet is given this one.
fn within(located: Result<usize, Stop>, here: Inside) -> Result<usize, Stop>
    ensures { result ≡ within_to here located }
{
    located.map_err(|stop| stop.within(here))
}

// So many operations of a patch, one after the other.
fn operations_at(
    set: &[u8],
    at: usize,
    count: usize,
    patch: usize,
    edition: ProjectionPatchEdition,
) -> Result<usize, Stop>
    requires { at ≤ length set.now }
    ensures { result ≡ located_answer (length set.now) (repeated (operation_in (edition_of edition) patch) 0 count (drop at set.now)) }
{
    let mut next = at;
    for j in 0..count {
        let operation = fields::operation_at(set, next, edition);
        next = within(operation, Inside::Operation(patch, j))?;
    }
    Ok(next)
}

// The operations of a patch behind their count.
fn operations_counted(
    set: &[u8],
    at: usize,
    patch: usize,
    edition: ProjectionPatchEdition,
) -> Result<usize, Stop>
    ensures { result ≡ located_answer (length set.now) (counted operation_count_lem patch_operations (operation_in (edition_of edition) patch) (drop at set.now)) }
{
    let Some(count) = bytes_wire::read_u32_at(set, at) else {
        return Err(fields::stop_at(set.len(), at, ReadingRule::TooFewBytes));
    };
    if count as usize <= ProjectionPatch::OPERATIONS {
        return operations_at(set, at + 4, count as usize, patch, edition);
    }
    Err(Stop::outside(ReadingRule::OperationCount, at))
}

// The fields of a patch: its envelope, and its operations behind their count.
fn patch_fields(
    set: &[u8],
    at: usize,
    patch: usize,
    edition: ProjectionPatchEdition,
) -> Result<usize, Stop>
    requires { at ≤ length set.now }
    ensures { result ≡ located_answer (length set.now) (patch_fields (edition_of edition) patch (drop at set.now)) }
{
    let end = fields::fields_at(set, at, b"NNNONNNN", edition)?;
    operations_counted(set, end, patch, edition)
}

// So many patches, one after the other.
fn patches_at(
    set: &[u8],
    at: usize,
    count: usize,
    edition: ProjectionPatchEdition,
) -> Result<usize, Stop>
    requires { at ≤ length set.now }
    ensures { result ≡ located_answer (length set.now) (repeated (locate_patch (edition_of edition)) 0 count (drop at set.now)) }
{
    let mut next = at;
    for i in 0..count {
        let patch = patch_fields(set, next, i, edition);
        next = within(patch, Inside::Patch(i))?;
    }
    Ok(next)
}

// The patches behind their count.
fn patches_counted(set: &[u8], at: usize, edition: ProjectionPatchEdition) -> Result<usize, Stop>
    ensures { result ≡ located_answer (length set.now) (counted patch_count set_patches (locate_patch (edition_of edition)) (drop at set.now)) }
{
    let Some(count) = bytes_wire::read_u32_at(set, at) else {
        return Err(fields::stop_at(set.len(), at, ReadingRule::TooFewBytes));
    };
    if count as usize <= ProjectionPatchSet::PATCHES {
        return patches_at(set, at + 4, count as usize, edition);
    }
    Err(Stop::outside(ReadingRule::PatchCount, at))
}

// Just these bytes, from the start of the set.
fn letters_at(set: &[u8], letters: &[u8]) -> Result<usize, Stop>
    ensures { result ≡ located_answer (length set.now) (locate_letters letters.now set.now) }
{
    for (i, letter) in letters.iter().enumerate() {
        if set.len() <= i {
            return Err(fields::stop_at(set.len(), i, ReadingRule::TooFewBytes));
        }
        if set[i] != *letter {
            return Err(Stop::outside(ReadingRule::WrongHeading, i));
        }
    }
    Ok(letters.len())
}

fn heading_at(set: &[u8], edition: ProjectionPatchEdition) -> Result<usize, Stop>
    ensures { result ≡ located_answer (length set.now) (locate_letters (heading (edition_of edition)) set.now) }
{
    match edition {
        ProjectionPatchEdition::V1 => letters_at(set, b"\x1b\0\0\0UI_DNA2_PROJECTION_PATCH_V1"),
        ProjectionPatchEdition::V2 => letters_at(set, b"\x1b\0\0\0UI_DNA2_PROJECTION_PATCH_V2"),
    }
}

// The way through heading and patches.
fn way(set: &[u8], edition: ProjectionPatchEdition) -> Result<usize, Stop>
    ensures { result ≡ located_answer (length set.now) (locate_patches (edition_of edition) set.now) }
{
    let at = heading_at(set, edition)?;
    patches_counted(set, at, edition)
}

// Where the reading of a set stops, or that it is read.
pub fn locate_set(set: &[u8], edition: ProjectionPatchEdition) -> Result<(), Stop>
    ensures { result ≡ located_set (locate (edition_of edition) set.now) }
{
    if ProjectionPatchSet::BYTES < set.len() {
        return Err(Stop::outside(ReadingRule::SetTooLong, 0));
    }
    let at = way(set, edition)?;
    if at < set.len() {
        return Err(Stop::outside(ReadingRule::BytesLeft, at));
    }
    Ok(())
}
