// A whole set, read and checked in one pass: what steps 4 to 7 of a batch ask of it. In which order they refuse is decided afterwards.
ghost use Rattle.std.specs.Prelude.{◌≡◌, ◌≤◌, length, drop};
ghost use Rattle.spec_patch.specs.Sizes.{set_patches};
ghost use Rattle.spec_patch.specs.Reader.{many};
ghost use Rattle.spec_patch.specs.Read.{read_patch, ended, read_set};
ghost use Rattle.projection_patch.specs.Meaning.{edition_of};
ghost use Rattle.check_quick.specs.Quick.{RoomForIds};
ghost use Rattle.check_quick.specs.QuickAnswers.{inspection_answer, quick_end_answer};

use crate::quick_patches;
use projection_patch::patch::{ProjectionPatchEdition, ProjectionPatchSet};
use projection_patch::read_values::ProjectionPatchReadFault;

// Most sets are this short, and little is cleared for their ids.
const SHORT_BYTES: usize = 512;
// The patches that so many bytes hold; each takes 61 or more.
const SHORT_PATCHES: usize = 8;

// What a readable set is: without findings, with so many patches and operations, and so many operations whose target is absent; or with some.
#[derive(Clone, Copy)]
pub enum SetInspection {
    Clean {
        patch_count: usize,
        operation_count: usize,
        absent: usize,
    },
    Found,
}

// The answer behind the last patch, where so many bytes are left.
fn at_end(
    left: usize,
    found: bool,
    patch_count: usize,
    operation_count: usize,
    absent: usize,
) -> Result<SetInspection, ProjectionPatchReadFault>
    ensures { result ≡ quick_end_answer left found patch_count operation_count absent }
{
    if 0 < left {
        return Err(ProjectionPatchReadFault::Malformed);
    }
    if found {
        return Ok(SetInspection::Found);
    }
    Ok(SetInspection::Clean {
        patch_count,
        operation_count,
        absent,
    })
}

// Reads and checks count patches, the first of them at from, behind which the set ends. The ids have room for all patches that the bytes of
// the set can hold.
fn inspect_patches(
    set: &[u8],
    edition: ProjectionPatchEdition,
    from: usize,
    count: usize,
    nodes: &[u64],
    bindings: &[u64],
    collections: &[u64],
    ids: &mut [u64],
) -> Result<SetInspection, ProjectionPatchReadFault>
    requires { (from ≤ length set.now) × ((count ≤ set_patches) × RoomForIds (length set.now) (length ids.old)) }
    ensures { result ≡ inspection_answer nodes.now bindings.now collections.now
        (ended (many count (read_patch (edition_of edition)) (drop from set.now))) }
{
    let mut highest = 0;
    let mut previous = None;
    let mut at = from;
    let mut operations: usize = 0;
    let mut absent: usize = 0;
    let mut found = false;
    for done in 0..count {
        let (patch, end) = quick_patches::check_patch(
            set,
            edition,
            at,
            nodes,
            bindings,
            collections,
        )?;
        let head = patch.head;
        let envelope = head.envelope;
        found = quick_patches::after_found(
            found,
            patch.found,
            ids,
            done,
            highest,
            previous,
            envelope,
        );
        highest = highest.max(envelope.patch_id.raw());
        previous = Some(envelope);
        at = end;
        absent += patch.absent;
        operations += head.operation_count;
    }
    at_end(set.len() - at, found, count, operations, absent)
}

// Reads a whole set, with room lent for the ids of its patches.
fn inspect_with(
    set: &[u8],
    edition: ProjectionPatchEdition,
    nodes: &[u64],
    bindings: &[u64],
    collections: &[u64],
    ids: &mut [u64],
) -> Result<SetInspection, ProjectionPatchReadFault>
    requires { RoomForIds (length set.now) (length ids.old) }
    ensures { result ≡ inspection_answer nodes.now bindings.now collections.now (read_set (edition_of edition) set.now) }
{
    if ProjectionPatchSet::BYTES < set.len() {
        return Err(ProjectionPatchReadFault::OverCapacity);
    }
    let (count, at) = patch_sets::read_heading(set, edition)?;
    inspect_patches(set, edition, at, count, nodes, bindings, collections, ids)
}

// Reads a whole set and says whether it has a finding; if not, how many patches and operations it has, and how many of the operations have
// a target that is none of the lent anchors, repeats included. A binding's anchor is two numbers.
pub fn inspect_set(
    set: &[u8],
    edition: ProjectionPatchEdition,
    nodes: &[u64],
    bindings: &[u64],
    collections: &[u64],
) -> Result<SetInspection, ProjectionPatchReadFault>
    ensures { result ≡ inspection_answer nodes.now bindings.now collections.now (read_set (edition_of edition) set.now) }
{
    if set.len() <= SHORT_BYTES {
        let mut few = [0u64; SHORT_PATCHES];
        return inspect_with(set, edition, nodes, bindings, collections, &mut few);
    }
    let mut ids = [0u64; ProjectionPatchSet::PATCHES];
    inspect_with(set, edition, nodes, bindings, collections, &mut ids)
}
