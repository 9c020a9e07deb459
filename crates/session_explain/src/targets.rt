// The first operation of a set whose target is none of the lent anchors.
ghost use Rattle.std.specs.Prelude.{◌≡◌, List, [], ℕ};
ghost use Rattle.spec_patch.specs.Patch.{Patch};
ghost use Rattle.spec_patch.specs.Read.{patches, read_set};
ghost use Rattle.spec_session.specs.Session.{Catalogue};
ghost use Rattle.spec_explain.specs.Walk.{walk_patches, tested};
ghost use Rattle.spec_explain.specs.Explain.{target_known};
ghost use Rattle.projection_patch.specs.Meaning.{edition_of, operation_of};
ghost use Rattle.patch_walk.specs.Steps.{AtSteps};
ghost use Rattle.session_gates.specs.Lent.{Lent};
ghost use Rattle.session_explain.specs.Unknown.{unknown_to};

use check_quick::anchors;
use check_targets;
use patch_walk::{SetCursor, SetStep};
use projection_patch::patch::{ProjectionPatchEdition, ProjectionPatchOperation};
use projection_patch::read_values::ProjectionPatchReadFault;

// Whether the operation's target is one of the lent anchors.
fn target_known(
    nodes: &[u64],
    bindings: &[u64],
    collections: &[u64],
    operation: ProjectionPatchOperation,
) -> bool
    ensures { (c : Catalogue) (texts : List ℕ) → Lent c nodes.now bindings.now collections.now → result ≡ target_known c (operation_of texts operation) }
{
    let target = check_targets::mutation_target(operation);
    anchors::one_if_absent(nodes, bindings, collections, target) == 0
}

// Walks from a cursor on.
fn unknown_from(
    set: &[u8],
    edition: ProjectionPatchEdition,
    from: SetCursor,
    nodes: &[u64],
    bindings: &[u64],
    collections: &[u64],
) -> Result<Option<(usize, usize)>, ProjectionPatchReadFault>
    ensures { (c : Catalogue) (ps : List Patch) → Lent c nodes.now bindings.now collections.now → AtSteps (edition_of edition) set.now from [] ps
        → result ≡ unknown_to (walk_patches (tested (target_known c)) 0 tt ps) }
{
    let mut cursor = from;
    let mut opened: usize = 0;
    let mut patch: usize = 0;
    let mut index: usize = 0;
    loop {
        match patch_walk::next_step(set, cursor, false, edition)? {
            SetStep::Head(_, next) => {
                patch = opened;
                opened = opened + 1;
                index = 0;
                cursor = next;
            }
            SetStep::Operation(operation, next) => {
                if !target_known(nodes, bindings, collections, operation) {
                    return Ok(Some((patch, index)));
                }
                index = index + 1;
                cursor = next;
            }
            SetStep::End => return Ok(None),
        }
    }
}

// The first operation with an unknown target, by its patch and its index there, of a set that is known to be readable.
pub fn first_unknown(
    set: &[u8],
    edition: ProjectionPatchEdition,
    nodes: &[u64],
    bindings: &[u64],
    collections: &[u64],
) -> Result<Option<(usize, usize)>, ProjectionPatchReadFault>
    ensures { (c : Catalogue) (ps : List Patch) → Lent c nodes.now bindings.now collections.now → read_set (edition_of edition) set.now ≡ patches ps
        → result ≡ unknown_to (walk_patches (tested (target_known c)) 0 tt ps) }
{
    let start = patch_walk::open_set(set, edition)?;
    unknown_from(set, edition, start, nodes, bindings, collections)
}
