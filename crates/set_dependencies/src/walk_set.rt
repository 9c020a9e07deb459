// One walk over a set that settles the keys of its operations.
ghost use Rattle.std.specs.Prelude.{◌≡◌, List, [], ◌≤◌, length};
ghost use Rattle.set_dependencies.specs.declared.walk_set.SettlingStop.TheVariants.{Unreadable};
ghost use Rattle.spec_patch.specs.Sizes.{set_bytes};
ghost use Rattle.spec_patch.specs.Patch.{Patch};
ghost use Rattle.spec_dependencies.specs.Dependencies.{settle_patches};
ghost use Rattle.projection_patch.specs.Meaning.{edition_of};
ghost use Rattle.patch_walk.specs.Steps.{AtSteps};
ghost use Rattle.set_dependencies.specs.SettledRows.{SettledIn, no_places};
ghost use Rattle.set_dependencies.specs.SetSettling.{SetSettlesTo};

use crate::settled_rows::SettledPlaces;
use crate::{settled_rows, settling};
use patch_walk::{SetCursor, SetStep};
use projection_patch::patch::ProjectionPatchEdition;
use projection_patch::read_values::ProjectionPatchReadFault;

// Why a walk ends before the set does: at the first operation that contradicts those before it, by its patch and its index there; or where
// the set does not read.
#[derive(Clone, Copy)]
pub enum SettlingStop {
    Contradiction { patch: usize, operation: usize },
    Unreadable(ProjectionPatchReadFault),
}

impl From<ProjectionPatchReadFault> for SettlingStop {
    ghost from_gives = { λ fault stop. stop ≡ Unreadable fault };

    fn from(fault: ProjectionPatchReadFault) -> SettlingStop {
        SettlingStop::Unreadable(fault)
    }
}

// Settles the keys of the operations from a cursor on, in a table without rows: where its rows are at the end.
pub fn settle_steps(
    set: &[u8],
    edition: ProjectionPatchEdition,
    from: SetCursor,
    table: &mut [u8],
) -> Result<SettledPlaces, SettlingStop>
    ensures { (ps : List Patch) → length set.now ≤ set_bytes → AtSteps (edition_of edition) set.now from [] ps → SettledIn no_places table.old []
        → SetSettlesTo (settle_patches 0 ps []) result table.new }
{
    let mut cursor = from;
    let mut places = SettledPlaces {
        start: settled_rows::ROWS,
        count: 0,
    };
    let mut opened: usize = 0;
    let mut patch: usize = 0;
    let mut index: usize = 0;
    loop {
        let step = patch_walk::next_step(set, cursor, false, edition)?;
        match step {
            SetStep::Head(_, next) => {
                patch = opened;
                opened += 1;
                index = 0;
                cursor = next;
            }
            SetStep::Operation(operation, next) => {
                let Some(more) = settling::settle_operation(table, places, operation) else {
                    return Err(SettlingStop::Contradiction {
                        patch,
                        operation: index,
                    });
                };
                places = more;
                index += 1;
                cursor = next;
            }
            SetStep::End => {
                return Ok(places);
            }
        }
    }
}
