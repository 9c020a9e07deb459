// Lines that ask what a set depends on.
ghost use Rattle.std.specs.Prelude.{replicate};
ghost use Rattle.spec_dependencies.specs.Answer.{dependencies_of};
ghost use Rattle.spec_replay.specs.Answers.{dependency_lines};
ghost use Rattle.bytes_printer.specs.Prints.{Prints};
ghost use Rattle.projection_patch.specs.Meaning.{edition_of};

use projection_patch::patch::ProjectionPatchEdition;
use script_answers::dependencies;

// As many places as a line's room can count.
const PLACES: usize = 65536;

fn print_told(
    set: &[u8],
    edition: ProjectionPatchEdition,
    lent: &mut [u64],
    out: &mut [u8],
) -> Option<usize>
    ensures { Prints out.old (Some 0) (dependency_lines (dependencies_of (edition_of edition) set.now lent.old)) out.new result }
{
    let answer = set_dependencies::depends::depends(set, edition, lent);
    dependencies::print_dependencies(out, Some(0), answer, lent)
}

// What the set depends on, told into so many places, all zero.
pub(crate) fn depends_into(
    set: &[u8],
    edition: ProjectionPatchEdition,
    room: u16,
    out: &mut [u8],
) -> Option<usize>
    ensures { Prints out.old (Some 0) (dependency_lines (dependencies_of (edition_of edition) set.now (replicate room 0))) out.new result }
{
    let mut lent = [0u64; PLACES];
    let end = room as usize;
    print_told(set, edition, &mut lent[0..end], out)
}
