// The check of a whole set.
ghost use Rattle.std.specs.Prelude.{◌≡◌, List, length};
ghost use Rattle.spec_patch.specs.Patch.{Patch};
ghost use Rattle.spec_patch.specs.Read.{patches, read_set};
ghost use Rattle.spec_checks.specs.Findings.{findings};
ghost use Rattle.spec_checks.specs.Answer.{write_findings, checked_list};
ghost use Rattle.projection_patch.specs.Meaning.{edition_of};
ghost use Rattle.check_set.specs.CheckAnswers.{written_answer, written_numbers, checked_to, check_answer, check_numbers};

use crate::list_set::FindingsListed;
use crate::{list_set, write_findings};
use check_quick::quick_set;
use check_quick::quick_set::QuickCheck;
use projection_patch::patch::ProjectionPatchEdition;
use projection_patch::read_values::ProjectionPatchReadFault;

// Where the findings are: in the patch of an index from 0, or in the set.
#[derive(Clone, Copy)]
pub enum CheckPlace {
    Patch(usize),
    Set,
}

// The check of a set that reads. logical: how many findings there are; written: how many records of them fitted.
#[derive(Clone, Copy)]
pub struct PatchSetCheck {
    pub place: CheckPlace,
    pub logical: usize,
    pub written: usize,
}

// The answer at a place, after the records that fit have been written.
fn write_answer(
    place: CheckPlace,
    logical: usize,
    records: &[u64],
    out: &mut [u64],
) -> PatchSetCheck
    ensures answered { result ≡ written_answer place logical records.now out.old }
    ensures written { out.new ≡ written_numbers logical records.now out.old }
{
    let written = write_findings::write_findings(records, logical, out);
    PatchSetCheck {
        place,
        logical,
        written,
    }
}

// Lists the findings of a readable set and writes those that fit.
fn find(
    set: &[u8],
    edition: ProjectionPatchEdition,
    out: &mut [u64],
) -> Result<PatchSetCheck, ProjectionPatchReadFault>
    ensures answered { (ps : List Patch) → read_set (edition_of edition) set.now ≡ patches ps → result ≡ Ok (checked_to (checked_list ps (length out.old))) }
    ensures written { (ps : List Patch) → read_set (edition_of edition) set.now ≡ patches ps → out.new ≡ write_findings (findings ps).found out.old }
{
    let mut records = [0u64; FindingsListed::NUMBERS];
    let start = patch_walk::open_set(set, edition)?;
    let listed = list_set::list_patches(set, edition, start, &mut records);
    Ok(write_answer(listed.place, listed.count, &records, out))
}

// Checks a set and writes the records of its findings, three numbers each, from the start of findings.
pub fn check(
    set: &[u8],
    edition: ProjectionPatchEdition,
    findings: &mut [u64],
) -> Result<PatchSetCheck, ProjectionPatchReadFault>
    ensures answered { result ≡ check_answer (read_set (edition_of edition) set.now) (length findings.old) }
    ensures written { findings.new ≡ check_numbers (read_set (edition_of edition) set.now) findings.old }
{
    let checked = quick_set::quick_check(set, edition)?;
    match checked {
        QuickCheck::Clean { .. } => Ok(PatchSetCheck {
            place: CheckPlace::Set,
            logical: 0,
            written: 0,
        }),
        QuickCheck::Found => find(set, edition, findings),
    }
}
