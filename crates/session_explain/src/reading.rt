// Step 4 of a batch with its reason: the bytes are readable, and the patch checks find nothing.
ghost use Rattle.std.specs.Prelude.{◌≡◌, List};
ghost use Rattle.spec_patch.specs.Patch.{Patch};
ghost use Rattle.spec_patch.specs.Read.{patches, read_set};
ghost use Rattle.spec_checks.specs.Findings.{findings};
ghost use Rattle.spec_explain.specs.Explain.{no_findings};
ghost use Rattle.spec_explain.specs.CallReasons.{explain_check};
ghost use Rattle.projection_patch.specs.Meaning.{edition_of};
ghost use Rattle.session_explain.specs.Reasons.{found_to, step_to};

use crate::reasons::BatchReason;
use check_set::check_set as checking;
use check_set::list_set::FindingsListed;
use patch_locate::set;
use projection_patch::patch::ProjectionPatchEdition;

// Why a set is not checked: the rule by which its reading stops, and where.
pub fn explain_check(set: &[u8], edition: ProjectionPatchEdition) -> Result<(), BatchReason>
    ensures { result ≡ found_to (explain_check (edition_of edition) set.now) }
{
    Ok(set::locate_set(set, edition)?)
}

// The findings of a set that is known to be readable: where they are, how many, and the first record.
pub fn explain_findings(set: &[u8], edition: ProjectionPatchEdition) -> Result<(), BatchReason>
    ensures { (ps : List Patch) → read_set (edition_of edition) set.now ≡ patches ps → result ≡ step_to (no_findings (findings ps).place (findings ps).found) }
{
    let mut first = [0u64; FindingsListed::RECORD];
    match checking::check(set, edition, &mut first) {
        Ok(checked) => {
            let logical = checked.logical;
            if logical == 0 {
                return Ok(());
            }
            Err(BatchReason::HasFindings(checked.place, logical, first[0], first[1], first[2]))
        }
        Err(_) => Ok(()),
    }
}
