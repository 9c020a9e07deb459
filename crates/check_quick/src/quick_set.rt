// Whether a set has a finding, where no anchors are asked for.
ghost use Rattle.std.specs.Prelude.{◌≡◌};
ghost use Rattle.spec_patch.specs.Read.{read_set};
ghost use Rattle.projection_patch.specs.Meaning.{edition_of};
ghost use Rattle.check_quick.specs.QuickAnswers.{quick_answer, quick_number};

use crate::inspection;
use crate::inspection::SetInspection;
use projection_patch::patch::ProjectionPatchEdition;
use projection_patch::read_values::ProjectionPatchReadFault;

// What a readable set is: without findings, with so many patches and operations, or with some.
#[derive(Clone, Copy)]
pub enum QuickCheck {
    Clean {
        patch_count: usize,
        operation_count: usize,
    },
    Found,
}

impl QuickCheck {
    // The number of a refusal; 0 says that there is none.
    pub fn number(answer: Result<QuickCheck, ProjectionPatchReadFault>) -> u64
        ensures { result ≡ quick_number answer }
    {
        match answer {
            Ok(QuickCheck::Clean { .. }) => 0,
            Ok(QuickCheck::Found) => 11,
            Err(fault) => fault.number(),
        }
    }
}

// Reads a whole set and says whether it has a finding; if not, how many patches and operations it has.
pub fn quick_check(
    set: &[u8],
    edition: ProjectionPatchEdition,
) -> Result<QuickCheck, ProjectionPatchReadFault>
    ensures { result ≡ quick_answer (read_set (edition_of edition) set.now) }
{
    let inspected = inspection::inspect_set(set, edition, &[], &[], &[])?;
    match inspected {
        SetInspection::Clean {
            patch_count,
            operation_count,
            ..
        } => Ok(QuickCheck::Clean {
            patch_count,
            operation_count,
        }),
        SetInspection::Found => Ok(QuickCheck::Found),
    }
}
