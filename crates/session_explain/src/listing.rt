// Why the listing of a set is a refusal: 01, 'Listing'. Its number comes under no cap.
ghost use Rattle.std.specs.Prelude.{◌≡◌};
ghost use Rattle.spec_explain.specs.CallReasons.{explain_listing};
ghost use Rattle.projection_patch.specs.Meaning.{edition_of};
ghost use Rattle.session_explain.specs.Reasons.{found_to};

use crate::reasons::BatchReason;
use crate::{operations, reading};
use local_projection_state::LocalProjectionState;
use projection_patch::patch::ProjectionPatchEdition;

// The bytes are readable, the checks find nothing, and all operations apply to an empty panel.
pub fn explain_listing(set: &[u8], edition: ProjectionPatchEdition) -> Result<(), BatchReason>
    ensures { result ≡ found_to (explain_listing (edition_of edition) set.now) }
{
    reading::explain_check(set, edition)?;
    reading::explain_findings(set, edition)?;
    operations::explain_operations(LocalProjectionState::empty(), set, edition)
}
