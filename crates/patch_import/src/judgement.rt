// The patch that the lines become, judged before anything is written.
ghost use Rattle.std.specs.Prelude.{◌≡◌, ◌||◌, ◌+◌, ◌≤◌};
ghost use Rattle.projection_patch.specs.Meaning.{envelope_of};
ghost use Rattle.patch_part_writer.specs.Extent.{head_size};
ghost use Rattle.check_quick.specs.Quick.{head_found};
ghost use Rattle.patch_import.specs.Survey.{most_bytes};
ghost use Rattle.patch_import.specs.Judgement.{judged_patch};

use crate::answer::ImportRefusal;
use check_findings::{envelope_checks, found};
use patch_part_writer::extent::{HEADING_BYTES, head_size};
use projection_patch::patch::{ProjectionPatch, ProjectionPatchSet};

// Whether the patch checks find anything: a repeated key, no lines, or what the caller's numbers bring.
#[tactic(auto, unfolding(check_quick::specs::Quick::head_found))]
fn is_found(patch: ProjectionPatch, repeated: bool) -> bool
    ensures { result ≡ (head_found (envelope_of patch.envelope) patch.operation_count || repeated) }
{
    if repeated {
        return true;
    }
    if patch.operation_count == 0 {
        return true;
    }
    found::envelope_found(envelope_checks::envelope_findings(patch.envelope))
}

// The bytes of the set: 12 for them, then 11, then 14.
pub fn judge_patch(
    patch: ProjectionPatch,
    bytes: usize,
    repeated: bool,
    room: usize,
) -> Result<usize, ImportRefusal>
    requires { bytes ≤ most_bytes }
    ensures { result ≡ judged_patch (35 + (head_size patch + bytes)) (head_found (envelope_of patch.envelope) patch.operation_count || repeated) room }
{
    let size = HEADING_BYTES + (head_size(patch) + bytes);
    if ProjectionPatchSet::BYTES < size {
        return Err(ImportRefusal::OverCapacity);
    }
    if is_found(patch, repeated) {
        return Err(ImportRefusal::PatchInvalid);
    }
    if room < size {
        return Err(ImportRefusal::OutputTooShort);
    }
    Ok(size)
}
