// A patch, read and checked; and its envelope after those of the patches before it.
ghost use Rattle.std.specs.Prelude.{◌≡◌, ◌||◌, ◌≤◌, ◌<◌, length, take, drop, set};
ghost use Rattle.spec_patch.specs.Read.{read_patch};
ghost use Rattle.projection_patch.specs.Meaning.{edition_of, envelope_of};
ghost use Rattle.check_quick.specs.Anchors.{anchored};
ghost use Rattle.check_findings.specs.Ids.{id_seen};
ghost use Rattle.check_quick.specs.Quick.{head_found, previous_found, after_found, AtMost};
ghost use Rattle.check_quick.specs.QuickAnswers.{previous_of, patch_answer};

use crate::quick_operations;
use check_findings::{envelope_checks, found, ids};
use projection_patch::patch::{ProjectionPatch, ProjectionPatchEdition, ProjectionPatchEnvelope};
use projection_patch::read_values::ProjectionPatchReadFault;

// A patch's head, whether the patch has a finding, and how many of its operations have an absent target.
#[derive(Clone, Copy)]
pub struct PatchChecked {
    pub head: ProjectionPatch,
    pub found: bool,
    pub absent: usize,
}

// Whether a patch has a finding, by its head and by what its operations told.
fn patch_found(head: ProjectionPatch, operations: bool) -> bool
    ensures { result ≡ (head_found (envelope_of head.envelope) head.operation_count || operations) }
{
    if operations || head.operation_count == 0 {
        return true;
    }
    found::envelope_found(envelope_checks::envelope_findings(head.envelope))
}

// Reads and checks the patch at a position, and answers it with the position behind it.
pub fn check_patch(
    set: &[u8],
    edition: ProjectionPatchEdition,
    at: usize,
    nodes: &[u64],
    bindings: &[u64],
    collections: &[u64],
) -> Result<(PatchChecked, usize), ProjectionPatchReadFault>
    requires { at ≤ length set.now }
    ensures { result ≡ patch_answer (anchored nodes.now bindings.now collections.now)
        (length set.now) (read_patch (edition_of edition) (drop at set.now)) }
{
    let (head, taken) = patch_sets::read_patch_head(&set[at..])?;
    let (tally, end) = quick_operations::check_operations(
        set,
        edition,
        at + taken,
        head.operation_count,
        nodes,
        bindings,
        collections,
    )?;
    let found = patch_found(head, tally.found);
    Ok((
        PatchChecked {
            head,
            found,
            absent: tally.absent,
        },
        end,
    ))
}

// Whether an envelope has a finding after that of the patch just before it.
fn previous_found(
    previous: Option<ProjectionPatchEnvelope>,
    envelope: ProjectionPatchEnvelope,
) -> bool
    ensures { result ≡ previous_found (previous_of previous) (envelope_of envelope) }
{
    match previous {
        None => false,
        Some(last) => { found::pair_found(envelope_checks::pair_findings(last, envelope)) }
    }
}

// Whether the id is among the first used numbers, none of which is above the highest; it is put behind them. Ids mostly ascend, and then
// nothing is searched.
fn id_repeats(ids: &mut [u64], used: usize, highest: u64, id: u64) -> bool
    requires { (used < length ids.old) × AtMost highest (take used ids.old) }
    ensures seen { result ≡ id_seen id (take used ids.old) }
    ensures kept { ids.new ≡ set ids.old used id }
{
    if highest < id {
        ids[used] = id;
        return false;
    }
    ids::id_before(ids, used, id)
}

// Whether there was a finding before, or in the patch itself, or in its envelope after those before it. Its id is put behind the first
// used numbers.
pub fn after_found(
    earlier: bool,
    own: bool,
    ids: &mut [u64],
    used: usize,
    highest: u64,
    previous: Option<ProjectionPatchEnvelope>,
    envelope: ProjectionPatchEnvelope,
) -> bool
    requires { (used < length ids.old) × AtMost highest (take used ids.old) }
    ensures found { result ≡ ((earlier || own) || after_found (take used ids.old) (previous_of previous) (envelope_of envelope)) }
    ensures kept { ids.new ≡ set ids.old used (envelope_of envelope).id }
{
    let seen = id_repeats(ids, used, highest, envelope.patch_id.raw());
    earlier || own || seen || previous_found(previous, envelope)
}
