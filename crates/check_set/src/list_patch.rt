// The findings of a patch: of its head, then of its operations.
ghost use Rattle.std.specs.Prelude.{◌≡◌, List, ◌≤◌};
ghost use Rattle.spec_patch.specs.Sizes.{patch_operations};
ghost use Rattle.spec_patch.specs.Patch.{Patch};
ghost use Rattle.spec_checks.specs.PatchChecks.{raw_patch_findings};
ghost use Rattle.projection_patch.specs.Meaning.{edition_of, envelope_of};
ghost use Rattle.patch_sets.specs.Walk.{head_of};
ghost use Rattle.patch_sets.specs.SetAnswers.{head_to};
ghost use Rattle.patch_walk.specs.Steps.{AtSteps};
ghost use Rattle.check_findings.specs.InsertFindings.{inserted_all};
ghost use Rattle.check_set.specs.Listed.{head_findings, ListedAs};

use crate::list_operations;
use crate::list_operations::Listed;
use check_findings::{envelope_checks, insert_findings};
use check_targets::MutationTarget;
use patch_walk::SetCursor;
use projection_patch::patch::{ProjectionPatch, ProjectionPatchEdition};

// Inserts findings 6, 10, 13 and 14 into an empty table.
fn list_head(head: ProjectionPatch, records: &mut [u64]) -> usize
    ensures counted { result ≡ (inserted_all (head_findings (envelope_of head.envelope) head.operation_count) 0 records.old).0 }
    ensures numbers { records.new ≡ (inserted_all (head_findings (envelope_of head.envelope) head.operation_count) 0 records.old).1 }
{
    let envelope = head.envelope;
    let id = envelope.patch_id.raw();
    let empty = envelope_checks::report_if(head.operation_count == 0, 6, id, 0);
    let findings = envelope_checks::envelope_findings(envelope);
    let one = insert_findings::insert_optional(records, 0, empty);
    insert_findings::insert_envelope_findings(records, one, findings)
}

// Lists the findings of the patch that was opened last, whose head it is, from the start of records. Most patches have few operations, and
// little is cleared for them.
pub fn list_patch(
    set: &[u8],
    edition: ProjectionPatchEdition,
    head: ProjectionPatch,
    start: SetCursor,
    records: &mut [u64],
) -> Listed
    requires { start.operations_left ≤ patch_operations }
    ensures listed { (p : Patch) (ps : List Patch) → head ≡ head_to (head_of p) → start.patch_id ≡ p.envelope.id → AtSteps (edition_of edition) set.now start p.operations ps
        → ListedAs (edition_of edition) set.now (raw_patch_findings p) 0 records.old result records.new ps }
    ensures patches { result.next.patches_left ≡ start.patches_left }
{
    let first = list_head(head, records);
    let mut marks = [0u8; MutationTarget::MARKS];
    if start.operations_left <= MutationTarget::FEW {
        let mut few = [0u64; MutationTarget::FEW_NUMBERS];
        return list_operations::list_operations(
            set, edition, start, &mut few, &mut marks, records, first,
        );
    }
    let mut targets = [0u64; MutationTarget::PATCH_NUMBERS];
    list_operations::list_operations(
        set,
        edition,
        start,
        &mut targets,
        &mut marks,
        records,
        first,
    )
}
