// The findings of a patch's operations.
ghost use Rattle.std.specs.Prelude.{◌≡◌, List, [], ◌++◌, ◌*◌, ◌≤◌, length};
ghost use Rattle.spec_patch.specs.Patch.{Operation, Patch};
ghost use Rattle.spec_checks.specs.Finding.{report, check_each};
ghost use Rattle.spec_checks.specs.PatchChecks.{operation_findings};
ghost use Rattle.projection_patch.specs.Meaning.{edition_of};
ghost use Rattle.patch_walk.specs.Steps.{AtSteps};
ghost use Rattle.check_targets.specs.Marks.{mark_places};
ghost use Rattle.check_findings.specs.EnvelopeChecks.{envelope_row};
ghost use Rattle.check_findings.specs.InsertFindings.{inserted_all};
ghost use Rattle.check_set.specs.Listed.{ListedAs};

use check_findings::{envelope_checks, insert_findings};
use check_targets::MutationTarget;
use patch_walk::{SetCursor, SetStep};
use projection_patch::patch::ProjectionPatchEdition;

// How many records there are, and where the walk stands.
#[derive(Clone, Copy)]
pub struct Listed {
    pub count: usize,
    pub next: SetCursor,
}

// Inserts findings 2 and 3 of an operation.
fn insert_operation(
    records: &mut [u64],
    kept: usize,
    id: u64,
    index: u64,
    before_self: bool,
    seen: bool,
) -> usize
    ensures counted { result ≡ (inserted_all (report before_self (envelope_row 2 id index) ++ report seen (envelope_row 3 id index)) kept records.old).0 }
    ensures numbers { records.new ≡ (inserted_all (report before_self (envelope_row 2 id index) ++ report seen (envelope_row 3 id index)) kept records.old).1 }
{
    let self_finding = envelope_checks::report_if(before_self, 2, id, index);
    let seen_finding = envelope_checks::report_if(seen, 3, id, index);
    let more = insert_findings::insert_optional(records, kept, self_finding);
    insert_findings::insert_optional(records, more, seen_finding)
}

// Walks over the operations that are left of the open patch, and inserts the findings of each behind the first records. Room is lent for
// their targets and marks.
pub fn list_operations(
    set: &[u8],
    edition: ProjectionPatchEdition,
    start: SetCursor,
    targets: &mut [u64],
    marks: &mut [u8],
    records: &mut [u64],
    first: usize,
) -> Listed
    requires { (3 * start.operations_left ≤ length targets.old) × (length marks.old ≡ mark_places) }
    ensures listed { (os : List Operation) (ps : List Patch) → AtSteps (edition_of edition) set.now start os ps
        → ListedAs (edition_of edition) set.now (check_each (operation_findings start.patch_id) [] os) first records.old result records.new ps }
    ensures patches { result.next.patches_left ≡ start.patches_left }
{
    let mut cursor = start;
    let mut used: usize = 0;
    let mut index: u64 = 0;
    let mut kept = first;
    while 0 < cursor.operations_left {
        let Ok(step) = patch_walk::next_step(set, cursor, false, edition) else {
            break;
        };
        let SetStep::Operation(operation, next) = step else {
            break;
        };
        let target = check_targets::mutation_target(operation);
        let before_self = check_targets::before_self(operation);
        let seen = check_targets::seen_by_mark(targets, marks, used, target);
        kept = insert_operation(records, kept, start.patch_id, index, before_self, seen);
        used += MutationTarget::NUMBERS;
        index += 1;
        cursor = next;
    }
    Listed {
        count: kept,
        next: cursor,
    }
}
