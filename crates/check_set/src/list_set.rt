// The findings of the first patch that has any, or else those of the set, listed in a table.
ghost use Rattle.std.specs.Prelude.{◌≡◌, List, [], ◌≤◌, ◌<◌, length, take, set};
ghost use Rattle.spec_patch.specs.Sizes.{set_patches};
ghost use Rattle.spec_patch.specs.Patch.{Patch};
ghost use Rattle.spec_checks.specs.Findings.{findings};
ghost use Rattle.projection_patch.specs.Meaning.{edition_of, envelope_of};
ghost use Rattle.patch_walk.specs.Steps.{AtSteps};
ghost use Rattle.check_findings.specs.InsertFindings.{inserted_all};
ghost use Rattle.check_quick.specs.QuickAnswers.{previous_of};
ghost use Rattle.check_set.specs.Listed.{previous_listed, after_listed, FindingsListedAs, table_length};

use crate::check_set::CheckPlace;
use crate::list_patch;
use check_findings::{envelope_checks, ids, insert_findings};
use patch_walk::{SetCursor, SetStep};
use projection_patch::patch::{
    ProjectionPatchEdition, ProjectionPatchEnvelope, ProjectionPatchSet,
};

// Where the findings are, and how many records of them.
#[derive(Clone, Copy)]
pub struct FindingsListed {
    pub place: CheckPlace,
    pub count: usize,
}

impl FindingsListed {
    // How many numbers a record is.
    pub const RECORD: usize = 3;
    // The numbers of as many records as a set may have: five for each patch but the first, which is more than two for each operation of a
    // patch and four.
    pub const NUMBERS: usize = FindingsListed::RECORD * 5 * (ProjectionPatchSet::PATCHES - 1);
}

// Inserts the findings of an envelope after that of the patch just before it.
fn insert_previous(
    records: &mut [u64],
    kept: usize,
    previous: Option<ProjectionPatchEnvelope>,
    envelope: ProjectionPatchEnvelope,
) -> usize
    ensures counted { result ≡ (inserted_all (previous_listed (previous_of previous) (envelope_of envelope)) kept records.old).0 }
    ensures numbers { records.new ≡ (inserted_all (previous_listed (previous_of previous) (envelope_of envelope)) kept records.old).1 }
{
    match previous {
        None => kept,
        Some(last) => {
            let findings = envelope_checks::pair_findings(last, envelope);
            insert_findings::insert_pair_findings(records, kept, findings)
        }
    }
}

// Inserts finding 4 and those of the patch just before. The id is put behind the first used numbers of ids.
fn insert_after(
    records: &mut [u64],
    kept: usize,
    ids: &mut [u64],
    used: usize,
    previous: Option<ProjectionPatchEnvelope>,
    envelope: ProjectionPatchEnvelope,
) -> usize
    requires { used < length ids.old }
    ensures counted { result ≡ (inserted_all (after_listed (take used ids.old) (previous_of previous) (envelope_of envelope)) kept records.old).0 }
    ensures numbers { records.new ≡ (inserted_all (after_listed (take used ids.old) (previous_of previous) (envelope_of envelope)) kept records.old).1 }
    ensures remembered { ids.new ≡ set ids.old used (envelope_of envelope).id }
{
    let id = envelope.patch_id.raw();
    let sequence = envelope.sequence.raw();
    let seen = ids::id_before(ids, used, id);
    let finding = envelope_checks::report_if(seen, 4, id, sequence);
    let more = insert_findings::insert_optional(records, kept, finding);
    insert_previous(records, more, previous, envelope)
}

// Walks over the patches that are left, up to the first that has findings.
pub fn list_patches(
    set: &[u8],
    edition: ProjectionPatchEdition,
    start: SetCursor,
    records: &mut [u64],
) -> FindingsListed
    requires { (start.patches_left ≤ set_patches) × (table_length ≤ length records.old) }
    ensures { (ps : List Patch) → AtSteps (edition_of edition) set.now start [] ps → FindingsListedAs (findings ps) result records.new }
{
    let mut ids = [0u64; ProjectionPatchSet::PATCHES];
    let mut previous = None;
    let mut cursor = start;
    let mut done: usize = 0;
    let mut kept: usize = 0;
    while 0 < cursor.patches_left {
        let Ok(step) = patch_walk::next_step(set, cursor, false, edition) else {
            break;
        };
        let SetStep::Head(head, inside) = step else {
            break;
        };
        let patch = list_patch::list_patch(set, edition, head, inside, records);
        if 0 < patch.count {
            return FindingsListed {
                place: CheckPlace::Patch(done),
                count: patch.count,
            };
        }
        let envelope = head.envelope;
        kept = insert_after(records, kept, &mut ids, done, previous, envelope);
        previous = Some(envelope);
        cursor = patch.next;
        done += 1;
    }
    FindingsListed {
        place: CheckPlace::Set,
        count: kept,
    }
}
