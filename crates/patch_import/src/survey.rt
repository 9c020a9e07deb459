// The pass that checks: the lines one after the other, and each key among those of the lines before it.
ghost use Rattle.std.specs.Prelude.{◌≡◌, ◌||◌, ◌++◌, ◌+◌, ◌≤◌, length, take};
ghost use Rattle.spec_import.specs.Import.{lines, read_terms};
ghost use Rattle.check_targets.specs.Targets.{check_target_of, numbers_of, target_seen, with_target};
ghost use Rattle.check_targets.specs.Marks.{mark_places, Marked};
ghost use Rattle.patch_import.specs.Survey.{patch_numbers, survey_of};

use crate::answer::ImportRefusal;
use crate::insertion::insertion;
use check_targets::MutationTarget;
use patch_part_writer::extent::operation_size;
use projection_patch::patch::ProjectionPatch;

// How many lines there are, the bytes of their operations, and whether a key occurs twice.
#[derive(Clone, Copy)]
pub struct LineSurvey {
    pub count: usize,
    pub bytes: usize,
    pub repeated: bool,
}

// Whether there was a repeat before, or the target is one; it is put behind the first used numbers, with its mark.
fn repeats(
    repeated: bool,
    targets: &mut [u64],
    marks: &mut [u8],
    used: usize,
    target: MutationTarget,
) -> bool
    requires { (used + 3 ≤ length targets.old) × Marked marks.old (take used targets.old) }
    ensures found { result ≡ (repeated || target_seen (check_target_of target) (take used targets.old)) }
    ensures kept { targets.new ≡ with_target used (check_target_of target) targets.old }
    ensures marked { Marked marks.new (take used targets.old ++ numbers_of (check_target_of target)) }
{
    if check_targets::seen_by_mark(targets, marks, used, target) {
        return true;
    }
    repeated
}

// The survey, with room lent for the targets of the lines and their marks.
fn survey_with(
    list: &[u8],
    collection: u64,
    targets: &mut [u64],
    marks: &mut [u8],
) -> Result<LineSurvey, ImportRefusal>
    requires { (length targets.old ≡ patch_numbers) × (length marks.old ≡ mark_places) }
    ensures { result ≡ survey_of collection (read_terms 0 (lines list.now)) }
{
    let mut at = 0;
    let mut count: usize = 0;
    let mut bytes: usize = 0;
    let mut repeated = false;
    // By position and not by split: an operation holds the place of its text in the list.
    while at < list.len() {
        let line = patch_terms::read_line(list, at)?;
        if count == ProjectionPatch::OPERATIONS {
            return Err(ImportRefusal::OverCapacity);
        }
        let operation = insertion(collection, line.key, line.start, line.len);
        let target = check_targets::mutation_target(operation);
        let used = MutationTarget::NUMBERS * count;
        repeated = repeats(repeated, targets, marks, used, target);
        bytes += operation_size(operation);
        count += 1;
        at = line.next;
    }
    Ok(LineSurvey {
        count,
        bytes,
        repeated,
    })
}

// Line by line: 15 for another form, then 12 for a text over its limits or where the patch is full.
pub fn survey_lines(list: &[u8], collection: u64) -> Result<LineSurvey, ImportRefusal>
    ensures { result ≡ survey_of collection (read_terms 0 (lines list.now)) }
{
    let mut targets = [0u64; MutationTarget::PATCH_NUMBERS];
    let mut marks = [0u8; MutationTarget::MARKS];
    survey_with(list, collection, &mut targets, &mut marks)
}
