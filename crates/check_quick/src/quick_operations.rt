// The operations of a patch, read and checked one after the other.
ghost use Rattle.std.specs.Prelude.{◌≡◌, Bool, ◌||◌, ◌++◌, ◌+◌, ◌*◌, ◌≤◌, length, take, drop};
ghost use Rattle.spec_patch.specs.Reader.{many};
ghost use Rattle.spec_patch.specs.Read.{read_operation};
ghost use Rattle.spec_patch.specs.Sizes.{patch_operations};
ghost use Rattle.projection_patch.specs.Meaning.{edition_of};
ghost use Rattle.spec_checks.specs.Target.{MutationTarget as Target};
ghost use Rattle.check_targets.specs.Targets.{check_target_of, numbers_of, target_seen, with_target};
ghost use Rattle.check_targets.specs.Marks.{mark_places, Marked};
ghost use Rattle.check_quick.specs.Anchors.{anchored};
ghost use Rattle.check_quick.specs.QuickAnswers.{tally_of, tallied_by, operations_answer};

use crate::anchors;
use check_targets::MutationTarget;
use projection_patch::patch::ProjectionPatchEdition;
use projection_patch::read_operations;
use projection_patch::read_values::ProjectionPatchReadFault;

// Whether some operation was found fault with, and how many have an absent target.
#[derive(Clone, Copy)]
pub struct Tally {
    pub found: bool,
    pub absent: usize,
}

// Whether there was a finding before, or an operation with this target is one. The target is put behind the first used numbers, with its
// mark.
fn operation_found(
    found: bool,
    targets: &mut [u64],
    marks: &mut [u8],
    used: usize,
    target: MutationTarget,
    before_self: bool,
) -> bool
    requires { (used + 3 ≤ length targets.old) × Marked marks.old (take used targets.old) }
    ensures found { result ≡ (found || (target_seen (check_target_of target) (take used targets.old) || before_self)) }
    ensures kept { targets.new ≡ with_target used (check_target_of target) targets.old }
    ensures marked { Marked marks.new (take used targets.old ++ numbers_of (check_target_of target)) }
{
    if check_targets::seen_by_mark(targets, marks, used, target) {
        return true;
    }
    if before_self {
        return true;
    }
    found
}

// Reads count operations of a set, the first of them at from, with room lent for their targets and marks. The targets stay in front. Answers
// whether some operation was found fault with, and the position behind the last.
fn check_with(
    set: &[u8],
    edition: ProjectionPatchEdition,
    from: usize,
    count: usize,
    targets: &mut [u64],
    marks: &mut [u8],
) -> Result<(bool, usize), ProjectionPatchReadFault>
    requires { (from ≤ length set.now) × ((3 * count ≤ length targets.old) × (length marks.old ≡ mark_places)) }
    ensures { (known : Target → Bool) → tallied_by known (take (3 * count) targets.new) result
        ≡ operations_answer (tally_of known) (length set.now) (many count (read_operation (edition_of edition)) (drop from set.now)) }
{
    let mut at = from;
    let mut found = false;
    for i in 0..count {
        let (operation, taken) = read_operations::operation_from(&set[at..], true, edition)?;
        at += taken;
        let target = check_targets::mutation_target(operation);
        let own = check_targets::before_self(operation);
        let used = MutationTarget::NUMBERS * i;
        found = operation_found(found, targets, marks, used, target, own);
    }
    Ok((found, at))
}

// What was found, with how many of the targets are absent.
fn tallied(
    run: Result<(bool, usize), ProjectionPatchReadFault>,
    targets: &[u64],
    nodes: &[u64],
    bindings: &[u64],
    collections: &[u64],
) -> Result<(Tally, usize), ProjectionPatchReadFault>
    ensures { result ≡ tallied_by (anchored nodes.now bindings.now collections.now) targets.now run }
{
    let (found, end) = run?;
    let absent = anchors::absent_among(targets, nodes, bindings, collections);
    Ok((Tally { found, absent }, end))
}

// Reads the one operation of a patch, which repeats no target.
fn check_one(
    set: &[u8],
    edition: ProjectionPatchEdition,
    at: usize,
    nodes: &[u64],
    bindings: &[u64],
    collections: &[u64],
) -> Result<(Tally, usize), ProjectionPatchReadFault>
    requires { at ≤ length set.now }
    ensures { result ≡ operations_answer (tally_of (anchored nodes.now bindings.now collections.now))
        (length set.now) (many 1 (read_operation (edition_of edition)) (drop at set.now)) }
{
    let (operation, taken) = read_operations::operation_from(&set[at..], true, edition)?;
    let target = check_targets::mutation_target(operation);
    let found = check_targets::before_self(operation);
    let absent = anchors::one_if_absent(nodes, bindings, collections, target);
    Ok((Tally { found, absent }, at + taken))
}

// What the operations told, and the position behind the last: reads count operations of a set, the first of them at from. Most patches have
// few, and little is cleared for them.
pub fn check_operations(
    set: &[u8],
    edition: ProjectionPatchEdition,
    from: usize,
    count: usize,
    nodes: &[u64],
    bindings: &[u64],
    collections: &[u64],
) -> Result<(Tally, usize), ProjectionPatchReadFault>
    requires { (from ≤ length set.now) × (count ≤ patch_operations) }
    ensures { result ≡ operations_answer (tally_of (anchored nodes.now bindings.now collections.now))
        (length set.now) (many count (read_operation (edition_of edition)) (drop from set.now)) }
{
    if count == 1 {
        return check_one(set, edition, from, nodes, bindings, collections);
    }
    let used = MutationTarget::NUMBERS * count;
    let mut marks = [0u8; MutationTarget::MARKS];
    if count <= MutationTarget::FEW {
        let mut few = [0u64; MutationTarget::FEW_NUMBERS];
        let run = check_with(set, edition, from, count, &mut few, &mut marks);
        return tallied(run, &few[..used], nodes, bindings, collections);
    }
    let mut targets = [0u64; MutationTarget::PATCH_NUMBERS];
    let run = check_with(set, edition, from, count, &mut targets, &mut marks);
    tallied(run, &targets[..used], nodes, bindings, collections)
}
