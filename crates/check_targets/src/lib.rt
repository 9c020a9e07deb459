// What an operation changes, taken apart into numbers, so that later operations are compared with it without being read again.
#![tactic(auto)]

ghost use Rattle.std.specs.Prelude.{◌≡◌, List, ◌++◌, ℕ, ◌+◌, ◌≤◌, length, take};
ghost use Rattle.std.specs.List.{list_any};
ghost use Rattle.spec_checks.specs.Target.{mutation_target};
ghost use Rattle.spec_checks.specs.PatchChecks.{is_self, before_self_lem};
ghost use Rattle.projection_patch.specs.Meaning.{before_of, operation_of};
ghost use Rattle.check_targets.specs.Targets.{check_target_of, made_of, tells_target, numbers_of, target_seen, with_target};
ghost use Rattle.check_targets.specs.Marks.{mark_of, Marked};

use projection_patch::contract_primitives::CollectionKey;
use projection_patch::patch::{ProjectionPatch, ProjectionPatchOperation};

// The kind of operation by its canonical number, and the ids that tell it from others of that kind.
#[derive(Clone, Copy)]
pub struct MutationTarget {
    pub kind: u64,
    pub first: u64,
    pub second: u64,
}

impl MutationTarget {
    // How many places there are for marks, and so the length of an array of them.
    const PLACES: u64 = 512;

    pub const MARKS: usize = MutationTarget::PLACES as usize;
    // How many numbers of a list one target is.
    pub const NUMBERS: usize = 3;
    // Most patches have no more operations than these few.
    pub const FEW: usize = 16;
    // The numbers of the targets of few operations, and of as many as a patch may have.
    pub const FEW_NUMBERS: usize = MutationTarget::FEW * MutationTarget::NUMBERS;

    pub const PATCH_NUMBERS: usize = ProjectionPatch::OPERATIONS * MutationTarget::NUMBERS;
}

fn target_of(kind: u64, first: u64, second: u64) -> MutationTarget
    ensures { check_target_of result ≡ made_of kind first second }
{
    MutationTarget {
        kind,
        first,
        second,
    }
}

pub fn mutation_target(operation: ProjectionPatchOperation) -> MutationTarget
    ensures { (texts : List ℕ) → check_target_of result ≡ mutation_target (operation_of texts operation) }
{
    match operation {
        ProjectionPatchOperation::SetBindingValue { target, .. } => {
            target_of(1, target.node.raw(), target.slot.0 as u64)
        }
        ProjectionPatchOperation::SetNodeAvailability { node, .. } => target_of(2, node.raw(), 0),
        ProjectionPatchOperation::CollectionInsert {
            collection,
            key,
            ..
        } => target_of(3, collection.raw(), key.raw()),
        ProjectionPatchOperation::CollectionUpdate {
            collection,
            key,
            ..
        } => target_of(4, collection.raw(), key.raw()),
        ProjectionPatchOperation::CollectionRemove { collection, key } => {
            target_of(5, collection.raw(), key.raw())
        }
        ProjectionPatchOperation::CollectionMove {
            collection,
            key,
            ..
        } => target_of(6, collection.raw(), key.raw()),
    }
}

// Whether the named neighbour is the key itself.
fn is_self(key: CollectionKey, before: Option<CollectionKey>) -> bool
    ensures { result ≡ is_self key.0 (before_of before) }
{
    match before {
        None => false,
        Some(neighbour) => key.raw() == neighbour.raw(),
    }
}

// Whether the operation is an insert or a move that names its own key as neighbour.
pub fn before_self(operation: ProjectionPatchOperation) -> bool
    ensures { (texts : List ℕ) → result ≡ before_self_lem (operation_of texts operation) }
{
    match operation {
        ProjectionPatchOperation::CollectionInsert { key, before, .. } => is_self(key, before),
        ProjectionPatchOperation::CollectionMove { key, before, .. } => is_self(key, before),
        _ => false,
    }
}

// Whether the target is one of those told by three numbers. The key or slot is tested first: operations of a patch mostly differ there.
fn is_among(targets: &[[u64; MutationTarget::NUMBERS]], target: MutationTarget) -> bool
    ensures { result ≡ list_any (tells_target (check_target_of target)) targets.now }
{
    targets.iter().any(|&[kind, first, second]| {
        second == target.second && first == target.first && kind == target.kind
    })
}

// Whether the target is among those that stand in targets, three numbers each.
fn target_seen(targets: &[u64], target: MutationTarget) -> bool
    ensures { result ≡ target_seen (check_target_of target) targets.now }
{
    let (targets, _) = targets.as_chunks::<{ MutationTarget::NUMBERS }>();
    is_among(targets, target)
}

// Puts a target behind the first used numbers.
fn put_target(targets: &mut [u64], used: usize, target: MutationTarget)
    requires { used + 3 ≤ length targets.old }
    ensures { targets.new ≡ with_target used (check_target_of target) targets.old }
{
    targets[used] = target.kind;
    targets[used + 1] = target.first;
    targets[used + 2] = target.second;
}

// Whether the target is among those in the first used numbers, behind which it is put for later operations.
fn seen_before(targets: &mut [u64], used: usize, target: MutationTarget) -> bool
    requires { used + 3 ≤ length targets.old }
    ensures seen { result ≡ target_seen (check_target_of target) (take used targets.old) }
    ensures kept { targets.new ≡ with_target used (check_target_of target) targets.old }
{
    let seen = target_seen(&targets[..used], target);
    put_target(targets, used, target);
    seen
}

// The place of a target's mark. Targets that differ may share it; the factors keep neighbouring keys and kinds apart.
fn mark_of(target: MutationTarget) -> usize
    ensures { result ≡ mark_of (check_target_of target) }
{
    let first = target.first % MutationTarget::PLACES;
    let second = target.second % MutationTarget::PLACES;
    let kind = target.kind % MutationTarget::PLACES;
    ((first * 447 + kind * 419 + second) % MutationTarget::PLACES) as usize
}

// As seen_before, with a mark for each target among the first used numbers: one without a mark is not among them, and
// nothing is searched.
pub fn seen_by_mark(
    targets: &mut [u64],
    marks: &mut [u8],
    used: usize,
    target: MutationTarget,
) -> bool
    requires { (used + 3 ≤ length targets.old) × Marked marks.old (take used targets.old) }
    ensures seen { result ≡ target_seen (check_target_of target) (take used targets.old) }
    ensures kept { targets.new ≡ with_target used (check_target_of target) targets.old }
    ensures marked { Marked marks.new (take used targets.old ++ numbers_of (check_target_of target)) }
{
    let place = mark_of(target);
    let mark = marks[place];
    marks[place] = 1;
    if mark == 0 {
        put_target(targets, used, target);
        return false;
    }
    seen_before(targets, used, target)
}
