// Which targets of operations are none of the lent anchors: 01, step 7 of a batch. A binding's anchor is two numbers, its node and slot.
ghost use Rattle.std.specs.Prelude.{◌≡◌};
ghost use Rattle.check_targets.specs.Targets.{check_target_of};
ghost use Rattle.check_quick.specs.Anchors.{anchored, absent_one, absent_among};

use active_projection_target_catalog::membership;
use check_targets::MutationTarget;

// A target of kind 1 is a binding, of kind 2 a node, of any other a collection.
fn contains_target(
    nodes: &[u64],
    bindings: &[u64],
    collections: &[u64],
    target: MutationTarget,
) -> bool
    ensures { result ≡ anchored nodes.now bindings.now collections.now (check_target_of target) }
{
    match target.kind {
        1 => membership::contains_binding(bindings, target.first, target.second),
        2 => membership::contains_id(nodes, target.first),
        _ => membership::contains_id(collections, target.first),
    }
}

pub fn one_if_absent(
    nodes: &[u64],
    bindings: &[u64],
    collections: &[u64],
    target: MutationTarget,
) -> usize
    ensures { result ≡ absent_one (anchored nodes.now bindings.now collections.now) (check_target_of target) }
{
    if contains_target(nodes, bindings, collections, target) {
        0
    } else {
        1
    }
}

// How many of the targets, three numbers each, are absent. Where nothing is lent, all are.
pub fn absent_among(targets: &[u64], nodes: &[u64], bindings: &[u64], collections: &[u64]) -> usize
    ensures { result ≡ absent_among (anchored nodes.now bindings.now collections.now) targets.now }
{
    if nodes.len() + bindings.len() + collections.len() == 0 {
        return targets.len() / MutationTarget::NUMBERS;
    }
    let mut absent = 0;
    for i in 0..targets.len() / MutationTarget::NUMBERS {
        let at = MutationTarget::NUMBERS * i;
        let target = MutationTarget {
            kind: targets[at],
            first: targets[at + 1],
            second: targets[at + 2],
        };
        absent += one_if_absent(nodes, bindings, collections, target);
    }
    absent
}
