// A lent list of node and slot pairs, copied by one loop into the array that a session keeps.
ghost use Rattle.std.specs.Prelude.{◌≡◌, min};
ghost use Rattle.spec_patch.specs.Sizes.{anchors};
ghost use Rattle.session_from_pairs.specs.Pairs.{no_pairs, with_pair, anchors_of};

use active_projection_target_catalog::catalog::{ActiveProjectionTargetCatalog, BindingPair};

// Binding anchors as a session keeps them: the pairs with zero pairs behind them, and how many were given.
#[derive(Drop)]
pub struct BindingAnchors {
    pub pairs: [BindingPair; ActiveProjectionTargetCatalog::ANCHORS],
    pub given: usize,
}

impl BindingAnchors {
    // The pairs of an array that is lent: one more than there is room for, so that too many can be told.
    pub const LENT: usize = ActiveProjectionTargetCatalog::ANCHORS + 1;

    // So many pairs are given, and none is copied yet.
    fn none(given: usize) -> BindingAnchors
        ensures { result ≡ no_pairs given }
    {
        let no_pair = BindingPair { node: 0, slot: 0 };
        BindingAnchors {
            pairs: [no_pair; ActiveProjectionTargetCatalog::ANCHORS],
            given,
        }
    }

    // The pair at its place; there is none past the capacity.
    fn put(self, i: usize, pair: BindingPair) -> BindingAnchors
        ensures { result ≡ with_pair self i pair }
    {
        if i < ActiveProjectionTargetCatalog::ANCHORS {
            let mut next = self;
            next.pairs[i] = pair;
            return next;
        }
        self
    }
}

// As many pairs as there is room for.
fn copied_count(given: usize) -> usize
    ensures { result ≡ min given anchors }
{
    if ActiveProjectionTargetCatalog::ANCHORS < given {
        return ActiveProjectionTargetCatalog::ANCHORS;
    }
    given
}

// The lent pairs in the array that the session keeps. Pairs past the capacity are left out; creation refuses them.
pub fn copy_binding_pairs(pairs: &[BindingPair]) -> BindingAnchors
    ensures { result ≡ anchors_of pairs.now }
{
    let given = pairs.len();
    let count = copied_count(given);
    let mut anchors = BindingAnchors::none(given);
    let mut i: usize = 0;
    while i < count {
        let pair = pairs[i];
        anchors = anchors.put(i, pair);
        i += 1;
    }
    anchors
}
