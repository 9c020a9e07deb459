// What a replay's next creation takes: the session's id, its limits and its anchors.
ghost use Rattle.std.specs.Prelude.{◌≡◌, set};
ghost use Rattle.spec_replay.specs.Replay.{Setup, no_anchors, with_node, with_binding, with_collection};
ghost use Rattle.active_projection_target_catalog.specs.Catalog.{pair_of};
ghost use Rattle.session_lifecycle.specs.Meaning.{limits_of};
ghost use Rattle.script_calls.specs.SetsUp.{kept_count, anchored_replay, SetsUp};

use active_projection_target_catalog::catalog::{ActiveProjectionTargetCatalog, BindingPair};
use session_lifecycle::state::ShellLifecycleLimits;

#[derive(Clone, Copy)]
pub struct ReplaySetup {
    pub id: u64,
    pub limits: ShellLifecycleLimits,
    pub node_count: usize,
    pub pair_count: usize,
    pub collection_count: usize,
    pub nodes: [u64; ReplaySetup::KEPT],
    pub pairs: [BindingPair; ReplaySetup::KEPT],
    pub collections: [u64; ReplaySetup::KEPT],
}

// One anchor more of a kind.
fn kept_count(count: usize) -> usize
    ensures { result ≡ kept_count count }
{
    if count < ReplaySetup::KEPT {
        return count + 1;
    }
    count
}

// The ids with one more behind the first count of them, if there is room.
fn kept_ids(ids: [u64; ReplaySetup::KEPT], count: usize, id: u64) -> [u64; ReplaySetup::KEPT]
    ensures { result ≡ set ids count id }
{
    let mut next = ids;
    if count < ReplaySetup::KEPT {
        next[count] = id;
    }
    next
}

fn kept_pairs(
    pairs: [BindingPair; ReplaySetup::KEPT],
    count: usize,
    pair: BindingPair,
) -> [BindingPair; ReplaySetup::KEPT]
    ensures { result ≡ set pairs count pair }
{
    let mut next = pairs;
    if count < ReplaySetup::KEPT {
        next[count] = pair;
    }
    next
}

impl ReplaySetup {
    // One anchor of a kind more than a session holds, so that its refusal can be shown.
    pub const KEPT: usize = ActiveProjectionTargetCatalog::ANCHORS + 1;

    // A set-up without anchors.
    pub fn new(id: u64, limits: ShellLifecycleLimits) -> ReplaySetup
        ensures { SetsUp result (record { id = id; limits = limits_of limits; catalogue = no_anchors }) }
    {
        ReplaySetup {
            id,
            limits,
            node_count: 0,
            pair_count: 0,
            collection_count: 0,
            nodes: [0; ReplaySetup::KEPT],
            pairs: [BindingPair { node: 0, slot: 0 }; ReplaySetup::KEPT],
            collections: [0; ReplaySetup::KEPT],
        }
    }

    // The set-up with a node more, unless it keeps as many as it can.
    pub fn with_node(self, node: u64) -> ReplaySetup
        ensures { (m : Setup) → SetsUp self m → SetsUp result (anchored_replay m (with_node m.catalogue node)) }
    {
        let own = self.nodes;
        let nodes = kept_ids(own, self.node_count, node);
        let count = kept_count(self.node_count);
        let mut next = self;
        next.nodes = nodes;
        next.node_count = count;
        next
    }

    pub fn with_binding(self, pair: BindingPair) -> ReplaySetup
        ensures { (m : Setup) → SetsUp self m → SetsUp result (anchored_replay m (with_binding m.catalogue (pair_of pair))) }
    {
        let own = self.pairs;
        let pairs = kept_pairs(own, self.pair_count, pair);
        let count = kept_count(self.pair_count);
        let mut next = self;
        next.pairs = pairs;
        next.pair_count = count;
        next
    }

    pub fn with_collection(self, collection: u64) -> ReplaySetup
        ensures { (m : Setup) → SetsUp self m → SetsUp result (anchored_replay m (with_collection m.catalogue collection)) }
    {
        let own = self.collections;
        let collections = kept_ids(own, self.collection_count, collection);
        let count = kept_count(self.collection_count);
        let mut next = self;
        next.collections = collections;
        next.collection_count = count;
        next
    }
}
