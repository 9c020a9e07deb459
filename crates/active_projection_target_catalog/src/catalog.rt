// The catalogue by value: fixed arrays with their counts, and zeros in every unused place.
ghost use Rattle.std.specs.Prelude.{◌≡◌};
ghost use mathlib.Core.List.{flat_map};
ghost use Rattle.active_projection_target_catalog.specs.Catalog.{pair_numbers, padded_pairs, catalog_with};

#[derive(Clone, Copy)]
pub struct BindingPair {
    pub node: u64,
    pub slot: u32,
}

#[derive(Clone, Copy)]
pub struct ActiveProjectionTargetCatalog {
    pub node_count: usize,
    pub binding_count: usize,
    pub collection_count: usize,
    pub node_anchors: [u64; ActiveProjectionTargetCatalog::ANCHORS],
    pub binding_anchors: [BindingPair; ActiveProjectionTargetCatalog::ANCHORS],
    pub collection_anchors: [u64; ActiveProjectionTargetCatalog::ANCHORS],
}

impl ActiveProjectionTargetCatalog {
    // The most anchors of each kind.
    pub const ANCHORS: usize = 128;

    // Two numbers for each pair.
    pub const PAIR_NUMBERS: usize = 2 * ActiveProjectionTargetCatalog::ANCHORS;

    // The catalogue of these anchors. The pairs stand in their array already, so many as are given, and it is kept as it is. Ids past
    // the capacity are left out; creation refuses them before.
    pub fn from_snapshot(
        nodes: &[u64],
        pairs: [BindingPair; ActiveProjectionTargetCatalog::ANCHORS],
        given: usize,
        collections: &[u64],
    ) -> ActiveProjectionTargetCatalog
        ensures { result ≡ catalog_with nodes.now pairs given collections.now }
    {
        ActiveProjectionTargetCatalog {
            node_count: nodes.len(),
            binding_count: given,
            collection_count: collections.len(),
            node_anchors: padded_ids(nodes),
            binding_anchors: pairs,
            collection_anchors: padded_ids(collections),
        }
    }
}

// The pairs taken apart, node and slot of each in turn, so that they can be lent.
pub fn pair_numbers(
    pairs: [BindingPair; ActiveProjectionTargetCatalog::ANCHORS],
) -> [u64; ActiveProjectionTargetCatalog::PAIR_NUMBERS]
    ensures { result ≡ flat_map pair_numbers pairs }
{
    let mut numbers = [0u64; ActiveProjectionTargetCatalog::PAIR_NUMBERS];
    for (i, pair) in pairs.iter().enumerate() {
        numbers[2 * i] = pair.node;
        numbers[2 * i + 1] = pair.slot as u64;
    }
    numbers
}

// The ids that fit an array of anchors, and zeros in every other place.
pub fn padded_ids(ids: &[u64]) -> [u64; ActiveProjectionTargetCatalog::ANCHORS]
    ensures { result ≡ padded_pairs 0 ids.now }
{
    let mut anchors = [0u64; ActiveProjectionTargetCatalog::ANCHORS];
    let count = ids.len().min(ActiveProjectionTargetCatalog::ANCHORS);
    anchors[..count].copy_from_slice(&ids[..count]);
    anchors
}
