// Whether a target is among the anchors of its kind.
ghost use Rattle.std.specs.Prelude.{◌≡◌, eqb};
ghost use Rattle.spec_lists.specs.Lists.{any};
ghost use Rattle.active_projection_target_catalog.specs.Catalog.{pair_seen};

pub fn contains_id(ids: &[u64], id: u64) -> bool
    ensures { result ≡ any (eqb id) ids.now }
{
    ids.contains(&id)
}

// The pairs are lent as two numbers each.
pub fn contains_binding(pairs: &[u64], node: u64, slot: u64) -> bool
    ensures { result ≡ pair_seen node slot pairs.now }
{
    let (pairs, _) = pairs.as_chunks::<2>();
    pairs.contains(&[node, slot])
}
