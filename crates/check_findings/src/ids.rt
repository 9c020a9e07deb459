// The ids of earlier patches, one number each.
ghost use Rattle.std.specs.Prelude.{◌≡◌, ◌<◌, length, take, set};
ghost use Rattle.check_findings.specs.Ids.{id_seen};

// Whether the id is among the first used numbers, behind which it is put for later patches.
pub fn id_before(ids: &mut [u64], used: usize, id: u64) -> bool
    requires { used < length ids.old }
    ensures seen { result ≡ id_seen id (take used ids.old) }
    ensures kept { ids.new ≡ set ids.old used id }
{
    let seen = ids[..used].contains(&id);
    ids[used] = id;
    seen
}
