// An index of keys, so that those that are equal to an entry's key are found without a look at the others. Each key has a place among few, by
// its remainder; those of one place are a chain from the last key of the list to the first. In heads and earlier a key stands by its index
// and one, and 0 for none.
ghost use Rattle.std.specs.Prelude.{◌≡◌, ◌≤◌, length};
ghost use Rattle.bytes_records.specs.Moves.{zeros};
ghost use Rattle.panel_page.specs.Index.{key_places, index_place_of, Indexed};

// A prime, so that keys in steps of a round number have places of their own.
const PLACES: u64 = 251;

pub(crate) const KEY_PLACES: usize = PLACES as usize;

pub(crate) fn key_place(key: u64) -> usize
    ensures { result ≡ index_place_of key }
{
    (key % PLACES) as usize
}

// For each place the last key that has it, and for each key the one before it in its place.
pub(crate) fn index_keys(keys: &[u64], heads: &mut [usize], earlier: &mut [usize])
    requires { (heads.old ≡ zeros key_places) × (length keys.now ≤ length earlier.old) }
    ensures { Indexed (length keys.now) keys.now heads.new earlier.new }
{
    let mut i: usize = 0;
    while i < keys.len() {
        let place = key_place(keys[i]);
        earlier[i] = heads[place];
        i += 1;
        heads[place] = i;
    }
}
