// The place of a key in a table that ascends by two numbers of eight bytes, by halving.
ghost use Rattle.std.specs.Prelude.{◌≡◌, List, [], ◌∷◌, ℕ, ◌≤◌};
ghost use Rattle.spec_lists.specs.Order.{Ascending};
ghost use Rattle.bytes_records.specs.Table.{HoldsRows};
ghost use Rattle.bytes_records.specs.Keys.{leading_numbers};
ghost use Rattle.bytes_records.specs.Search.{place_of, PlaceWithin};
ghost use Rattle.set_dependencies.specs.SettledRows.{row_fields};

use bytes_records::keys;
use std::cmp::Ordering;

// The place of a record that begins with the numbers id and second.
pub fn find_by_halving(
    table: &[u8],
    width: usize,
    count: usize,
    id: u64,
    second: u64,
) -> Result<usize, usize>
    requires { 16 ≤ width }
    ensures first { (rows : List (List ℕ)) → HoldsRows width count table.now rows → Ascending (leading_numbers row_fields) rows
        → result ≡ place_of (leading_numbers row_fields) (id ∷ second ∷ []) rows }
    ensures within { PlaceWithin count result }
{
    if table.len() / width < count {
        return Err(count);
    }
    let mut low = 0;
    let mut high = count;
    while low < high {
        let middle = low + (high - low) / 2;
        let from = middle * width;
        let end = from + width;
        match keys::compare(&table[from..end], id, 8, second) {
            Ordering::Less => {
                low = middle + 1;
            }
            Ordering::Equal => {
                return Ok(middle);
            }
            Ordering::Greater => {
                high = middle;
            }
        }
    }
    Err(low)
}
