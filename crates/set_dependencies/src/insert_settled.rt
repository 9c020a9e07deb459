// A row put into its place in a table that grows to both sides: the rows on the shorter side of the place are moved.
ghost use Rattle.std.specs.Prelude.{◌≡◌, List, ℕ, ◌≤◌, ◌<◌, length};
ghost use Rattle.bytes_records.specs.Positions.{insert_at};
ghost use Rattle.set_dependencies.specs.SettledRows.{row_width, row_capacity, RowsIn};

use crate::settled_rows;
use crate::settled_rows::SettledPlaces;

// Inserts row before the row at position `at`.
pub fn insert_near(table: &mut [u8], places: SettledPlaces, at: usize, row: &[u8]) -> SettledPlaces
    ensures { (rows : List (List ℕ)) → RowsIn places table.old rows → places.count < row_capacity → at ≤ places.count → length row.now ≡ row_width
        → RowsIn result table.new (insert_at at row.now rows) }
{
    let start = places.start;
    let count = places.count;
    if settled_rows::ROWS <= count {
        return places;
    }
    if table.len() / settled_rows::WIDTH < start {
        return places;
    }
    if start == 0 {
        return places;
    }
    if at < count / 2 {
        let before = start - 1;
        let from = before * settled_rows::WIDTH;
        bytes_records::move_record(
            &mut table[from..],
            settled_rows::WIDTH,
            count + 1,
            0,
            at,
            row,
        );
        return SettledPlaces {
            start: before,
            count: count + 1,
        };
    }
    let from = start * settled_rows::WIDTH;
    bytes_records::insert_record(&mut table[from..], settled_rows::WIDTH, count, at, row);
    SettledPlaces {
        start,
        count: count + 1,
    }
}
