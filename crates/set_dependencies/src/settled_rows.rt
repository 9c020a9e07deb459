// Rows of settled keys: the collection and the key, then whether it must be there at the start, and whether it is there now.
ghost use Rattle.std.specs.Prelude.{◌≡◌, ◌*◌, ◌≤◌, length, drop};
ghost use Rattle.spec_dependencies.specs.Settled.{Settled};
ghost use Rattle.set_dependencies.specs.SettledRows.{row_width, flag, settled_row, settled_of, FitsSettled};

use projection_patch::patch::ProjectionPatchSet;

// Where the key stands in a row, and the two bytes behind it.
pub const KEY: usize = 8;

pub const AT_START: usize = KEY + 8;

pub const PRESENT: usize = AT_START + 1;

pub const WIDTH: usize = PRESENT + 1;

// The fewest bytes of a set for a key that it looks for: a move before a neighbour looks for two, in 26.
const KEY_BYTES: usize = 13;

// So many keys a set can look for.
pub const ROWS: usize = ProjectionPatchSet::BYTES / KEY_BYTES;

// So many rows before the first row's place, and as many behind it: a table grows to both sides.
pub const TABLE_BYTES: usize = 2 * ROWS * WIDTH;

// Where the rows of a table begin, counted in rows, and how many they are.
#[derive(Clone, Copy)]
pub struct SettledPlaces {
    pub start: usize,
    pub count: usize,
}

// The table from a row on, or no bytes where it has no such row.
pub fn rows_from(table: &[u8], start: usize) -> &[u8]
    ensures { start * row_width ≤ length table.now → result.now ≡ drop (start * row_width) table.now }
{
    if table.len() / WIDTH < start {
        return &table[..0];
    }
    let from = start * WIDTH;
    &table[from..]
}

#[derive(Clone, Copy)]
pub struct SettledKey {
    pub collection: u64,
    pub key: u64,
    pub at_start: bool,
    pub present: bool,
}

fn flag_byte(set: bool) -> u8
    ensures { result ≡ flag set }
{
    if set {
        return 1;
    }
    0
}

// The row of a settled key.
pub fn settled_row(settled: SettledKey) -> [u8; WIDTH]
    ensures { result ≡ settled_row (settled_of settled) }
{
    let mut row = [0u8; WIDTH];
    bytes_wire::write_u64_at(&mut row, 0, settled.collection);
    bytes_wire::write_u64_at(&mut row, KEY, settled.key);
    row[AT_START] = flag_byte(settled.at_start);
    row[PRESENT] = flag_byte(settled.present);
    row
}

// The settled key of a row.
pub fn settled_key(row: &[u8]) -> SettledKey
    ensures { (s : Settled) → FitsSettled s → row.now ≡ settled_row s → settled_of result ≡ s }
{
    if row.len() < WIDTH {
        return SettledKey {
            collection: 0,
            key: 0,
            at_start: false,
            present: false,
        };
    }
    SettledKey {
        collection: bytes_records::keys::number_of(&row[..KEY]),
        key: bytes_records::keys::number_of(&row[KEY..AT_START]),
        at_start: row[AT_START] == 1,
        present: row[PRESENT] == 1,
    }
}
