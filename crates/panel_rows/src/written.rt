// A row that is made of the fields before its value and the value's canonical bytes, as they are.
ghost use Rattle.std.specs.Prelude.{◌≡◌, ◌+◌, leb, length};
ghost use Rattle.panel_rows.specs.Rows.{written_row};

// Writes the fields of the key and the mark, the value's bytes behind them, and zeros behind these. Answers whether the row has a place for
// them; a row that has none is left as it is.
pub fn write_row(row: &mut [u8], key: &[u8], value: &[u8]) -> bool
    ensures told { result ≡ leb (length key.now + length value.now) (length row.old) }
    ensures made { row.new ≡ written_row key.now value.now row.old }
{
    let at = key.len();
    if row.len() < at || row.len() - at < value.len() {
        return false;
    }
    let end = at + value.len();
    bytes_records::moves::copy(key, row);
    bytes_records::moves::copy(value, &mut row[at..]);
    bytes_records::moves::clear(&mut row[end..]);
    true
}
