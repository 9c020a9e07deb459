// The lines of a collection's entries, printed from a table of rows.
ghost use Rattle.std.specs.Prelude.{◌≡◌};
ghost use mathlib.Core.List.{List, map, flat_map};
ghost use Rattle.spec_lists.specs.Lists.{All};
ghost use Rattle.spec_projection.specs.Projection.{Entry};
ghost use Rattle.spec_projection.specs.Lookups.{keyed_value};
ghost use Rattle.spec_projection.specs.Valid.{FitsEntry};
ghost use Rattle.spec_panel_print.specs.Print.{key_lead};
ghost use Rattle.bytes_records.specs.Table.{HoldsRows};
ghost use Rattle.bytes_printer.specs.Prints.{Prints, Within};
ghost use Rattle.panel_rows.specs.Rows.{entry_width, entry_row};
ghost use Rattle.panel_print.specs.ByteFlow.{flowed_bytes};
ghost use Rattle.panel_print.specs.LookupBytes.{letter_of, scalar_bytes, lookup_bytes};
ghost use Rattle.panel_print.specs.EntriesPrint.{entry_print, row_print};

use crate::columns;
use panel_rows::values::ValueLookup;
use panel_rows::{fields, values};

// The longest value that is no text: a sign and 20 digits.
const SCALAR_BYTES: usize = 21;

// The key, right-aligned, and two spaces: the spaces before it are as many as the digits that it does not have.
fn print_key(out: &mut [u8], at: Option<usize>, key: u64) -> Option<usize>
    ensures { Prints out.old at (key_lead key) out.new result }
{
    let digits = bytes_decimal::digits_of(key);
    let bytes = digits.bytes;
    let start = digits.start;
    let lead = columns::print_spaces(out, at, start);
    let number = bytes_printer::print_bytes(out, lead, &bytes[start..]);
    columns::print_spaces(out, number, 2)
}

fn quad_letter(number: u8) -> u8
    ensures { result ≡ letter_of number }
{
    match number {
        0 => b'N',
        1 => b'F',
        2 => b'T',
        _ => b'S',
    }
}

fn print_scalar(out: &mut [u8], value: ValueLookup) -> Option<usize>
    ensures { Prints out.old (Some 0) (scalar_bytes value) out.new result }
{
    match value.kind {
        1 => bytes_printer::print_byte(out, Some(0), quad_letter(value.quad)),
        2 => bytes_printer::print_i64(out, Some(0), value.signed),
        _ => bytes_printer::print_u64(out, Some(0), value.unsigned),
    }
}

fn print_value(out: &mut [u8], at: Option<usize>, value: ValueLookup) -> Option<usize>
    ensures { Prints out.old at (flowed_bytes 0 (lookup_bytes value)) out.new result }
{
    if value.kind == 3 {
        let text = value.text;
        return columns::print_columns(out, at, fields::key_part(&text, value.text_len));
    }
    let mut scalar = [0u8; SCALAR_BYTES];
    let len = print_scalar(&mut scalar, value)?;
    columns::print_columns(out, at, fields::key_part(&scalar, len))
}

// The lines of the entry in a row. Its mark is not printed.
fn print_entry(out: &mut [u8], at: Option<usize>, row: &[u8]) -> Option<usize>
    ensures { (e : Entry) → FitsEntry e → row.now ≡ entry_row e
        → Prints out.old at (entry_print (keyed_value e)) out.new result }
{
    let key = fields::entry_key(row);
    let value = values::stored_value(row, panel_rows::ENTRY_VALUE, 0);
    let lead = print_key(out, at, key);
    print_value(out, lead, value)
}

// The lines of a row's entry if it is one of the collection, else nothing.
fn print_row(out: &mut [u8], at: Option<usize>, row: &[u8], collection: u64) -> Option<usize>
    ensures { (e : Entry) → FitsEntry e → row.now ≡ entry_row e → Within out.old at
        → Prints out.old at (row_print collection e) out.new result }
{
    if fields::entry_collection(row) != collection {
        return at;
    }
    print_entry(out, at, row)
}

// The lines of a collection's entries. A table that is too short for its count answers None.
pub(crate) fn print_rows(
    out: &mut [u8],
    from: Option<usize>,
    table: &[u8],
    count: usize,
    collection: u64,
) -> Option<usize>
    ensures { (es : List Entry) → All FitsEntry es → HoldsRows entry_width count table.now (map entry_row es) → Within out.old from
        → Prints out.old from (flat_map (row_print collection) es) out.new result }
{
    let width = panel_rows::ENTRY_WIDTH;
    if table.len() / width < count {
        return None;
    }
    let mut at = from;
    for i in 0..count {
        let row = bytes_records::record_at(table, width, count, i);
        at = print_row(out, at, row, collection);
    }
    at
}
