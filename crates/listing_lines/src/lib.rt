// The lines of a listing: 01, 'Listing'. A record's line is printed from its stored row, and shows no mark.
#![tactic(auto)]

mod escapes;
pub mod tables;

ghost use Rattle.std.specs.Prelude.{◌≡◌, [], ◌∷◌, take};
ghost use Rattle.spec_projection.specs.Projection.{Binding, NodeAvailability, Entry};
ghost use Rattle.spec_projection.specs.Valid.{FitsBinding, FitsNodeAvailability, FitsEntry};
ghost use Rattle.spec_decimal.specs.Decimal.{decimal};
ghost use Rattle.spec_listing.specs.Escapes.{escaped};
ghost use Rattle.spec_listing.specs.Listing.{fields, binding_line, availability_line, entry_line};
ghost use Rattle.bytes_printer.specs.Prints.{spaced_field, Prints};
ghost use Rattle.panel_rows.specs.Rows.{binding_row, availability_row, entry_row};
ghost use Rattle.listing_lines.specs.LookupFields.{lookup_fields};
ghost use Rattle.listing_lines.specs.RowKinds.{Element, FitsRow, row_of, line_of_row};

use panel_rows::fields as row_fields;
use panel_rows::values::ValueLookup;
use projection_patch::patch::ProjectionPatchValue;
use projection_patch::read_values;

// A field of one letter.
fn print_letter(out: &mut [u8], at: Option<usize>, letter: u8) -> Option<usize>
    ensures { Prints out.old at (spaced_field (letter ∷ [])) out.new result }
{
    let tab = bytes_printer::print_byte(out, at, 9);
    bytes_printer::print_byte(out, tab, letter)
}

// The letter of a kind, a number, and the end of the line.
fn print_kind_number(out: &mut [u8], at: Option<usize>, letter: u8, n: u64) -> Option<usize>
    ensures { Prints out.old at (fields ((letter ∷ []) ∷ decimal n ∷ [])) out.new result }
{
    let kind = print_letter(out, at, letter);
    let number = bytes_printer::print_field_u64(out, kind, n);
    bytes_printer::print_newline(out, number)
}

// The kind and the value of a lookup, and the end of the line. A kind that is none of the others is printed as a text.
pub fn print_value(out: &mut [u8], at: Option<usize>, value: ValueLookup) -> Option<usize>
    ensures { Prints out.old at (fields (lookup_fields value)) out.new result }
{
    match value.kind {
        1 => print_kind_number(out, at, b'Q', value.quad as u64),
        2 => {
            let letter = print_letter(out, at, b'S');
            let number = bytes_printer::print_field_i64(out, letter, value.signed);
            bytes_printer::print_newline(out, number)
        }
        4 => print_kind_number(out, at, b'U', value.unsigned),
        5 => print_kind_number(out, at, b'M', value.unsigned),
        _ => print_text(out, at, value),
    }
}

// The kind T, the escaped text of a lookup and the end of the line.
fn print_text(out: &mut [u8], at: Option<usize>, value: ValueLookup) -> Option<usize>
    ensures { Prints out.old at (fields ((84 ∷ []) ∷ escaped (take value.text_len value.text) ∷ [])) out.new result }
{
    let text = value.text;
    let len = value.text_len.min(ProjectionPatchValue::TEXT_BYTES);
    let letter = print_letter(out, at, b'T');
    let tab = bytes_printer::print_byte(out, letter, 9);
    let bytes = crate::escapes::print_escaped(out, tab, read_values::text_of(&text, 0, len));
    bytes_printer::print_newline(out, bytes)
}

// A letter and one number.
pub fn print_number_line(out: &mut [u8], at: Option<usize>, letter: u8, n: u64) -> Option<usize>
    ensures { Prints out.old at (letter ∷ fields (decimal n ∷ [])) out.new result }
{
    let start = bytes_printer::print_byte(out, at, letter);
    let first = bytes_printer::print_field_u64(out, start, n);
    bytes_printer::print_newline(out, first)
}

// A letter, two numbers and a value.
fn print_record(
    out: &mut [u8],
    at: Option<usize>,
    letter: u8,
    a: u64,
    b: u64,
    value: ValueLookup,
) -> Option<usize>
    ensures { Prints out.old at (letter ∷ fields (decimal a ∷ decimal b ∷ lookup_fields value)) out.new result }
{
    let start = bytes_printer::print_byte(out, at, letter);
    let first = bytes_printer::print_field_u64(out, start, a);
    let second = bytes_printer::print_field_u64(out, first, b);
    print_value(out, second, value)
}

fn print_binding(out: &mut [u8], at: Option<usize>, row: &[u8]) -> Option<usize>
    ensures { (b : Binding) → FitsBinding b → row.now ≡ binding_row b
        → Prints out.old at (binding_line b) out.new result }
{
    let node = row_fields::binding_node(row);
    let slot = row_fields::binding_slot(row);
    let value = panel_rows::values::stored_value(row, panel_rows::BINDING_VALUE, 0);
    print_record(out, at, b'B', node, slot, value)
}

fn print_availability(out: &mut [u8], at: Option<usize>, row: &[u8]) -> Option<usize>
    ensures { (a : NodeAvailability) → FitsNodeAvailability a → row.now ≡ availability_row a
        → Prints out.old at (availability_line a) out.new result }
{
    let node = row_fields::availability_node(row);
    let availability = row_fields::availability_byte(row);
    let start = bytes_printer::print_byte(out, at, b'A');
    let first = bytes_printer::print_field_u64(out, start, node);
    let second = bytes_printer::print_field_u64(out, first, availability as u64);
    bytes_printer::print_newline(out, second)
}

fn print_entry(out: &mut [u8], at: Option<usize>, row: &[u8]) -> Option<usize>
    ensures { (e : Entry) → FitsEntry e → row.now ≡ entry_row e
        → Prints out.old at (entry_line e) out.new result }
{
    let collection = row_fields::entry_collection(row);
    let key = row_fields::entry_key(row);
    let value = panel_rows::values::stored_value(row, panel_rows::ENTRY_VALUE, 0);
    print_record(out, at, b'C', collection, key, value)
}

// The three kinds of rows.
#[derive(Clone, Copy)]
pub enum RowKind {
    Binding,
    Availability,
    Entry,
}

pub(crate) fn print_row(
    out: &mut [u8],
    at: Option<usize>,
    kind: RowKind,
    row: &[u8],
) -> Option<usize>
    ensures { (x : Element kind) → FitsRow kind x → row.now ≡ row_of kind x
        → Prints out.old at (line_of_row kind x) out.new result }
{
    match kind {
        RowKind::Binding => print_binding(out, at, row),
        RowKind::Availability => print_availability(out, at, row),
        RowKind::Entry => print_entry(out, at, row),
    }
}
