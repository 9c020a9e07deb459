// The line of a value, of an availability and of a mark that was looked up.
ghost use Rattle.std.specs.Prelude.{[], ◌∷◌};
ghost use Rattle.spec_listing.specs.Listing.{fields};
ghost use Rattle.spec_replay.specs.Answers.{dash};
ghost use Rattle.bytes_printer.specs.Prints.{Prints};
ghost use Rattle.script_answers.specs.LookupLines.{value_lookup_line, availability_lookup_line, mark_lookup_line};

use panel_rows::values::{AvailabilityLookup, ValueLookup};

pub(crate) fn print_none(out: &mut [u8], at: Option<usize>) -> Option<usize>
    ensures { Prints out.old at (fields (dash ∷ [])) out.new result }
{
    let none = bytes_printer::print_field_bytes(out, at, b"-");
    bytes_printer::print_newline(out, none)
}

pub fn print_value(out: &mut [u8], at: Option<usize>, lookup: ValueLookup) -> Option<usize>
    ensures { Prints out.old at (value_lookup_line lookup) out.new result }
{
    let letter = bytes_printer::print_byte(out, at, 86);
    if lookup.found {
        return listing_lines::print_value(out, letter, lookup);
    }
    print_none(out, letter)
}

pub fn print_availability(
    out: &mut [u8],
    at: Option<usize>,
    lookup: AvailabilityLookup,
) -> Option<usize>
    ensures { Prints out.old at (availability_lookup_line lookup) out.new result }
{
    let letter = bytes_printer::print_byte(out, at, 86);
    if lookup.found {
        let kind = bytes_printer::print_field_bytes(out, letter, b"A");
        let number = bytes_printer::print_field_u64(out, kind, lookup.availability as u64);
        return bytes_printer::print_newline(out, number);
    }
    print_none(out, letter)
}

// The mark of what was found.
pub fn print_mark(out: &mut [u8], at: Option<usize>, found: bool, mark: u64) -> Option<usize>
    ensures { Prints out.old at (mark_lookup_line found mark) out.new result }
{
    let letter = bytes_printer::print_byte(out, at, 88);
    if found {
        let number = bytes_printer::print_field_u64(out, letter, mark);
        return bytes_printer::print_newline(out, number);
    }
    print_none(out, letter)
}
