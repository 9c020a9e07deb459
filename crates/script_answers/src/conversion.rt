// The line of a set that a call made, and that of a conversion.
ghost use Rattle.spec_conversion.specs.Conversion as model;
ghost use Rattle.spec_replay.specs.Answers.{conversion_line};
ghost use Rattle.bytes_printer.specs.Prints.{Prints};
ghost use Rattle.script_answers.specs.ConversionOf.{ConversionOf};
ghost use Rattle.script_answers.specs.SetPrints.{PrintsSet};

use bytes_hex::printing;
use patch_converter::ConversionRefusal;

// The letter of the call, 0, and in hex the set that stands at the start of what was written. What is cut short is not printed.
pub(crate) fn print_set(
    out: &mut [u8],
    at: Option<usize>,
    letter: u8,
    written: &[u8],
    len: usize,
) -> Option<usize>
    ensures { PrintsSet letter len written.now out.old at out.new result }
{
    if written.len() < len {
        return None;
    }
    let start = bytes_printer::print_byte(out, at, letter);
    let zero = bytes_printer::print_field_u64(out, start, 0);
    let shown = printing::print_field_hex(out, zero, &written[0..len]);
    bytes_printer::print_newline(out, shown)
}

// What a conversion answered and wrote.
pub fn print_conversion(
    out: &mut [u8],
    at: Option<usize>,
    answer: Result<usize, ConversionRefusal>,
    written: &[u8],
) -> Option<usize>
    ensures { (c : model.Converted) → ConversionOf c answer written.now → Prints out.old at (conversion_line c) out.new result }
{
    match answer {
        Ok(len) => print_set(out, at, 84, written, len),
        Err(refusal) => { listing_lines::print_number_line(out, at, 84, refusal.number()) }
    }
}
