// The line of a print, and its bytes.
ghost use Rattle.std.specs.Prelude.{List, [], ◌∷◌, ◌++◌, ℕ, length};
ghost use Rattle.spec_decimal.specs.Decimal.{decimal};
ghost use Rattle.spec_listing.specs.Listing.{fields};
ghost use Rattle.spec_replay.specs.Answers.{print_lines};
ghost use Rattle.bytes_printer.specs.Prints.{Prints};
ghost use Rattle.script_answers.specs.PrintTold.{PrintTold};

use panel_print::PrintRefusal;

// O, 0 and the number of bytes; behind the newline these bytes as they are.
fn print_paper(out: &mut [u8], at: Option<usize>, bytes: &[u8]) -> Option<usize>
    ensures { Prints out.old at ((79 ∷ fields (decimal 0 ∷ decimal (length bytes.now) ∷ [])) ++ bytes.now) out.new result }
{
    let letter = bytes_printer::print_byte(out, at, 79);
    let zero = bytes_printer::print_field_u64(out, letter, 0);
    let count = bytes_printer::print_field_u64(out, zero, bytes.len() as u64);
    let line = bytes_printer::print_newline(out, count);
    bytes_printer::print_bytes(out, line, bytes)
}

// What a print answered and wrote.
pub fn print_collection(
    out: &mut [u8],
    at: Option<usize>,
    answer: Result<usize, PrintRefusal>,
    written: &[u8],
) -> Option<usize>
    ensures { (lent print : List ℕ) → PrintTold lent print answer written.now
        → Prints out.old at (print_lines (length lent) print) out.new result }
{
    match answer {
        Ok(len) => {
            if written.len() < len {
                return None;
            }
            print_paper(out, at, &written[0..len])
        }
        Err(refusal) => { listing_lines::print_number_line(out, at, 79, refusal.number()) }
    }
}
