// The lines of a page of keys.
ghost use Rattle.std.specs.Prelude.{◌≡◌, ℕ, length, replicate};
ghost use mathlib.Core.List.{List, [], ◌∷◌, ◌++◌, flat_map};
ghost use Rattle.std.proofs.Math.Option.{none};
ghost use Rattle.spec_projection.specs.Projection.{Projection};
ghost use Rattle.spec_projection.specs.Valid.{Valid};
ghost use Rattle.spec_decimal.specs.Decimal.{decimal};
ghost use Rattle.spec_listing.specs.Listing.{fields};
ghost use Rattle.spec_page.specs.Page.{page_rows, page};
ghost use Rattle.spec_replay.specs.Answers.{row_line, page_lines};
ghost use Rattle.bytes_printer.specs.Prints.{Prints, Within};
ghost use Rattle.panel_page.specs.PageTable.{page_bytes};
ghost use Rattle.script_answers.specs.PageTold.{row_lookup_line, PageTold};

use crate::value;
use panel_page::PageRefusal;
use panel_page::rows::PageLookup;

// M, the position and the value of a key that was found; a dash for one that was not.
fn print_row(out: &mut [u8], at: Option<usize>, lookup: PageLookup) -> Option<usize>
    ensures { Prints out.old at (row_lookup_line lookup) out.new result }
{
    let letter = bytes_printer::print_byte(out, at, 77);
    let found = lookup.value;
    if found.found {
        let position = bytes_printer::print_field_u64(out, letter, lookup.position);
        return listing_lines::print_value(out, position, found);
    }
    value::print_none(out, letter)
}

// A line for each of the first count places of an answer table.
fn print_rows(out: &mut [u8], from: Option<usize>, table: &[u8], count: usize) -> Option<usize>
    ensures { (p : Projection) (c : ℕ) (keys rest : List ℕ) → Valid p → length keys ≡ count → table.now ≡ page_bytes p c keys ++ rest → Within out.old from
        → Prints out.old from (flat_map row_line (page_rows p c keys)) out.new result }
{
    if table.len() / PageLookup::WIDTH < count {
        return None;
    }
    let mut at = from;
    for i in 0..count {
        let start = i * PageLookup::WIDTH;
        let lookup = PageLookup::read(&table[start..start + PageLookup::WIDTH]);
        at = print_row(out, at, lookup);
    }
    at
}

// Y, 0, the number of keys, and the places of the keys.
fn print_answered(out: &mut [u8], at: Option<usize>, table: &[u8], count: usize) -> Option<usize>
    ensures { (p : Projection) (c : ℕ) (keys rest : List ℕ) → Valid p → length keys ≡ count → table.now ≡ page_bytes p c keys ++ rest
        → Prints out.old at ((89 ∷ fields (decimal 0 ∷ decimal count ∷ [])) ++ flat_map row_line (page_rows p c keys)) out.new result }
{
    let letter = bytes_printer::print_byte(out, at, 89);
    let zero = bytes_printer::print_field_u64(out, letter, 0);
    let counted = bytes_printer::print_field_u64(out, zero, count as u64);
    let head = bytes_printer::print_newline(out, counted);
    print_rows(out, head, table, count)
}

// What the call answered, and the answer table that it left.
pub fn print_page(
    out: &mut [u8],
    at: Option<usize>,
    answer: Result<usize, PageRefusal>,
    table: &[u8],
) -> Option<usize>
    ensures { (p : Projection) (c : ℕ) (keys : List ℕ) (places : ℕ) → PageTold p c keys places answer table.now
        → Prints out.old at (page_lines (length keys) (page p c keys (replicate places none))) out.new result }
{
    match answer {
        Ok(count) => print_answered(out, at, table, count),
        Err(refusal) => { listing_lines::print_number_line(out, at, 89, refusal.number()) }
    }
}
