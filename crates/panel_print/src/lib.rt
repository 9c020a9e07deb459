// Prints a collection for paper: 02, Job 10. The print is made in a buffer of its longest length, and written whole or not at all.
#![tactic(auto)]

mod columns;
mod entries;

ghost use Rattle.std.specs.Prelude.{◌≡◌, List, ℕ};
ghost use Rattle.spec_patch.specs.Sizes.{projection_entries};
ghost use Rattle.spec_projection.specs.Projection.{Projection};
ghost use Rattle.spec_projection.specs.Valid.{Valid};
ghost use Rattle.spec_panel_print.specs.Print.{collection_print};
ghost use Rattle.bytes_wire.specs.Write.{overwrite};
ghost use Rattle.panel_rows.specs.Rows.{entry_width, entry_row};
ghost use Rattle.local_projection_state.specs.Stores.{Stored};
ghost use Rattle.panel_print.specs.Answers.{print_number, print_answer, OthersKept, PrintedWhole};

use local_projection_state::LocalProjectionState;
use projection_patch::patch::ProjectionPatchValue;

// The longest print of an entry: three lines of 81 bytes, in which 117 characters of a text take all the bytes that a text may have.
const ENTRY_PRINT_BYTES: usize = 126 + ProjectionPatchValue::TEXT_BYTES;

// The longest print of a collection: that of every entry that a panel can hold. `print_fits` proves that it holds every print.
pub const PRINT_BYTES: usize = LocalProjectionState::ENTRIES * ENTRY_PRINT_BYTES;

#[derive(Clone, Copy)]
pub enum PrintRefusal {
    OutputTooShort,
}

impl PrintRefusal {
    // 02's number.
    pub fn number(self) -> u64
        ensures { result ≡ print_number self }
    {
        match self {
            PrintRefusal::OutputTooShort => 14,
        }
    }
}

// Writes what was printed from the start of text up to a position, and answers how many bytes these are.
fn write_print(text: &[u8], end: Option<usize>, out: &mut [u8]) -> Result<usize, PrintRefusal>
    ensures printed { (print : List ℕ) → PrintedWhole text.now end print
        → (result ≡ print_answer out.old print) × (out.new ≡ overwrite out.old 0 print) }
    ensures kept { OthersKept out.old out.new result }
{
    let len = end.ok_or(PrintRefusal::OutputTooShort)?;
    let print = text.get(..len).ok_or(PrintRefusal::OutputTooShort)?;
    if bytes_wire::write_bytes_at(out, 0, print) {
        Ok(len)
    } else {
        Err(PrintRefusal::OutputTooShort)
    }
}

// Prints a collection of a table of entries from the start of the output on. What is behind the print stays; a refusal leaves every byte.
// Of a table that stores no projection it writes some lines, or answers 14.
pub fn print_collection(
    table: &[u8],
    count: usize,
    collection: u64,
    out: &mut [u8],
) -> Result<usize, PrintRefusal>
    ensures printed { (p : Projection) → Stored entry_row entry_width projection_entries count table.now p.entries → Valid p
        → (result ≡ print_answer out.old (collection_print p collection)) × (out.new ≡ overwrite out.old 0 (collection_print p collection)) }
    ensures kept { OthersKept out.old out.new result }
{
    let mut text = [0u8; PRINT_BYTES];
    let end = entries::print_rows(&mut text, Some(0), table, count, collection);
    write_print(&text, end, out)
}
