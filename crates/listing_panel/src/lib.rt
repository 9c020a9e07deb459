// The listing of a set, printed; and that of a set, a state or its tables, written into a lent slice whole or not at all: 01, 'Listing'.
#![tactic(auto)]

ghost use Rattle.std.specs.Prelude.{List, ℕ};
ghost use Rattle.spec_patch.specs.Sizes.{projection_bindings, projection_availabilities, projection_entries};
ghost use Rattle.spec_projection.specs.Projection.{Projection};
ghost use Rattle.spec_projection.specs.Valid.{Valid};
ghost use Rattle.spec_listing.specs.Listing.{projection_lines, listing};
ghost use Rattle.bytes_printer.specs.Prints.{Prints};
ghost use Rattle.projection_patch.specs.Meaning.{edition_of};
ghost use Rattle.panel_rows.specs.Rows.{binding_width, availability_width, entry_width, binding_row, availability_row, entry_row};
ghost use Rattle.local_projection_state.specs.Stores.{Stored, Stores};
ghost use Rattle.listing_panel.specs.Written.{HoldsLines, Writes, KeptLines};

use listing_lines::tables;
use listing_lines::tables::LISTING_BYTES;
use local_projection_state::{LocalProjectionState, ProjectionCounts};
use patch_part_writer::written::WriteRefusal;
use projection_patch::patch::ProjectionPatchEdition;

// Writes the lines that were printed from the start of text up to a position.
fn write_lines(text: &[u8], end: Option<usize>, out: &mut [u8]) -> Result<usize, WriteRefusal>
    ensures lines { (lines : List ℕ) → HoldsLines text.now end lines → Writes out.old lines out.new result }
    ensures kept { KeptLines out.old out.new result }
{
    let len = end.ok_or(WriteRefusal::OutputTooShort)?;
    let lines = text.get(..len).ok_or(WriteRefusal::OutputTooShort)?;
    if bytes_wire::write_bytes_at(out, 0, lines) {
        Ok(len)
    } else {
        Err(WriteRefusal::OutputTooShort)
    }
}

// Writes the listing of what three tables store. Of tables that store no projection it writes some lines, or answers 14.
pub fn write_tables(
    bindings: &[u8],
    availability: &[u8],
    entries: &[u8],
    counts: ProjectionCounts,
    out: &mut [u8],
) -> Result<usize, WriteRefusal>
    ensures lines { (p : Projection) → Stored binding_row binding_width projection_bindings counts.bindings bindings.now p.bindings
        → Stored availability_row availability_width projection_availabilities counts.availabilities availability.now p.availabilities
        → Stored entry_row entry_width projection_entries counts.entries entries.now p.entries → Valid p
        → Writes out.old (projection_lines p) out.new result }
    ensures kept { KeptLines out.old out.new result }
{
    let mut text = [0u8; LISTING_BYTES];
    let end = tables::print_tables(&mut text, Some(0), bindings, availability, entries, counts);
    write_lines(&text, end, out)
}

// Writes the listing of what a state stores.
pub fn write_projection(state: LocalProjectionState, out: &mut [u8]) -> Result<usize, WriteRefusal>
    ensures lines { (p : Projection) → Stores state p → Writes out.old (projection_lines p) out.new result }
    ensures kept { KeptLines out.old out.new result }
{
    let counts = state.counts;
    let bindings = state.bindings;
    let availability = state.availability;
    let entries = state.entries;
    write_tables(&bindings, &availability, &entries, counts, out)
}

// Prints the listing of a set: that of an empty projection after it, or the line of its refusal.
pub fn print_listing(
    out: &mut [u8],
    at: Option<usize>,
    set: &[u8],
    edition: ProjectionPatchEdition,
) -> Option<usize>
    ensures { Prints out.old at (listing (edition_of edition) set.now) out.new result }
{
    let empty = LocalProjectionState::empty();
    let application = panel_application::apply_projection_patch_set(empty, set, edition);
    let state = application.state;
    let number = panel_application::outcome_number(application.outcome);
    if number == 0 {
        return tables::print_projection(out, at, state);
    }
    listing_lines::print_number_line(out, at, 69, number)
}

// Writes the listing of a set.
pub fn write_listing(
    set: &[u8],
    edition: ProjectionPatchEdition,
    out: &mut [u8],
) -> Result<usize, WriteRefusal>
    ensures { Writes out.old (listing (edition_of edition) set.now) out.new result }
{
    let mut text = [0u8; LISTING_BYTES];
    let end = print_listing(&mut text, Some(0), set, edition);
    write_lines(&text, end, out)
}
