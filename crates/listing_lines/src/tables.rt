// The lines of a whole projection, printed from its tables.
ghost use Rattle.std.specs.Prelude.{◌≡◌, ◌+◌, ◌≤◌};
ghost use mathlib.Core.List.{List, map, flat_map};
ghost use Rattle.spec_lists.specs.Lists.{All};
ghost use Rattle.spec_patch.specs.Sizes.{projection_bindings, projection_availabilities, projection_entries};
ghost use Rattle.spec_projection.specs.Projection.{Projection};
ghost use Rattle.spec_projection.specs.Valid.{Valid};
ghost use Rattle.spec_listing.specs.Listing.{projection_lines};
ghost use Rattle.bytes_records.specs.Table.{HoldsRows};
ghost use Rattle.bytes_printer.specs.Prints.{Prints, Within};
ghost use Rattle.panel_rows.specs.Rows.{binding_width, availability_width, entry_width, binding_row, availability_row, entry_row};
ghost use Rattle.local_projection_state.specs.Stores.{Stored, Stores};
ghost use Rattle.listing_lines.specs.RowKinds.{Element, FitsRow, row_of, width_of, line_of_row};

use crate::RowKind;
use local_projection_state::{LocalProjectionState, ProjectionCounts};
use projection_patch::patch::ProjectionPatchValue;

// The longest listing: the line of the count, and the longest line of each record that a panel can hold. `listing_fits` proves that it holds
// every listing.
pub const LISTING_BYTES: usize = 6
    + LocalProjectionState::BINDINGS * (37 + 2 * ProjectionPatchValue::TEXT_BYTES)
    + LocalProjectionState::AVAILABILITIES * 25
    + LocalProjectionState::ENTRIES * (47 + 2 * ProjectionPatchValue::TEXT_BYTES);

fn row_width(kind: RowKind) -> usize
    ensures { result ≡ width_of kind }
{
    match kind {
        RowKind::Binding => panel_rows::BINDING_WIDTH,
        RowKind::Availability => panel_rows::AVAILABILITY_WIDTH,
        RowKind::Entry => panel_rows::ENTRY_WIDTH,
    }
}

// The line of each row of a table. A table that is too short for its count answers None.
fn print_rows(
    out: &mut [u8],
    from: Option<usize>,
    kind: RowKind,
    table: &[u8],
    count: usize,
) -> Option<usize>
    ensures { (xs : List (Element kind)) → All (FitsRow kind) xs → HoldsRows (width_of kind) count table.now (map (row_of kind) xs) → Within out.old from
        → Prints out.old from (flat_map (line_of_row kind) xs) out.new result }
{
    let width = row_width(kind);
    if table.len() / width < count {
        return None;
    }
    let mut at = from;
    for i in 0..count {
        let row = bytes_records::record_at(table, width, count, i);
        at = crate::print_row(out, at, kind, row);
    }
    at
}

// How many records there are, or 0 for counts that no panel has.
fn record_count(counts: ProjectionCounts) -> u64
    ensures { counts.bindings ≤ projection_bindings → counts.availabilities ≤ projection_availabilities → counts.entries ≤ projection_entries
        → result ≡ counts.bindings + (counts.availabilities + counts.entries) }
{
    if LocalProjectionState::BINDINGS < counts.bindings {
        return 0;
    }
    if LocalProjectionState::AVAILABILITIES < counts.availabilities {
        return 0;
    }
    if LocalProjectionState::ENTRIES < counts.entries {
        return 0;
    }
    (counts.bindings + (counts.availabilities + counts.entries)) as u64
}

// P and the record count, then the records of three tables in stored order.
pub fn print_tables(
    out: &mut [u8],
    at: Option<usize>,
    bindings: &[u8],
    availability: &[u8],
    entries: &[u8],
    counts: ProjectionCounts,
) -> Option<usize>
    ensures { (p : Projection) → Stored binding_row binding_width projection_bindings counts.bindings bindings.now p.bindings
        → Stored availability_row availability_width projection_availabilities counts.availabilities availability.now p.availabilities
        → Stored entry_row entry_width projection_entries counts.entries entries.now p.entries → Valid p
        → Prints out.old at (projection_lines p) out.new result }
{
    let count = record_count(counts);
    let head = crate::print_number_line(out, at, b'P', count);
    let first = print_rows(out, head, RowKind::Binding, bindings, counts.bindings);
    let second = print_rows(
        out,
        first,
        RowKind::Availability,
        availability,
        counts.availabilities,
    );
    print_rows(out, second, RowKind::Entry, entries, counts.entries)
}

// The listing of what a state stores.
pub fn print_projection(
    out: &mut [u8],
    at: Option<usize>,
    state: LocalProjectionState,
) -> Option<usize>
    ensures { (p : Projection) → Stores state p → Prints out.old at (projection_lines p) out.new result }
{
    let counts = state.counts;
    let bindings = state.bindings;
    let availability = state.availability;
    let entries = state.entries;
    print_tables(out, at, &bindings, &availability, &entries, counts)
}
