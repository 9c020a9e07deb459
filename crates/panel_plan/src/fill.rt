// The plan that a batch starts from: each row's ids and mark, and its number for a source.
ghost use Rattle.std.specs.Prelude.{◌≡◌, List, [], ℕ, ◌+◌, ◌*◌, ◌≤◌, ◌<◌, length};
ghost use Rattle.spec_patch.specs.Sizes.{projection_bindings, projection_entries};
ghost use Rattle.spec_patch.specs.Encode.{u64};
ghost use Rattle.spec_projection.specs.Projection.{Binding, Entry};
ghost use Rattle.bytes_records.specs.Table.{HoldsRows};
ghost use Rattle.panel_rows.specs.Rows.{binding_width, entry_width, binding_row, entry_row};
ghost use Rattle.local_projection_state.specs.Stores.{Stored};
ghost use Rattle.panel_plan.specs.Plan.{numbered, binding_with, entry_with};
ghost use Rattle.panel_plan.specs.PlanRows.{source_width, PlannedBindings, PlannedEntries};
ghost use Rattle.panel_plan.specs.NumberedRows.{numbered_row, numbered_rows};

// Writes the front of an old row, which is so many bytes, and behind it a number.
fn number_row(old: &[u8], front: usize, number: usize, row: &mut [u8])
    ensures { front ≤ length old.now → length row.old ≡ front + source_width → row.new ≡ numbered_row front number old.now }
{
    if old.len() < front {
        return;
    }
    if row.len() < front {
        return;
    }
    bytes_records::moves::copy(&old[..front], row);
    bytes_wire::write_u64_at(row, front, number as u64);
}

// Numbers the rows of a table, the ids and the mark in front of a value being so many bytes, in a table without rows; row is memory
// for one of them.
fn number_rows(from: &[u8], width: usize, count: usize, front: usize, row: &mut [u8], to: &mut [u8])
    requires { (0 < width) × (length row.old ≡ front + source_width) }
    ensures { (rows : List (List ℕ)) → front ≤ width → HoldsRows width count from.now rows → HoldsRows (front + source_width) 0 to.old []
        → count * (front + source_width) ≤ length to.old → HoldsRows (front + source_width) count to.new (numbered_rows front 0 rows) }
{
    let size = front + super::SOURCE_WIDTH;
    for i in 0..count {
        let old = bytes_records::record_at(from, width, count, i);
        number_row(old, front, i, row);
        bytes_records::insert_record(to, size, i, i, row);
    }
}

// The planned bindings of a table, in one without rows.
pub fn plan_bindings(from: &[u8], count: usize, to: &mut [u8])
    ensures { (bs : List Binding) → Stored binding_row binding_width projection_bindings count from.now bs → PlannedBindings 0 to.old []
        → PlannedBindings count to.new (numbered binding_with 0 bs) }
{
    let mut row = [0u8; super::BINDING_WIDTH];
    number_rows(
        from,
        panel_rows::BINDING_WIDTH,
        count,
        panel_rows::BINDING_VALUE,
        &mut row,
        to,
    );
}

// The planned entries of a table, in one without rows.
pub fn plan_entries(from: &[u8], count: usize, to: &mut [u8])
    ensures { (es : List Entry) → Stored entry_row entry_width projection_entries count from.now es → PlannedEntries 0 to.old []
        → PlannedEntries count to.new (numbered entry_with 0 es) }
{
    let mut row = [0u8; super::ENTRY_WIDTH];
    number_rows(
        from,
        panel_rows::ENTRY_WIDTH,
        count,
        panel_rows::ENTRY_VALUE,
        &mut row,
        to,
    );
}
