// The memory of a plan: three tables, lent without rows and given back so.
ghost use Rattle.std.specs.Prelude.{◌≡◌, ◌*◌, ◌≤◌, length};
ghost use Rattle.spec_patch.specs.Sizes.{projection_entries};
ghost use Rattle.spec_projection.specs.Projection.{Projection};
ghost use Rattle.bytes_records.specs.Moves.{zeros};
ghost use Rattle.panel_plan.specs.PlanRows.{planned_entry_width, StoredPlan};
ghost use Rattle.panel_writing.specs.Writing.{ClearBehind};
ghost use Rattle.panel_changes.specs.PlanMemory.{plan_in, ClearPlan};

use local_projection_state::{LocalProjectionState, ProjectionCounts};

// Clears the rows of a table behind which nothing stands.
fn clear_rows(table: &mut [u8], width: usize, count: usize)
    requires { width ≤ planned_entry_width }
    ensures { count ≤ projection_entries → count * width ≤ length table.old → ClearBehind count width table.old → table.new ≡ zeros (length table.old) }
{
    if LocalProjectionState::ENTRIES < count {
        return;
    }
    let size = count * width;
    if table.len() < size {
        return;
    }
    bytes_records::moves::clear(&mut table[0..size]);
}

// Clears the rows of a plan.
pub(crate) fn clear_plan(
    bindings: &mut [u8; panel_plan::BINDING_BYTES],
    availability: &mut [u8; LocalProjectionState::AVAILABILITY_BYTES],
    entries: &mut [u8; panel_plan::ENTRY_BYTES],
    counts: ProjectionCounts,
)
    ensures { (q : Projection) → StoredPlan counts bindings.old availability.old entries.old q
        → ClearPlan (plan_in bindings.new availability.new entries.new) }
{
    clear_rows(bindings, panel_plan::BINDING_WIDTH, counts.bindings);
    clear_rows(
        availability,
        panel_rows::AVAILABILITY_WIDTH,
        counts.availabilities,
    );
    clear_rows(entries, panel_plan::ENTRY_WIDTH, counts.entries);
}
