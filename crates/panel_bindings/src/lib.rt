// Setting a binding or a node's availability, in place on a lent table: the row of that key is replaced, or one is added at its place.
// An operation answers how many rows there are now, or why it is refused and nothing is changed. After crates/prom-ui/src/local_projection_state.rs.
#![tactic(auto)]

ghost use Rattle.std.specs.Prelude.{OnErr, ◌≡◌, List, ℕ, ◌*◌, ◌<◌, length};
ghost use Rattle.spec_patch.specs.Sizes.{projection_availabilities};
ghost use Rattle.spec_patch.specs.Patch.{unsigned};
ghost use Rattle.spec_projection.specs.Projection.{Projection};
ghost use Rattle.spec_projection.specs.Apply.{apply_binding, apply_availability};
ghost use Rattle.spec_projection.specs.Valid.{Valid};
ghost use Rattle.bytes_records.specs.Table.{HoldsRows, Wide};
ghost use Rattle.bytes_records.specs.Search.{upsert_at, PlaceWithin};
ghost use Rattle.projection_patch.specs.Meaning.{availability_value_of};
ghost use Rattle.panel_rows.specs.Rows.{availability_width, availability_row};
ghost use Rattle.local_projection_state.specs.Stores.{Stored};
ghost use Rattle.panel_plan.specs.PlanRows.{PlannedBindings};
ghost use Rattle.panel_bindings.specs.Change.{Became, RowsBecame};

use local_projection_state::LocalProjectionApplicationError;
use projection_patch::patch::ProjectionNodeAvailability;

// Writes row at its place: over the row of its key, or inserted before the one that is there. Answers how many rows there are now.
fn upsert_row(
    table: &mut [u8],
    width: usize,
    count: usize,
    place: Result<usize, usize>,
    row: &[u8],
) -> Result<usize, LocalProjectionApplicationError>
    requires { 0 < width }
    ensures made { (capacity : ℕ) (rows : List (List ℕ)) → length table.old ≡ capacity * width → HoldsRows width count table.old rows
        → Wide width row.now → PlaceWithin count place → RowsBecame width capacity (upsert_at place row.now rows) table.new result }
    ensures kept { OnErr result (table.new ≡ table.old) }
{
    match place {
        Ok(at) => {
            bytes_records::replace_record(table, width, count, at, row);
            Ok(count)
        }
        Err(at) => {
            if bytes_records::insert_record(table, width, count, at, row) {
                return Ok(count + 1);
            }
            Err(LocalProjectionApplicationError::ProjectionFull)
        }
    }
}

// Sets a binding's mark and source in a table of planned bindings.
pub fn set_binding_source(
    table: &mut [u8],
    count: usize,
    node: u64,
    slot: u32,
    mark: u64,
    source: u64,
) -> Result<usize, LocalProjectionApplicationError>
    ensures made { (p : Projection) → PlannedBindings count table.old p.bindings → Valid p
        → Became (λ n q. PlannedBindings n table.new q.bindings) result
        (apply_binding p (record { node = node; slot = slot; mark = mark; value = unsigned source })) }
    ensures kept { OnErr result (table.new ≡ table.old) }
{
    let width = panel_plan::BINDING_WIDTH;
    let row = panel_plan::binding_row(node, slot, mark, source);
    let place = bytes_records::find_pair_place(
        table,
        width,
        count,
        node,
        panel_rows::SLOT_WIDTH,
        slot as u64,
    );
    upsert_row(table, width, count, place, &row)
}

// Sets a node's mark and availability in a table of availabilities.
pub fn set_node_availability(
    table: &mut [u8],
    count: usize,
    node: u64,
    mark: u64,
    availability: ProjectionNodeAvailability,
) -> Result<usize, LocalProjectionApplicationError>
    ensures made { (p : Projection) → Stored availability_row availability_width projection_availabilities count table.old p.availabilities → Valid p
        → Became (λ n q. Stored availability_row availability_width projection_availabilities n table.new q.availabilities) result
        (apply_availability p (record { node = node; mark = mark; availability = availability_value_of availability })) }
    ensures kept { OnErr result (table.new ≡ table.old) }
{
    let width = panel_rows::AVAILABILITY_WIDTH;
    let row = panel_rows::availability_row(node, mark, availability);
    let place = bytes_records::find_place(table, width, count, node);
    upsert_row(table, width, count, place, &row)
}
