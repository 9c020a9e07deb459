// One operation on the three lent tables of a plan: its value is not looked at, a source stands for it.
// After crates/prom-ui/src/local_projection_state.rs.
#![tactic(auto)]

ghost use Rattle.std.specs.Prelude.{◌≡◌, OnErr};
ghost use Rattle.spec_patch.specs.Edition.{Edition};
ghost use Rattle.spec_patch.specs.Fits.{FitsOperation};
ghost use Rattle.spec_patch.specs.Patch.{unsigned};
ghost use Rattle.spec_projection.specs.Projection.{Projection};
ghost use Rattle.spec_projection.specs.FirstMatch.{find_first};
ghost use Rattle.spec_projection.specs.Entries.{is_entry};
ghost use Rattle.spec_projection.specs.Apply.{apply_binding, apply_availability, apply_insert, apply_update, apply_remove, apply_move, apply_operation};
ghost use Rattle.projection_patch.specs.Meaning.{availability_value_of, before_of};
ghost use Rattle.panel_plan.specs.PlanRows.{StoredPlan};
ghost use Rattle.panel_bindings.specs.Change.{Became};
ghost use Rattle.panel_operations.specs.OperationChange.{planned_operation, BindingsChanged, AvailabilitiesChanged, EntriesChanged};

use local_projection_state::{LocalProjectionApplicationError, ProjectionCounts};
use projection_patch::binding_graph::BindingTarget;
use projection_patch::contract_primitives::{CollectionKey, StaticNodeId};
use projection_patch::patch::{ProjectionNodeAvailability, ProjectionPatchOperation};

fn set_binding(
    table: &mut [u8],
    counts: ProjectionCounts,
    target: BindingTarget,
    patch: u64,
    source: u64,
) -> Result<ProjectionCounts, LocalProjectionApplicationError>
    ensures { BindingsChanged counts table.old table.new
        (λ p. apply_binding p (record { node = target.node.0; slot = target.slot.0; mark = patch; value = unsigned source })) result }
{
    let (node, slot, held) = (target.node, target.slot, counts.bindings);
    let bindings = panel_bindings::set_binding_source(
        table,
        held,
        node.raw(),
        slot.0,
        patch,
        source,
    )?;
    Ok(ProjectionCounts { bindings, ..counts })
}

fn set_availability(
    table: &mut [u8],
    counts: ProjectionCounts,
    node: StaticNodeId,
    patch: u64,
    availability: ProjectionNodeAvailability,
) -> Result<ProjectionCounts, LocalProjectionApplicationError>
    ensures { AvailabilitiesChanged counts table.old table.new
        (λ p. apply_availability p (record { node = node.0; mark = patch; availability = availability_value_of availability })) result }
{
    let held = counts.availabilities;
    let availabilities = panel_bindings::set_node_availability(
        table,
        held,
        node.raw(),
        patch,
        availability,
    )?;
    Ok(ProjectionCounts {
        availabilities,
        ..counts
    })
}

fn insert(
    table: &mut [u8],
    counts: ProjectionCounts,
    collection: StaticNodeId,
    key: CollectionKey,
    before: Option<CollectionKey>,
    patch: u64,
    source: u64,
) -> Result<ProjectionCounts, LocalProjectionApplicationError>
    ensures { EntriesChanged counts table.old table.new
        (λ p. apply_insert p (before_of before) (record { collection = collection.0; key = key.0; mark = patch; value = unsigned source })) result }
{
    let more = panel_entries::insert_entry(
        table,
        counts.entries,
        collection.raw(),
        key.raw(),
        before,
        patch,
        source,
    )?;
    Ok(ProjectionCounts {
        entries: more,
        ..counts
    })
}

fn update(
    table: &mut [u8],
    counts: ProjectionCounts,
    collection: StaticNodeId,
    key: CollectionKey,
    patch: u64,
    source: u64,
) -> Result<ProjectionCounts, LocalProjectionApplicationError>
    ensures { EntriesChanged counts table.old table.new
        (λ p. apply_update p (record { collection = collection.0; key = key.0; mark = patch; value = unsigned source })) result }
{
    let entries = panel_entries::update_entry(
        table,
        counts.entries,
        collection.raw(),
        key.raw(),
        patch,
        source,
    )?;
    Ok(ProjectionCounts { entries, ..counts })
}

fn remove(
    table: &mut [u8],
    counts: ProjectionCounts,
    collection: StaticNodeId,
    key: CollectionKey,
) -> Result<ProjectionCounts, LocalProjectionApplicationError>
    ensures { EntriesChanged counts table.old table.new (λ p. apply_remove p collection.0 key.0) result }
{
    let entries = panel_entries::remove_entry(table, counts.entries, collection.raw(), key.raw())?;
    Ok(ProjectionCounts { entries, ..counts })
}

fn move_before(
    table: &mut [u8],
    counts: ProjectionCounts,
    collection: StaticNodeId,
    key: CollectionKey,
    before: Option<CollectionKey>,
) -> Result<ProjectionCounts, LocalProjectionApplicationError>
    ensures { EntriesChanged counts table.old table.new
        (λ p. apply_move p (before_of before) (find_first (is_entry collection.0 key.0) p.entries)) result }
{
    let entries = panel_entries::move_entry(
        table,
        counts.entries,
        collection.raw(),
        key.raw(),
        before,
    )?;
    Ok(ProjectionCounts { entries, ..counts })
}

// Plans an operation of the patch of that id, with a source for its value. Answers how many rows each table has now. A refusal leaves every
// byte, whatever stands in the tables.
pub fn apply_operation(
    bindings: &mut [u8],
    availability: &mut [u8],
    entries: &mut [u8],
    counts: ProjectionCounts,
    patch: u64,
    operation: ProjectionPatchOperation,
    source: u64,
) -> Result<ProjectionCounts, LocalProjectionApplicationError>
    ensures made { (ed : Edition) (p : Projection) → StoredPlan counts bindings.old availability.old entries.old p
        → FitsOperation ed (planned_operation source operation)
        → Became (λ m q. StoredPlan m bindings.new availability.new entries.new q) result (apply_operation p patch (planned_operation source operation)) }
    ensures kept { OnErr result
        ((bindings.new ≡ bindings.old) × (availability.new ≡ availability.old) × (entries.new ≡ entries.old)) }
{
    match operation {
        ProjectionPatchOperation::SetBindingValue { target, value: _ } => set_binding(
            bindings, counts, target, patch, source,
        ),
        ProjectionPatchOperation::SetNodeAvailability {
            node,
            availability: state,
        } => set_availability(availability, counts, node, patch, state),
        ProjectionPatchOperation::CollectionInsert {
            collection,
            key,
            before,
            value: _,
        } => insert(entries, counts, collection, key, before, patch, source),
        ProjectionPatchOperation::CollectionUpdate {
            collection,
            key,
            value: _,
        } => update(entries, counts, collection, key, patch, source),
        ProjectionPatchOperation::CollectionRemove { collection, key } => remove(
            entries, counts, collection, key,
        ),
        ProjectionPatchOperation::CollectionMove {
            collection,
            key,
            before,
        } => move_before(entries, counts, collection, key, before),
    }
}
