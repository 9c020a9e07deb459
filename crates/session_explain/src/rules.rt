// The rule that an operation breaks, of one that was refused: 01, 'Projection'. It is told by the keys of the entries as they stood before it.
ghost use Rattle.std.specs.Prelude.{◌≡◌, List, ℕ};
ghost use Rattle.spec_patch.specs.Patch.{Value, insert, move};
ghost use Rattle.spec_projection.specs.Projection.{Projection};
ghost use Rattle.spec_projection.specs.Valid.{Valid};
ghost use Rattle.spec_explain.specs.OperationRule.{rule_of};
ghost use Rattle.projection_patch.specs.Meaning.{before_of, operation_of};
ghost use Rattle.panel_plan.specs.PlanRows.{PlannedEntries};
ghost use Rattle.session_explain.specs.Reasons.{operation_rule_to};

use crate::reasons::OperationRule;
use panel_entries::find;
use projection_patch::contract_primitives::CollectionKey;
use projection_patch::patch::ProjectionPatchOperation;

// Of an insert: the key is there, or the neighbour is not, or else there is no room.
fn insert_rule(
    entries: &[u8],
    count: usize,
    collection: u64,
    key: u64,
    before: Option<CollectionKey>,
) -> OperationRule
    ensures { (p : Projection) (v : Value) → PlannedEntries count entries.now p.entries → Valid p → result ≡ operation_rule_to (rule_of p (insert collection key (before_of before) v)) }
{
    if let Some(_) = find::find_entry(entries, panel_plan::ENTRY_WIDTH, count, collection, key) {
        return OperationRule::KeyPresent;
    }
    match find::place_before(entries, count, collection, before) {
        Some(_) => OperationRule::EntriesFull,
        None => OperationRule::NeighbourAbsent,
    }
}

// Of a move: the key is not there, or else the neighbour is not.
fn move_rule(
    entries: &[u8],
    count: usize,
    collection: u64,
    key: u64,
    before: Option<CollectionKey>,
) -> OperationRule
    ensures { (p : Projection) → PlannedEntries count entries.now p.entries → Valid p → result ≡ operation_rule_to (rule_of p (move collection key (before_of before))) }
{
    match find::find_entry(entries, panel_plan::ENTRY_WIDTH, count, collection, key) {
        Some(_) => OperationRule::NeighbourAbsent,
        None => OperationRule::KeyAbsent,
    }
}

// By the planned entries, of which there are so many.
pub fn rule_of(entries: &[u8], count: usize, operation: ProjectionPatchOperation) -> OperationRule
    ensures { (p : Projection) (texts : List ℕ) → PlannedEntries count entries.now p.entries → Valid p → result ≡ operation_rule_to (rule_of p (operation_of texts operation)) }
{
    match operation {
        ProjectionPatchOperation::SetBindingValue { .. } => OperationRule::BindingsFull,
        ProjectionPatchOperation::SetNodeAvailability { .. } => OperationRule::AvailabilitiesFull,
        ProjectionPatchOperation::CollectionInsert {
            collection,
            key,
            before,
            value: _,
        } => insert_rule(entries, count, collection.raw(), key.raw(), before),
        ProjectionPatchOperation::CollectionUpdate { .. } => OperationRule::KeyAbsent,
        ProjectionPatchOperation::CollectionRemove { .. } => OperationRule::KeyAbsent,
        ProjectionPatchOperation::CollectionMove {
            collection,
            key,
            before,
        } => move_rule(entries, count, collection.raw(), key.raw(), before),
    }
}
