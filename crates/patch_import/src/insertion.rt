// The operation of a line.
ghost use Rattle.std.specs.Prelude.{◌≡◌};
ghost use Rattle.patch_import.specs.Survey.{insertion_of};

use projection_patch::contract_primitives::{CollectionKey, StaticNodeId};
use projection_patch::patch::{ProjectionPatchOperation, ProjectionPatchValue};

// An insert of the text that stands at a place of the list, before no neighbour.
pub fn insertion(collection: u64, key: u64, start: usize, len: usize) -> ProjectionPatchOperation
    ensures { result ≡ insertion_of collection key start len }
{
    let own = CollectionKey::new(key);
    ProjectionPatchOperation::CollectionInsert {
        collection: StaticNodeId::new(collection),
        key: own,
        before: None,
        value: ProjectionPatchValue::Text { start, len },
    }
}
