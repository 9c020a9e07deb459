// Reading of operations. An operation is read from the start of a part, which is the set from the operation's own start on; the answer is the
// operation and how many bytes it took. The place of its text counts from the start of the part.
ghost use Rattle.std.specs.Prelude.{◌≡◌, Bool, length, drop};
ghost use Rattle.spec_patch.specs.Edition.{Edition};
ghost use Rattle.spec_patch.specs.Read.{operation_after, read_operation_by, read_operation};
ghost use Rattle.projection_patch.specs.Meaning.{edition_of, before_to};
ghost use Rattle.spec_lists.specs.Options.{optional_of};
ghost use Rattle.projection_patch.specs.ReadAnswers.{operation_answer};

use crate::binding_graph::{BindingSlot, BindingTarget};
use crate::contract_primitives::{CollectionKey, StaticNodeId};
use crate::patch::{ProjectionPatchEdition, ProjectionPatchOperation, ProjectionPatchValue};
use crate::read_values::ProjectionPatchReadFault;
use crate::{read_values, widths};

pub fn key_of(number: Option<u64>) -> Option<CollectionKey>
    ensures { result ≡ before_to (optional_of number) }
{
    number.map(CollectionKey::new)
}

// The same value, made anew from its fields: a copy of all its bytes loads them wider than they were stored, and the processor waits for that.
fn same_value(value: ProjectionPatchValue) -> ProjectionPatchValue
    ensures { result ≡ value }
{
    match value {
        ProjectionPatchValue::Quad(state) => ProjectionPatchValue::Quad(state),
        ProjectionPatchValue::SignedScalar(z) => ProjectionPatchValue::SignedScalar(z),
        ProjectionPatchValue::UnsignedScalar(n) => ProjectionPatchValue::UnsignedScalar(n),
        ProjectionPatchValue::Text { start, len } => ProjectionPatchValue::Text { start, len },
        ProjectionPatchValue::Score(score) => ProjectionPatchValue::Score(score),
    }
}

fn set_binding_value(
    part: &[u8],
    strict: bool,
    edition: ProjectionPatchEdition,
) -> Result<(ProjectionPatchOperation, usize), ProjectionPatchReadFault>
    ensures { result ≡ operation_answer (length part.now) (operation_after strict (edition_of edition) 1 (drop 1 part.now)) }
{
    let (node, at) = read_values::u64_at(part, widths::TAG)?;
    let (slot, at) = read_values::u32_at(part, at)?;
    let (value, end) = read_values::value_at(part, at, strict, edition)?;
    let operation = ProjectionPatchOperation::SetBindingValue {
        target: BindingTarget {
            node: StaticNodeId::new(node),
            slot: BindingSlot(slot),
        },
        value: same_value(value),
    };
    Ok((operation, end))
}

fn set_node_availability(
    part: &[u8],
) -> Result<(ProjectionPatchOperation, usize), ProjectionPatchReadFault>
    ensures { (strict : Bool) (ed : Edition) → result ≡ operation_answer (length part.now) (operation_after strict ed 2 (drop 1 part.now)) }
{
    let (node, at) = read_values::u64_at(part, widths::TAG)?;
    let (availability, end) = read_values::availability_at(part, at)?;
    let operation = ProjectionPatchOperation::SetNodeAvailability {
        node: StaticNodeId::new(node),
        availability,
    };
    Ok((operation, end))
}

fn collection_insert(
    part: &[u8],
    strict: bool,
    edition: ProjectionPatchEdition,
) -> Result<(ProjectionPatchOperation, usize), ProjectionPatchReadFault>
    ensures { result ≡ operation_answer (length part.now) (operation_after strict (edition_of edition) 3 (drop 1 part.now)) }
{
    let ((collection, key), at) = read_values::numbers_at(part, widths::TAG)?;
    let (neighbour, at) = read_values::optional_at(part, at)?;
    let (value, end) = read_values::value_at(part, at, strict, edition)?;
    let operation = ProjectionPatchOperation::CollectionInsert {
        collection: StaticNodeId::new(collection),
        key: CollectionKey::new(key),
        before: key_of(neighbour),
        value: same_value(value),
    };
    Ok((operation, end))
}

fn collection_update(
    part: &[u8],
    strict: bool,
    edition: ProjectionPatchEdition,
) -> Result<(ProjectionPatchOperation, usize), ProjectionPatchReadFault>
    ensures { result ≡ operation_answer (length part.now) (operation_after strict (edition_of edition) 4 (drop 1 part.now)) }
{
    let ((collection, key), at) = read_values::numbers_at(part, widths::TAG)?;
    let (value, end) = read_values::value_at(part, at, strict, edition)?;
    let operation = ProjectionPatchOperation::CollectionUpdate {
        collection: StaticNodeId::new(collection),
        key: CollectionKey::new(key),
        value: same_value(value),
    };
    Ok((operation, end))
}

fn collection_remove(
    part: &[u8],
) -> Result<(ProjectionPatchOperation, usize), ProjectionPatchReadFault>
    ensures { (strict : Bool) (ed : Edition) → result ≡ operation_answer (length part.now) (operation_after strict ed 5 (drop 1 part.now)) }
{
    let ((collection, key), end) = read_values::numbers_at(part, widths::TAG)?;
    let removal = ProjectionPatchOperation::CollectionRemove {
        collection: StaticNodeId::new(collection),
        key: CollectionKey::new(key),
    };
    Ok((removal, end))
}

fn collection_move(
    part: &[u8],
) -> Result<(ProjectionPatchOperation, usize), ProjectionPatchReadFault>
    ensures { (strict : Bool) (ed : Edition) → result ≡ operation_answer (length part.now) (operation_after strict ed 6 (drop 1 part.now)) }
{
    let ((collection, key), at) = read_values::numbers_at(part, widths::TAG)?;
    let (neighbour, end) = read_values::optional_at(part, at)?;
    let operation = ProjectionPatchOperation::CollectionMove {
        collection: StaticNodeId::new(collection),
        key: CollectionKey::new(key),
        before: key_of(neighbour),
    };
    Ok((operation, end))
}

// An operation from the start of a part. Its text, which is its last field, is checked where the reading is strict.
pub fn operation_from(
    part: &[u8],
    strict: bool,
    edition: ProjectionPatchEdition,
) -> Result<(ProjectionPatchOperation, usize), ProjectionPatchReadFault>
    ensures { result ≡ operation_answer (length part.now) (read_operation_by strict (edition_of edition) part.now) }
{
    let (tag, _) = read_values::byte_at(part, 0)?;
    match tag {
        1 => set_binding_value(part, strict, edition),
        2 => set_node_availability(part),
        3 => collection_insert(part, strict, edition),
        4 => collection_update(part, strict, edition),
        5 => collection_remove(part),
        6 => collection_move(part),
        _ => Err(ProjectionPatchReadFault::Malformed),
    }
}

// Reads an operation from the start of a part.
pub fn read_operation(
    part: &[u8],
    edition: ProjectionPatchEdition,
) -> Result<(ProjectionPatchOperation, usize), ProjectionPatchReadFault>
    ensures { result ≡ operation_answer (length part.now) (read_operation (edition_of edition) part.now) }
{
    operation_from(part, true, edition)
}
