// An operation, stored from an index on where there is room for it.
ghost use Rattle.std.specs.Prelude.{◌≡◌, [], ◌∷◌, ◌++◌, ◌+◌, ◌≤◌, length};
ghost use Rattle.spec_patch.specs.Encode.{u32, u64, encode_optional, encode_value, encode_operation};
ghost use Rattle.bytes_wire.specs.Write.{overwrite};
ghost use Rattle.projection_patch.specs.Widths.{past_slot, past_key};
ghost use Rattle.projection_patch.specs.Meaning.{before_of, value_of, operation_of};
ghost use Rattle.patch_part_writer.specs.Extent.{before_size, value_size, operation_size, value_text, operation_text, WithinTexts};

use crate::extent::before_size;
use crate::fields::{availability_byte, store_before, store_entry, store_tagged, store_value};
use projection_patch::binding_graph::BindingTarget;
use projection_patch::contract_primitives::{CollectionKey, StaticNodeId};
use projection_patch::patch::{ProjectionPatchOperation, ProjectionPatchValue};
use projection_patch::widths;

fn store_binding(
    out: &mut [u8],
    at: usize,
    target: BindingTarget,
    value: ProjectionPatchValue,
    texts: &[u8],
)
    requires { (at + (past_slot + value_size value) ≤ length out.old) × WithinTexts texts.now (value_text value) }
    ensures { out.new ≡ overwrite out.old at (1 ∷ u64 target.node.0 ++ (u32 target.slot.0 ++ encode_value (value_of texts.now value))) }
{
    let node = target.node;
    let slot = target.slot;
    store_tagged(out, at, 1, node.raw());
    bytes_wire::write_u32_at(out, at + widths::TAGGED, slot.0);
    store_value(out, at + widths::PAST_SLOT, value, texts);
}

fn store_availability(out: &mut [u8], at: usize, node: StaticNodeId, byte: u8)
    requires { at + 10 ≤ length out.old }
    ensures { out.new ≡ overwrite out.old at (2 ∷ u64 node.0 ++ (byte ∷ [])) }
{
    store_tagged(out, at, 2, node.raw());
    bytes_wire::write_u8_at(out, at + widths::TAGGED, byte);
}

fn store_insert(
    out: &mut [u8],
    at: usize,
    collection: u64,
    key: u64,
    before: Option<CollectionKey>,
    value: ProjectionPatchValue,
    texts: &[u8],
)
    requires { (at + (past_key + (before_size before + value_size value)) ≤ length out.old) × WithinTexts texts.now (value_text value) }
    ensures { out.new ≡ overwrite out.old at (3 ∷ u64 collection ++ (u64 key ++ (encode_optional (before_of before) ++ encode_value (value_of texts.now value)))) }
{
    store_entry(out, at, 3, collection, key);
    store_before(out, at + widths::PAST_KEY, before);
    store_value(
        out,
        at + widths::PAST_KEY + before_size(before),
        value,
        texts,
    );
}

fn store_update(
    out: &mut [u8],
    at: usize,
    collection: u64,
    key: u64,
    value: ProjectionPatchValue,
    texts: &[u8],
)
    requires { (at + (past_key + value_size value) ≤ length out.old) × WithinTexts texts.now (value_text value) }
    ensures { out.new ≡ overwrite out.old at (4 ∷ u64 collection ++ (u64 key ++ encode_value (value_of texts.now value))) }
{
    store_entry(out, at, 4, collection, key);
    store_value(out, at + widths::PAST_KEY, value, texts);
}

fn store_move(out: &mut [u8], at: usize, collection: u64, key: u64, before: Option<CollectionKey>)
    requires { at + (past_key + before_size before) ≤ length out.old }
    ensures { out.new ≡ overwrite out.old at (6 ∷ u64 collection ++ (u64 key ++ encode_optional (before_of before))) }
{
    store_entry(out, at, 6, collection, key);
    store_before(out, at + widths::PAST_KEY, before);
}

// Whether RFC 3629 allows the text is tested before, once for the whole list.
#[tactic(auto, unfolding(spec_patch::specs::Encode::encode_operation))]
pub fn store_operation(out: &mut [u8], at: usize, operation: ProjectionPatchOperation, texts: &[u8])
    requires { (at + operation_size operation ≤ length out.old) × WithinTexts texts.now (operation_text operation) }
    ensures { out.new ≡ overwrite out.old at (encode_operation (operation_of texts.now operation)) }
{
    match operation {
        ProjectionPatchOperation::SetBindingValue { target, value } => store_binding(
            out, at, target, value, texts,
        ),
        ProjectionPatchOperation::SetNodeAvailability { node, availability } => {
            store_availability(out, at, node, availability_byte(availability))
        }
        ProjectionPatchOperation::CollectionInsert {
            collection,
            key,
            before,
            value,
        } => { store_insert(out, at, collection.raw(), key.raw(), before, value, texts) }
        ProjectionPatchOperation::CollectionUpdate {
            collection,
            key,
            value,
        } => { store_update(out, at, collection.raw(), key.raw(), value, texts) }
        ProjectionPatchOperation::CollectionRemove { collection, key } => {
            store_entry(out, at, 5, collection.raw(), key.raw())
        }
        ProjectionPatchOperation::CollectionMove {
            collection,
            key,
            before,
        } => { store_move(out, at, collection.raw(), key.raw(), before) }
    }
}
