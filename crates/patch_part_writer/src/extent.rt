// How many bytes an operation and a patch's head take, and where an operation's text stands.
ghost use Rattle.std.specs.Prelude.{◌≡◌, ◌+◌, ◌≤◌};
ghost use Rattle.spec_patch.specs.Sizes.{text_bytes};
ghost use Rattle.patch_part_writer.specs.Extent.{before_size, surface_size, head_size, value_size, operation_size, value_text, operation_text};
ghost use Rattle.patch_part_writer.specs.Parts.{size_within};

use projection_patch::contract_primitives::{CollectionKey, StaticSurfaceId};
use projection_patch::patch::{ProjectionPatch, ProjectionPatchOperation, ProjectionPatchValue};
use projection_patch::widths;

// The bytes of a set's heading with its patch count.
pub const HEADING_BYTES: usize = 35;

// The len bytes from start on, of the texts that are lent beside an operation.
#[derive(Drop)]
pub struct TextPlace {
    pub start: usize,
    pub len: usize,
}

const NO_TEXT: TextPlace = TextPlace { start: 0, len: 0 };

fn value_text(value: ProjectionPatchValue) -> TextPlace
    ensures { result ≡ value_text value }
{
    match value {
        ProjectionPatchValue::Quad(_) => NO_TEXT,
        ProjectionPatchValue::SignedScalar(_) => NO_TEXT,
        ProjectionPatchValue::UnsignedScalar(_) => NO_TEXT,
        ProjectionPatchValue::Text { start, len } => TextPlace { start, len },
        ProjectionPatchValue::Score(_) => NO_TEXT,
    }
}

// Where the operation's text stands; one without a text has the empty text at 0.
pub fn operation_text(operation: ProjectionPatchOperation) -> TextPlace
    ensures { result ≡ operation_text operation }
{
    match operation {
        ProjectionPatchOperation::SetBindingValue { target: _, value } => value_text(value),
        ProjectionPatchOperation::SetNodeAvailability {
            node: _,
            availability: _,
        } => NO_TEXT,
        ProjectionPatchOperation::CollectionInsert {
            collection: _,
            key: _,
            before: _,
            value,
        } => value_text(value),
        ProjectionPatchOperation::CollectionUpdate {
            collection: _,
            key: _,
            value,
        } => value_text(value),
        ProjectionPatchOperation::CollectionRemove {
            collection: _,
            key: _,
        } => NO_TEXT,
        ProjectionPatchOperation::CollectionMove {
            collection: _,
            key: _,
            before: _,
        } => NO_TEXT,
    }
}

pub fn before_size(before: Option<CollectionKey>) -> usize
    ensures { result ≡ before_size before }
{
    match before {
        None => 1,
        Some(_) => widths::TAGGED,
    }
}

fn value_size(value: ProjectionPatchValue) -> usize
    requires { (value_text value).len ≤ text_bytes }
    ensures { result ≡ value_size value }
{
    match value {
        ProjectionPatchValue::Quad(_) => 2,
        ProjectionPatchValue::SignedScalar(_) => widths::TAGGED,
        ProjectionPatchValue::UnsignedScalar(_) => widths::TAGGED,
        ProjectionPatchValue::Text { start: _, len } => 5 + len,
        ProjectionPatchValue::Score(_) => 2,
    }
}

fn kept_size(operation: ProjectionPatchOperation) -> usize
    requires { (operation_text operation).len ≤ text_bytes }
    ensures { result ≡ operation_size operation }
{
    match operation {
        ProjectionPatchOperation::SetBindingValue { target: _, value } => widths::PAST_SLOT
            + value_size(value),
        ProjectionPatchOperation::SetNodeAvailability {
            node: _,
            availability: _,
        } => 10,
        ProjectionPatchOperation::CollectionInsert {
            collection: _,
            key: _,
            before,
            value,
        } => { widths::PAST_KEY + (before_size(before) + value_size(value)) }
        ProjectionPatchOperation::CollectionUpdate {
            collection: _,
            key: _,
            value,
        } => widths::PAST_KEY + value_size(value),
        ProjectionPatchOperation::CollectionRemove {
            collection: _,
            key: _,
        } => widths::PAST_KEY,
        ProjectionPatchOperation::CollectionMove {
            collection: _,
            key: _,
            before,
        } => widths::PAST_KEY + before_size(before),
    }
}

// The bytes that an operation takes; 0 where its text is over its capacity.
#[tactic(auto, unfolding(crate::specs::Parts::size_within))]
pub fn operation_size(operation: ProjectionPatchOperation) -> usize
    ensures { result ≡ size_within operation }
{
    let text = operation_text(operation);
    if ProjectionPatchValue::TEXT_BYTES < text.len {
        return 0;
    }
    kept_size(operation)
}

pub fn surface_size(surface: Option<StaticSurfaceId>) -> usize
    ensures { result ≡ surface_size surface }
{
    match surface {
        None => 1,
        Some(_) => widths::TAGGED,
    }
}

// The bytes that a patch's head takes.
pub fn head_size(patch: ProjectionPatch) -> usize
    ensures { result ≡ head_size patch }
{
    let envelope = patch.envelope;
    let surface_id = envelope.surface_id;
    60 + surface_size(surface_id)
}
