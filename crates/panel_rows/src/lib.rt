// The rows of a projection's tables: where each field stands, and how a row is made and taken apart.
#![tactic(auto)]

pub mod fields;
pub mod values;
pub mod written;

ghost use Rattle.std.specs.Prelude.{◌≡◌};
ghost use Rattle.projection_patch.specs.Meaning.{availability_value_of};
ghost use Rattle.spec_lengths.specs.Lengths.{length_record};
ghost use Rattle.panel_rows.specs.Rows.{availability_row, length_row};

use patch_part_writer::fields as operation_fields;
use projection_patch::patch::{ProjectionNodeAvailability, ProjectionPatchValue};

// A node's, a collection's or a key's id, and a slot.
pub const ID_WIDTH: usize = 8;

pub const SLOT_WIDTH: usize = 4;

// A mark: the id of the patch that last gave the value.
pub const MARK_WIDTH: usize = 8;

// A value's canonical bytes: a kind, a length and the longest text.
pub const VALUE_WIDTH: usize = 5 + ProjectionPatchValue::TEXT_BYTES;

// A binding: a node, a slot, a mark and a value.
pub const BINDING_SLOT: usize = ID_WIDTH;

pub const BINDING_MARK: usize = BINDING_SLOT + SLOT_WIDTH;

pub const BINDING_VALUE: usize = BINDING_MARK + MARK_WIDTH;

pub const BINDING_WIDTH: usize = BINDING_VALUE + VALUE_WIDTH;

// An availability: a node, a mark and a byte.
pub const AVAILABILITY_MARK: usize = ID_WIDTH;

pub const AVAILABILITY: usize = AVAILABILITY_MARK + MARK_WIDTH;

pub const AVAILABILITY_WIDTH: usize = AVAILABILITY + 1;

// An entry: a collection, a key, a mark and a value.
pub const ENTRY_KEY: usize = ID_WIDTH;

pub const ENTRY_MARK: usize = ENTRY_KEY + ID_WIDTH;

pub const ENTRY_VALUE: usize = ENTRY_MARK + MARK_WIDTH;

pub const ENTRY_WIDTH: usize = ENTRY_VALUE + VALUE_WIDTH;

// A number of entries.
pub const COUNT_WIDTH: usize = 8;

// A length: a collection and its number of entries.
pub const LENGTH: usize = ID_WIDTH;

pub const LENGTH_WIDTH: usize = LENGTH + COUNT_WIDTH;

pub fn availability_row(
    node: u64,
    mark: u64,
    availability: ProjectionNodeAvailability,
) -> [u8; AVAILABILITY_WIDTH]
    ensures { result ≡ availability_row (record { node = node; mark = mark; availability = availability_value_of availability }) }
{
    let mut row = [0u8; AVAILABILITY_WIDTH];
    bytes_wire::write_u64_at(&mut row, 0, node);
    bytes_wire::write_u64_at(&mut row, AVAILABILITY_MARK, mark);
    bytes_wire::write_u8_at(
        &mut row,
        AVAILABILITY,
        operation_fields::availability_byte(availability),
    );
    row
}

pub fn length_row(collection: u64, length: u64) -> [u8; LENGTH_WIDTH]
    ensures { result ≡ length_row (length_record collection length) }
{
    let mut row = [0u8; LENGTH_WIDTH];
    bytes_wire::write_u64_at(&mut row, 0, collection);
    bytes_wire::write_u64_at(&mut row, LENGTH, length);
    row
}
