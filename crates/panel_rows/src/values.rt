// Values read out of stored rows, with every field that a value does not have set to zero.
ghost use Rattle.std.specs.Prelude.{◌≡◌, ◌+◌, ◌≤◌, length, take, drop};
ghost use Rattle.spec_patch.specs.Sizes.{text_bytes};
ghost use Rattle.spec_patch.specs.Patch as model;
ghost use Rattle.spec_patch.specs.Fits.{Storable};
ghost use Rattle.patch_part_writer.specs.Extent.{value_text, WithinTexts};
ghost use Rattle.projection_patch.specs.Meaning.{value_of};
ghost use Rattle.panel_rows.specs.Rows.{padded};
ghost use Rattle.panel_rows.specs.Lookup.{no_value, found_with, found_value};

use patch_part_writer::fields;
use projection_patch::patch::{ProjectionPatchEdition, ProjectionPatchValue};
use projection_patch::read_values;

// A value with its mark, the id of the patch that last gave it, or none. These are the fields of the C interface's record, with a flag and a number
// for the kind, and every field that a value does not have is zero there: no Option, and no enum of values. The kind is that of canonical bytes: 1 quad,
// 2 signed, 3 text, 4 unsigned, 5 score, whose number stands in unsigned.
#[derive(Clone, Copy)]
pub struct ValueLookup {
    pub found: bool,
    pub mark: u64,
    pub kind: u8,
    pub quad: u8,
    pub signed: i64,
    pub unsigned: u64,
    pub text_len: usize,
    pub text: [u8; ProjectionPatchValue::TEXT_BYTES],
}

// A node's availability as its canonical byte, with its mark, or none.
#[derive(Clone, Copy)]
pub struct AvailabilityLookup {
    pub found: bool,
    pub mark: u64,
    pub availability: u8,
}

pub fn no_value() -> ValueLookup
    ensures { result ≡ no_value }
{
    ValueLookup {
        found: false,
        mark: 0,
        kind: 0,
        quad: 0,
        signed: 0,
        unsigned: 0,
        text_len: 0,
        text: [0u8; ProjectionPatchValue::TEXT_BYTES],
    }
}

// A value of that mark whose kind is still to be set.
fn found(mark: u64) -> ValueLookup
    ensures { result ≡ found_with mark }
{
    ValueLookup {
        found: true,
        mark,
        ..no_value()
    }
}

// The text of len bytes from start on.
fn text_value(row: &[u8], mark: u64, start: usize, len: usize) -> ValueLookup
    ensures { start + len ≤ length row.now → len ≤ text_bytes → result ≡ found_value mark (model.text (take len (drop start row.now))) }
{
    if ProjectionPatchValue::TEXT_BYTES < len || row.len() < len || row.len() - len < start {
        return no_value();
    }
    let mut text = [0u8; ProjectionPatchValue::TEXT_BYTES];
    bytes_records::moves::copy(read_values::text_of(row, start, start + len), &mut text);
    ValueLookup {
        kind: 3,
        text_len: len,
        text,
        ..found(mark)
    }
}

// A value whose text, if it is one, stands in row.
fn value_lookup(row: &[u8], mark: u64, value: ProjectionPatchValue) -> ValueLookup
    ensures { WithinTexts row.now (value_text value) → result ≡ found_value mark (value_of row.now value) }
{
    match value {
        ProjectionPatchValue::Quad(state) => ValueLookup {
            kind: 1,
            quad: fields::quad_byte(state),
            ..found(mark)
        },
        ProjectionPatchValue::SignedScalar(signed) => ValueLookup {
            kind: 2,
            signed,
            ..found(mark)
        },
        ProjectionPatchValue::UnsignedScalar(unsigned) => ValueLookup {
            kind: 4,
            unsigned,
            ..found(mark)
        },
        ProjectionPatchValue::Text { start, len } => text_value(row, mark, start, len),
        ProjectionPatchValue::Score(score) => ValueLookup {
            kind: 5,
            unsigned: u64::from(score),
            ..found(mark)
        },
    }
}

// The value that is stored in a row from index at on, told with a mark. The second edition has every kind.
pub fn stored_value(row: &[u8], at: usize, mark: u64) -> ValueLookup
    ensures { (v : model.Value) → Storable v → drop at row.now ≡ padded v → result ≡ found_value mark v }
{
    match read_values::value_at(row, at, false, ProjectionPatchEdition::V2) {
        Ok((value, _)) => value_lookup(row, mark, value),
        Err(_) => no_value(),
    }
}
