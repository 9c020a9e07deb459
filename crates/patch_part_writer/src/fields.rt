// The fields of an operation and of a head, each stored from an index on where there is room for it.
ghost use Rattle.std.specs.Prelude.{◌≡◌, [], ◌∷◌, ◌++◌, ◌+◌, ◌≤◌, length, take, drop};
ghost use Rattle.std.specs.Int.{w64};
ghost use Rattle.std.proofs.Common.{of_z};
ghost use Rattle.spec_patch.specs.Sizes.{text_bytes};
ghost use Rattle.spec_patch.specs.Encode.{u32, u64, encode_optional, encode_value, quad_byte, availability_byte};
ghost use Rattle.bytes_wire.specs.Write.{overwrite};
ghost use Rattle.projection_patch.specs.Widths.{tagged_bytes, past_key};
ghost use Rattle.projection_patch.specs.Meaning.{before_of, quad_of, availability_value_of, value_of};
ghost use Rattle.patch_part_writer.specs.Extent.{before_size, value_size, value_text, WithinTexts};

use projection_patch::contract_primitives::CollectionKey;
use projection_patch::patch::{
    ProjectionNodeAvailability, ProjectionPatchValue, ProjectionQuadState,
};
use projection_patch::{read_values, widths};

fn store_two(out: &mut [u8], at: usize, a: u8, b: u8)
    requires { at + 2 ≤ length out.old }
    ensures { out.new ≡ overwrite out.old at (a ∷ b ∷ []) }
{
    bytes_wire::write_u8_at(out, at, a);
    bytes_wire::write_u8_at(out, at + 1, b);
}

// A tag and a u64 behind it.
pub fn store_tagged(out: &mut [u8], at: usize, tag: u8, x: u64)
    requires { at + tagged_bytes ≤ length out.old }
    ensures { out.new ≡ overwrite out.old at (tag ∷ u64 x) }
{
    bytes_wire::write_u8_at(out, at, tag);
    bytes_wire::write_u64_at(out, at + widths::TAG, x);
}

// A tag and an i64 behind it.
fn store_signed(out: &mut [u8], at: usize, tag: u8, z: i64)
    requires { at + tagged_bytes ≤ length out.old }
    ensures { out.new ≡ overwrite out.old at (tag ∷ u64 (of_z w64 z)) }
{
    bytes_wire::write_u8_at(out, at, tag);
    bytes_wire::write_i64_at(out, at + widths::TAG, z);
}

// A tag, a collection and a key.
pub fn store_entry(out: &mut [u8], at: usize, tag: u8, collection: u64, key: u64)
    requires { at + past_key ≤ length out.old }
    ensures { out.new ≡ overwrite out.old at (tag ∷ u64 collection ++ u64 key) }
{
    store_tagged(out, at, tag, collection);
    bytes_wire::write_u64_at(out, at + widths::TAGGED, key);
}

// A tag, the length and the len bytes from start on.
fn store_text(out: &mut [u8], at: usize, texts: &[u8], start: usize, len: usize)
    requires { (at + (5 + len) ≤ length out.old) × (start + len ≤ length texts.now) × (len ≤ text_bytes) }
    ensures { out.new ≡ overwrite out.old at (3 ∷ u32 len ++ take len (drop start texts.now)) }
{
    bytes_wire::write_u8_at(out, at, 3);
    bytes_wire::write_u32_at(out, at + 1, len as u32);
    bytes_wire::write_bytes_at(out, at + 5, read_values::text_of(texts, start, start + len));
}

pub fn store_before(out: &mut [u8], at: usize, before: Option<CollectionKey>)
    requires { at + before_size before ≤ length out.old }
    ensures { out.new ≡ overwrite out.old at (encode_optional (before_of before)) }
{
    match before {
        None => {
            bytes_wire::write_u8_at(out, at, 0);
        }
        Some(key) => store_tagged(out, at, 1, key.raw()),
    }
}

#[tactic(auto, unfolding(spec_patch::specs::Encode::quad_byte))]
pub fn quad_byte(state: ProjectionQuadState) -> u8
    ensures { result ≡ quad_byte (quad_of state) }
{
    match state {
        ProjectionQuadState::N => 0,
        ProjectionQuadState::F => 1,
        ProjectionQuadState::T => 2,
        ProjectionQuadState::S => 3,
    }
}

#[tactic(auto, unfolding(spec_patch::specs::Encode::availability_byte))]
pub fn availability_byte(availability: ProjectionNodeAvailability) -> u8
    ensures { result ≡ availability_byte (availability_value_of availability) }
{
    match availability {
        ProjectionNodeAvailability::Available => 0,
        ProjectionNodeAvailability::Unavailable => 1,
        ProjectionNodeAvailability::Hidden => 2,
        ProjectionNodeAvailability::Pending => 3,
        ProjectionNodeAvailability::Stale => 4,
    }
}

#[tactic(auto, unfolding(spec_patch::specs::Encode::encode_value, spec_patch::specs::Encode::kind_of, spec_patch::specs::Encode::value_body, spec_patch::specs::Encode::encode_text))]
pub fn store_value(out: &mut [u8], at: usize, value: ProjectionPatchValue, texts: &[u8])
    requires { (at + value_size value ≤ length out.old) × WithinTexts texts.now (value_text value) }
    ensures { out.new ≡ overwrite out.old at (encode_value (value_of texts.now value)) }
{
    match value {
        ProjectionPatchValue::Quad(state) => store_two(out, at, 1, quad_byte(state)),
        ProjectionPatchValue::SignedScalar(z) => store_signed(out, at, 2, z),
        ProjectionPatchValue::UnsignedScalar(x) => store_tagged(out, at, 4, x),
        ProjectionPatchValue::Text { start, len } => store_text(out, at, texts, start, len),
        ProjectionPatchValue::Score(score) => store_two(out, at, 5, score),
    }
}
