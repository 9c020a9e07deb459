// A set's heading and a patch's head, each stored from an index on where there is room for it.
ghost use Rattle.std.specs.Prelude.{◌≡◌, ◌++◌, ◌+◌, ◌≤◌, length};
ghost use Rattle.spec_patch.specs.Sizes.{set_patches, patch_operations};
ghost use Rattle.spec_patch.specs.Edition.{edition_digit};
ghost use Rattle.spec_patch.specs.Encode.{u32, u64, encode_optional, encode_envelope, heading};
ghost use Rattle.bytes_wire.specs.Write.{overwrite};
ghost use Rattle.projection_patch.specs.Widths.{three_ids};
ghost use Rattle.projection_patch.specs.Meaning.{edition_of, surface_of, envelope_of};
ghost use Rattle.patch_part_writer.specs.Extent.{surface_size, head_size};

use crate::extent::surface_size;
use crate::fields::store_tagged;
use projection_patch::contract_primitives::StaticSurfaceId;
use projection_patch::patch::{ProjectionPatch, ProjectionPatchEdition, ProjectionPatchEnvelope};
use projection_patch::widths;

// Where the edition's digit stands in a set.
pub const DIGIT_AT: usize = 30;

// The last letter of the heading.
#[tactic(auto, unfolding(spec_patch::specs::Edition::edition_digit))]
pub fn edition_digit(edition: ProjectionPatchEdition) -> u8
    ensures { result ≡ edition_digit (edition_of edition) }
{
    match edition {
        ProjectionPatchEdition::V1 => 49,
        ProjectionPatchEdition::V2 => 50,
    }
}

// The heading and the patch count.
pub fn store_heading(out: &mut [u8], at: usize, patch_count: usize, edition: ProjectionPatchEdition)
    requires { (at + 35 ≤ length out.old) × (patch_count ≤ set_patches) }
    ensures { out.new ≡ overwrite out.old at (heading (edition_of edition) ++ u32 patch_count) }
{
    bytes_wire::write_u32_at(out, at, 27);
    bytes_wire::write_bytes_at(out, at + 4, b"UI_DNA2_PROJECTION_PATCH_V");
    bytes_wire::write_u8_at(out, at + DIGIT_AT, edition_digit(edition));
    bytes_wire::write_u32_at(out, at + 31, patch_count as u32);
}

fn store_surface(out: &mut [u8], at: usize, surface: Option<StaticSurfaceId>)
    requires { at + surface_size surface ≤ length out.old }
    ensures { out.new ≡ overwrite out.old at (encode_optional (surface_of surface)) }
{
    match surface {
        None => {
            bytes_wire::write_u8_at(out, at, 0);
        }
        Some(id) => store_tagged(out, at, 1, id.raw()),
    }
}

fn store_three(out: &mut [u8], at: usize, a: u64, b: u64, c: u64)
    requires { at + three_ids ≤ length out.old }
    ensures { out.new ≡ overwrite out.old at (u64 a ++ (u64 b ++ u64 c)) }
{
    bytes_wire::write_u64_at(out, at, a);
    bytes_wire::write_u64_at(out, at + widths::ID, b);
    bytes_wire::write_u64_at(out, at + widths::TWO_IDS, c);
}

// The numbers behind the surface, and the operation count.
fn store_behind_surface(
    out: &mut [u8],
    at: usize,
    envelope: ProjectionPatchEnvelope,
    operation_count: usize,
)
    requires { (at + 36 ≤ length out.old) × (operation_count ≤ patch_operations) }
    ensures { out.new ≡ overwrite out.old at (u64 envelope.previous_projection_revision.0 ++ (u64 envelope.projection_revision.0 ++ u64 envelope.epoch.0) ++ u64 envelope.sequence.0 ++ u32 operation_count) }
{
    let previous = envelope.previous_projection_revision;
    let revision = envelope.projection_revision;
    let epoch = envelope.epoch;
    let sequence = envelope.sequence;
    store_three(out, at, previous.raw(), revision.raw(), epoch.raw());
    bytes_wire::write_u64_at(out, at + widths::THREE_IDS, sequence.raw());
    bytes_wire::write_u32_at(out, at + 32, operation_count as u32);
}

// The envelope and the operation count.
pub fn store_head(out: &mut [u8], at: usize, patch: ProjectionPatch)
    requires { (at + head_size patch ≤ length out.old) × (patch.operation_count ≤ patch_operations) }
    ensures { out.new ≡ overwrite out.old at (encode_envelope (envelope_of patch.envelope) ++ u32 patch.operation_count) }
{
    let envelope = patch.envelope;
    let id = envelope.patch_id;
    let stream = envelope.stream_id;
    let document = envelope.document_id;
    let surface = envelope.surface_id;
    store_three(out, at, id.raw(), stream.raw(), document.raw());
    store_surface(out, at + widths::THREE_IDS, surface);
    let count = patch.operation_count;
    store_behind_surface(
        out,
        at + widths::THREE_IDS + surface_size(surface),
        envelope,
        count,
    );
}
