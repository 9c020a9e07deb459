// Writing of a whole patch list. The list is surveyed first, so that a refusal leaves the output as it was.
ghost use Rattle.std.specs.Prelude.{◌≡◌, ℕ, ◌+◌, length, take};
ghost use mathlib.Core.List.{flat_map};
ghost use Rattle.spec_patch.specs.Encode.{encode_patch};
ghost use Rattle.spec_patch.specs.Read.{patches, read_set};
ghost use Rattle.bytes_wire.specs.Write.{overwrite};
ghost use Rattle.projection_patch.specs.Meaning.{edition_of};
ghost use Rattle.patch_part_writer.specs.Answer.{written_at, output_at};
ghost use Rattle.patch_writer.specs.Set.{list_from, list_of, patch_set_bytes};
ghost use Rattle.patch_writer.specs.Survey.{operation_bytes, OperationsReady, ReadyToWrite};

use crate::survey::survey_set;
use patch_part_writer::extent::{HEADING_BYTES, head_size, operation_size};
use patch_part_writer::head::{store_head, store_heading};
use patch_part_writer::operation::store_operation;
use patch_part_writer::written::WriteRefusal;
use projection_patch::patch::{
    OperationPlace, ProjectionPatch, ProjectionPatchEdition, ProjectionPatchSet,
};

// Writes operations one behind the other. Gives the position behind them.
fn write_operations(places: &[OperationPlace], texts: &[u8], out: &mut [u8], at: usize) -> usize
    requires { OperationsReady texts.now places.now (length out.old) at }
    ensures value { result ≡ at + length (operation_bytes texts.now places.now) }
    ensures out_after { out.new ≡ overwrite out.old at (operation_bytes texts.now places.now) }
{
    let mut next = at;
    for place in places {
        let operation = place.operation;
        store_operation(out, next, operation, texts);
        next += operation_size(operation);
    }
    next
}

// Writes each head with its operations behind it. Gives the position behind the list.
fn write_patches(
    heads: &[ProjectionPatch],
    places: &[OperationPlace],
    texts: &[u8],
    out: &mut [u8],
    at: usize,
) -> usize
    requires { ReadyToWrite texts.now heads.now places.now (length out.old) at }
    ensures value { result ≡ at + length (flat_map encode_patch (list_from texts.now heads.now places.now)) }
    ensures out_after { out.new ≡ overwrite out.old at (flat_map encode_patch (list_from texts.now heads.now places.now)) }
{
    let mut next = at;
    let mut rest = places;
    for head in heads {
        store_head(out, next, *head);
        let (own, others) = rest.split_at(head.operation_count);
        next = write_operations(own, texts, out, next + head_size(*head));
        rest = others;
    }
    next
}

// Writes a patch list from the start of the output on: 12 for any capacity, then 10 for a text that RFC 3629 forbids or that is not within the
// texts and for a score that is too high or not the edition's, then 12 for a text with too many characters, then 14. A refusal leaves every byte
// of the output as it was, and what is behind the list stays.
// What was written is read back as the same list.
pub fn write_patch_set(
    set: ProjectionPatchSet,
    texts: &[u8],
    edition: ProjectionPatchEdition,
    out: &mut [u8],
) -> Result<usize, WriteRefusal>
    ensures value { result ≡ written_at out.old 0 (patch_set_bytes (edition_of edition) texts.now set) }
    ensures out_after { out.new ≡ output_at out.old 0 (patch_set_bytes (edition_of edition) texts.now set) }
    ensures by_index { (n : ℕ) → result ≡ Ok n → read_set (edition_of edition) (take n out.new) ≡ patches (list_of texts.now set) }
{
    let (operations, bytes) = survey_set(set, texts, edition)?;
    if out.len() < bytes {
        return Err(WriteRefusal::OutputTooShort);
    }
    store_heading(out, 0, set.patch_count, edition);
    let heads = &set.patches[..set.patch_count];
    let places = &set.operations[..operations];
    Ok(write_patches(heads, places, texts, out, HEADING_BYTES))
}
