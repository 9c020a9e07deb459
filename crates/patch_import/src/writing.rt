// The pass that writes, by the writers of heading, head and operations. The lines are known to fit.
ghost use Rattle.std.specs.Prelude.{◌≡◌, ◌+◌, length};
ghost use Rattle.spec_patch.specs.Encode.{encode};
ghost use Rattle.bytes_wire.specs.Write.{overwrite};
ghost use Rattle.projection_patch.specs.Meaning.{edition_of, envelope_of};
ghost use Rattle.patch_part_writer.specs.Extent.{head_size};
ghost use Rattle.spec_import.specs.Import.{set_of};
ghost use Rattle.patch_import.specs.Survey.{held_of, insert_bytes, Writable};

use crate::insertion::insertion;
use patch_part_writer::extent::{HEADING_BYTES, head_size, operation_size};
use patch_part_writer::head::{store_head, store_heading};
use patch_part_writer::operation::store_operation;
use projection_patch::patch::{ProjectionPatch, ProjectionPatchEdition};

// The operations of the lines, from an index on.
fn write_lines(list: &[u8], collection: u64, out: &mut [u8], from: usize)
    requires { Writable collection list.now from (length out.old) }
    ensures { out.new ≡ overwrite out.old from (insert_bytes collection (held_of list.now)) }
{
    let mut at = 0;
    let mut next = from;
    // By position and not by split: an operation holds the place of its text in the list.
    while at < list.len() {
        let line = patch_terms::reread_line(list, at);
        let operation = insertion(collection, line.key, line.start, line.len);
        store_operation(out, next, operation, list);
        next += operation_size(operation);
        at = line.next;
    }
}

// The set of one patch, from the start of the output on.
pub fn write_patch(
    list: &[u8],
    edition: ProjectionPatchEdition,
    collection: u64,
    patch: ProjectionPatch,
    out: &mut [u8],
)
    requires { Writable collection list.now (35 + head_size patch) (length out.old) × (patch.operation_count ≡ length (held_of list.now)) }
    ensures { out.new ≡ overwrite out.old 0 (encode (edition_of edition) (set_of collection (envelope_of patch.envelope) (held_of list.now))) }
{
    store_heading(out, 0, 1, edition);
    store_head(out, HEADING_BYTES, patch);
    write_lines(list, collection, out, HEADING_BYTES + head_size(patch));
}
