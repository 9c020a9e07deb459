// The fields of a line that brings in a term list: its room and its collection, the numbers of the patch, of which the surface may be missing, and the list in hex.
ghost use Rattle.std.specs.Prelude.{◌≡◌, List, ℕ};
ghost use Rattle.spec_replay.specs.Lines.{space};
ghost use Rattle.spec_replay.specs.Script.{import_arguments};
ghost use Rattle.projection_patch.specs.Meaning.{surface_of};
ghost use Rattle.script_parser.specs.Fields.{fields_after};
ghost use Rattle.script_parser.specs.Meaning.{set_from, script_command_of, asked_of};
ghost use Rattle.script_parser.specs.Imports.{SurfaceAfter, import_made, behind_surface, behind_room};

use crate::fields::{NumberFields, SPACE};
use crate::{ImportLine, ScriptCommand, SetLine, fields};
use projection_patch::contract_primitives::{Epoch, Revision, StaticDocumentId, StaticSurfaceId};
use projection_patch::patch::{
    ProjectionPatchEnvelope, ProjectionPatchId, ProjectionPatchSequence, ProjectionPatchStreamId,
};

// The surface behind the field that ends at index end, a number, or a dash for none, and where its own field ends; None for any other field, or
// none.
fn surface_after(line: &[u8], end: usize) -> Option<(Option<StaticSurfaceId>, usize)>
    ensures { SurfaceAfter line.now end result }
{
    if line.len() <= end {
        return None;
    }
    let from = end + 1;
    let to = fields::field_end(line, from, SPACE);
    let field = &line[from..to];
    if fields::is_word(field, b"-") {
        return Some((None, to));
    }
    let n = bytes_decimal::read_u64(field)?;
    Some((Some(StaticSurfaceId::new(n)), to))
}

// The command of all fields: of the first numbers the collection, the patch's id, its stream and its document; of the last ones its revisions, epoch and sequence.
fn import_command(
    room: u16,
    front: [u64; NumberFields::MOST],
    surface: Option<StaticSurfaceId>,
    back: [u64; NumberFields::MOST],
    from: usize,
) -> ScriptCommand
    ensures { (line : List ℕ) → script_command_of line result ≡ set_from line from (import_made room front (surface_of surface) back) }
{
    let envelope = ProjectionPatchEnvelope {
        patch_id: ProjectionPatchId::new(front[1]),
        stream_id: ProjectionPatchStreamId::new(front[2]),
        document_id: StaticDocumentId::new(front[3]),
        surface_id: surface,
        previous_projection_revision: Revision::new(back[0]),
        projection_revision: Revision::new(back[1]),
        epoch: Epoch::new(back[2]),
        sequence: ProjectionPatchSequence::new(back[3]),
    };
    let collection = front[0];
    ScriptCommand::WithSet(
        SetLine::Import(ImportLine {
            room,
            collection,
            envelope,
        }),
        from,
    )
}

// The fields behind the surface, which ends at index end.
fn read_back(
    line: &[u8],
    end: usize,
    room: u16,
    front: [u64; NumberFields::MOST],
    surface: Option<StaticSurfaceId>,
) -> Option<ScriptCommand>
    ensures { asked_of line.now result ≡ behind_surface room front (surface_of surface) (fields_after space line.now end) }
{
    let back = fields::read_numbers(line, end, 4, SPACE)?;
    let from = fields::last_hex(line, back.end)?;
    Some(import_command(room, front, surface, back.values, from))
}

// The fields behind the room, which ends at index end.
fn read_front(line: &[u8], end: usize, room: u16) -> Option<ScriptCommand>
    ensures { asked_of line.now result ≡ behind_room room (fields_after space line.now end) }
{
    let front = fields::read_numbers(line, end, 4, SPACE)?;
    let (surface, to) = surface_after(line, front.end)?;
    read_back(line, to, room, front.values, surface)
}

// Reads the fields behind the word, which ends at index end. No more room is lent than a set may have bytes.
pub(crate) fn read_import(line: &[u8], end: usize) -> Option<ScriptCommand>
    ensures { asked_of line.now result ≡ import_arguments (fields_after space line.now end) }
{
    let (room, to) = fields::number_after(line, end, SPACE)?;
    if 32768 < room {
        return None;
    }
    read_front(line, to, room as u16)
}
