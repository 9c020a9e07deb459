// Lines that bring in a term list.
ghost use Rattle.std.specs.Prelude.{length};
ghost use Rattle.spec_import.specs.Import.{import_terms};
ghost use Rattle.spec_replay.specs.Answers.{import_line};
ghost use Rattle.bytes_printer.specs.Prints.{Prints};
ghost use Rattle.projection_patch.specs.Meaning.{edition_of, envelope_of};

use projection_patch::patch::{ProjectionPatchEdition, ProjectionPatchEnvelope};
use script_parser::ImportLine;

// As many bytes as a line's room can count.
const LENT_BYTES: usize = 65536;

fn print_imported(
    list: &[u8],
    edition: ProjectionPatchEdition,
    collection: u64,
    envelope: ProjectionPatchEnvelope,
    lent: &mut [u8],
    out: &mut [u8],
) -> Option<usize>
    ensures { Prints out.old (Some 0) (import_line (import_terms (edition_of edition) collection (envelope_of envelope) list.now (length lent.old))) out.new result }
{
    let answer = patch_import::import_terms(list, edition, collection, envelope, lent);
    script_answers::import::print_import(out, Some(0), answer, lent)
}

// The set that a list becomes, into so many bytes, all zero.
pub(crate) fn import_into(
    list: &[u8],
    edition: ProjectionPatchEdition,
    wanted: ImportLine,
    out: &mut [u8],
) -> Option<usize>
    ensures { Prints out.old (Some 0) (import_line (import_terms (edition_of edition) wanted.collection (envelope_of wanted.envelope) list.now wanted.room)) out.new result }
{
    let mut lent = [0u8; LENT_BYTES];
    let end = wanted.room as usize;
    let envelope = wanted.envelope;
    print_imported(
        list,
        edition,
        wanted.collection,
        envelope,
        &mut lent[0..end],
        out,
    )
}
