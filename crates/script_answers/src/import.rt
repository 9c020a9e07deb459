// The line of a term list that was brought in.
ghost use Rattle.spec_import.specs.Import as model;
ghost use Rattle.spec_replay.specs.Answers.{import_line};
ghost use Rattle.bytes_printer.specs.Prints.{Prints};
ghost use Rattle.script_answers.specs.ImportOf.{ImportOf};

use crate::conversion;
use patch_import::answer::ImportRefusal;

// What bringing in a list answered and wrote.
pub fn print_import(
    out: &mut [u8],
    at: Option<usize>,
    answer: Result<usize, ImportRefusal>,
    written: &[u8],
) -> Option<usize>
    ensures { (c : model.Imported) → ImportOf c answer written.now → Prints out.old at (import_line c) out.new result }
{
    match answer {
        Ok(len) => conversion::print_set(out, at, 73, written, len),
        Err(refusal) => { listing_lines::print_number_line(out, at, 73, refusal.number()) }
    }
}
