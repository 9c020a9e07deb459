// The lines that a replay prints of the check of a set, printed into a lent slice.
ghost use Rattle.std.specs.Prelude.{◌≡◌, ℕ, ◌*◌, length, take};
ghost use mathlib.Core.List.{List, flat_map};
ghost use Rattle.spec_patch.specs.Edition.{Edition};
ghost use Rattle.spec_patch.specs.Read.{read_set};
ghost use Rattle.spec_checks.specs.Finding.{Finding};
ghost use Rattle.spec_checks.specs.Findings.{Place, Findings};
ghost use Rattle.spec_checks.specs.Answer.{record_length, finding_words};
ghost use Rattle.spec_replay.specs.Answers.{place_field, finding_line, checked_line, check_lines};
ghost use Rattle.bytes_printer.specs.Prints.{spaced_field, Prints, Within};
ghost use Rattle.check_set.specs.CheckAnswers.{place_to};
ghost use Rattle.script_answers.specs.CheckOf.{finding_told, CheckOf};

use check_set::check_set::{CheckPlace, PatchSetCheck};
use projection_patch::read_values::ProjectionPatchReadFault;

fn print_finding(
    out: &mut [u8],
    at: Option<usize>,
    kind: u64,
    domain: u64,
    secondary: u64,
) -> Option<usize>
    ensures { Prints out.old at (finding_line (finding_told kind domain secondary)) out.new result }
{
    let letter = bytes_printer::print_byte(out, at, 70);
    let first = bytes_printer::print_field_u64(out, letter, kind);
    let second = bytes_printer::print_field_u64(out, first, domain);
    let third = bytes_printer::print_field_u64(out, second, secondary);
    bytes_printer::print_newline(out, third)
}

// A line for each of the first count records, of three numbers each.
fn print_findings(
    out: &mut [u8],
    from: Option<usize>,
    records: &[u64],
    count: usize,
) -> Option<usize>
    ensures { (fs : List Finding) → length fs ≡ count → take (record_length * count) records.now ≡ finding_words fs → Within out.old from
        → Prints out.old from (flat_map finding_line fs) out.new result }
{
    if records.len() / 3 < count {
        return None;
    }
    let mut at = from;
    for i in 0..count {
        let start = 3 * i;
        let kind = records[start];
        let domain = records[start + 1];
        let secondary = records[start + 2];
        at = print_finding(out, at, kind, domain, secondary);
    }
    at
}

fn print_place(out: &mut [u8], at: Option<usize>, place: CheckPlace) -> Option<usize>
    ensures { (p : Place) → place ≡ place_to p → Prints out.old at (spaced_field (place_field p)) out.new result }
{
    match place {
        CheckPlace::Patch(index) => bytes_printer::print_field_u64(out, at, index as u64),
        CheckPlace::Set => bytes_printer::print_field_bytes(out, at, b"set"),
    }
}

fn print_checked(
    out: &mut [u8],
    at: Option<usize>,
    place: CheckPlace,
    logical: usize,
) -> Option<usize>
    ensures { (f : Findings) → place ≡ place_to f.place → logical ≡ length f.found → Prints out.old at (checked_line f) out.new result }
{
    let letter = bytes_printer::print_byte(out, at, 75);
    let zero = bytes_printer::print_field_u64(out, letter, 0);
    let named = print_place(out, zero, place);
    let counted = bytes_printer::print_field_u64(out, named, logical as u64);
    bytes_printer::print_newline(out, counted)
}

// What the check of a set answered and wrote, where it was lent room for every record.
pub fn print_check(
    out: &mut [u8],
    at: Option<usize>,
    answer: Result<PatchSetCheck, ProjectionPatchReadFault>,
    records: &[u64],
) -> Option<usize>
    ensures { (ed : Edition) (set : List ℕ) → CheckOf ed set answer records.now → Prints out.old at (check_lines (read_set ed set)) out.new result }
{
    match answer {
        Ok(checked) => {
            let head = print_checked(out, at, checked.place, checked.logical);
            print_findings(out, head, records, checked.logical)
        }
        Err(fault) => { listing_lines::print_number_line(out, at, 75, fault.number()) }
    }
}
