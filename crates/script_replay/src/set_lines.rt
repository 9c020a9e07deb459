// Lines with a set in hex: a batch that is sent or asked about, a check, a listing, a conversion, and what it depends on; and with a term list.
ghost use Rattle.std.specs.Prelude.{List, ℕ, ◌≤◌, length};
ghost use Rattle.spec_patch.specs.Read.{read_set};
ghost use Rattle.spec_replay.specs.Script.{line_bytes};
ghost use Rattle.spec_conversion.specs.Conversion.{convert};
ghost use Rattle.spec_replay.specs.Answers.{check_lines, conversion_line};
ghost use Rattle.spec_replay.specs.Replay.{State, onward, replay_line};
ghost use Rattle.bytes_printer.specs.Prints.{Prints};
ghost use Rattle.projection_patch.specs.Meaning.{edition_of};
ghost use Rattle.script_parser.specs.Meaning.{set_from, with_set_of};
ghost use Rattle.script_calls.specs.ReplayHolds.{ReplayHolds, ReplayStepped};

use crate::{batch_lines, dependency_lines, import_lines, setup_lines};
use projection_patch::patch::ProjectionPatchEdition;
use script_calls::state::{ReplayState, ReplayStep};
use script_parser::SetLine;

// Room for the record of every finding that a check can list.
const RECORD_NUMBERS: usize = check_set::list_set::FindingsListed::NUMBERS;

// The longest set that a line can spell.
const SET_BYTES: usize = 65536;

fn print_checked(set: &[u8], edition: ProjectionPatchEdition, out: &mut [u8]) -> Option<usize>
    ensures { Prints out.old (Some 0) (check_lines (read_set (edition_of edition) set.now)) out.new result }
{
    let mut records = [0u64; RECORD_NUMBERS];
    let answer = check_set::check_set::check(set, edition, &mut records);
    script_answers::check::print_check(out, Some(0), answer, &records)
}

fn print_converted(
    set: &[u8],
    edition: ProjectionPatchEdition,
    lent: &mut [u8],
    out: &mut [u8],
) -> Option<usize>
    ensures { Prints out.old (Some 0) (conversion_line (convert (edition_of edition) set.now (length lent.old))) out.new result }
{
    let answer = patch_converter::convert(set, edition, lent);
    script_answers::conversion::print_conversion(out, Some(0), answer, lent)
}

// A conversion into so many bytes, all zero.
fn convert_into(
    set: &[u8],
    edition: ProjectionPatchEdition,
    room: u16,
    out: &mut [u8],
) -> Option<usize>
    ensures { Prints out.old (Some 0) (conversion_line (convert (edition_of edition) set.now room)) out.new result }
{
    let mut lent = [0u8; SET_BYTES];
    let end = room as usize;
    print_converted(set, edition, &mut lent[0..end], out)
}

// The state stays where something was printed.
fn answered(state: ReplayState, printed: Option<usize>) -> ReplayStep
    ensures { (m : State) → ReplayHolds state m → (before after lines : List ℕ) → Prints before (Some 0) lines after printed → ReplayStepped state before after result (onward m lines) }
{
    ReplayStep {
        state,
        printed,
        stopped: false,
    }
}

fn use_set(state: ReplayState, wanted: SetLine, set: &[u8], out: &mut [u8]) -> ReplayStep
    ensures { (m : State) → ReplayHolds state m → (number : ℕ)
        → ReplayStepped state out.old out.new result (replay_line number m (with_set_of wanted set.now)) }
{
    let edition = state.edition;
    match wanted {
        SetLine::Batch(batch) => batch_lines::apply_batch(state, batch, set, out),
        SetLine::Check => {
            let printed = print_checked(set, edition, out);
            answered(state, printed)
        }
        SetLine::List => {
            let printed = listing_panel::print_listing(out, Some(0), set, edition);
            answered(state, printed)
        }
        SetLine::Convert(room) => {
            let printed = convert_into(set, edition, room, out);
            answered(state, printed)
        }
        SetLine::Depends(room) => {
            let printed = dependency_lines::depends_into(set, edition, room, out);
            answered(state, printed)
        }
        SetLine::Import(line) => {
            let printed = import_lines::import_into(set, edition, line, out);
            answered(state, printed)
        }
        SetLine::Explain(batch) => batch_lines::explain_batch(state, batch, set, out),
    }
}

// Uses the set whose hex starts at an index of the line. What is no hex makes it any other line.
pub(crate) fn run_with_set(
    state: ReplayState,
    wanted: SetLine,
    from: usize,
    number: u64,
    line: &[u8],
    out: &mut [u8],
) -> ReplayStep
    ensures { (m : State) → ReplayHolds state m → length line.now ≤ line_bytes
        → ReplayStepped state out.old out.new result (replay_line number m (set_from line.now from (with_set_of wanted))) }
{
    let mut set = [0u8; SET_BYTES];
    match script_parser::decode_set(line, from, &mut set) {
        Ok(len) => use_set(state, wanted, &set[0..len], out),
        Err(_) => setup_lines::other(state, number, out),
    }
}
