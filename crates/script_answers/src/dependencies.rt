// The lines of what a set depends on, printed into a lent slice.
ghost use mathlib.Core.List.{List, [], ◌∷◌, flat_map};
ghost use Rattle.std.specs.Prelude.{ℕ, ◌+◌, ◌*◌, ◌≤◌, length};
ghost use Rattle.spec_decimal.specs.Decimal.{decimal};
ghost use Rattle.spec_dependencies.specs.Answer.{pair_length, Answered, answer_never, answer_needs};
ghost use Rattle.spec_listing.specs.Listing.{fields};
ghost use Rattle.spec_replay.specs.Answers.{key_line, first_keys, verdict_lines, dependency_lines};
ghost use Rattle.bytes_printer.specs.Prints.{Prints, Within};
ghost use Rattle.script_answers.specs.DependenciesTold.{collection_key_of, DependenciesTold};

use set_dependencies::depends::DependenciesAnswer;
use set_dependencies::write_keys;

fn print_key(out: &mut [u8], at: Option<usize>, collection: u64, key: u64) -> Option<usize>
    ensures { Prints out.old at (key_line (collection_key_of collection key)) out.new result }
{
    let letter = bytes_printer::print_byte(out, at, 81);
    let first = bytes_printer::print_field_u64(out, letter, collection);
    let second = bytes_printer::print_field_u64(out, first, key);
    bytes_printer::print_newline(out, second)
}

// A line for each of the first count records, of two numbers each.
fn print_keys(out: &mut [u8], from: Option<usize>, words: &[u64], count: usize) -> Option<usize>
    ensures { pair_length * count ≤ length words.now → Within out.old from
        → Prints out.old from (flat_map key_line (first_keys count words.now)) out.new result }
{
    if words.len() / write_keys::PAIR < count {
        return None;
    }
    let mut at = from;
    for i in 0..count {
        let start = 2 * i;
        let collection = words[start];
        let key = words[start + 1];
        at = print_key(out, at, collection, key);
    }
    at
}

// D, 0, a word and two numbers.
fn print_verdict(
    out: &mut [u8],
    at: Option<usize>,
    word: &[u8],
    first: usize,
    second: usize,
) -> Option<usize>
    ensures { Prints out.old at (68 ∷ fields (decimal 0 ∷ word.now ∷ decimal first ∷ decimal second ∷ [])) out.new result }
{
    let letter = bytes_printer::print_byte(out, at, 68);
    let zero = bytes_printer::print_field_u64(out, letter, 0);
    let told = bytes_printer::print_field_bytes(out, zero, word);
    let one = bytes_printer::print_field_u64(out, told, first as u64);
    let two = bytes_printer::print_field_u64(out, one, second as u64);
    bytes_printer::print_newline(out, two)
}

fn print_never(out: &mut [u8], at: Option<usize>, patch: usize, operation: usize) -> Option<usize>
    ensures { (words : List ℕ) → Prints out.old at (verdict_lines (answer_never patch operation) words) out.new result }
{
    print_verdict(out, at, b"never", patch, operation)
}

// Both counts, and the records that were written.
fn print_needs(
    out: &mut [u8],
    at: Option<usize>,
    held: usize,
    lacked: usize,
    written: &[u64],
) -> Option<usize>
    ensures { pair_length * (held + lacked) ≤ length written.now
        → Prints out.old at (verdict_lines (answer_needs held lacked) written.now) out.new result }
{
    let most = written.len() / write_keys::PAIR;
    if most < held {
        return None;
    }
    if most - held < lacked {
        return None;
    }
    let head = print_verdict(out, at, b"needs", held, lacked);
    print_keys(out, head, written, held + lacked)
}

// What the call answered and wrote.
pub fn print_dependencies(
    out: &mut [u8],
    at: Option<usize>,
    answer: DependenciesAnswer,
    written: &[u64],
) -> Option<usize>
    ensures { (a : Answered) → DependenciesTold a answer written.now
        → Prints out.old at (dependency_lines a) out.new result }
{
    match answer {
        DependenciesAnswer::Never { patch, operation } => print_never(out, at, patch, operation),
        DependenciesAnswer::Needs { held, lacked } => print_needs(out, at, held, lacked, written),
        DependenciesAnswer::Refused(refusal) => {
            listing_lines::print_number_line(out, at, 68, refusal.number())
        }
    }
}
