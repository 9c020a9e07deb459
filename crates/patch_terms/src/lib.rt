// The lines of a term list, read in place: 02, 'Job 1'.
#![tactic(auto)]

ghost use Rattle.std.specs.Prelude.{◌≡◌, ◌==◌, ◌≤◌, length, drop, position};
ghost use Rattle.patch_terms.specs.Places.{byte_place_of};
ghost use Rattle.patch_terms.specs.Answers.{text_refused, judged_term, term_answer, line_answer, HoldsTerm};

use projection_patch::patch::ProjectionPatchValue;
use projection_patch::text_rule::{TextFault, judge_text};

const TAB: u8 = 9;

const NEWLINE: u8 = 10;

// Why a line holds no term.
#[derive(Clone, Copy)]
pub enum TermRefusal {
    OtherForm,
    OverCapacity,
}

// A text that is not UTF-8 is of another form.
impl From<TextFault> for TermRefusal {
    ghost from_gives = { λ fault refusal. refusal ≡ text_refused fault };

    fn from(fault: TextFault) -> TermRefusal {
        match fault {
            TextFault::Malformed => TermRefusal::OtherForm,
            TextFault::ManyCharacters => TermRefusal::OverCapacity,
        }
    }
}

// The key of a line, the place of its text in the list, and where the next line starts.
#[derive(Clone, Copy)]
pub struct TermLine {
    pub key: u64,
    pub start: usize,
    pub len: usize,
    pub next: usize,
}

// The index of the first such byte.
fn first_of(bytes: &[u8], byte: u8) -> Option<usize>
    ensures { result ≡ position (λ b. b == byte) bytes.now }
{
    bytes.iter().position(|b| *b == byte)
}

// The index of the first such byte, or the length where there is none.
fn place_of(bytes: &[u8], byte: u8) -> usize
    ensures place { result ≡ byte_place_of byte bytes.now }
    ensures within { result ≤ length bytes.now }
{
    first_of(bytes, byte).unwrap_or(bytes.len())
}

// A key, and the text that starts behind it: UTF-8 belongs to the form, and the limits come after it.
#[tactic(auto, unfolding(spec_import::specs::Import::keeps_text))]
fn judge_term(key: u64, start: usize, text: &[u8]) -> Result<(u64, usize), TermRefusal>
    ensures { result ≡ judged_term key start text.now }
{
    judge_text(text)?;
    if ProjectionPatchValue::TEXT_BYTES < text.len() {
        return Err(TermRefusal::OverCapacity);
    }
    Ok((key, start))
}

// The key of a line, read without its newline, and where its text starts.
fn read_term(line: &[u8]) -> Result<(u64, usize), TermRefusal>
    ensures { result ≡ term_answer line.now }
{
    let tab = place_of(line, TAB);
    if tab == line.len() {
        return Err(TermRefusal::OtherForm);
    }
    let start = tab + 1;
    if place_of(&line[start..], TAB) < line.len() - start {
        return Err(TermRefusal::OtherForm);
    }
    let key = bytes_decimal::read_u64(&line[..tab]).ok_or(TermRefusal::OtherForm)?;
    judge_term(key, start, &line[start..])
}

// Reads the line of a list that starts at a position.
pub fn read_line(list: &[u8], at: usize) -> Result<TermLine, TermRefusal>
    requires { at ≤ length list.now }
    ensures { result ≡ line_answer at (drop at list.now) }
{
    let end = at + place_of(&list[at..], NEWLINE);
    let (key, start) = read_term(&list[at..end])?;
    Ok(TermLine {
        key,
        start: at + start,
        len: end - (at + start),
        next: end + 1,
    })
}

// Reads a line again that is known to hold a term: its text is not judged, nor are further tabs sought.
pub fn reread_line(list: &[u8], at: usize) -> TermLine
    requires { (at ≤ length list.now) × HoldsTerm (drop at list.now) }
    ensures { Ok result ≡ line_answer at (drop at list.now) }
{
    let end = at + place_of(&list[at..], NEWLINE);
    let tab = at + place_of(&list[at..end], TAB);
    let key = bytes_decimal::read_u64(&list[at..tab]).unwrap();
    TermLine {
        key,
        start: tab + 1,
        len: end - (tab + 1),
        next: end + 1,
    }
}
