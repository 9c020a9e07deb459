// The way through the fields of an operation and of an envelope. A locator takes a part and a position in it, and answers the position behind
// what it passed, or where reading stops.
ghost use Rattle.std.specs.Prelude.{◌≡◌, ◌-◌, ◌+◌, ◌<◌, ◌≤◌, length, drop};
ghost use Rattle.spec_patch.specs.Reader.{number};
ghost use Rattle.spec_explain.specs.ReadingRule.{value_kind};
ghost use Rattle.spec_explain.specs.Locate.{field, by_row, score_row, locate_optional, locate_text, locate_value, locate_operation};
ghost use Rattle.projection_patch.specs.Meaning.{edition_of};
ghost use Rattle.patch_locate.specs.Answers.{reading_rule_of, stop_outside, located_answer};
ghost use Rattle.patch_locate.specs.Fields.{field_at_most, text_after, field_of, fields_of};

use crate::rules::{ReadingRule, Stop};
use projection_patch::patch::{ProjectionPatchEdition, ProjectionPatchValue};
use projection_patch::text_rule::TextFault;
use projection_patch::{read_values, text_rule};

// A stop at a position of so many bytes; behind the last one it stands at the end.
pub fn stop_at(bytes: usize, at: usize, rule: ReadingRule) -> Stop
    ensures { result ≡ stop_outside rule (bytes - (bytes - at)) }
{
    Stop::outside(rule, at.min(bytes))
}

// A number of so many bytes.
fn number_at(part: &[u8], at: usize, width: usize) -> Result<usize, Stop>
    requires { 0 < width }
    ensures { result ≡ located_answer (length part.now) (field (number width) (drop at part.now)) }
{
    if bytes_wire::has_room(part.len(), at, width) {
        return Ok(at + width);
    }
    Err(stop_at(part.len(), at, ReadingRule::TooFewBytes))
}

// A byte that is at most the highest.
fn byte_at_most(part: &[u8], at: usize, highest: u8, rule: ReadingRule) -> Result<usize, Stop>
    ensures { result ≡ located_answer (length part.now) (field_at_most (reading_rule_of rule) highest (drop at part.now)) }
{
    if part.len() <= at {
        return Err(stop_at(part.len(), at, ReadingRule::TooFewBytes));
    }
    if part[at] <= highest {
        return Ok(at + 1);
    }
    Err(Stop::outside(rule, at))
}

// Byte 0, or 1 and a number.
fn optional_at(part: &[u8], at: usize) -> Result<usize, Stop>
    ensures { result ≡ located_answer (length part.now) (locate_optional (drop at part.now)) }
{
    if part.len() <= at {
        return Err(stop_at(part.len(), at, ReadingRule::TooFewBytes));
    }
    let tag = part[at];
    match tag {
        0 => Ok(at + 1),
        1 => number_at(part, at + 1, 8),
        _ => Err(Stop::outside(ReadingRule::OptionalTag, at)),
    }
}

// The text of so many bytes behind its length, which stands at the position.
fn text_from(part: &[u8], at: usize, len: usize) -> Result<usize, Stop>
    requires { at + 4 ≤ length part.now }
    ensures { result ≡ located_answer (length part.now) (text_after (drop at part.now) len (drop (at + 4) part.now)) }
{
    let start = at + 4;
    if part.len() - start < len {
        return Err(Stop::outside(ReadingRule::TooFewBytes, start));
    }
    if ProjectionPatchValue::TEXT_BYTES < len {
        return Err(Stop::outside(ReadingRule::TextLength, at));
    }
    let end = start + len;
    match text_rule::judge_text(read_values::text_of(part, start, end)) {
        Ok(()) => Ok(end),
        Err(TextFault::Malformed) => Err(Stop::outside(ReadingRule::NotUtf8, start)),
        Err(TextFault::ManyCharacters) => Err(Stop::outside(ReadingRule::CharacterCount, start)),
    }
}

fn text_at(part: &[u8], at: usize) -> Result<usize, Stop>
    ensures { result ≡ located_answer (length part.now) (locate_text (drop at part.now)) }
{
    match bytes_wire::read_u32_at(part, at) {
        Some(len) => text_from(part, at, len as usize),
        None => Err(stop_at(part.len(), at, ReadingRule::TooFewBytes)),
    }
}

// The score behind its kind, which stands at the position, where the edition has scores.
fn score_behind(part: &[u8], at: usize, edition: ProjectionPatchEdition) -> Result<usize, Stop>
    requires { at < length part.now }
    ensures { result ≡ located_answer (length part.now) (by_row value_kind (score_row (edition_of edition)) (drop at part.now) 5 (drop (at + 1) part.now)) }
{
    if edition.has_scores() {
        return byte_at_most(
            part,
            at + 1,
            ProjectionPatchValue::HIGHEST_SCORE,
            ReadingRule::ScoreRange,
        );
    }
    Err(Stop::outside(ReadingRule::ValueKind, at))
}

fn value_at(part: &[u8], at: usize, edition: ProjectionPatchEdition) -> Result<usize, Stop>
    ensures { result ≡ located_answer (length part.now) (locate_value (edition_of edition) (drop at part.now)) }
{
    if part.len() <= at {
        return Err(stop_at(part.len(), at, ReadingRule::TooFewBytes));
    }
    let kind = part[at];
    match kind {
        1 => byte_at_most(part, at + 1, 3, ReadingRule::QuadTag),
        2 => number_at(part, at + 1, 8),
        3 => text_at(part, at + 1),
        4 => number_at(part, at + 1, 8),
        5 => score_behind(part, at, edition),
        _ => Err(Stop::outside(ReadingRule::ValueKind, at)),
    }
}

// A field by its letter: N a u64, S a u32, O an optional u64, A an availability, any other a value.
fn field_at(
    part: &[u8],
    at: usize,
    letter: u8,
    edition: ProjectionPatchEdition,
) -> Result<usize, Stop>
    ensures { result ≡ located_answer (length part.now) (field_of (edition_of edition) letter (drop at part.now)) }
{
    match letter {
        78 => number_at(part, at, 8),
        83 => number_at(part, at, 4),
        79 => optional_at(part, at),
        65 => byte_at_most(part, at, 4, ReadingRule::AvailabilityTag),
        _ => value_at(part, at, edition),
    }
}

// Fields one after the other.
pub fn fields_at(
    part: &[u8],
    at: usize,
    letters: &[u8],
    edition: ProjectionPatchEdition,
) -> Result<usize, Stop>
    requires { at ≤ length part.now }
    ensures { result ≡ located_answer (length part.now) (fields_of (edition_of edition) letters.now (drop at part.now)) }
{
    let mut next = at;
    for letter in letters {
        next = field_at(part, next, *letter, edition)?;
    }
    Ok(next)
}

// An operation.
pub fn operation_at(part: &[u8], at: usize, edition: ProjectionPatchEdition) -> Result<usize, Stop>
    ensures { result ≡ located_answer (length part.now) (locate_operation (edition_of edition) (drop at part.now)) }
{
    if part.len() <= at {
        return Err(stop_at(part.len(), at, ReadingRule::TooFewBytes));
    }
    let tag = part[at];
    let body = at + 1;
    match tag {
        1 => fields_at(part, body, b"NSV", edition),
        2 => fields_at(part, body, b"NA", edition),
        3 => fields_at(part, body, b"NNOV", edition),
        4 => fields_at(part, body, b"NNV", edition),
        5 => fields_at(part, body, b"NN", edition),
        6 => fields_at(part, body, b"NNO", edition),
        _ => Err(Stop::outside(ReadingRule::OperationTag, at)),
    }
}
