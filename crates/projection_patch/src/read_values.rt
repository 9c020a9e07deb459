// Reading of counts, optional numbers and values. A reader takes a part and a position in it, and answers what stands there with the
// position behind it, or the fault. Every position may be asked for.
ghost use Rattle.std.specs.Prelude.{◌≡◌, ◌+◌, ◌-◌, ◌≤◌, length, drop, if◌then◌else◌};
ghost use Rattle.std.proofs.Math.Option.{some};
ghost use Rattle.spec_patch.specs.Edition.{has_kind};
ghost use Rattle.spec_patch.specs.Patch as model;
ghost use Rattle.spec_patch.specs.Reader.{fault_number, malformed, pair, byte, refused, mapped};
ghost use Rattle.spec_patch.specs.Read.{read_u32, read_u64, read_i64, read_count, read_quad, text_body, read_text_by, read_optional, read_availability, read_score, read_value_by, read_value};
ghost use Rattle.projection_patch.specs.Meaning.{edition_of};
ghost use Rattle.projection_patch.specs.ReadAnswers.{fault_of, text_fault, plain_answer, count_answer, optional_answer, availability_answer, value_answer, lent_part};

use crate::patch::{
    ProjectionNodeAvailability, ProjectionPatchEdition, ProjectionPatchValue, ProjectionQuadState,
};
use crate::text_rule;
use crate::text_rule::TextFault;

// Why bytes are not read.
#[derive(Clone, Copy)]
pub enum ProjectionPatchReadFault {
    Malformed,
    OverCapacity,
}

impl ProjectionPatchReadFault {
    // The number of a refusal: 01's, which C and the lines of an answer give.
    #[tactic(auto, unfolding(spec_patch::specs::Reader::fault_number))]
    pub fn number(self) -> u64
        ensures { result ≡ fault_number (fault_of self) }
    {
        match self {
            ProjectionPatchReadFault::Malformed => 10,
            ProjectionPatchReadFault::OverCapacity => 12,
        }
    }
}

// A text that breaks the rule is malformed where it is no UTF-8, and over its capacity where it has too many characters.
impl From<TextFault> for ProjectionPatchReadFault {
    ghost from_gives = { λ fault answer. answer ≡ text_fault fault };

    fn from(fault: TextFault) -> ProjectionPatchReadFault {
        match fault {
            TextFault::Malformed => ProjectionPatchReadFault::Malformed,
            TextFault::ManyCharacters => ProjectionPatchReadFault::OverCapacity,
        }
    }
}

// Four readers of a number alike: each names the width that its reader in bytes_wire has, and one for all would take both from the caller.
pub fn byte_at(part: &[u8], at: usize) -> Result<(u8, usize), ProjectionPatchReadFault>
    ensures { result ≡ plain_answer (length part.now) (byte (drop at part.now)) }
{
    let byte = part
        .get(at)
        .copied()
        .ok_or(ProjectionPatchReadFault::Malformed)?;
    Ok((byte, at + 1))
}

pub fn u32_at(part: &[u8], at: usize) -> Result<(u32, usize), ProjectionPatchReadFault>
    ensures { result ≡ plain_answer (length part.now) (read_u32 (drop at part.now)) }
{
    let n = bytes_wire::read_u32_at(part, at).ok_or(ProjectionPatchReadFault::Malformed)?;
    Ok((n, at + 4))
}

pub fn u64_at(part: &[u8], at: usize) -> Result<(u64, usize), ProjectionPatchReadFault>
    ensures { result ≡ plain_answer (length part.now) (read_u64 (drop at part.now)) }
{
    let n = bytes_wire::read_u64_at(part, at).ok_or(ProjectionPatchReadFault::Malformed)?;
    Ok((n, at + 8))
}

fn i64_at(part: &[u8], at: usize) -> Result<(i64, usize), ProjectionPatchReadFault>
    ensures { result ≡ plain_answer (length part.now) (read_i64 (drop at part.now)) }
{
    let z = bytes_wire::read_i64_at(part, at).ok_or(ProjectionPatchReadFault::Malformed)?;
    Ok((z, at + 8))
}

// Two numbers, one behind the other.
pub fn numbers_at(part: &[u8], at: usize) -> Result<((u64, u64), usize), ProjectionPatchReadFault>
    ensures { result ≡ plain_answer (length part.now) (pair read_u64 read_u64 (drop at part.now)) }
{
    let (first, at) = u64_at(part, at)?;
    let (second, end) = u64_at(part, at)?;
    Ok(((first, second), end))
}

// A count, at most the capacity.
pub fn count_at(
    part: &[u8],
    at: usize,
    capacity: usize,
) -> Result<(usize, usize), ProjectionPatchReadFault>
    ensures { result ≡ count_answer (length part.now) (read_count capacity (drop at part.now)) }
{
    let (n, end) = u32_at(part, at)?;
    let count = n as usize;
    if count <= capacity {
        Ok((count, end))
    } else {
        Err(ProjectionPatchReadFault::OverCapacity)
    }
}

fn some_at(part: &[u8], at: usize) -> Result<(Option<u64>, usize), ProjectionPatchReadFault>
    ensures { result ≡ optional_answer (length part.now) (mapped some read_u64 (drop at part.now)) }
{
    let (n, end) = u64_at(part, at)?;
    Ok((Some(n), end))
}

pub fn optional_at(part: &[u8], at: usize) -> Result<(Option<u64>, usize), ProjectionPatchReadFault>
    ensures { result ≡ optional_answer (length part.now) (read_optional (drop at part.now)) }
{
    let (tag, body) = byte_at(part, at)?;
    match tag {
        0 => Ok((None, body)),
        1 => some_at(part, body),
        _ => Err(ProjectionPatchReadFault::Malformed),
    }
}

// Reads an optional number from the start of a part.
pub fn read_optional(part: &[u8]) -> Result<(Option<u64>, usize), ProjectionPatchReadFault>
    ensures { result ≡ optional_answer (length part.now) (read_optional part.now) }
{
    optional_at(part, 0)
}

pub fn availability_at(
    part: &[u8],
    at: usize,
) -> Result<(ProjectionNodeAvailability, usize), ProjectionPatchReadFault>
    ensures { result ≡ availability_answer (length part.now) (read_availability (drop at part.now)) }
{
    let (tag, end) = byte_at(part, at)?;
    Ok((ProjectionNodeAvailability::try_from(tag)?, end))
}

fn quad_at(
    part: &[u8],
    at: usize,
) -> Result<(ProjectionPatchValue, usize), ProjectionPatchReadFault>
    ensures { result ≡ value_answer (length part.now) (mapped model.quad read_quad (drop at part.now)) }
{
    let (tag, end) = byte_at(part, at)?;
    Ok((
        ProjectionPatchValue::Quad(ProjectionQuadState::try_from(tag)?),
        end,
    ))
}

fn signed_at(
    part: &[u8],
    at: usize,
) -> Result<(ProjectionPatchValue, usize), ProjectionPatchReadFault>
    ensures { result ≡ value_answer (length part.now) (mapped model.signed read_i64 (drop at part.now)) }
{
    let (z, end) = i64_at(part, at)?;
    Ok((ProjectionPatchValue::SignedScalar(z), end))
}

fn unsigned_at(
    part: &[u8],
    at: usize,
) -> Result<(ProjectionPatchValue, usize), ProjectionPatchReadFault>
    ensures { result ≡ value_answer (length part.now) (mapped model.unsigned read_u64 (drop at part.now)) }
{
    let (n, end) = u64_at(part, at)?;
    Ok((ProjectionPatchValue::UnsignedScalar(n), end))
}

// The bytes of a text from index a up to b, or none where they do not stand in the set.
pub fn text_of(set: &[u8], a: usize, b: usize) -> &[u8]
    ensures { result.now ≡ lent_part set.now a b }
{
    set.get(a..b).unwrap_or(&[])
}

// The text of len bytes from start on: they must be there, and then be few enough. The rule is asked where the reading is strict.
fn text_from(
    part: &[u8],
    start: usize,
    len: usize,
    strict: bool,
) -> Result<(ProjectionPatchValue, usize), ProjectionPatchReadFault>
    requires { start ≤ length part.now }
    ensures { result ≡ value_answer (length part.now) (mapped model.text (text_body strict len) (drop start part.now)) }
{
    if part.len() - start < len {
        return Err(ProjectionPatchReadFault::Malformed);
    }
    if ProjectionPatchValue::TEXT_BYTES < len {
        return Err(ProjectionPatchReadFault::OverCapacity);
    }
    let end = start + len;
    if strict {
        text_rule::judge_text(text_of(part, start, end))?;
    }
    Ok((ProjectionPatchValue::Text { start, len }, end))
}

fn text_at(
    part: &[u8],
    at: usize,
    strict: bool,
) -> Result<(ProjectionPatchValue, usize), ProjectionPatchReadFault>
    ensures { result ≡ value_answer (length part.now) (mapped model.text (read_text_by strict) (drop at part.now)) }
{
    let (len, start) = u32_at(part, at)?;
    text_from(part, start, len as usize, strict)
}

// A byte that is a score.
fn score_byte_at(
    part: &[u8],
    at: usize,
) -> Result<(ProjectionPatchValue, usize), ProjectionPatchReadFault>
    ensures { result ≡ value_answer (length part.now) (mapped model.score read_score (drop at part.now)) }
{
    let (score, end) = byte_at(part, at)?;
    if score <= ProjectionPatchValue::HIGHEST_SCORE {
        Ok((ProjectionPatchValue::Score(score), end))
    } else {
        Err(ProjectionPatchReadFault::Malformed)
    }
}

// A score, where the edition has them.
fn score_at(
    part: &[u8],
    at: usize,
    edition: ProjectionPatchEdition,
) -> Result<(ProjectionPatchValue, usize), ProjectionPatchReadFault>
    ensures { result ≡ value_answer (length part.now) (if has_kind (edition_of edition) 5 then mapped model.score read_score (drop at part.now) else refused malformed) }
{
    if edition.has_scores() {
        score_byte_at(part, at)
    } else {
        Err(ProjectionPatchReadFault::Malformed)
    }
}

// The value at a position. A text's bytes are checked where the reading is strict, and may be any where they were checked before.
pub fn value_at(
    part: &[u8],
    at: usize,
    strict: bool,
    edition: ProjectionPatchEdition,
) -> Result<(ProjectionPatchValue, usize), ProjectionPatchReadFault>
    ensures { result ≡ value_answer (length part.now) (read_value_by strict (edition_of edition) (drop at part.now)) }
{
    let (tag, body) = byte_at(part, at)?;
    match tag {
        1 => quad_at(part, body),
        2 => signed_at(part, body),
        3 => text_at(part, body, strict),
        4 => unsigned_at(part, body),
        5 => score_at(part, body, edition),
        _ => Err(ProjectionPatchReadFault::Malformed),
    }
}

// Reads a value from the start of a part. The place of a text counts from that start.
pub fn read_value(
    part: &[u8],
    edition: ProjectionPatchEdition,
) -> Result<(ProjectionPatchValue, usize), ProjectionPatchReadFault>
    ensures { result ≡ value_answer (length part.now) (read_value (edition_of edition) part.now) }
{
    value_at(part, 0, true, edition)
}
