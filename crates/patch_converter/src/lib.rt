// Converting of a set into the other edition: 02, 'Job 13'. The set is read first, and nothing is written before it is known to fit.
#![tactic(auto)]

ghost use Rattle.std.specs.Prelude.{◌≡◌, List, ◌∷◌, ◌++◌, ℕ, ◌≤◌, length, take, drop};
ghost use Rattle.spec_patch.specs.Edition.{edition_digit};
ghost use Rattle.spec_patch.specs.Read.{read_set};
ghost use Rattle.spec_conversion.specs.Conversion.{other_edition, conversion_number, convert};
ghost use Rattle.bytes_wire.specs.Write.{overwrite};
ghost use Rattle.projection_patch.specs.Meaning.{edition_of};
ghost use Rattle.patch_converter.specs.Answers.{conversion_refusal_of, unread_to, conversion_answer, conversion_output};

use crate::kinds::has_every_kind;
use patch_part_writer::head::{DIGIT_AT, edition_digit};
use projection_patch::patch::ProjectionPatchEdition;
use projection_patch::read_values::ProjectionPatchReadFault;

mod kinds;

#[derive(Clone, Copy)]
pub enum ConversionRefusal {
    OverCapacity,
    Malformed,
    KindMissing,
    OutputTooShort,
}

impl ConversionRefusal {
    // Reading's number, 18 for a score that the other edition does not have, 14 for the output.
    #[tactic(auto, unfolding(spec_conversion::specs::Conversion::conversion_number))]
    pub fn number(self) -> u64
        ensures { result ≡ conversion_number (conversion_refusal_of self) }
    {
        match self {
            ConversionRefusal::OverCapacity => 12,
            ConversionRefusal::Malformed => 10,
            ConversionRefusal::KindMissing => 18,
            ConversionRefusal::OutputTooShort => 14,
        }
    }
}

#[tactic(auto, unfolding(spec_conversion::specs::Conversion::other_edition))]
fn other_edition(edition: ProjectionPatchEdition) -> ProjectionPatchEdition
    ensures { edition_of result ≡ other_edition (edition_of edition) }
{
    match edition {
        ProjectionPatchEdition::V1 => ProjectionPatchEdition::V2,
        ProjectionPatchEdition::V2 => ProjectionPatchEdition::V1,
    }
}

impl From<ProjectionPatchReadFault> for ConversionRefusal {
    ghost from_gives = { λ fault refusal. refusal ≡ unread_to fault };

    #[tactic(auto, unfolding(spec_conversion::specs::Conversion::unread))]
    fn from(fault: ProjectionPatchReadFault) -> ConversionRefusal {
        match fault {
            ProjectionPatchReadFault::Malformed => ConversionRefusal::Malformed,
            ProjectionPatchReadFault::OverCapacity => ConversionRefusal::OverCapacity,
        }
    }
}

// The set with the letter of the other edition.
fn store_with_letter(set: &[u8], to: ProjectionPatchEdition, out: &mut [u8])
    requires { (31 ≤ length set.now) × (length set.now ≤ length out.old) }
    ensures { out.new ≡ overwrite out.old 0 (take 30 set.now ++ (edition_digit (edition_of to) ∷ drop 31 set.now)) }
{
    bytes_wire::write_bytes_at(out, 0, &set[0..DIGIT_AT]);
    bytes_wire::write_u8_at(out, DIGIT_AT, edition_digit(to));
    bytes_wire::write_bytes_at(out, DIGIT_AT + 1, &set[DIGIT_AT + 1..]);
}

// Converts a set of an edition into the other, from the start of the output on: reading's 12 and 10, then 18 for a score on the way to an
// edition without scores, then 14. A refusal leaves every byte of the output as it was, and what is behind the set stays. What was written is
// read in the other edition as the set is read in its own.
pub fn convert(
    set: &[u8],
    from: ProjectionPatchEdition,
    out: &mut [u8],
) -> Result<usize, ConversionRefusal>
    ensures value { result ≡ conversion_answer (convert (edition_of from) set.now (length out.old)) }
    ensures out_after { out.new ≡ conversion_output out.old (convert (edition_of from) set.now (length out.old)) }
    ensures by_index { (n : ℕ) → result ≡ Ok n → read_set (other_edition (edition_of from)) (take n out.new) ≡ read_set (edition_of from) set.now }
{
    patch_walk::read_set(set, from)?;
    let to = other_edition(from);
    if !has_every_kind(set, from, to) {
        return Err(ConversionRefusal::KindMissing);
    }
    if out.len() < set.len() {
        return Err(ConversionRefusal::OutputTooShort);
    }
    store_with_letter(set, to, out);
    Ok(set.len())
}
