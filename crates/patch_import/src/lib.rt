// Bringing in a term list: 02, 'Job 1'. One pass over the lines checks them, and one writes; nothing is written before all is known to fit.
#![tactic(auto)]

ghost use Rattle.std.specs.Prelude.{◌≡◌, List, [], ◌∷◌, map, ℕ, length, take};
ghost use Rattle.std.proofs.Math.Option.{some};
ghost use Rattle.spec_patch.specs.Read.{patches, read_set};
ghost use Rattle.spec_import.specs.Import.{Term, lines, read_term, patch_of, import_terms};
ghost use Rattle.projection_patch.specs.Meaning.{edition_of, envelope_of};
ghost use Rattle.patch_import.specs.Answers.{import_answer, import_output};

use crate::answer::ImportRefusal;
use projection_patch::patch::{ProjectionPatch, ProjectionPatchEdition, ProjectionPatchEnvelope};

pub mod answer;
mod insertion;
mod judgement;
mod survey;
mod writing;

// Brings a list in as a set of one patch, from the start of the output on: an insert for each line, in line order, each placed last. Line by
// line 15, then 12; after the last line 12 for the bytes of the set, then 11 for what the patch checks find, then 14. A refusal leaves every
// byte of the output as it was, and what is behind the set stays. What was written is read as the lines' keys and texts.
pub fn import_terms(
    list: &[u8],
    edition: ProjectionPatchEdition,
    collection: u64,
    envelope: ProjectionPatchEnvelope,
    out: &mut [u8],
) -> Result<usize, ImportRefusal>
    ensures value { result ≡ import_answer (import_terms (edition_of edition) collection (envelope_of envelope) list.now (length out.old)) }
    ensures out_after { out.new ≡ import_output out.old (import_terms (edition_of edition) collection (envelope_of envelope) list.now (length out.old)) }
    ensures by_index { (n : ℕ) → result ≡ Ok n → (ts : List Term) × (map read_term (lines list.now) ≡ map some ts)
        × (read_set (edition_of edition) (take n out.new) ≡ patches (patch_of collection (envelope_of envelope) ts ∷ [])) }
{
    let lines = survey::survey_lines(list, collection)?;
    let patch = ProjectionPatch {
        envelope,
        operation_count: lines.count,
    };
    let size = judgement::judge_patch(patch, lines.bytes, lines.repeated, out.len())?;
    writing::write_patch(list, edition, collection, patch, out);
    Ok(size)
}
