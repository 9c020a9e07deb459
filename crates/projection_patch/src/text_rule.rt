// The rule of texts, asked by reader and writer alike.
ghost use Rattle.std.specs.Prelude.{◌≡◌};
ghost use Rattle.projection_patch.specs.TextRule.{judgement};

use crate::patch::ProjectionPatchValue;

// What the rule has against a text that keeps its bytes.
#[derive(Clone, Copy, PartialEq, Eq)]
pub enum TextFault {
    Malformed,
    ManyCharacters,
}

// The judgement of a text: RFC 3629 first, then its characters, which are counted on the way.
pub fn judge_text(text: &[u8]) -> Result<(), TextFault>
    ensures { result ≡ judgement text.now }
{
    let characters = bytes_utf8::check(text).ok_or(TextFault::Malformed)?;
    if characters <= ProjectionPatchValue::TEXT_CHARACTERS {
        Ok(())
    } else {
        Err(TextFault::ManyCharacters)
    }
}
