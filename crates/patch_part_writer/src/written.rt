// Why a list is not written. What writes answers with the position behind what was written, or with this.
ghost use Rattle.std.specs.Prelude.{◌≡◌};
ghost use Rattle.spec_patch.specs.Write.{write_number};
ghost use Rattle.patch_part_writer.specs.Answer.{write_refusal_of, text_refusal};

use projection_patch::text_rule::TextFault;

#[derive(Clone, Copy)]
pub enum WriteRefusal {
    OverCapacity,
    Malformed,
    OutputTooShort,
}

impl WriteRefusal {
    // 01's number.
    #[tactic(auto, unfolding(spec_patch::specs::Write::write_number))]
    pub fn number(self) -> u64
        ensures { result ≡ write_number (write_refusal_of self) }
    {
        match self {
            WriteRefusal::OverCapacity => 12,
            WriteRefusal::Malformed => 10,
            WriteRefusal::OutputTooShort => 14,
        }
    }
}

// A text with too many characters is over its capacity.
impl From<TextFault> for WriteRefusal {
    ghost from_gives = { λ fault refusal. refusal ≡ text_refusal fault };

    fn from(fault: TextFault) -> WriteRefusal {
        match fault {
            TextFault::Malformed => WriteRefusal::Malformed,
            TextFault::ManyCharacters => WriteRefusal::OverCapacity,
        }
    }
}
