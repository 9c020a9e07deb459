// Why a term list is not brought in.
ghost use Rattle.std.specs.Prelude.{◌≡◌};
ghost use Rattle.spec_import.specs.Import.{import_number};
ghost use Rattle.patch_import.specs.Answers.{import_refusal_of, of_term};

use patch_terms::TermRefusal;

#[derive(Clone, Copy)]
pub enum ImportRefusal {
    OtherForm,
    OverCapacity,
    PatchInvalid,
    OutputTooShort,
}

impl ImportRefusal {
    // 15 for a line of another form; 12, 11 and 14 as in other calls.
    #[tactic(auto, unfolding(spec_import::specs::Import::import_number))]
    pub fn number(self) -> u64
        ensures { result ≡ import_number (import_refusal_of self) }
    {
        match self {
            ImportRefusal::OtherForm => 15,
            ImportRefusal::OverCapacity => 12,
            ImportRefusal::PatchInvalid => 11,
            ImportRefusal::OutputTooShort => 14,
        }
    }
}

impl From<TermRefusal> for ImportRefusal {
    ghost from_gives = { λ refusal told. told ≡ of_term refusal };

    fn from(refusal: TermRefusal) -> ImportRefusal {
        match refusal {
            TermRefusal::OtherForm => ImportRefusal::OtherForm,
            TermRefusal::OverCapacity => ImportRefusal::OverCapacity,
        }
    }
}
