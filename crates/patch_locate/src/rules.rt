// The rules that end the reading of a set, and where it stops by one.
ghost use Rattle.std.specs.Prelude.{◌≡◌};
ghost use Rattle.patch_locate.specs.Answers.{stop_outside, placed_in};

#[derive(Clone, Copy)]
pub enum ReadingRule {
    SetTooLong,
    WrongHeading,
    TooFewBytes,
    OperationTag,
    ValueKind,
    OptionalTag,
    AvailabilityTag,
    QuadTag,
    ScoreRange,
    NotUtf8,
    PatchCount,
    OperationCount,
    TextLength,
    CharacterCount,
    BytesLeft,
}

// In no patch; in the patch of an index, before its operations; in an operation of a patch.
#[derive(Clone, Copy)]
pub enum Inside {
    Outside,
    Patch(usize),
    Operation(usize, usize),
}

// Where reading stops: by which rule, in which patch and operation, and at which field's position.
#[derive(Clone, Copy)]
pub struct Stop {
    pub rule: ReadingRule,
    pub inside: Inside,
    pub at: usize,
}

impl Stop {
    // A stop that has no place yet.
    pub(crate) fn outside(rule: ReadingRule, at: usize) -> Stop
        ensures { result ≡ stop_outside rule at }
    {
        Stop {
            rule,
            inside: Inside::Outside,
            at,
        }
    }

    // A stop that has no place yet is given this one.
    pub(crate) fn within(self, here: Inside) -> Stop
        ensures { result ≡ placed_in here self }
    {
        match self.inside {
            Inside::Outside => Stop {
                inside: here,
                ..self
            },
            Inside::Patch(_) | Inside::Operation(_, _) => self,
        }
    }
}
