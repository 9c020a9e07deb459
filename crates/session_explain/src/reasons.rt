// Why a batch is refused: the rule, and the figures that it went by.
ghost use Rattle.std.specs.Prelude.{◌≡◌};
ghost use Rattle.session_explain.specs.Reasons.{capped_to};
ghost use Rattle.session_explain.specs.declared.reasons.BatchReason.TheVariants.{Unreadable};

use check_set::check_set::CheckPlace;
use patch_locate::rules::Stop;

// Which of the declared figures is over its limit.
#[derive(Clone, Copy)]
pub enum DeclaredLimit {
    Patches,
    Bytes,
    Both,
}

// The rules by which an operation fails.
#[derive(Clone, Copy)]
pub enum OperationRule {
    KeyPresent,
    KeyAbsent,
    NeighbourAbsent,
    BindingsFull,
    AvailabilitiesFull,
    EntriesFull,
}

// In the order of a batch's steps. Patches and operations are told by their index from 0.
#[derive(Clone, Copy)]
pub enum BatchReason {
    ForeignSession { named: u64, own: u64 },
    SessionClosed,
    // Which, the patches and their limit, the bytes and their limit.
    DeclaredLimits(DeclaredLimit, u64, u64, u64, u64),
    Unreadable(Stop),
    // The place, how many, and kind, domain and secondary of the first.
    HasFindings(CheckPlace, usize, u64, u64, u64),
    // Patches declared and there, references declared and there.
    CountsDiffer(u64, u64, u64, u64),
    ReferencesOver { actual: u64, limit: u64 },
    // How many, and patch and operation of the first.
    UnknownTarget(usize, usize, usize),
    CursorMismatch { takes: Option<u64> },
    // Patch, operation and rule.
    OperationFails(usize, usize, OperationRule),
}

impl From<Stop> for BatchReason {
    ghost from_gives = { λ stop reason. reason ≡ Unreadable stop };

    fn from(stop: Stop) -> BatchReason {
        BatchReason::Unreadable(stop)
    }
}

// Withheld: there is a reason, and the session's limit of diagnostics is 0.
#[derive(Clone, Copy)]
pub enum BatchExplanation {
    None,
    Withheld,
    Given(BatchReason),
}

// What a session with this limit of diagnostics tells of its steps, which refuse by a reason.
pub fn under_cap(cap: u64, steps: Result<(), BatchReason>) -> BatchExplanation
    ensures { result ≡ capped_to cap steps }
{
    match steps {
        Ok(()) => BatchExplanation::None,
        Err(reason) => {
            if cap == 0 {
                return BatchExplanation::Withheld;
            }
            BatchExplanation::Given(reason)
        }
    }
}
