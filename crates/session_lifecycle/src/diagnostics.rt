// Refusals of session answers, and diagnostics under the cap.
ghost use Rattle.std.specs.Prelude.{◌≡◌};
ghost use Rattle.spec_lists.specs.Lists.{or_zero};
ghost use Rattle.spec_session.specs.Diagnostics.{session_number, stage_of, no_diagnostics, diagnostics_of};
ghost use Rattle.session_lifecycle.specs.Meaning.{refusal_of, diagnostics_mean};

#[derive(Clone, Copy)]
pub enum ShellRefusal {
    SessionMismatch,
    SessionClosed,
    InvalidLifecycle,
    ResourceLimitExceeded,
    CountsDiffer,
    InvalidTarget,
    ReplayCursorMismatch,
    KeyRule,
    ProjectionFull,
    Malformed,
    ChecksFailed,
    OverCapacity,
}

impl ShellRefusal {
    pub fn number(self) -> u64
        ensures { result ≡ session_number (refusal_of self) }
    {
        match self {
            ShellRefusal::SessionMismatch => 1,
            ShellRefusal::SessionClosed => 2,
            ShellRefusal::InvalidLifecycle => 3,
            ShellRefusal::ResourceLimitExceeded => 4,
            ShellRefusal::CountsDiffer => 5,
            ShellRefusal::InvalidTarget => 6,
            ShellRefusal::ReplayCursorMismatch => 7,
            ShellRefusal::KeyRule => 8,
            ShellRefusal::ProjectionFull => 9,
            ShellRefusal::Malformed => 10,
            ShellRefusal::ChecksFailed => 11,
            ShellRefusal::OverCapacity => 12,
        }
    }

    pub fn evaluation_stage(self) -> u64
        ensures { result ≡ or_zero (stage_of (session_number (refusal_of self))) }
    {
        match self {
            ShellRefusal::SessionMismatch => 1,
            ShellRefusal::SessionClosed => 2,
            ShellRefusal::InvalidLifecycle => 2,
            ShellRefusal::ResourceLimitExceeded => 4,
            ShellRefusal::CountsDiffer => 4,
            ShellRefusal::InvalidTarget => 5,
            ShellRefusal::ReplayCursorMismatch => 6,
            ShellRefusal::KeyRule => 8,
            ShellRefusal::ProjectionFull => 8,
            ShellRefusal::Malformed => 4,
            ShellRefusal::ChecksFailed => 4,
            ShellRefusal::OverCapacity => 4,
        }
    }
}

// All diagnostics of an answer are alike, so their code, stage and counts tell them.
#[derive(Clone, Copy)]
pub struct ShellDiagnostics {
    pub stable_code: u64,
    pub evaluation_stage: u64,
    pub logical_diagnostic_count: u64,
    pub emitted_diagnostic_count: u64,
}

// The diagnostics of an answer without a refusal.
pub fn no_diagnostics() -> ShellDiagnostics
    ensures { diagnostics_mean result ≡ no_diagnostics }
{
    ShellDiagnostics {
        stable_code: 0,
        evaluation_stage: 0,
        logical_diagnostic_count: 0,
        emitted_diagnostic_count: 0,
    }
}

// So many diagnostics of a refusal, under the cap.
pub fn apply_diagnostic_cap(cap: u64, refusal: ShellRefusal, logical: u64) -> ShellDiagnostics
    ensures { diagnostics_mean result ≡ diagnostics_of cap (refusal_of refusal) logical }
{
    let emitted = logical.min(cap);
    if emitted == 0 {
        return ShellDiagnostics {
            logical_diagnostic_count: logical,
            ..no_diagnostics()
        };
    }
    ShellDiagnostics {
        stable_code: refusal.number(),
        evaluation_stage: refusal.evaluation_stage(),
        logical_diagnostic_count: logical,
        emitted_diagnostic_count: emitted,
    }
}
