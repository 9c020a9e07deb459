// Whether any of some findings is there.
ghost use Rattle.std.specs.Prelude.{◌≡◌};
ghost use Rattle.check_findings.specs.EnvelopeChecks.{envelope_listed, pair_listed};
ghost use Rattle.check_findings.specs.Found.{is_found};

use crate::envelope_checks::{EnvelopeFindings, PairFindings};

pub fn envelope_found(findings: EnvelopeFindings) -> bool
    ensures { result ≡ is_found (envelope_listed findings) }
{
    findings.revision.is_some() || findings.patch_id.is_some() || findings.stream_id.is_some()
}

pub fn pair_found(findings: PairFindings) -> bool
    ensures { result ≡ is_found (pair_listed findings) }
{
    findings.document.is_some()
        || findings.epoch.is_some()
        || findings.stream.is_some()
        || findings.sequence.is_some()
}
