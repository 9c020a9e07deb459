// The checks of a patch's envelope, alone and after that of the patch just before it.
ghost use Rattle.std.specs.Prelude.{◌≡◌};
ghost use Rattle.projection_patch.specs.Meaning.{envelope_of};
ghost use Rattle.spec_checks.specs.Finding.{report};
ghost use Rattle.spec_checks.specs.PatchChecks.{envelope_findings};
ghost use Rattle.spec_checks.specs.SetChecks.{sequence_findings, pair_findings};
ghost use Rattle.check_findings.specs.EnvelopeChecks.{envelope_row, optional_listed, envelope_listed, pair_listed};

use check_table::Finding;
use projection_patch::patch::ProjectionPatchEnvelope;

// Findings 10, 13 and 14.
#[derive(Clone, Copy)]
pub struct EnvelopeFindings {
    pub revision: Option<Finding>,
    pub patch_id: Option<Finding>,
    pub stream_id: Option<Finding>,
}

// Findings 7, 8, 9, and one of 12, 5, 11 and 1.
#[derive(Clone, Copy)]
pub struct PairFindings {
    pub document: Option<Finding>,
    pub epoch: Option<Finding>,
    pub stream: Option<Finding>,
    pub sequence: Option<Finding>,
}

pub fn report_if(test: bool, kind: u64, domain: u64, secondary: u64) -> Option<Finding>
    ensures { optional_listed result ≡ report test (envelope_row kind domain secondary) }
{
    test.then_some(Finding {
        kind,
        domain,
        secondary,
    })
}

pub fn envelope_findings(envelope: ProjectionPatchEnvelope) -> EnvelopeFindings
    ensures { envelope_listed result ≡ envelope_findings (envelope_of envelope) }
{
    let id = envelope.patch_id.raw();
    let stream = envelope.stream_id.raw();
    let previous = envelope.previous_projection_revision.raw();
    let revision = envelope.projection_revision.raw();
    EnvelopeFindings {
        revision: report_if(revision <= previous, 10, id, 0),
        patch_id: report_if(id == 0, 13, id, 0),
        stream_id: report_if(stream == 0, 14, id, 0),
    }
}

// The finding of an envelope's sequence and previous revision after those of the envelope before it.
fn sequence_finding(
    before: ProjectionPatchEnvelope,
    envelope: ProjectionPatchEnvelope,
) -> Option<Finding>
    ensures { optional_listed result ≡ sequence_findings (envelope_of before) (envelope_of envelope) }
{
    let last = before.sequence.raw();
    let last_id = before.patch_id.raw();
    let sequence = envelope.sequence.raw();
    let id = envelope.patch_id.raw();
    if last == u64::MAX {
        return report_if(true, 12, last_id, last);
    }
    if sequence == last {
        return report_if(true, 5, id, sequence);
    }
    if sequence == last + 1 {
        let previous = envelope.previous_projection_revision.raw();
        let revision = before.projection_revision.raw();
        return report_if(previous != revision, 1, id, last_id);
    }
    report_if(true, 11, id, sequence)
}

pub fn pair_findings(
    before: ProjectionPatchEnvelope,
    envelope: ProjectionPatchEnvelope,
) -> PairFindings
    ensures { pair_listed result ≡ pair_findings (envelope_of before) (envelope_of envelope) }
{
    let id = envelope.patch_id.raw();
    let last_id = before.patch_id.raw();
    PairFindings {
        document: report_if(
            envelope.document_id.raw() != before.document_id.raw(),
            7,
            id,
            last_id,
        ),
        epoch: report_if(envelope.epoch.raw() != before.epoch.raw(), 8, id, last_id),
        stream: report_if(
            envelope.stream_id.raw() != before.stream_id.raw(),
            9,
            id,
            last_id,
        ),
        sequence: sequence_finding(before, envelope),
    }
}
