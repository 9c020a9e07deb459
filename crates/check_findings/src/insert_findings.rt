// Findings that may be there, put into a table one after the other.
ghost use Rattle.std.specs.Prelude.{◌≡◌};
ghost use Rattle.check_findings.specs.EnvelopeChecks.{optional_listed, envelope_listed, pair_listed};
ghost use Rattle.check_findings.specs.InsertFindings.{inserted_all};

use crate::envelope_checks::{EnvelopeFindings, PairFindings};
use check_table::Finding;

pub fn insert_optional(records: &mut [u64], count: usize, finding: Option<Finding>) -> usize
    ensures counted { result ≡ (inserted_all (optional_listed finding) count records.old).0 }
    ensures numbers { records.new ≡ (inserted_all (optional_listed finding) count records.old).1 }
{
    match finding {
        None => count,
        Some(finding) => check_table::insert_finding(records, count, finding),
    }
}

pub fn insert_envelope_findings(
    records: &mut [u64],
    count: usize,
    findings: EnvelopeFindings,
) -> usize
    ensures counted { result ≡ (inserted_all (envelope_listed findings) count records.old).0 }
    ensures numbers { records.new ≡ (inserted_all (envelope_listed findings) count records.old).1 }
{
    let one = insert_optional(records, count, findings.revision);
    let two = insert_optional(records, one, findings.patch_id);
    insert_optional(records, two, findings.stream_id)
}

pub fn insert_pair_findings(records: &mut [u64], count: usize, findings: PairFindings) -> usize
    ensures counted { result ≡ (inserted_all (pair_listed findings) count records.old).0 }
    ensures numbers { records.new ≡ (inserted_all (pair_listed findings) count records.old).1 }
{
    let one = insert_optional(records, count, findings.document);
    let two = insert_optional(records, one, findings.epoch);
    let three = insert_optional(records, two, findings.stream);
    insert_optional(records, three, findings.sequence)
}
