// Findings written into a lent slice.
ghost use Rattle.std.specs.Prelude.{◌≡◌, ◌++◌, ◌*◌, ◌/◌, min, length, take, drop};
ghost use Rattle.spec_checks.specs.Answer.{record_length};

use crate::list_set::FindingsListed;

// How many of count records fit so many places.
fn fitting(count: usize, places: usize) -> usize
    ensures { result ≡ min (places / record_length) count }
{
    count.min(places / FindingsListed::RECORD)
}

// Copies the first count records, or those that fit, to the start of out, and answers how many they are.
pub fn write_findings(records: &[u64], count: usize, out: &mut [u64]) -> usize
    ensures counted { result ≡ min (length records.now / record_length) (min (length out.old / record_length) count) }
    ensures written { out.new ≡ take (record_length * result) records.now ++ drop (record_length * result) out.old }
{
    let written = fitting(fitting(count, out.len()), records.len());
    let end = FindingsListed::RECORD * written;
    out[..end].copy_from_slice(&records[..end]);
    written
}
