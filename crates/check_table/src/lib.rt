// Findings in ascending order without repeats, kept as three numbers each in a lent slice.
#![tactic(auto)]

ghost use Rattle.std.specs.Prelude.{◌++◌, ◌≡◌, ◌-◌, ◌/◌, ◌≤◌, length, take};
ghost use Rattle.bytes_records.specs.Moves.{push_front};
ghost use Rattle.bytes_records.specs.Keys.{order_of};
ghost use Rattle.bytes_records.specs.Search.{place_of, PlaceWithin};
ghost use Rattle.spec_checks.specs.Finding.{finding_key};
ghost use Rattle.check_table.specs.FindingTable.{finding_of, findings_in, inserted_count, inserted_numbers};

use std::cmp::Ordering;

#[derive(Clone, Copy)]
pub struct Finding {
    pub kind: u64,
    pub domain: u64,
    pub secondary: u64,
}

// How one finding stands to another.
fn compare(own: Finding, other: Finding) -> Ordering
    ensures { result ≡ order_of (finding_key (finding_of own)) (finding_key (finding_of other)) }
{
    if own.kind < other.kind {
        return Ordering::Less;
    }
    if other.kind < own.kind {
        return Ordering::Greater;
    }
    if own.domain < other.domain {
        return Ordering::Less;
    }
    if other.domain < own.domain {
        return Ordering::Greater;
    }
    if own.secondary < other.secondary {
        return Ordering::Less;
    }
    if other.secondary < own.secondary {
        return Ordering::Greater;
    }
    Ordering::Equal
}

// The place of a finding among the records.
fn finding_place(records: &[u64], finding: Finding) -> Result<usize, usize>
    ensures place { result ≡ place_of finding_key (finding_key (finding_of finding)) (findings_in records.now) }
    ensures within { PlaceWithin (length records.now / 3) result }
{
    let mut at = 0;
    let mut place = 0;
    while 3 <= records.len() - at {
        let kind = records[at];
        let domain = records[at + 1];
        let secondary = records[at + 2];
        match compare(
            Finding {
                kind,
                domain,
                secondary,
            },
            finding,
        ) {
            Ordering::Less => {}
            Ordering::Equal => {
                return Ok(place);
            }
            Ordering::Greater => {
                return Err(place);
            }
        }
        at += 3;
        place += 1;
    }
    Err(place)
}

// Copies each number of s to the position three above it. The last three are lost, and the first three stay.
fn shift_up(s: &mut [u64])
    requires { 3 ≤ length s.old }
    ensures { s.new ≡ take 3 s.old ++ take (length s.old - 3) s.old }
{
    let end = s.len() - 3;
    s.copy_within(..end, 3);
}

// Inserts a finding before the numbers of s, whose last three are lost.
fn push_finding(s: &mut [u64], finding: Finding)
    requires { 3 ≤ length s.old }
    ensures { s.new ≡ push_front (finding_key (finding_of finding)) s.old }
{
    shift_up(s);
    s[0] = finding.kind;
    s[1] = finding.domain;
    s[2] = finding.secondary;
}

// Inserts a finding into the first count records, unless it is one of them, and answers how many they are then. Where there
// is no room for one more, nothing changes.
pub fn insert_finding(records: &mut [u64], count: usize, finding: Finding) -> usize
    ensures counted { result ≡ inserted_count (finding_of finding) count records.old }
    ensures numbers { records.new ≡ inserted_numbers (finding_of finding) count records.old }
{
    if records.len() / 3 <= count {
        return count;
    }
    let used = 3 * count;
    match finding_place(&records[..used], finding) {
        Ok(_) => count,
        Err(place) => {
            let from = 3 * place;
            let end = used + 3;
            push_finding(&mut records[from..end], finding);
            count + 1
        }
    }
}
