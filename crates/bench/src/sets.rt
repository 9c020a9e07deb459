// Reading and checks of one set.
use check_quick::quick_set;
use check_quick::quick_set::QuickCheck;
use check_set::check_set as set_check;
use projection_patch::patch::ProjectionPatchEdition;

// The surface of the first patch, which no rule looks at; a new one for each use keeps the uses apart.
const SURFACE: usize = 60;

// Numbers of the records that are lent to the check. Those of more findings are only counted.
const LENT: usize = 48;

// The number of operations, or the refusal's number.
fn read(set: &[u8]) -> u64 {
    match patch_walk::read_set(set, ProjectionPatchEdition::V1) {
        Ok(counts) => counts.operation_count as u64,
        Err(fault) => fault.number(),
    }
}

// The number of operations where there is no finding, or the refusal's number.
fn quick_check(set: &[u8]) -> u64 {
    match quick_set::quick_check(set, ProjectionPatchEdition::V1) {
        Ok(
            QuickCheck::Clean {
                operation_count,
                ..
            },
        ) => operation_count as u64,
        Ok(QuickCheck::Found) => 11,
        Err(fault) => fault.number(),
    }
}

// The number of findings, or the refusal's number.
fn check(set: &[u8], findings: &mut [u64]) -> u64 {
    match set_check::check(set, ProjectionPatchEdition::V1, findings) {
        Ok(checked) => checked.logical as u64,
        Err(fault) => fault.number(),
    }
}

fn use_once(way: u8, set: &[u8], findings: &mut [u64]) -> u64 {
    match way {
        b'r' => read(set),
        b'q' => quick_check(set),
        _ => check(set, findings),
    }
}

// The last answer.
pub(crate) fn use_often(way: u8, set: &mut [u8], times: u64) -> u64 {
    let mut findings = [0u64; LENT];
    let mut last = 0;
    for left in (1..=times).rev() {
        bytes_wire::write_u64_at(set, SURFACE, left);
        last = use_once(way, set, &mut findings);
    }
    last
}
