// What one set depends on.
use projection_patch::patch::ProjectionPatchEdition;
use set_dependencies::depends;
use set_dependencies::depends::DependenciesAnswer;

// The surface of the first patch, which no rule looks at; a new one for each use keeps the uses apart.
const SURFACE: usize = 60;

// Two numbers for each key of the set with the most keys.
const LENT: usize = 5040;

// The number of keys that must be there, or the refusal's number.
fn depend(set: &[u8], out: &mut [u64]) -> u64 {
    match depends::depends(set, ProjectionPatchEdition::V1, out) {
        DependenciesAnswer::Never {
            patch: _,
            operation: _,
        } => 0,
        DependenciesAnswer::Needs { held, lacked: _ } => held as u64,
        DependenciesAnswer::Refused(refusal) => refusal.number(),
    }
}

// The last answer.
pub(crate) fn depend_often(set: &mut [u8], times: u64) -> u64 {
    let mut out = [0u64; LENT];
    let mut last = 0;
    for left in (1..=times).rev() {
        bytes_wire::write_u64_at(set, SURFACE, left);
        last = depend(set, &mut out);
    }
    last
}
