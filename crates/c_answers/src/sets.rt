// What the calls that look at a set answer, as numbers.
ghost use Rattle.std.specs.Prelude.{◌≡◌};
ghost use Rattle.c_answers.specs.Sets.{checked_in, checked_at, unchecked_set, check_told, never_by, needs_keys, not_told, dependencies_told};

use check_set::check_set::{CheckPlace, PatchSetCheck};
use projection_patch::read_values::ProjectionPatchReadFault;
use set_dependencies::depends::DependenciesAnswer;

// 0, and whether the findings are those of a patch (1, and its index from 0) or of the set (0, also where there are none), how many there are
// and how many records were written; 2 and the number of reading's rule; 4 no such edition.
#[repr(C)]
#[derive(Clone, Copy)]
pub struct GeysertrayChecked {
    pub disposition: u64,
    pub number: u64,
    pub in_patch: u64,
    pub patch: u64,
    pub logical: u64,
    pub written: u64,
}

// 0, and either never is 1 with the first operation that contradicts those before it, by its patch and its index there; or how many keys must
// be there at the start and how many must be absent. 2 and the number of the rule that refuses; 4 no such edition.
#[repr(C)]
#[derive(Clone, Copy)]
pub struct GeysertrayDependencies {
    pub disposition: u64,
    pub number: u64,
    pub never: u64,
    pub patch: u64,
    pub operation: u64,
    pub held: u64,
    pub lacked: u64,
}

const REJECTED: u64 = 2;

fn checked_in(in_patch: u64, patch: usize, logical: usize, written: usize) -> GeysertrayChecked
    ensures { result ≡ checked_in in_patch patch logical written }
{
    GeysertrayChecked {
        disposition: 0,
        number: 0,
        in_patch,
        patch: patch as u64,
        logical: logical as u64,
        written: written as u64,
    }
}

pub fn unchecked(disposition: u64, number: u64) -> GeysertrayChecked
    ensures { result ≡ unchecked_set disposition number }
{
    GeysertrayChecked {
        disposition,
        number,
        in_patch: 0,
        patch: 0,
        logical: 0,
        written: 0,
    }
}

fn checked_at(place: CheckPlace, logical: usize, written: usize) -> GeysertrayChecked
    ensures { result ≡ checked_at place logical written }
{
    match place {
        CheckPlace::Patch(index) => checked_in(1, index, logical, written),
        CheckPlace::Set => checked_in(0, 0, logical, written),
    }
}

pub fn check_told(answer: Result<PatchSetCheck, ProjectionPatchReadFault>) -> GeysertrayChecked
    ensures { result ≡ check_told answer }
{
    match answer {
        Ok(checked) => checked_at(checked.place, checked.logical, checked.written),
        Err(fault) => unchecked(REJECTED, fault.number()),
    }
}

fn never_by(patch: usize, operation: usize) -> GeysertrayDependencies
    ensures { result ≡ never_by patch operation }
{
    GeysertrayDependencies {
        disposition: 0,
        number: 0,
        never: 1,
        patch: patch as u64,
        operation: operation as u64,
        held: 0,
        lacked: 0,
    }
}

fn needs_keys(held: usize, lacked: usize) -> GeysertrayDependencies
    ensures { result ≡ needs_keys held lacked }
{
    GeysertrayDependencies {
        disposition: 0,
        number: 0,
        never: 0,
        patch: 0,
        operation: 0,
        held: held as u64,
        lacked: lacked as u64,
    }
}

pub fn not_told(disposition: u64, number: u64) -> GeysertrayDependencies
    ensures { result ≡ not_told disposition number }
{
    GeysertrayDependencies {
        disposition,
        number,
        never: 0,
        patch: 0,
        operation: 0,
        held: 0,
        lacked: 0,
    }
}

pub fn dependencies_told(answer: DependenciesAnswer) -> GeysertrayDependencies
    ensures { result ≡ dependencies_told answer }
{
    match answer {
        DependenciesAnswer::Never { patch, operation } => never_by(patch, operation),
        DependenciesAnswer::Needs { held, lacked } => needs_keys(held, lacked),
        DependenciesAnswer::Refused(refusal) => not_told(REJECTED, refusal.number()),
    }
}
