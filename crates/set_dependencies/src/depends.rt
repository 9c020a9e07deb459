// The call on a set's bytes: 12 or 10, 11, never applicable, 14, or both lists.
ghost use Rattle.std.specs.Prelude.{◌≡◌, List};
ghost use Rattle.spec_patch.specs.Patch.{Patch};
ghost use Rattle.spec_patch.specs.Read.{patches, read_set};
ghost use Rattle.spec_dependencies.specs.Settled.{Settled};
ghost use Rattle.spec_dependencies.specs.Dependencies.{settles, dependencies_by, dependencies};
ghost use Rattle.spec_dependencies.specs.Answer.{refusal_number, answer_by, dependencies_of};
ghost use Rattle.projection_patch.specs.Meaning.{edition_of};
ghost use Rattle.set_dependencies.specs.SettledRows.{SettledTable};
ghost use Rattle.set_dependencies.specs.DependsAnswers.{depends_refusal_of, depends_answer_to, stopped_answer};

use crate::walk_set::SettlingStop;
use crate::{settled_rows, walk_set, write_keys};
use check_quick::quick_set;
use check_quick::quick_set::QuickCheck;
use projection_patch::patch::ProjectionPatchEdition;
use projection_patch::read_values::ProjectionPatchReadFault;

// Why the call is refused.
#[derive(Drop)]
pub enum DependenciesRefusal {
    Unreadable(ProjectionPatchReadFault),
    Findings,
    OutputTooShort,
}

impl DependenciesRefusal {
    // The number of a refusal.
    pub fn number(self) -> u64
        ensures { result ≡ refusal_number (depends_refusal_of self) }
    {
        match self {
            DependenciesRefusal::Unreadable(fault) => fault.number(),
            DependenciesRefusal::Findings => 11,
            DependenciesRefusal::OutputTooShort => 14,
        }
    }
}

// Never applicable, with the first operation that contradicts those before it, by its patch and its index there; or how many keys must be
// there at the start, and how many must be absent.
#[derive(Drop)]
pub enum DependenciesAnswer {
    Never { patch: usize, operation: usize },
    Needs { held: usize, lacked: usize },
    Refused(DependenciesRefusal),
}

// Writes both lists of a table, if there is room for them.
fn list_keys(table: &[u8], count: usize, out: &mut [u64]) -> DependenciesAnswer
    ensures answered { (t : List Settled) → SettledTable count table.now t → result ≡ depends_answer_to (answer_by (dependencies_by (settles t)) out.old).answer }
    ensures written { (t : List Settled) → SettledTable count table.now t → out.new ≡ (answer_by (dependencies_by (settles t)) out.old).output }
{
    if out.len() / write_keys::PAIR < count {
        return DependenciesAnswer::Refused(DependenciesRefusal::OutputTooShort);
    }
    let held = write_keys::write_keys(table, count, true, out);
    let from = write_keys::PAIR * held;
    let lacked = write_keys::write_keys(table, count, false, &mut out[from..]);
    DependenciesAnswer::Needs { held, lacked }
}

// The answer of a walk that stops.
fn stopped(stop: SettlingStop) -> DependenciesAnswer
    ensures { result ≡ stopped_answer stop }
{
    match stop {
        SettlingStop::Contradiction { patch, operation } => DependenciesAnswer::Never {
            patch,
            operation,
        },
        SettlingStop::Unreadable(fault) => DependenciesAnswer::Refused(
            DependenciesRefusal::Unreadable(fault),
        ),
    }
}

// The answer of a set that reads and has no findings.
fn depends_clean(set: &[u8], edition: ProjectionPatchEdition, out: &mut [u64]) -> DependenciesAnswer
    ensures answered { (ps : List Patch) → read_set (edition_of edition) set.now ≡ patches ps → result ≡ depends_answer_to (answer_by (dependencies ps) out.old).answer }
    ensures written { (ps : List Patch) → read_set (edition_of edition) set.now ≡ patches ps → out.new ≡ (answer_by (dependencies ps) out.old).output }
{
    let mut table = [0u8; settled_rows::TABLE_BYTES];
    let opened = patch_walk::open_set(set, edition);
    match opened {
        Ok(start) => match walk_set::settle_steps(set, edition, start, &mut table) {
            Ok(places) => list_keys(
                settled_rows::rows_from(&table, places.start),
                places.count,
                out,
            ),
            Err(stop) => stopped(stop),
        },
        Err(fault) => DependenciesAnswer::Refused(DependenciesRefusal::Unreadable(fault)),
    }
}

// What a set depends on: both counts, and into out two numbers for each key, collection and key, first of those that must be there at the
// start, then of those that must be absent. Nothing is written on a refusal or for never.
pub fn depends(set: &[u8], edition: ProjectionPatchEdition, out: &mut [u64]) -> DependenciesAnswer
    ensures answered { result ≡ depends_answer_to (dependencies_of (edition_of edition) set.now out.old).answer }
    ensures written { out.new ≡ (dependencies_of (edition_of edition) set.now out.old).output }
{
    match quick_set::quick_check(set, edition) {
        Ok(checked) => match checked {
            QuickCheck::Clean { .. } => depends_clean(set, edition, out),
            QuickCheck::Found => DependenciesAnswer::Refused(DependenciesRefusal::Findings),
        },
        Err(fault) => DependenciesAnswer::Refused(DependenciesRefusal::Unreadable(fault)),
    }
}
