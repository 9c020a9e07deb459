// A set's operations, applied from the tables before it to those after it: planned on ids first, and then each row is written once.
// After crates/prom-ui/src/local_projection_state.rs.
#![tactic(auto)]

pub mod memory;

ghost use Rattle.std.specs.Prelude.{◌≡◌, true, false, ◌&&◌, List, [], ℕ, ◌≤◌, length};
ghost use Rattle.spec_lists.specs.Lists.{All};
ghost use Rattle.spec_patch.specs.Sizes.{set_bytes};
ghost use Rattle.spec_patch.specs.Fits.{FitsPatch};
ghost use Rattle.spec_patch.specs.Patch.{Patch};
ghost use Rattle.spec_patch.specs.Read.{patches, read_set};
ghost use Rattle.spec_projection.specs.Projection.{Projection};
ghost use Rattle.spec_projection.specs.Apply.{replay_steps, apply_steps};
ghost use Rattle.spec_projection.specs.Valid.{Valid};
ghost use Rattle.projection_patch.specs.Meaning.{edition_of};
ghost use Rattle.patch_walk.specs.Steps.{AtSteps};
ghost use Rattle.panel_rows.specs.Rows.{availability_bytes, length_bytes};
ghost use Rattle.local_projection_state.specs.Stores.{StoredTables};
ghost use Rattle.panel_steps.specs.Runs.{PlannedAs, RunTold};
ghost use Rattle.panel_changes.specs.PlanMemory.{plan_in, ClearPlan};
ghost use Rattle.panel_changes.specs.declared.SetRefusal.TheVariants.{Unreadable};
ghost use Rattle.panel_changes.specs.SetChanges.{tables_fit, change_counts_fit, TableLengths, none_used, ReadyTables, StoredAfter, ChangeBecame, TablesKeptUnlessApplied};

use local_projection_state::{
    LocalProjectionApplicationError, LocalProjectionState, ProjectionCounts,
};
use panel_lengths::write;
use panel_plan::fill;
use panel_steps::PlanStop;
use patch_walk::SetCursor;
use projection_patch::patch::ProjectionPatchEdition;
use projection_patch::read_values::ProjectionPatchReadFault;

// Why a set is not applied: BadTables is a table of another length, or a count over its capacity.
#[derive(Clone, Copy)]
pub enum SetRefusal {
    Operation(LocalProjectionApplicationError),
    Unreadable(ProjectionPatchReadFault),
    BadTables,
}

impl From<ProjectionPatchReadFault> for SetRefusal {
    ghost from_gives = { λ fault refusal. refusal ≡ Unreadable fault };

    fn from(fault: ProjectionPatchReadFault) -> SetRefusal {
        SetRefusal::Unreadable(fault)
    }
}

// Whether so many bytes are the lengths of the three tables.
pub fn tables_fit(bindings: usize, availability: usize, entries: usize) -> bool
    ensures { result ≡ tables_fit bindings availability entries }
{
    bindings == LocalProjectionState::BINDING_BYTES
        && availability == LocalProjectionState::AVAILABILITY_BYTES
        && entries == LocalProjectionState::ENTRY_BYTES
}

// Whether each table has a place for so many rows.
pub fn counts_fit(counts: ProjectionCounts) -> bool
    ensures { result ≡ change_counts_fit counts }
{
    counts.bindings <= LocalProjectionState::BINDINGS
        && counts.availabilities <= LocalProjectionState::AVAILABILITIES
        && counts.entries <= LocalProjectionState::ENTRIES
}

// Whether the lengths of the tables that are read and of those that are written fit, and the counts.
fn arguments_fit(
    from_bindings: usize,
    from_availability: usize,
    from_entries: usize,
    to_bindings: usize,
    to_availability: usize,
    to_entries: usize,
    counts: ProjectionCounts,
    used: ProjectionCounts,
) -> bool
    ensures { result ≡ (tables_fit from_bindings from_availability from_entries && (tables_fit to_bindings to_availability to_entries && (change_counts_fit counts && change_counts_fit used))) }
{
    tables_fit(from_bindings, from_availability, from_entries)
        && tables_fit(to_bindings, to_availability, to_entries)
        && counts_fit(counts)
        && counts_fit(used)
}

// Writes the tables that a plan stands for, unless it has more rows than they have places.
fn write_tables(
    plan_bindings: &[u8],
    plan_availability: &[u8],
    plan_entries: &[u8],
    counts: ProjectionCounts,
    from_bindings: &[u8],
    from_entries: &[u8],
    set: &[u8],
    edition: ProjectionPatchEdition,
    to_bindings: &mut [u8],
    to_availability: &mut [u8],
    to_entries: &mut [u8],
    to_lengths: &mut [u8],
    used: ProjectionCounts,
) -> bool
    requires { TableLengths to_bindings.old to_availability.old to_entries.old × ((length to_lengths.old ≡ length_bytes) × ((length plan_availability.now ≡ availability_bytes) × (change_counts_fit used ≡ true))) }
    ensures told { result ≡ change_counts_fit counts }
    ensures kept { result ≡ false → (to_bindings.new ≡ to_bindings.old) × ((to_availability.new ≡ to_availability.old) × ((to_entries.new ≡ to_entries.old) × (to_lengths.new ≡ to_lengths.old))) }
    ensures stored { result ≡ true → ReadyTables used to_bindings.old to_availability.old to_entries.old to_lengths.old → (p x : Projection) (n : ProjectionCounts) (a : List ℕ) → StoredTables n from_bindings.now a from_entries.now p
        → PlannedAs (edition_of edition) p set.now plan_bindings.now plan_availability.now plan_entries.now counts x → Valid x
        → StoredAfter counts to_bindings.new to_availability.new to_entries.new to_lengths.new x }
{
    if counts_fit(counts) {
        panel_writing::write_bindings(
            plan_bindings,
            counts.bindings,
            used.bindings,
            from_bindings,
            set,
            edition,
            to_bindings,
        );
        panel_writing::write_availabilities(
            plan_availability,
            counts.availabilities,
            used.availabilities,
            to_availability,
        );
        panel_writing::write_entries(
            plan_entries,
            counts.entries,
            used.entries,
            from_entries,
            set,
            edition,
            to_entries,
        );
        write::write_lengths(plan_entries, counts.entries, used.entries, to_lengths);
        return true;
    }
    false
}

// Plans the operations from a cursor on, in the memory of a plan.
fn plan_set(
    from_bindings: &[u8],
    from_availability: &[u8],
    from_entries: &[u8],
    counts: ProjectionCounts,
    set: &[u8],
    edition: ProjectionPatchEdition,
    cursor: SetCursor,
    bindings: &mut [u8; panel_plan::BINDING_BYTES],
    availability: &mut [u8; LocalProjectionState::AVAILABILITY_BYTES],
    entries: &mut [u8; panel_plan::ENTRY_BYTES],
) -> Result<ProjectionCounts, PlanStop>
    requires { (length set.now ≤ set_bytes) × ((length from_availability.now ≡ availability_bytes) × (change_counts_fit counts ≡ true)) }
    ensures { (p : Projection) (ps : List Patch) → StoredTables counts from_bindings.now from_availability.now from_entries.now p
        → ClearPlan (plan_in bindings.old availability.old entries.old) → AtSteps (edition_of edition) set.now cursor [] ps
        → RunTold (edition_of edition) p ps set.now bindings.new availability.new entries.new result }
{
    fill::plan_bindings(from_bindings, counts.bindings, bindings);
    let held = counts.availabilities * panel_rows::AVAILABILITY_WIDTH;
    bytes_records::moves::copy(&from_availability[0..held], availability);
    fill::plan_entries(from_entries, counts.entries, entries);
    panel_steps::plan_steps(
        bindings,
        availability,
        entries,
        counts,
        set,
        edition,
        cursor,
    )
}

// Plans the operations from a cursor on, and writes the tables when all of them have run. The plan's memory is given back without rows.
fn apply_from(
    from_bindings: &[u8],
    from_availability: &[u8],
    from_entries: &[u8],
    counts: ProjectionCounts,
    set: &[u8],
    edition: ProjectionPatchEdition,
    cursor: SetCursor,
    to_bindings: &mut [u8],
    to_availability: &mut [u8],
    to_entries: &mut [u8],
    to_lengths: &mut [u8],
    used: ProjectionCounts,
    plan_bindings: &mut [u8; panel_plan::BINDING_BYTES],
    plan_availability: &mut [u8; LocalProjectionState::AVAILABILITY_BYTES],
    plan_entries: &mut [u8; panel_plan::ENTRY_BYTES],
) -> Result<ProjectionCounts, SetRefusal>
    requires { (length set.now ≤ set_bytes) × ((length from_availability.now ≡ availability_bytes) × (TableLengths to_bindings.old to_availability.old to_entries.old × ((length to_lengths.old ≡ length_bytes) × ((change_counts_fit used ≡ true) × (change_counts_fit counts ≡ true))))) }
    ensures changed { (p : Projection) (ps : List Patch) → StoredTables counts from_bindings.now from_availability.now from_entries.now p
        → All (FitsPatch (edition_of edition)) ps → AtSteps (edition_of edition) set.now cursor [] ps → ReadyTables used to_bindings.old to_availability.old to_entries.old to_lengths.old
        → ClearPlan (plan_in plan_bindings.old plan_availability.old plan_entries.old)
        → ChangeBecame (λ n q. StoredAfter n to_bindings.new to_availability.new to_entries.new to_lengths.new q) result (apply_steps p (replay_steps ps)) }
    ensures kept { TablesKeptUnlessApplied result to_bindings.old to_availability.old to_entries.old to_lengths.old to_bindings.new to_availability.new to_entries.new to_lengths.new }
    ensures cleared { (p : Projection) (ps : List Patch) → StoredTables counts from_bindings.now from_availability.now from_entries.now p
        → AtSteps (edition_of edition) set.now cursor [] ps → ClearPlan (plan_in plan_bindings.old plan_availability.old plan_entries.old)
        → ClearPlan (plan_in plan_bindings.new plan_availability.new plan_entries.new) }
{
    match plan_set(
        from_bindings,
        from_availability,
        from_entries,
        counts,
        set,
        edition,
        cursor,
        plan_bindings,
        plan_availability,
        plan_entries,
    ) {
        Ok(n) => {
            let written = write_tables(
                plan_bindings,
                plan_availability,
                plan_entries,
                n,
                from_bindings,
                from_entries,
                set,
                edition,
                to_bindings,
                to_availability,
                to_entries,
                to_lengths,
                used,
            );
            memory::clear_plan(plan_bindings, plan_availability, plan_entries, n);
            if written {
                Ok(n)
            } else {
                Err(SetRefusal::BadTables)
            }
        }
        Err(stop) => match stop {
            PlanStop::Refused { error, held, .. } => {
                memory::clear_plan(plan_bindings, plan_availability, plan_entries, held);
                Err(SetRefusal::Operation(error))
            }
            PlanStop::Unreadable(fault) => Err(SetRefusal::Unreadable(fault)),
        },
    }
}

// How many rows were used of tables that are all zeros.
pub fn none_used() -> ProjectionCounts
    ensures { result ≡ none_used }
{
    ProjectionCounts {
        bindings: 0,
        availabilities: 0,
        entries: 0,
    }
}

// Applies the operations of a set that is known to be readable: what the first tables store is read, and what the set makes of it is
// written to the others, with the lengths of its collections, whole or not at all. Of those so many rows were used, and what stands behind
// them is zero. The plan is made in memory of zeros, which are zeros again afterwards.
pub fn apply_set_with_plan<'a>(
    from_bindings: &'a [u8],
    from_availability: &'a [u8],
    from_entries: &'a [u8],
    counts: ProjectionCounts,
    set: &[u8],
    edition: ProjectionPatchEdition,
    to_bindings: &mut [u8],
    to_availability: &mut [u8],
    to_entries: &mut [u8],
    to_lengths: &mut [u8],
    used: ProjectionCounts,
    plan_bindings: &mut [u8; panel_plan::BINDING_BYTES],
    plan_availability: &mut [u8; LocalProjectionState::AVAILABILITY_BYTES],
    plan_entries: &mut [u8; panel_plan::ENTRY_BYTES],
) -> Result<ProjectionCounts, SetRefusal>
    ensures changed { (p : Projection) (ps : List Patch) → StoredTables counts from_bindings.now from_availability.now from_entries.now p
        → read_set (edition_of edition) set.now ≡ patches ps → ReadyTables used to_bindings.old to_availability.old to_entries.old to_lengths.old
        → ClearPlan (plan_in plan_bindings.old plan_availability.old plan_entries.old)
        → ChangeBecame (λ n q. StoredAfter n to_bindings.new to_availability.new to_entries.new to_lengths.new q) result (apply_steps p (replay_steps ps)) }
    ensures kept { TablesKeptUnlessApplied result to_bindings.old to_availability.old to_entries.old to_lengths.old to_bindings.new to_availability.new to_entries.new to_lengths.new }
    ensures cleared { (p : Projection) (ps : List Patch) → StoredTables counts from_bindings.now from_availability.now from_entries.now p
        → read_set (edition_of edition) set.now ≡ patches ps → ClearPlan (plan_in plan_bindings.old plan_availability.old plan_entries.old)
        → ClearPlan (plan_in plan_bindings.new plan_availability.new plan_entries.new) }
{
    if to_lengths.len() != LocalProjectionState::LENGTH_BYTES {
        return Err(SetRefusal::BadTables);
    }
    if !arguments_fit(
        from_bindings.len(),
        from_availability.len(),
        from_entries.len(),
        to_bindings.len(),
        to_availability.len(),
        to_entries.len(),
        counts,
        used,
    ) {
        return Err(SetRefusal::BadTables);
    }
    let cursor = patch_walk::open_set(set, edition)?;
    apply_from(
        from_bindings,
        from_availability,
        from_entries,
        counts,
        set,
        edition,
        cursor,
        to_bindings,
        to_availability,
        to_entries,
        to_lengths,
        used,
        plan_bindings,
        plan_availability,
        plan_entries,
    )
}

// The same, in a plan of its own.
pub fn apply_set<'a>(
    from_bindings: &'a [u8],
    from_availability: &'a [u8],
    from_entries: &'a [u8],
    counts: ProjectionCounts,
    set: &[u8],
    edition: ProjectionPatchEdition,
    to_bindings: &mut [u8],
    to_availability: &mut [u8],
    to_entries: &mut [u8],
    to_lengths: &mut [u8],
    used: ProjectionCounts,
) -> Result<ProjectionCounts, SetRefusal>
    ensures changed { (p : Projection) (ps : List Patch) → StoredTables counts from_bindings.now from_availability.now from_entries.now p
        → read_set (edition_of edition) set.now ≡ patches ps → ReadyTables used to_bindings.old to_availability.old to_entries.old to_lengths.old
        → ChangeBecame (λ n q. StoredAfter n to_bindings.new to_availability.new to_entries.new to_lengths.new q) result (apply_steps p (replay_steps ps)) }
    ensures kept { TablesKeptUnlessApplied result to_bindings.old to_availability.old to_entries.old to_lengths.old to_bindings.new to_availability.new to_entries.new to_lengths.new }
{
    let mut bindings = [0u8; panel_plan::BINDING_BYTES];
    let mut availability = [0u8; LocalProjectionState::AVAILABILITY_BYTES];
    let mut entries = [0u8; panel_plan::ENTRY_BYTES];
    apply_set_with_plan(
        from_bindings,
        from_availability,
        from_entries,
        counts,
        set,
        edition,
        to_bindings,
        to_availability,
        to_entries,
        to_lengths,
        used,
        &mut bindings,
        &mut availability,
        &mut entries,
    )
}
