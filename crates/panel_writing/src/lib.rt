// Writes the tables that a plan stands for: each row once, its value straight from the table before the batch or from the
// set. What is read is lent read-only, and a refusal leaves every byte of the new table.
#![tactic(auto)]

ghost use Rattle.std.specs.Prelude.{◌≡◌, true, List, ℕ, ◌+◌, ◌*◌, ◌≤◌, ◌<◌, max, length};
ghost use Rattle.spec_lists.specs.Lists.{All};
ghost use Rattle.spec_patch.specs.Sizes.{projection_bindings, projection_availabilities, projection_entries};
ghost use Rattle.spec_projection.specs.Projection.{NodeAvailability, Projection};
ghost use Rattle.spec_projection.specs.Valid.{Valid};
ghost use Rattle.bytes_records.specs.Moves.{overwrite_rows};
ghost use Rattle.bytes_records.specs.Table.{table_bytes};
ghost use Rattle.projection_patch.specs.Meaning.{edition_of};
ghost use Rattle.panel_rows.specs.Rows.{field_at, value_width, availability_width, availability_row, binding_value_at, binding_width, binding_row, entry_value_at, entry_width, entry_row};
ghost use Rattle.local_projection_state.specs.Stores.{Stored};
ghost use Rattle.panel_plan.specs.PlanRows.{source_width, PlannedBindings, PlannedEntries};
ghost use Rattle.panel_plan.specs.Plan.{resolution};
ghost use Rattle.panel_plan.specs.Resolved.{resolved};
ghost use Rattle.panel_plan.specs.SetValues.{value_in};
ghost use Rattle.panel_plan.specs.Sources.{SourcedBinding, SourcedEntry};
ghost use Rattle.panel_writing.specs.Writing.{row_at, value_bytes, planned_row, RowRun, new_row, rows_to, can_write, written_table, ClearBehind, can_copy, copied_table};

use local_projection_state::LocalProjectionState;
use panel_plan::SOURCE_WIDTH;
use panel_rows::{fields, written};
use projection_patch::patch::ProjectionPatchEdition;
use projection_patch::read_values;

// The row at a position of a table, or what there is of it.
fn row_at(table: &[u8], width: usize, i: usize) -> &[u8]
    requires { (width ≤ entry_width) × (i ≤ projection_entries) }
    ensures { result.now ≡ row_at width i table.now }
{
    fields::key_part(fields::value_part(table, i * width), width)
}

// The bytes of the value that begins at a position of the set, as long as its kind and its length say.
fn value_bytes(set: &[u8], edition: ProjectionPatchEdition, at: usize) -> &[u8]
    ensures { result.now ≡ value_bytes (edition_of edition) set.now at }
{
    match read_values::value_at(set, at, false, edition) {
        Ok((_, end)) => fields::value_part(fields::key_part(set, end), at),
        Err(_) => &set[..0],
    }
}

// Copies rows of a table over the first bytes of another. They go through a block as large as a table: no two of the three overlap, so the compiler
// makes one move of both copies, wider than a loop's.
fn copy_rows(rows: &[u8], to: &mut [u8])
    requires { length rows.now ≤ length to.old }
    ensures { to.new ≡ overwrite_rows rows.now to.old }
{
    let n = rows.len();
    if LocalProjectionState::ENTRY_BYTES < n {
        bytes_records::moves::copy(rows, to);
        return;
    }
    let mut block = [0u8; LocalProjectionState::ENTRY_BYTES];
    bytes_records::moves::copy(rows, &mut block);
    bytes_records::moves::copy(&block[..n], to);
}

// Writes one row of the plan, or some that have old rows for their sources, one after the other: the bytes of the old rows, or the ids and the
// mark of the plan's row with the value that stands in the set.
fn write_planned(
    key: usize,
    row: &[u8],
    source: usize,
    from: &[u8],
    set: &[u8],
    edition: ProjectionPatchEdition,
    to: &mut [u8],
)
    requires { (key ≤ entry_value_at) × (source ≡ field_at key source_width row.now) }
    ensures { to.new ≡ planned_row (edition_of edition) key row.now from.now set.now to.old }
{
    if source < LocalProjectionState::ENTRIES {
        let start = source * (key + panel_rows::VALUE_WIDTH);
        let old = fields::key_part(fields::value_part(from, start), to.len());
        copy_rows(old, to);
    } else {
        let front = fields::key_part(row, key);
        let at = source - LocalProjectionState::ENTRIES;
        written::write_row(to, front, value_bytes(set, edition, at));
    }
}

// The source that stands at a position of the plan. Where its bytes are there, the compiler makes one load of them.
fn source_at(plan: &[u8], at: usize) -> usize
    requires { at ≤ projection_entries * entry_width }
    ensures { result ≡ field_at at source_width plan.now }
{
    let end = at + SOURCE_WIDTH;
    if plan.len() < end {
        return fields::number_at(plan, at, SOURCE_WIDTH) as usize;
    }
    bytes_records::keys::number_of(&plan[at..end]) as usize
}

// Whether a source stands at a position of the plan.
fn has_source(plan: &[u8], at: usize, source: usize) -> bool
    requires { at ≤ projection_entries * entry_width }
    ensures { result ≡ true → field_at at source_width plan.now ≡ source }
{
    let end = at + SOURCE_WIDTH;
    if plan.len() < end {
        return false;
    }
    bytes_records::keys::number_of(&plan[at..end]) == source as u64
}

// How many rows from the i-th on are written in one copy: old rows that follow each other, or one row.
fn run_length(key: usize, plan: &[u8], count: usize, i: usize, source: usize) -> usize
    requires { (key ≤ entry_value_at) × ((count ≤ projection_entries) × (i < count)) }
    ensures { (1 ≤ result) × ((i + result ≤ count) × RowRun key plan.now i source result) }
{
    if LocalProjectionState::ENTRIES <= source {
        return 1;
    }
    let width = key + SOURCE_WIDTH;
    let most = (count - i).min(LocalProjectionState::ENTRIES - source);
    for n in 1..most {
        if !has_source(plan, (i + n) * width + key, source + n) {
            return n;
        }
    }
    most
}

// Writes so many rows from the front of the new table, and zeros behind them.
fn write_rows(
    key: usize,
    plan: &[u8],
    count: usize,
    from: &[u8],
    set: &[u8],
    edition: ProjectionPatchEdition,
    to: &mut [u8],
)
    requires { (key ≤ entry_value_at) × (count ≤ projection_entries) × (count * (key + value_width) ≤ length to.old) }
    ensures { to.new ≡ table_bytes (length to.old)
        (rows_to (new_row (edition_of edition) key plan.now from.now set.now to.old) count) }
{
    let width = key + panel_rows::VALUE_WIDTH;
    // each turn goes past a whole run, of another length each time
    let mut i = 0;
    while i < count {
        let row = row_at(plan, key + SOURCE_WIDTH, i);
        let source = source_at(plan, i * (key + SOURCE_WIDTH) + key);
        let n = run_length(key, plan, count, i, source);
        let start = i * width;
        let end = start + n * width;
        write_planned(key, row, source, from, set, edition, &mut to[start..end]);
        i += n;
    }
    let used = count * width;
    bytes_records::moves::clear(&mut to[used..]);
}

// The greater of two counts: the rows that are used now, or were.
pub fn greater(a: usize, b: usize) -> usize
    ensures { result ≡ max a b }
{
    a.max(b)
}

// Writes the rows of a plan into a table of so many places, of which so many were used. Answers whether it is that table, and has a place
// for each.
fn write_table(
    key: usize,
    capacity: usize,
    plan: &[u8],
    count: usize,
    used: usize,
    from: &[u8],
    set: &[u8],
    edition: ProjectionPatchEdition,
    to: &mut [u8],
) -> bool
    requires { (key ≤ entry_value_at) × (capacity ≤ projection_entries) }
    ensures value { result ≡ can_write key capacity count used to.old }
    ensures to_after { to.new ≡ written_table (edition_of edition) key capacity count used plan.now from.now set.now to.old }
{
    if capacity < count {
        return false;
    }
    if capacity < used {
        return false;
    }
    let width = key + panel_rows::VALUE_WIDTH;
    if to.len() != capacity * width {
        return false;
    }
    let size = greater(count, used) * width;
    write_rows(key, plan, count, from, set, edition, &mut to[0..size]);
    true
}

// Writes the bindings of a plan: each row's ids and mark, and its value from the table before the batch or from the set. Places that were used and
// are used no more become zero; behind those nothing is written.
pub fn write_bindings(
    plan: &[u8],
    count: usize,
    used: usize,
    from: &[u8],
    set: &[u8],
    edition: ProjectionPatchEdition,
    to: &mut [u8],
) -> bool
    ensures told { result ≡ can_write binding_value_at projection_bindings count used to.old }
    ensures made { to.new ≡ written_table (edition_of edition) binding_value_at projection_bindings count used plan.now from.now set.now to.old }
    ensures stores { result ≡ true → ClearBehind used binding_width to.old → (p q : Projection) (n : ℕ) → Stored binding_row binding_width projection_bindings n from.now p.bindings → Valid p
        → PlannedBindings count plan.now q.bindings → Valid q → All (SourcedBinding (edition_of edition) p set.now) q.bindings
        → Stored binding_row binding_width projection_bindings count to.new (resolved (resolution p (value_in (edition_of edition) set.now)) q).bindings }
{
    write_table(
        panel_rows::BINDING_VALUE,
        LocalProjectionState::BINDINGS,
        plan,
        count,
        used,
        from,
        set,
        edition,
        to,
    )
}

// Writes the entries of a plan, likewise.
pub fn write_entries(
    plan: &[u8],
    count: usize,
    used: usize,
    from: &[u8],
    set: &[u8],
    edition: ProjectionPatchEdition,
    to: &mut [u8],
) -> bool
    ensures told { result ≡ can_write entry_value_at projection_entries count used to.old }
    ensures made { to.new ≡ written_table (edition_of edition) entry_value_at projection_entries count used plan.now from.now set.now to.old }
    ensures stores { result ≡ true → ClearBehind used entry_width to.old → (p q : Projection) (n : ℕ) → Stored entry_row entry_width projection_entries n from.now p.entries → Valid p
        → PlannedEntries count plan.now q.entries → Valid q → All (SourcedEntry (edition_of edition) p set.now) q.entries
        → Stored entry_row entry_width projection_entries count to.new (resolved (resolution p (value_in (edition_of edition) set.now)) q).entries }
{
    write_table(
        panel_rows::ENTRY_VALUE,
        LocalProjectionState::ENTRIES,
        plan,
        count,
        used,
        from,
        set,
        edition,
        to,
    )
}

// Writes the availabilities of a plan, whose rows are those of the table, in the places that are used or were. Answers whether both are such
// tables, and have a place for each.
pub fn write_availabilities(plan: &[u8], count: usize, used: usize, to: &mut [u8]) -> bool
    ensures told { result ≡ can_copy count used plan.now to.old }
    ensures made { to.new ≡ copied_table count used plan.now to.old }
    ensures stores { result ≡ true → ClearBehind used availability_width to.old → (l : List NodeAvailability) → Stored availability_row availability_width projection_availabilities count plan.now l
        → Stored availability_row availability_width projection_availabilities count to.new l }
{
    if LocalProjectionState::AVAILABILITIES < count {
        return false;
    }
    if LocalProjectionState::AVAILABILITIES < used {
        return false;
    }
    if plan.len() != LocalProjectionState::AVAILABILITY_BYTES {
        return false;
    }
    if to.len() != LocalProjectionState::AVAILABILITY_BYTES {
        return false;
    }
    let size = greater(count, used) * panel_rows::AVAILABILITY_WIDTH;
    bytes_records::moves::copy(&plan[0..size], &mut to[0..size]);
    true
}
