// A walk over a set, one step at a time: a patch's head, an operation, or the end. Every pass over a set goes by it.
#![tactic(auto)]

ghost use Rattle.std.specs.Prelude.{◌≡◌, ◌<◌, length};
ghost use Rattle.spec_patch.specs.Read.{read_set};
ghost use Rattle.projection_patch.specs.Meaning.{edition_of};
ghost use Rattle.patch_walk.specs.Steps.{open_answer, operation_step, head_step, step_answer, StepWithin};
ghost use Rattle.patch_walk.specs.SetReads.{set_answer, end_answer, left_at};

use projection_patch::patch::{
    ProjectionPatch, ProjectionPatchEdition, ProjectionPatchOperation, ProjectionPatchSet,
};
use projection_patch::read_operations;
use projection_patch::read_values::ProjectionPatchReadFault;

// Where a walk stands. The patch that was opened last has index patch_count - patches_left - 1, and the operation that comes next has
// index operation_count - operations_left in it.
#[derive(Clone, Copy)]
pub struct SetCursor {
    pub at: usize,
    pub patch_count: usize,
    pub patches_left: usize,
    pub patch_id: u64,
    pub operation_count: usize,
    pub operations_left: usize,
}

// What stands at a cursor, and the cursor behind it. The place of an operation's text counts from the cursor's position.
#[derive(Clone, Copy)]
pub enum SetStep {
    Head(ProjectionPatch, SetCursor),
    Operation(ProjectionPatchOperation, SetCursor),
    End,
}

// How many patches and operations a set has.
#[derive(Clone, Copy)]
pub struct SetCounts {
    pub patch_count: usize,
    pub operation_count: usize,
}

// Reads the heading of a set.
pub fn open_set(
    set: &[u8],
    edition: ProjectionPatchEdition,
) -> Result<SetCursor, ProjectionPatchReadFault>
    ensures { result ≡ open_answer (edition_of edition) set.now }
{
    if ProjectionPatchSet::BYTES < set.len() {
        return Err(ProjectionPatchReadFault::OverCapacity);
    }
    let (patch_count, at) = patch_sets::read_heading(set, edition)?;
    Ok(SetCursor {
        at,
        patch_count,
        patches_left: patch_count,
        patch_id: 0,
        operation_count: 0,
        operations_left: 0,
    })
}

// The operation at a cursor.
#[inline(always)]
fn operation_step(
    set: &[u8],
    cursor: SetCursor,
    strict: bool,
    edition: ProjectionPatchEdition,
) -> Result<SetStep, ProjectionPatchReadFault>
    requires { 0 < cursor.operations_left }
    ensures is { result ≡ operation_step strict (edition_of edition) cursor set.now }
    ensures within { StepWithin cursor (length set.now) result }
{
    let rest = set
        .get(cursor.at..)
        .ok_or(ProjectionPatchReadFault::Malformed)?;
    let (operation, taken) = read_operations::operation_from(rest, strict, edition)?;
    let next = SetCursor {
        at: cursor.at + taken,
        operations_left: cursor.operations_left - 1,
        ..cursor
    };
    Ok(SetStep::Operation(operation, next))
}

// The patch's head at a cursor.
#[inline(always)]
fn head_step(set: &[u8], cursor: SetCursor) -> Result<SetStep, ProjectionPatchReadFault>
    requires { 0 < cursor.patches_left }
    ensures is { result ≡ head_step cursor set.now }
    ensures within { StepWithin cursor (length set.now) result }
{
    let rest = set
        .get(cursor.at..)
        .ok_or(ProjectionPatchReadFault::Malformed)?;
    let (head, taken) = patch_sets::read_patch_head(rest)?;
    let next = SetCursor {
        at: cursor.at + taken,
        patches_left: cursor.patches_left - 1,
        patch_id: head.envelope.patch_id.raw(),
        operation_count: head.operation_count,
        operations_left: head.operation_count,
        ..cursor
    };
    Ok(SetStep::Head(head, next))
}

// What stands at a cursor. Texts are checked where the walk is strict. A walk that reads has this in its own loop, so that no step goes through
// memory there.
#[inline(always)]
#[tactic(auto, unfolding(crate::specs::Steps::step_answer))]
fn step_at(
    set: &[u8],
    cursor: SetCursor,
    strict: bool,
    edition: ProjectionPatchEdition,
) -> Result<SetStep, ProjectionPatchReadFault>
    ensures is { result ≡ step_answer strict (edition_of edition) cursor set.now }
    ensures within { StepWithin cursor (length set.now) result }
{
    if 0 < cursor.operations_left {
        return operation_step(set, cursor, strict, edition);
    }
    if 0 < cursor.patches_left {
        return head_step(set, cursor);
    }
    Ok(SetStep::End)
}

// What stands at a cursor. Texts are checked where the walk is strict. The set, strictness and edition stay apart from the cursor, which callers keep
// by value without a borrow of the set.
pub fn next_step(
    set: &[u8],
    cursor: SetCursor,
    strict: bool,
    edition: ProjectionPatchEdition,
) -> Result<SetStep, ProjectionPatchReadFault>
    ensures is { result ≡ step_answer strict (edition_of edition) cursor set.now }
    ensures within { StepWithin cursor (length set.now) result }
{
    step_at(set, cursor, strict, edition)
}

// The answer behind the last step, in a set of so many bytes.
fn set_end(
    bytes: usize,
    cursor: SetCursor,
    operations: usize,
) -> Result<SetCounts, ProjectionPatchReadFault>
    ensures { result ≡ end_answer bytes cursor operations }
{
    if cursor.at < bytes {
        return Err(ProjectionPatchReadFault::Malformed);
    }
    Ok(SetCounts {
        patch_count: cursor.patch_count,
        operation_count: operations,
    })
}

// Reads what is left at a cursor, and counts its operations.
fn read_steps(
    set: &[u8],
    first: SetCursor,
    edition: ProjectionPatchEdition,
) -> Result<SetCounts, ProjectionPatchReadFault>
    ensures { result ≡ left_at (edition_of edition) set.now first 0 }
{
    let mut cursor = first;
    let mut operations: usize = 0;
    loop {
        match step_at(set, cursor, true, edition)? {
            SetStep::Head(_, next) => {
                cursor = next;
            }
            SetStep::Operation(_, next) => {
                cursor = next;
                operations = operations + 1;
            }
            SetStep::End => {
                return set_end(set.len(), cursor, operations);
            }
        }
    }
}

// Reads a whole set: how many patches and operations it has.
pub fn read_set(
    set: &[u8],
    edition: ProjectionPatchEdition,
) -> Result<SetCounts, ProjectionPatchReadFault>
    ensures { result ≡ set_answer (read_set (edition_of edition) set.now) }
{
    read_steps(set, open_set(set, edition)?, edition)
}
