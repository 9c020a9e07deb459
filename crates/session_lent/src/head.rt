// The head of a lent session: its id, lifecycle, whether it has a cursor, the cursor, the four limits and how many rows each table has.
ghost use Rattle.std.specs.Prelude.{◌≡◌, [], ◌∷◌, length};
ghost use Rattle.session_lifecycle.specs.Meaning.{lifecycle_of, cursor_of, shell_state_of, limits_of};
ghost use Rattle.session_lent.specs.Head.{head_numbers, lifecycle_number, lifecycle_numbered, cursor_numbered, state_at, limits_at, counts_at, new_head, moved_head};

use local_projection_state::ProjectionCounts;
use session_lifecycle::state::{
    ProjectionReplayCursor, ShellLifecycle, ShellLifecycleLimits, ShellLocalState, ShellSessionId,
};

// How many numbers a head has.
pub const NUMBERS: usize = 11;

fn lifecycle_of(number: u64) -> ShellLifecycle
    ensures { lifecycle_of result ≡ lifecycle_numbered number }
{
    match number {
        0 => ShellLifecycle::Created,
        1 => ShellLifecycle::Active,
        2 => ShellLifecycle::Suspended,
        _ => ShellLifecycle::Closed,
    }
}

// 0 Created, 1 Active, 2 Suspended, 3 Closed. C reads and writes heads, so they are raw numbers; no From says this, since both types are of
// other crates.
pub fn lifecycle_number(lifecycle: ShellLifecycle) -> u64
    ensures { result ≡ lifecycle_number (lifecycle_of lifecycle) }
{
    match lifecycle {
        ShellLifecycle::Created => 0,
        ShellLifecycle::Active => 1,
        ShellLifecycle::Suspended => 2,
        ShellLifecycle::Closed => 3,
    }
}

// A cursor at a number where the first one is not 0.
pub fn cursor_of(kind: u64, number: u64) -> ProjectionReplayCursor
    ensures { cursor_of result ≡ cursor_numbered kind number }
{
    if kind == 0 {
        return ProjectionReplayCursor::Uninitialized;
    }
    ProjectionReplayCursor::At(number)
}

// The state that a head tells.
pub fn state_in(head: &[u64]) -> ShellLocalState
    requires { length head.now ≡ head_numbers }
    ensures { shell_state_of result ≡ state_at head.now }
{
    let id = head[0];
    let lifecycle = lifecycle_of(head[1]);
    let replay_cursor = cursor_of(head[2], head[3]);
    ShellLocalState {
        session_id: ShellSessionId(id),
        lifecycle,
        replay_cursor,
    }
}

pub fn limits_in(head: &[u64]) -> ShellLifecycleLimits
    requires { length head.now ≡ head_numbers }
    ensures { limits_of result ≡ limits_at head.now }
{
    ShellLifecycleLimits {
        max_transition_stimulus_bytes: head[4],
        max_diagnostics_per_transition: head[5],
        max_patches_per_transition: head[6],
        max_target_references_per_transition: head[7],
    }
}

// How many rows of each table are used.
pub fn counts_in(head: &[u64]) -> ProjectionCounts
    requires { length head.now ≡ head_numbers }
    ensures { result ≡ counts_at head.now }
{
    ProjectionCounts {
        bindings: head[8] as usize,
        availabilities: head[9] as usize,
        entries: head[10] as usize,
    }
}

// Writes the head of a new session: Created, Uninitialized, without rows.
pub(crate) fn store_new(head: &mut [u64], id: u64, limits: ShellLifecycleLimits)
    requires { length head.old ≡ head_numbers }
    ensures { head.new ≡ new_head id (limits_of limits) }
{
    head[0] = id;
    head[1] = 0;
    head[2] = 0;
    head[3] = 0;
    head[4] = limits.max_transition_stimulus_bytes;
    head[5] = limits.max_diagnostics_per_transition;
    head[6] = limits.max_patches_per_transition;
    head[7] = limits.max_target_references_per_transition;
    head[8] = 0;
    head[9] = 0;
    head[10] = 0;
}

// Writes the head after a batch that was applied to the session of another head: its cursor and its counts are new.
pub(crate) fn store_moved(from: &[u64], sequence_no: u64, counts: ProjectionCounts, to: &mut [u64])
    requires { (length from.now ≡ head_numbers) × (length to.old ≡ head_numbers) }
    ensures { to.new ≡ moved_head from.now sequence_no counts }
{
    to[0] = from[0];
    to[1] = from[1];
    to[2] = 1;
    to[3] = sequence_no;
    to[4] = from[4];
    to[5] = from[5];
    to[6] = from[6];
    to[7] = from[7];
    to[8] = counts.bindings as u64;
    to[9] = counts.availabilities as u64;
    to[10] = counts.entries as u64;
}
