// What a session's answers tell of it, and the limits of one transition.
#[derive(Clone, Copy)]
pub struct ShellSessionId(pub u64);

#[derive(Clone, Copy)]
pub enum ShellLifecycle {
    Created,
    Active,
    Suspended,
    Closed,
}

// The sequence number of the last batch that was applied.
#[derive(Clone, Copy)]
pub enum ProjectionReplayCursor {
    Uninitialized,
    At(u64),
}

#[derive(Clone, Copy)]
pub struct ShellLocalState {
    pub session_id: ShellSessionId,
    pub lifecycle: ShellLifecycle,
    pub replay_cursor: ProjectionReplayCursor,
}

#[derive(Clone, Copy)]
pub struct ShellLifecycleLimits {
    pub max_transition_stimulus_bytes: u64,
    pub max_diagnostics_per_transition: u64,
    pub max_patches_per_transition: u64,
    pub max_target_references_per_transition: u64,
}
