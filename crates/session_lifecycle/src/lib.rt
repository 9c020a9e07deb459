// The lifecycle of a session and the diagnostics of its answers, after crates/prom-ui-runtime/src/shell_player.rs.
#![tactic(auto)]

pub mod diagnostics;
pub mod lifecycle;
pub mod state;
