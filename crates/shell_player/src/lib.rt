// A session of a panel: its lifecycle step, its batches and its lookups. After crates/prom-ui-runtime/src/shell_player.rs.
#![tactic(auto)]

pub mod batch;
pub mod lookups;
pub mod session;
mod tables;
