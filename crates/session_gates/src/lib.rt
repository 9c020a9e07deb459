// Steps 1 to 8 of a batch: the tests that it must pass before it is applied. After crates/prom-ui-runtime/src/shell_player.rs.
#![tactic(auto)]

pub mod batch;
pub mod gates;
