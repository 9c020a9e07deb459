// What the steps of a session do with its parts: steps 1 to 8 of a batch, the answers, and the state afterwards. After crates/prom-ui-runtime/src/shell_player.rs.
#![tactic(auto)]

pub mod answers;
pub mod checks;
pub mod states;
