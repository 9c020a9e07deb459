// The anchors that a session was created with, after crates/prom-ui-runtime/src/active_projection_target_catalog.rs.
#![tactic(auto)]

pub mod catalog;
pub mod membership;
