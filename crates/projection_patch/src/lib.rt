// Patches and their canonical bytes. After crates/prom-ui/src/projection_patch.rs.
#![tactic(auto)]

pub mod binding_graph;
pub mod contract_primitives;
pub mod patch;
pub mod read_operations;
pub mod read_values;
pub mod text_rule;
pub mod widths;
