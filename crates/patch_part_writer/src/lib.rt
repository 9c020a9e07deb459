// The parts of canonical bytes, stored where there is room for them: the heading, a patch's head and an operation. After crates/prom-ui/src/projection_patch.rs.
#![tactic(auto)]

pub mod extent;
pub mod fields;
pub mod head;
pub mod operation;
pub mod written;
