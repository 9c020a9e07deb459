// Writing of patch lists as canonical bytes. After crates/prom-ui/src/projection_patch.rs.
#![tactic(auto)]

mod judgement;
pub mod set;
mod survey;
