// The checks of patches and of sets, after `validate_patch` and `validate_patch_set` of crates/prom-ui/src/projection_patch.rs: the findings
// of a readable set are listed in a table on a walk over it.
#![tactic(auto)]

pub mod check_set;
pub mod list_operations;
pub mod list_patch;
pub mod list_set;
pub mod write_findings;
