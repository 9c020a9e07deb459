// The checks of patches and of sets, after `validate_patch` and `validate_patch_set` of crates/prom-ui/src/projection_patch.rs.
#![tactic(auto)]

pub mod envelope_checks;
pub mod found;
pub mod ids;
pub mod insert_findings;
