// Where the reading of a set stops: the rule, the patch and the operation, and the position of the field.
#![tactic(auto)]

pub mod fields;
pub mod rules;
pub mod set;
