// What the calls for C answer, as numbers, and what they are asked for by numbers. The crate that exports them calls these.
// Kinds, flags and refusals are raw numbers here, and a value stands beside its flag: that is the C interface.
#![tactic(auto)]

pub mod answers;
pub mod asked;
pub mod counts;
pub mod explanations;
pub mod figures;
pub mod groups;
pub mod rules;
pub mod sets;
pub mod values;
