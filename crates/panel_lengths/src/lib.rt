// Each collection's length: written from the entries of a plan, in which those of one collection stand side by side, and looked up.
#![tactic(auto)]

pub mod lookup;
pub mod write;
