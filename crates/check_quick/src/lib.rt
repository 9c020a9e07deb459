// The first pass over a set: each patch head and each operation is read once, and checked as it is read. It tells whether the set has a
// finding, without its findings, and how many targets are absent.
#![tactic(auto)]

pub mod anchors;
pub mod inspection;
pub mod quick_operations;
pub mod quick_patches;
pub mod quick_set;
