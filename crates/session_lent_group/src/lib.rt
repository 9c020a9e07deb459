// Several batches, or none, on a session in lent memory: 02, 'Job 12'. The session's own half stays; two further halves are lent to work in, and
// the batches go from the own half to the first, from there to the second, and so on from one to the other.
#![tactic(auto)]

mod between;
pub mod group;
mod one;
pub mod places;
mod sending;
