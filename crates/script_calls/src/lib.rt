// The calls of a replay: each takes the state, prints its answer from the start of a lent slice, and gives the state after it.
#![tactic(auto)]

pub mod calls;
pub mod groups;
pub mod marks;
pub mod pages;
pub mod paper;
pub mod reasons;
pub mod setup;
pub mod state;
pub mod turns;
pub mod views;
