// Views of a session's projection that a screen or a page of paper shows.
#![tactic(auto)]

pub mod page;
pub mod print;
