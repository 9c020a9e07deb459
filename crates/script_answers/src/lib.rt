// The lines that a replay prints of the answers of a session's calls, of the check of a set, of its conversion, of what it depends on, of a print, of a group and of the senders' turns, printed into a lent slice.
#![tactic(auto)]

pub mod check;
pub mod conversion;
pub mod dependencies;
pub mod fields;
pub mod group;
pub mod import;
pub mod page;
pub mod paper;
pub mod session;
pub mod turns;
pub mod value;
