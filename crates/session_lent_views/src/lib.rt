// The calls that read a session in lent memory: look-ups, a page of them, the listing and the print of a collection. Each is lent the head and the
// tables that it reads, and says of them what the calls below say of a projection's tables.
#![tactic(auto)]

pub mod listing;
pub mod lookups;
pub mod page;
pub mod print;
pub mod tables;
