// A session in memory that the caller lends: a head of eleven numbers, its anchors and its tables. A batch reads one half of that memory and
// writes the next session to the other; what each call says of the slices is what the calls of `shell_player` say of a session by value.
#![tactic(auto)]

pub mod batch;
pub mod creation;
pub mod head;
pub mod lifecycle;
pub mod shape;
