// What a set depends on: the keys that collections must hold at the start, and those that they must lack. One walk over a set without
// findings settles its keys in a sorted table; the two lists are written from it.
#![tactic(auto)]

pub mod depends;
pub mod find_settled;
pub mod insert_settled;
pub mod settled_rows;
pub mod settling;
pub mod walk_set;
pub mod write_keys;
