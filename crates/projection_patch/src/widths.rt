// How many bytes the fields of canonical bytes take, and how many of an operation stand before a field.
pub const TAG: usize = 1;

pub const ID: usize = 8;

const SLOT: usize = 4;

pub const TWO_IDS: usize = ID + ID;

pub const THREE_IDS: usize = TWO_IDS + ID;

// A tag and a number behind it: a kind and an id, an optional id that is there, or a value that is a number.
pub const TAGGED: usize = TAG + ID;

// An operation up to the slot behind its node, and up to the key behind its collection.
pub const PAST_SLOT: usize = TAGGED + SLOT;

pub const PAST_KEY: usize = TAGGED + ID;

// An insertion up to its neighbour, where it has none and where it has one.
pub const PAST_NO_NEIGHBOUR: usize = PAST_KEY + TAG;

pub const PAST_NEIGHBOUR: usize = PAST_KEY + TAGGED;
