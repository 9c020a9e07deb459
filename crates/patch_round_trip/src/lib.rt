// Every patch list that fits is the list of a set by value, and whatever is read is written back: definitions and laws only.
#![tactic(auto)]
