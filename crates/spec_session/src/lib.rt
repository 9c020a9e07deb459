// Sessions: creation, lifecycle and batches. The definitions stand in specs/; there is no code here.
#![tactic(auto)]
