// The projection: what a session stores, and the six operations on it. The definitions stand in specs/; there is no code here.
#![tactic(auto)]
