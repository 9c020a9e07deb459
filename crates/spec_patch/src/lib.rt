// Patches, their canonical bytes, reading and writing. The definitions stand in specs/; there is no code here.
#![tactic(auto)]
