// Each collection's length, kept with the collection. The definitions stand in specs/; there is no code here.
#![tactic(auto)]
