// The starred examples of 01, computed over the definitions. They stand in specs/; there is no code here.
#![tactic(auto)]
