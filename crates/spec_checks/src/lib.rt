// The checks of a patch list and what they report. The definitions stand in specs/; there is no code here.
#![tactic(auto)]
