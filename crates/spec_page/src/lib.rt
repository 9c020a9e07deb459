// A page of keys looked up together. The meaning and its theorems stand in specs/; there is no code here.
#![tactic(auto)]
