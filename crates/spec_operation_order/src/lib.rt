// When operations may be put into another order: the theorems stand in specs/, there is no code here.
#![tactic(auto)]
