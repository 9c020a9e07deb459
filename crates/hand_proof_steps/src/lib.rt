// Steps of the proofs that walk a function's code by hand. They stand in proofs/; there is no code here.
#![tactic(auto)]
