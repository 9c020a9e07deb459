// A patch list sent whole, and the same list sent in pieces. The theorem stands in specs/; there is no code here.
#![tactic(auto)]
