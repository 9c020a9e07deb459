// Several batches sent together: all of them are taken, or none. The meaning and its theorems stand in specs/; there is no code here.
#![tactic(auto)]
