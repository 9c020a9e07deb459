// Lists, order and bytes: definitions that the others are written in. They stand in specs/; there is no code here.
#![tactic(auto)]
