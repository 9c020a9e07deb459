// Whole and pieces for the code: one claim about calls of the session that follow one another. There is no code here.
#![tactic(auto)]
