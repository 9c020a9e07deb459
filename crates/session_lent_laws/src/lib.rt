// A session in lent memory beside the session by value: each call gives the other's answer, and what holds of calls by value holds of lent ones.
// There is no code here.
#![tactic(auto)]
