// Definitions and theorems of turns among senders stand in specs/; there is no code here.
#![tactic(auto)]
