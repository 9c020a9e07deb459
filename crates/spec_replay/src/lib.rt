// The replay of a script: its commands and what each prints. The definitions stand in specs/; there is no code here.
#![tactic(auto)]
