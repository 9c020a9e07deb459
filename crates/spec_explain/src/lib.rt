// The rule behind a refusal: which one, where and with which figures. The definitions stand in specs/; there is no code here.
#![tactic(auto)]
