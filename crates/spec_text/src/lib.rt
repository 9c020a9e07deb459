// Text as RFC 3629 defines it. The definitions stand in specs/; there is no code here.
#![tactic(auto)]
