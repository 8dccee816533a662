// Definitions and laws that more than one layer uses stand in specs/. There is no code here.
#![tactic(auto)]
