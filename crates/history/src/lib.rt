// What the decisions of a plan tell, and what holds of it all along: definitions and laws, no code.

#![tactic(auto)]
