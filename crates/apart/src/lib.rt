// What preemption, a pass and its starts keep: laws alone, apart from the code, so that a change of it is checked without them.

#![tactic(auto)]
