// One step of the plan: the least event is taken, what it says is done, and a pass and its starts follow.

#![tactic(auto)]

pub mod advance;
pub mod settle;
