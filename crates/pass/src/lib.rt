// The pass: the waiting jobs in order, each placed if it can be, with or without victims.

#![tactic(auto)]

mod rank;
mod stay;
pub mod visit;
pub mod walk;
