// The waiting line: who waits, victims that join its end, and the queue without those who left it.

#![tactic(auto)]

pub mod join;
pub mod keep;
