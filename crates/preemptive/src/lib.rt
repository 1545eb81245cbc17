// Preemption: the candidates for a job, and the shortest prefix of them that makes it placeable.

#![tactic(auto)]

pub mod candidate;
pub mod prefix;
