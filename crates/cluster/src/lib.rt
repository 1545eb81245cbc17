// The cluster: who holds what, and the order of the waiting queue.

#![tactic(auto)]

pub mod gpus;
pub mod queue;
pub mod usage;
