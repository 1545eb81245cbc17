// First fit, best fit, and the choice of one group over all nodes.

#![tactic(auto)]

pub mod best;
pub mod first;
pub mod group;
