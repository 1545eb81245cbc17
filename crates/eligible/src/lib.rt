// Which whole GPUs a job may take, as a list in table order, and what is asked of such lists.

#![tactic(auto)]

pub mod chosen;
pub mod keys;
pub mod list;
pub mod rule;
