// MIG: cutting GPUs into slices, and giving slices to jobs.

#![tactic(auto)]

pub mod allocate;
pub mod owner;
pub mod slices;
pub mod table;
