// Who is placeable, why not, and what is given: quota, then GPUs or slices.

#![tactic(auto)]

pub mod allocate;
pub mod cause;
pub mod quota;
