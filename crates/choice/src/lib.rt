// The GPUs that a whole-GPU job gets, or why it gets none: the gang choice, the cause, and the choice as a whole.

#![tactic(auto)]

pub mod choose;
pub mod gang;
pub mod share;
pub mod why;
