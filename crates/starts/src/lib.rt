// What follows a pass: the victims' timeouts are queued, then the placed jobs start and their completions are queued.

#![tactic(auto)]

pub mod begin;
pub mod timeout;
