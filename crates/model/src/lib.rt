// The tables of the plan: sizes, permitted numbers, GPUs, jobs, events, the setting, totals and the plan.

#![tactic(auto)]

pub mod event;
pub mod gpu;
pub mod job;
pub mod number;
pub mod plan;
pub mod setting;
pub mod sizes;
pub mod totals;
