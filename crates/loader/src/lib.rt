// Loading: the records of a trace, one after another, into the tables of a plan.

#![tactic(auto)]

pub mod arrivals;
pub mod fault;
pub mod load;
pub mod loading;
