// The trace's bytes: numbers, ranged fields, and one reader a record.

#![tactic(auto)]

pub mod answer;
pub mod field;
pub mod number;
pub mod ranges;
pub mod record;
