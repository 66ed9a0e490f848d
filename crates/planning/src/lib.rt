// A step on one lock's state, planned and carried out: its answer and what it writes, and one place where that is written.
#![tactic(auto)]

pub mod plan;
pub mod steps;
