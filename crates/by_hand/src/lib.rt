// The states that a script makes by hand, and its text: crates/scenarios/stdin says at its top what a script has.
#![tactic(auto)]

pub mod agents;
pub mod line;
pub mod locks;
pub mod packets;
pub mod print;
