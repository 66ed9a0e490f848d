// The rules of document 01 for clients, each as what it writes and sends; those at the decider and at a machine are in the crates decider and machine.
#![tactic(auto)]

pub mod asking;
pub mod effect;
pub mod leaving;
pub mod site;
