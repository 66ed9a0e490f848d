// The parts of a lock's state, read and written: agents, holders and the wire; for queues there is the crate `queues`.
#![tactic(auto)]

pub mod blank;
pub mod holders;
pub mod search;
pub mod slots;
pub mod state;
pub mod used;
pub mod wire;
