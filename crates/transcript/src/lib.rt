// The run of a whole transcript, with its listing.
#![tactic(auto)]

pub mod run;
