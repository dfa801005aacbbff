// The two plans of a switch's state: the one that runs, and the one that waits.
#![tactic(auto)]

pub mod rates;
pub mod takeover;
pub mod valid;
