// The crossbar: the switch's state, and its calls start, arrive, load and step.
#![tactic(auto)]

mod arrive;
mod load;
mod plans;
pub mod start;
pub mod state;
mod step;
mod valid;
