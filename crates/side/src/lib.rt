// The ports of one side, boards or heads: whom each one serves in a slot, their service counts, and what is judged of these.
#![tactic(auto)]

pub mod choices;
pub mod columns;
pub mod valid;
