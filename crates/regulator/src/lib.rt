// The regulator: rates from demands, and spare slots given out.
#![tactic(auto)]

pub mod boost;
mod lists;
pub mod scale;
mod sums;
