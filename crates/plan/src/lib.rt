// Rate plans: which ones are accepted, and the row of one input.
#![tactic(auto)]

ghost use Rattle.std.specs.Prelude.{◌≡◌};
ghost use Rattle.plan.specs.NoPlan.{no_plan};

use crate::range::MOST_FLOWS;

pub mod acceptance;
pub mod desk;
pub mod lines;
pub mod lists;
pub mod range;

// N, T and N x N rates, row by row; the places past N x N are not part of the plan.
#[repr(C)]
#[derive(Clone, Copy)]
pub struct Plan {
    pub ports: usize,
    pub frame: u32,
    pub rates: [u16; MOST_FLOWS],
}

// What stands in a refusal for a plan: all numbers are 0. It is no `Default`: a plan that nobody gave is none, and its name says so.
pub fn no_plan() -> Plan
    ensures { result ≡ no_plan }
{
    Plan {
        ports: 0,
        frame: 0,
        rates: [0; MOST_FLOWS],
    }
}
