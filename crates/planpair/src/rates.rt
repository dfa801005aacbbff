// Lists of rates in the arrays of a plan.
ghost use Rattle.std.specs.Prelude.{◌≡◌, ◌≤◌, length};
ghost use Rattle.plan.specs.Range.{most_flows};
ghost use Rattle.planpair.specs.Rates.{overlaid};

use plan::range::MOST_FLOWS;

// The array with its first `count` places taken from the list.
#[tactic(auto, using(crate::proofs::RateLaws::overlaid_front))]
pub fn overlay(mut array: [u16; MOST_FLOWS], list: &[u16], count: usize) -> [u16; MOST_FLOWS]
    requires { (count ≤ most_flows) × (count ≤ length list.now) }
    ensures { result ≡ overlaid array list.now count }
{
    array[..count].copy_from_slice(&list[..count]);
    array
}
