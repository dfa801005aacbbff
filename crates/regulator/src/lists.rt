// What scale and boost check first.
ghost use Rattle.std.specs.Prelude.{◌≡◌};
ghost use Rattle.regulator.specs.Outcome.{lists_of};

use plan::range::{check, is_square};
use refusal::Refusal;

// N, T and the lengths of the two lists.
#[tactic(auto, using(plan::proofs::RangeLaws::range_first), unfolding(crate::specs::Outcome::lists_of))]
pub fn check_lists(n: usize, t: u32, from: usize, to: usize) -> Result<(), Refusal>
    ensures { result ≡ lists_of n t from to }
{
    check(n, t)?;
    if !is_square(n, from) || !is_square(n, to) {
        return Err(Refusal::ListLength);
    }
    Ok(())
}
