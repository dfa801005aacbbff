// Plan acceptance.
ghost use Rattle.std.specs.Prelude.{◌≡◌};
ghost use Rattle.plan.specs.Accept.{accept_of};

use crate::lines::Lines;
use crate::range::{check, is_square};
use refusal::Refusal;

// Whether a plan is accepted: N, T, the length, then all rows, then all columns.
#[tactic(auto, using(crate::proofs::RangeLaws::range_first, crate::proofs::RangeLaws::range_ports, crate::proofs::AcceptLaws::rows_within, crate::proofs::AcceptLaws::columns_within), unfolding(crate::specs::Accept::accept_of))]
pub fn accept(n: usize, t: u32, rates: &[u16]) -> Result<(), Refusal>
    ensures { result ≡ accept_of n t rates.now }
{
    check(n, t)?;
    if !is_square(n, rates.len()) {
        return Err(Refusal::ListLength);
    }
    if !Lines::rows(rates, n).fit(t) {
        return Err(Refusal::RowAboveFrame);
    }
    if !Lines::columns(rates, n).fit(t) {
        return Err(Refusal::ColumnAboveFrame);
    }
    Ok(())
}
