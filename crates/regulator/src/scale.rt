// Scale: rates in proportion to demands.
ghost use Rattle.std.specs.Prelude.{◌≡◌, ◌≤◌, length};
ghost use Rattle.plan.specs.Range.{most_slots};
ghost use Rattle.regulator.specs.Outcome.{outcome, Checked};
ghost use Rattle.regulator.specs.Scale.{share_of, scaled_of, scale_of};

use crate::lists::check_lists;
use crate::sums::Sums;
use refusal::Refusal;

// The rate of a demand; `sum` is the larger of its two sums.
fn share(d: u16, t: u32, sum: u32) -> u16
    requires { (d ≤ sum) × (t ≤ most_slots) }
    ensures { result ≡ share_of d t sum }
{
    if d == 0 {
        return 0;
    }
    (u32::from(d) * t / sum) as u16
}

// The rates at all places. The place stands beside the rate: it gives the flow's row and column.
fn scale_places(n: usize, t: u32, demands: &[u16], rates: &mut [u16])
    requires { Checked n t (length demands.now) (length rates.old) }
    ensures { rates.new ≡ scaled_of n t demands.now }
{
    let sums = Sums::of(demands, n);
    for (p, rate) in rates.iter_mut().enumerate() {
        *rate = share(demands[p], t, sums.larger(p / n, p % n));
    }
}

// Writes the rates of the demands, and answers whether it did.
#[tactic(auto, using(crate::proofs::OutcomeLaws::lists_passed), unfolding(crate::specs::Scale::scale_of))]
pub fn scale(n: usize, t: u32, demands: &[u16], rates: &mut [u16]) -> Result<(), Refusal>
    ensures { outcome result rates.new ≡ scale_of n t demands.now rates.old }
{
    check_lists(n, t, demands.len(), rates.len())?;
    scale_places(n, t, demands, rates);
    Ok(())
}
