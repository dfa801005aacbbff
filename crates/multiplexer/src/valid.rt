// Number 12's rule for service counts.
ghost use Rattle.std.specs.Prelude.{◌≡◌, cond, ◌*◌, ◌<◌, eqb};
ghost use Rattle.multiplexer.specs.Valid.{count_valid, port_valid};

use crate::Multiplexer;
use plan::lines::Lines;

// The highest count that a flow with this rate may have.
fn highest(slot: u32, rate: u16) -> u16
    ensures { result ≡ cond (eqb slot 0) 0 rate }
{
    if slot == 0 { 0 } else { rate }
}

fn count_valid(slot: u32, rate: u16, count: u16) -> bool
    ensures { result ≡ count_valid slot rate count }
{
    count <= highest(slot, rate)
}

impl Multiplexer {
    // Whether none of the port's counts is above its rate, and in slot 0 all are 0. The port's rates are line p. Counts after
    // one that is not valid are judged too: a loop with one way out does many of them at a time.
    #[tactic(auto, unfolding(crate::specs::Valid::port_valid))]
    pub fn counts_valid(self, rates: &Lines, p: usize, slot: u32) -> bool
        requires { p < rates.now.n }
        ensures { result ≡ port_valid rates.now.list.now self.served rates.now.n (p * rates.now.across) rates.now.along slot }
    {
        let mut valid = true;
        for (f, count) in self.served[..rates.n].iter().enumerate() {
            valid &= count_valid(slot, rates.rate(p, f), *count);
        }
        valid
    }
}
