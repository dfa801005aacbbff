// Whether a state keeps its own rules (number 12), and the tests of Q and of the store's length.
ghost use Rattle.std.specs.Prelude.{◌≡◌, ◌≤◌};
ghost use Rattle.plan.specs.Range.{most_ports};
ghost use Rattle.fabric.specs.Flow.{most_depth};
ghost use Rattle.crossbar.specs.State.{depth_in_range, store_fits};
ghost use Rattle.crossbar.specs.Valid.{valid_of};

use crate::state::Switch;
use fabric::flow::MOST_DEPTH;
use fabric::valid::flows_valid;
use planpair::valid::plans_valid;
use side::valid::counts_valid;

#[tactic(auto, unfolding(crate::specs::State::depth_in_range))]
pub fn depth_in_range(depth: usize) -> bool
    ensures { result ≡ depth_in_range depth }
{
    (1..=MOST_DEPTH).contains(&depth)
}

// Whether a store of `len` places has N x N x Q.
#[tactic(auto, unfolding(crate::specs::State::store_fits))]
pub fn store_fits(n: usize, depth: usize, len: usize) -> bool
    requires { (n ≤ most_ports) × (depth ≤ most_depth) }
    ensures { result ≡ store_fits n depth len }
{
    len == n * n * depth
}

impl Switch {
    // Whether no rule of number 12 is broken: of the plans, of Q and the slot, of the flows, of the counts. Local copies of the
    // plans are lent: with a part of the state lent, each call copies 4,632 bytes more.
    #[tactic(auto, using(planpair::proofs::ValidLaws::running_valid, plan::proofs::LineLaws::square_small), unfolding(crate::specs::Valid::valid_of))]
    pub fn is_valid(self) -> bool
        ensures { result ≡ valid_of self }
    {
        let running = self.running;
        let waiting = self.waiting;
        let n = running.ports;
        plans_valid(&running, &waiting, self.has_waiting())
            && depth_in_range(self.depth)
            && self.slot < running.frame
            && flows_valid(self.fabric.queues, self.fabric.crosspoints, n, self.depth)
            && counts_valid(
                &running.rates[..n * n],
                self.fabric.boards,
                self.fabric.heads,
                n,
                self.slot,
            )
    }
}
