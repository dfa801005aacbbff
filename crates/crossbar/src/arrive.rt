// The arrival of a cell.
ghost use Rattle.std.specs.Prelude.{◌≡◌};
ghost use Rattle.crossbar.specs.Arrive.{arrive_verdict, Arrives};

use crate::state::{Reply, Switch};
use crate::valid::store_fits;
use fabric::places::ring_place;
use plan::lines::flow_place;
use refusal::Refusal;

impl Switch {
    #[tactic(auto, unfolding(crate::specs::Arrive::arrive_verdict))]
    fn arrive_verdict(self, len: usize, i: usize, j: usize) -> Result<(), Refusal>
        ensures { result ≡ arrive_verdict self len i j }
    {
        if !self.is_valid() {
            return Err(Refusal::StateInvalid);
        }
        let n = self.running.ports;
        if !store_fits(n, self.depth, len) {
            return Err(Refusal::StoreLength);
        }
        if n <= i || n <= j {
            return Err(Refusal::NoSuchPort);
        }
        let queue = self.fabric.queues[flow_place(n, i, j)];
        if self.depth <= usize::from(queue.count) {
            return Err(Refusal::QueueFull);
        }
        Ok(())
    }

    // Put a cell of board i for head j into its queue.
    pub fn arrive(mut self, store: &mut [u32], i: usize, j: usize, cell: u32) -> Reply
        ensures { Arrives self store.old i j cell result store.new }
    {
        let verdict = self.arrive_verdict(store.len(), i, j);
        let Ok(()) = verdict else {
            return Reply {
                state: self,
                verdict,
            };
        };
        let depth = self.depth;
        let k = flow_place(self.running.ports, i, j);
        let queue = self.fabric.queues[k];
        // the place behind the newest cell, where `oldest_place` is that of the oldest
        let next = ring_place(usize::from(queue.place) + usize::from(queue.count), depth);
        store[k * depth + next] = cell;
        self.fabric.queues[k].count += 1;
        Reply {
            state: self,
            verdict,
        }
    }
}
