// The start of a switch.
ghost use Rattle.std.specs.Prelude.{◌≡◌};
ghost use Rattle.crossbar.specs.Start.{fresh_with, start_verdict, Starts};

use crate::plans::plan_over;
use crate::state::{Reply, Switch};
use crate::valid::{depth_in_range, store_fits};
use fabric::Fabric;
use fabric::flow::{Crosspoint, Queue};
use multiplexer::Multiplexer;
use plan::acceptance::accept;
use plan::range::{MOST_FLOWS, MOST_PORTS};
use plan::{Plan, no_plan};
use refusal::Refusal;

// A state that runs a plan, with no cell and no service.
#[tactic(auto, unfolding(crate::specs::Start::fresh_with))]
fn fresh_with(plan: Plan, depth: usize) -> Switch
    ensures { result ≡ fresh_with plan depth }
{
    let point = Crosspoint {
        cells: [0; 2],
        count: 0,
    };
    let port = Multiplexer {
        served: [0; MOST_PORTS],
    };
    Switch {
        running: plan,
        waiting: no_plan(),
        waits: 0,
        depth,
        slot: 0,
        fabric: Fabric {
            queues: [Queue { place: 0, count: 0 }; MOST_FLOWS],
            crosspoints: [point; MOST_FLOWS],
            boards: [port; MOST_PORTS],
            heads: [port; MOST_PORTS],
        },
    }
}

// Number 1 to 5 by the plan, then 6 and 7.
#[tactic(auto, unfolding(crate::specs::Start::start_verdict))]
fn start_verdict(n: usize, t: u32, rates: &[u16], depth: usize, len: usize) -> Result<(), Refusal>
    ensures { result ≡ start_verdict n t rates.now depth len }
{
    accept(n, t, rates)?;
    if !depth_in_range(depth) {
        return Err(Refusal::DepthOutOfRange);
    }
    if !store_fits(n, depth, len) {
        return Err(Refusal::StoreLength);
    }
    Ok(())
}

// Start a switch of N ports with a plan and queues of Q cells in a store, which is not written.
pub fn start(n: usize, t: u32, rates: &[u16], depth: usize, store: &[u32]) -> Reply
    ensures { Starts n t rates.now depth store.now result }
{
    let verdict = start_verdict(n, t, rates, depth, store.len());
    let Ok(()) = verdict else {
        return Reply {
            state: fresh_with(no_plan(), 0),
            verdict,
        };
    };
    Reply {
        state: fresh_with(plan_over(no_plan(), n, t, rates), depth),
        verdict,
    }
}
