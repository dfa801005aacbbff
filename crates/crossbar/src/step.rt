// One slot of the switch. In a step that is refused no port acts: the slot's phases are the same, for 0 ports. With one way
// through them the compiler copies the state no more than it has to (docs/PERFORMANCE.md).
ghost use Rattle.std.specs.Prelude.{true, cond, ◌&&◌, ◌≡◌, ◌+◌, ◌*◌, ◌≤◌, eqb, length, Ok};
ghost use Rattle.plan.specs.Range.{most_ports};
ghost use Rattle.fabric.specs.Flow.{most_depth};
ghost use Rattle.side.specs.Columns.{transposed};
ghost use Rattle.crossbar.specs.State.{store_fits};
ghost use Rattle.crossbar.specs.Takeover.{takes_over, takeover_of};
ghost use Rattle.crossbar.specs.Step.{verdict_by, Judged, Steps, IdlesOnly};

use crate::state::{SlotReply, Switch};
use crate::valid::store_fits;
use fabric::moves::room_for_all;
use fabric::slot::AfterSlot;
use plan::range::MOST_FLOWS;
use planpair::takeover::{cleared, replaced};
use refusal::Refusal;
use side::choices::serve_all;
use side::columns::transpose;

// How many of n ports act.
fn acting(n: usize, go: bool) -> usize
    ensures { result ≡ cond go n 0 }
{
    if go { n } else { 0 }
}

// 12, 7 and 13, in this order.
fn verdict_by(valid: bool, fits: bool, room: bool) -> Result<(), Refusal>
    ensures { result ≡ verdict_by valid fits room }
{
    if !valid {
        return Err(Refusal::StateInvalid);
    }
    if !fits {
        return Err(Refusal::StoreLength);
    }
    if !room {
        return Err(Refusal::CrosspointFull);
    }
    Ok(())
}

// Whether a valid state has a store of its length.
fn fits_if_valid(valid: bool, n: usize, depth: usize, len: usize) -> bool
    requires { valid ≡ true → (n ≤ most_ports) × (depth ≤ most_depth) }
    ensures { result ≡ (valid && store_fits n depth len) }
{
    valid && store_fits(n, depth, len)
}

// The list that rules the slot; a waiting one need not have taken over yet.
fn ruling<'a>(running: &'a [u16], waiting: &'a [u16], takeover: bool) -> &'a [u16]
    ensures { result.now ≡ cond takeover waiting.now running.now }
{
    if takeover { waiting } else { running }
}

// The columns of the list that rules the slot, as the rows of an array.
fn columns_of<'a>(
    running: &'a [u16],
    waiting: &'a [u16],
    takeover: bool,
    n: usize,
    columns: &mut [u16; MOST_FLOWS],
)
    requires { (n ≤ most_ports) × (length running.now ≡ n * n) × (length waiting.now ≡ n * n) }
    ensures { columns.new ≡ transposed (cond takeover waiting.now running.now) n columns.old n }
{
    transpose(ruling(running, waiting, takeover), n, columns);
}

// The slot after one in which n ports acted: the frame's next, or the first of the next frame. Not shared with smoothness: one
// function below both would need a definition of its own, and a law to each of theirs.
fn next_slot(n: usize, slot: u32, t: u32) -> u32
    requires { 1 ≤ n → slot + 1 ≤ 4294967295 }
    ensures { result ≡ cond (eqb n 0) slot (cond (eqb (slot + 1) t) 0 (slot + 1)) }
{
    if n == 0 {
        slot
    } else if slot + 1 == t {
        0
    } else {
        slot + 1
    }
}

impl Switch {
    // Whether a waiting plan takes over.
    fn takes_over(&self) -> bool
        ensures { result ≡ takes_over self.now }
    {
        self.slot == 0 && self.has_waiting()
    }

    // The slot in which n ports choose, by what was judged of 12 and 7: none do where the step is refused by then. 13 is
    // judged by the boards' choices; where it refuses, no port acts.
    #[tactic(auto, using(crate::proofs::StepLaws::few_choose, plan::proofs::LineLaws::square_small))]
    fn slot(self, store: &[u32], n: usize, valid: bool, fits: bool) -> SlotReply
        requires { Judged self (length store.now) n valid fits }
        ensures { Steps self store.now result }
    {
        // Made first: where it is made after the services, the compiler copies the rates of both plans once more.
        let mut next = self;
        // Local copies are lent: with a part of the state lent, a slot copies 4,664 bytes more and takes 4 to 11 percent longer.
        let rates = self.running.rates;
        let waiting_rates = self.waiting.rates;
        let running = &rates[..n * n];
        let waiting = &waiting_rates[..n * n];
        let t = self.running.frame;
        let takeover = self.takes_over();
        // for its short name: the compiler makes no copy of it
        let fabric = self.fabric;
        let boards = serve_all(fabric.boards, running, waiting, takeover, n, t, self.slot);
        let room = room_for_all(fabric.queues, fabric.crosspoints, boards.choices, n);
        let m = acting(n, room);
        let mut columns = [0; MOST_FLOWS];
        columns_of(running, waiting, takeover, n, &mut columns);
        let rows = &columns[..m * m];
        let heads = serve_all(fabric.heads, rows, rows, false, m, t, self.slot);
        let AfterSlot {
            fabric: after,
            moves,
            sends,
        } = fabric.run(store, boards, heads, m, self.depth);
        let verdict = verdict_by(valid, fits, room);
        next.slot = next_slot(m, self.slot, t);
        next.fabric = after;
        if takeover && m != 0 {
            next.running = replaced(next.running, next.waiting);
            next.waiting = cleared(next.waiting);
            next.waits = 0;
        }
        SlotReply {
            state: next,
            verdict,
            moves,
            sends,
        }
    }

    // One slot: the takeover of a waiting plan, the choices of all ports, the moves, the sends, and the slot's end.
    pub fn step(self, store: &[u32]) -> SlotReply
        ensures defined { Steps self store.now result }
        ensures idles { result.verdict ≡ Ok tt → IdlesOnly (takeover_of self) result }
    {
        let valid = self.is_valid();
        let fits = fits_if_valid(valid, self.running.ports, self.depth, store.len());
        self.slot(store, acting(self.running.ports, fits), valid, fits)
    }
}
