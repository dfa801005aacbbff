// One port's multiplexer: which flow a slot goes to, and how often each flow was served in this frame.
#![tactic(auto)]

ghost use Rattle.std.specs.Prelude.{◌≡◌, cond, ◌+◌, ◌*◌, ◌<◌, ◌≤◌, min, eqb};
ghost use Rattle.plan.specs.Range.{most_ports};
ghost use Rattle.multiplexer.specs.Choose.{choose_of};
ghost use Rattle.multiplexer.specs.Count.{one_more, count_of, end_frame_of};
ghost use Rattle.multiplexer.specs.Candidate.{never, rank_of, Soonest, or_flow, choice_of};
ghost use Rattle.multiplexer.specs.Deadlines.{table_frame, ReadIn};
ghost use Rattle.multiplexer.specs.Serve.{served_with, serve_of};

use crate::deadlines::{DeadlineTable, deadline_table, read_deadline};
use plan::range::MOST_PORTS;

pub mod deadlines;
mod valid;

// How many slots the frames have that there is a table of deadlines for, and its highest rate.
pub const TABLE_FRAME: u32 = 64;

// In place of a flow's number: none. With an Option from `best` to `after` a slot of 16 boards takes 13 percent longer.
const NO_FLOW: u16 = MOST_PORTS as u16;

// Above every deadline that counts of 16 and a frame of 32 bits give: 48 bits, so that a rank has 64.
// With an Option in its place the table is read behind a jump: a slot of 16 boards at T = 64 takes 41 to 54 percent longer.
const NEVER: u64 = (1 << 48) - 1;

// How many ranks there are for one deadline: one for each rate.
const RATES: u64 = 65536;

// How often each flow of the port was served in this frame.
#[repr(C)]
#[derive(Clone, Copy)]
pub struct Multiplexer {
    pub served: [u16; MOST_PORTS],
}

// A port after a slot, and the number of the flow that the slot was used for, if any.
#[derive(Clone, Copy)]
pub struct Served {
    pub port: Multiplexer,
    pub choice: Option<usize>,
}

// The flow chosen among those looked at so far, or NO_FLOW, and its rank. The number has a count's width, so that
// `counted` compares it with many flows' numbers at a time.
#[derive(Clone, Copy)]
struct Candidate {
    flow: u16,
    rank: u64,
}

// The flow's deadline, or NEVER where it is not eligible, by the formula. The division comes before the tests, so that no jump
// depends on which flows are eligible: a processor can't foresee that.
fn soonest_divided(rate: u16, served: u16, frame: u32, slot: u32) -> u64
    ensures { Soonest rate served frame slot result }
{
    let a = u64::from(rate);
    let done = u64::from(served) * u64::from(frame);
    // by hand: with the library's `div_ceil` a slot of 16 boards takes 3 to 6 percent longer (docs/PERFORMANCE.md)
    let d = a.max(1);
    let deadline = (done + u64::from(frame) + (d - 1)) / d;
    // one test for each reason: the flow is early, or it has no rate
    if u64::from(slot) * a < done {
        return NEVER;
    }
    if rate == 0 {
        return NEVER;
    }
    deadline
}

// The flow's deadline, or NEVER where it is not eligible: by the table in a frame of 64 slots, otherwise by the formula. The
// table has nothing of a flow of rate 0, or one that has had all its services: before slot 64 neither is eligible.
fn soonest(rate: u16, served: u16, frame: u32, slot: u32, table: &[u8]) -> u64
    requires { ReadIn frame table.now }
    ensures { Soonest rate served frame slot result }
{
    if frame == TABLE_FRAME && slot < TABLE_FRAME && u32::from(rate) <= TABLE_FRAME {
        if rate <= served {
            return NEVER;
        }
        // read, and widened, before the test, so that no jump depends on who is eligible
        let deadline = u64::from(read_deadline(table, rate, served + 1));
        if slot * u32::from(rate) < u32::from(served) * TABLE_FRAME {
            return NEVER;
        }
        return deadline;
    }
    soonest_divided(rate, served, frame, slot)
}

// Deadline and rate as one number: the smaller deadline makes the smaller rank, and of equal deadlines the larger rate. One
// comparison of ranks tells who goes before; with two comparisons each flow would wait longer for the one before it.
fn rank(deadline: u64, rate: u16) -> u64
    requires { deadline ≤ never }
    ensures { result ≡ rank_of deadline rate }
{
    deadline * RATES + u64::from(u16::MAX - rate)
}

impl Candidate {
    // The choice with one flow more to choose from; of equal ranks it keeps the lower number.
    #[tactic(auto, using(crate::proofs::CandidateLaws::or_flow_stays, crate::proofs::CandidateLaws::or_flow_changes))]
    fn or_flow(self, flow: u16, deadline: u64, rate: u16) -> Candidate
        requires { deadline ≤ never }
        ensures { result ≡ or_flow self flow deadline rate }
    {
        let rank = rank(deadline, rate);
        if self.rank <= rank {
            return self;
        }
        Candidate { flow, rank }
    }
}

// The choice that a number stands for.
#[tactic(auto, unfolding(crate::specs::Candidate::choice_of))]
fn choice_of(flow: u16) -> Option<usize>
    ensures { result ≡ choice_of flow }
{
    (flow < NO_FLOW).then_some(usize::from(flow))
}

// The count of flow g after a slot that went to `flow`. A count of 65,535 stays.
fn one_more(count: u16, g: u16, flow: u16) -> u16
    ensures { result ≡ cond (eqb g flow) (one_more count) count }
{
    count.saturating_add(u16::from(g == flow))
}

impl Multiplexer {
    // The number of the flow that `choose` chooses, or NO_FLOW. Where the frame has no table, any list will do: with
    // `Option<&DeadlineTable>` a slot of 16 boards at T = 64 takes 11 to 13 percent longer (docs/PERFORMANCE.md).
    fn best(self, rates: &[u16], frame: u32, slot: u32, table: &[u8]) -> u16
        requires { ReadIn frame table.now }
        ensures { choice_of result ≡ choose_of rates.now self.served frame slot }
    {
        let counted = &rates[..rates.len().min(MOST_PORTS)];
        // as a flow with the highest rate that is not eligible: none of those goes before it
        let mut best = Candidate {
            flow: NO_FLOW,
            rank: rank(NEVER, u16::MAX),
        };
        for (f, rate) in counted.iter().enumerate() {
            let deadline = soonest(*rate, self.served[f], frame, slot, table);
            best = best.or_flow(f as u16, deadline, *rate);
        }
        best.flow
    }

    // The same with a table of its own, if the frame has one.
    fn chosen(self, rates: &[u16], frame: u32, slot: u32) -> u16
        ensures { choice_of result ≡ choose_of rates.now self.served frame slot }
    {
        if frame == TABLE_FRAME {
            let table = deadline_table();
            return self.best(rates, frame, slot, &table);
        }
        self.best(rates, frame, slot, b"")
    }

    // The eligible flow with the smallest deadline, of equals the one with the largest rate, of equals the lowest. Only the
    // first 16 rates count.
    pub fn choose(self, rates: &[u16], frame: u32, slot: u32) -> Option<usize>
        ensures { result ≡ choose_of rates.now self.served frame slot }
    {
        choice_of(self.chosen(rates, frame, slot))
    }

    // One service more for the flow of this number. All counts are made anew: a processor stalls where one is written and
    // then all are read at a time.
    fn counted(self, flow: u16) -> Multiplexer
        ensures { result ≡ count_of self (choice_of flow) }
    {
        let served = std::array::from_fn(|g| one_more(self.served[g], g as u16, flow));
        Multiplexer { served }
    }

    // One service more for the chosen flow. A count of 65,535 stays, and a number past 15 changes nothing.
    pub fn count(self, choice: Option<usize>) -> Multiplexer
        ensures { result ≡ count_of self choice }
    {
        match choice {
            Some(f) if f < MOST_PORTS => self.counted(f as u16),
            _ => self,
        }
    }

    // The end of a frame of n flows: their counts return to 0, and those of other numbers stay.
    pub fn end_frame(self, n: usize) -> Multiplexer
        ensures { result ≡ end_frame_of self n }
    {
        let mut served = self.served;
        // not by `fill`, which stores the last count by itself: a processor stalls where all are read at a time after that
        for count in &mut served[..n.min(MOST_PORTS)] {
            *count = 0;
        }
        Multiplexer { served }
    }

    // The port after a slot that went to `flow`: the service is counted and, in the last slot of a frame of n flows, the counts
    // go back to 0.
    fn after(self, flow: u16, n: usize, frame: u32, slot: u32) -> Served
        ensures { result ≡ served_with self (choice_of flow) n frame slot }
    {
        // counted before the choice is made of it, so that no jump depends on whether the port idles
        let counted = self.counted(flow);
        let choice = choice_of(flow);
        let ends = u64::from(slot) + 1 == u64::from(frame);
        let port = if ends { counted.end_frame(n) } else { counted };
        Served { port, choice }
    }

    // One slot of the port: it chooses, counts the service and, in the last slot of a frame, goes back to 0.
    pub fn serve(self, rates: &[u16], frame: u32, slot: u32) -> Served
        ensures { result ≡ serve_of self rates.now frame slot }
    {
        self.after(self.chosen(rates, frame, slot), rates.len(), frame, slot)
    }

    // The same with a lent table, which the ports of a side share.
    pub fn serve_with(self, rates: &[u16], frame: u32, slot: u32, table: DeadlineTable) -> Served
        ensures { result ≡ serve_of self rates.now frame slot }
    {
        self.after(
            self.best(rates, frame, slot, table.entries),
            rates.len(),
            frame,
            slot,
        )
    }
}
