// Starts, loads, arrivals and steps, with hand-made states for the last two refusals.
use crate::report::report;
use crossbar::start::start;
use crossbar::state::{Reply, Switch};
use fabric::flow::{Crosspoint, Queue};
use refusal::Refusal;

// A start with one port, whose flow has every slot of a frame of six.
fn one_port(depth: usize, store: &[u32]) -> Reply {
    start(1, 6, &[6; 1], depth, store)
}

pub fn depth(rt: &impl Print, store: &[u32]) {
    let q = store.len();
    report(rt, format_args!("Q = {q}"), one_port(q, store).verdict);
}

pub fn places(rt: &impl Print, store: &[u32]) {
    let count = store.len();
    report(
        rt,
        format_args!("N = 1, Q = 2, store of {count}"),
        one_port(2, store).verdict,
    );
}

fn load(rt: &impl Print, what: &str, state: Switch, t: u32) -> Switch {
    let loaded = state.load(1, t, &[1; 1]);
    report(rt, what, loaded.verdict);
    loaded.state
}

pub fn loads(rt: &impl Print) {
    let fresh = one_port(1, &[0; 1]).state;
    let waiting = load(rt, "T = 6 loaded into a switch of T = 6", fresh, 6);
    load(rt, "T = 8 loaded into a switch of T = 6", fresh, 8);
    load(rt, "T = 6 loaded while a plan waits", waiting, 6);
}

pub fn output(rt: &impl Print, j: usize) {
    let mut store = [0; 4];
    let fresh = start(2, 1, &[0; 4], 1, &store).state;
    report(
        rt,
        format_args!("N = 2, output {j}"),
        fresh.arrive(&mut store, 0, j, 7).verdict,
    );
}

// The reply to the last of some arrivals at a switch of one port.
fn fill(fresh: Reply, store: &mut [u32], count: usize) -> Reply {
    let mut reply = fresh;
    // by count: each arrival is the same
    for _ in 0..count {
        reply = reply.state.arrive(store, 0, 0, 7);
    }
    reply
}

fn arrival(rt: &impl Print, depth: usize, k: usize, verdict: Result<(), Refusal>) {
    report(rt, format_args!("Q = {depth}: arrival {k}"), verdict);
}

// The arrivals that fill a queue, and one more.
pub fn arrivals(rt: &impl Print, store: &mut [u32]) {
    let q = store.len();
    let full = fill(one_port(q, store), store, q);
    arrival(rt, q, q, full.verdict);
    let over = full.state.arrive(store, 0, 0, 7);
    arrival(rt, q, q + 1, over.verdict);
}

// The verdict on a step of a switch of one port.
fn stepped(state: Switch) -> Result<(), Refusal> {
    state.step(&[7; 1]).verdict
}

pub fn slot(rt: &impl Print, s: u32) {
    let mut state = one_port(1, &[7; 1]).state;
    state.slot = s;
    report(rt, format_args!("T = 6, slot {s}"), stepped(state));
}

// A step that moves a cell to a crosspoint which holds some.
pub fn crosspoint(rt: &impl Print, count: u8) {
    let mut state = one_port(1, &[7; 1]).state;
    state.fabric.queues[0] = Queue { place: 0, count: 1 };
    state.fabric.crosspoints[0] = Crosspoint {
        cells: [8; 2],
        count,
    };
    report(
        rt,
        format_args!("queue at 1, crosspoint at {count}"),
        stepped(state),
    );
}
