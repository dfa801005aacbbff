// The fabric between boards and heads: the queues and crosspoints of all flows, the service counts of all ports, and what the
// services of one slot do to them.
#![tactic(auto)]

use crate::flow::{Answer, Crosspoint, Queue};
use multiplexer::Multiplexer;
use plan::range::{MOST_FLOWS, MOST_PORTS};

pub mod counts;
pub mod flow;
pub mod moves;
pub mod places;
pub mod sends;
pub mod slot;
pub mod valid;

// Flow (i, j) has number i * N + j in both lists, and a multiplexer counts by the other port's number. A phase of a slot takes
// the fabric and hands it on, so that no copy is kept. Queues and crosspoints are two lists as in include/gambyre.h.
#[repr(C)]
#[derive(Clone, Copy)]
pub struct Fabric {
    pub queues: [Queue; MOST_FLOWS],
    pub crosspoints: [Crosspoint; MOST_FLOWS],
    pub boards: [Multiplexer; MOST_PORTS],
    pub heads: [Multiplexer; MOST_PORTS],
}

// The fabric after the services of one side's ports, and their answers.
#[derive(Drop)]
pub struct AfterServices {
    pub fabric: Fabric,
    pub answers: [Answer; MOST_PORTS],
}
