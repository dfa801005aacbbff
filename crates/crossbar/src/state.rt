// The state of the switch, and what its calls answer.
ghost use Rattle.std.specs.Prelude.{◌≡◌};
ghost use Rattle.crossbar.specs.State.{has_waiting};

use fabric::Fabric;
use fabric::flow::Answer;
use plan::Plan;
use plan::range::MOST_PORTS;
use refusal::Refusal;

// What stands for ports from N up is neither looked at nor changed. `waits` is 0 where no plan waits; every other number says
// that one does. The layout is that of include/gambyre.h: its numbers are plain, and no type holds their limits.
#[repr(C)]
#[derive(Clone, Copy)]
pub struct Switch {
    pub running: Plan,
    pub waiting: Plan,
    pub waits: u8,
    pub depth: usize,
    pub slot: u32,
    pub fabric: Fabric,
}

impl Switch {
    // Whether a plan waits.
    pub(crate) fn has_waiting(&self) -> bool
        ensures { result ≡ has_waiting self.now }
    {
        self.waits != 0
    }
}

// What start, arrive and load answer: a state on a refusal too, which start_of, arrive_of and load_of say, and so no Result of
// one. The state comes first: behind another field the compiler copies it once more.
#[derive(Drop)]
pub struct Reply {
    pub state: Switch,
    pub verdict: Result<(), Refusal>,
}

// What a step answers: what each board moved, and what each head sent. Ports from N up, and every port of a refused
// step, are idle.
#[derive(Drop)]
pub struct SlotReply {
    pub state: Switch,
    pub verdict: Result<(), Refusal>,
    pub moves: [Answer; MOST_PORTS],
    pub sends: [Answer; MOST_PORTS],
}
