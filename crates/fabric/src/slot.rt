// The phases of a slot on the fabric, one after the other.
ghost use Rattle.std.specs.Prelude.{◌≡◌, length};
ghost use Rattle.fabric.specs.Slot.{run_of, CanRun};

use crate::flow::Answer;
use crate::{AfterServices, Fabric};
use plan::range::MOST_PORTS;
use side::choices::Side;

// The fabric after a slot, and what each board moved and each head sent.
#[derive(Drop)]
pub struct AfterSlot {
    pub fabric: Fabric,
    pub moves: [Answer; MOST_PORTS],
    pub sends: [Answer; MOST_PORTS],
}

impl Fabric {
    // The slot of the ports below n, by their choices and counts.
    pub fn run(self, store: &[u32], boards: Side, heads: Side, n: usize, depth: usize) -> AfterSlot
        requires { CanRun n depth (length store.now) boards heads self }
        ensures { result ≡ run_of n depth store.now boards heads self }
    {
        let counted = self.counted(boards, heads, n);
        let AfterServices {
            fabric: moved,
            answers: moves,
        } = counted.moved(store, boards.choices, n, depth);
        let AfterServices {
            fabric: sent,
            answers: sends,
        } = moved.sent(heads.choices, n);
        AfterSlot {
            fabric: sent,
            moves,
            sends,
        }
    }
}
