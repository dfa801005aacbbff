// The slot of all ports of one side: whom each one serves, and its counts afterwards.
ghost use Rattle.std.specs.Prelude.{◌≡◌, ◌≤◌};
ghost use Rattle.plan.specs.Range.{most_ports};
ghost use Rattle.plan.specs.Desk.{desk_of};
ghost use Rattle.side.specs.Choices.{ServedAs};

use multiplexer::Multiplexer;
use multiplexer::deadlines::{DeadlineTable, deadline_table};
use plan::desk::desk_view;
use plan::range::MOST_PORTS;

// The ports of one side after a slot, and the port that each one serves in it, if any: by a byte, so that the list is short
// to copy. Two lists, since they go to different phases.
#[derive(Clone, Copy)]
pub struct Side {
    pub ports: [Multiplexer; MOST_PORTS],
    pub choices: [Option<u8>; MOST_PORTS],
}

// The slot of the ports below n, by their rows of the list that rules it. Boards and heads share this one function: the
// compiler then leaves it out of the step, which it handles well only while it is short.
pub fn serve_all<'a>(
    ports: [Multiplexer; MOST_PORTS],
    running: &'a [u16],
    waiting: &'a [u16],
    takeover: bool,
    n: usize,
    t: u32,
    slot: u32,
) -> Side
    requires { n ≤ most_ports }
    ensures { ServedAs (λ p. desk_of running.now waiting.now n p takeover) ports t slot n result }
{
    let mut side = Side {
        ports,
        choices: [None; MOST_PORTS],
    };
    // In every frame, though it is read only where T is 64: a branch makes that frame slower (docs/PERFORMANCE.md).
    let entries = deadline_table();
    let table = DeadlineTable { entries: &entries };
    for (p, port) in ports[..n].iter().enumerate() {
        let desk = desk_view(running, waiting, n, p, takeover);
        let served = port.serve_with(desk, t, slot, table);
        side.ports[p] = served.port;
        side.choices[p] = served.choice.map(|f| f as u8);
    }
    side
}
