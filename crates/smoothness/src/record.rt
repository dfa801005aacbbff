// The record of a head: which board's flow it serves, slot by slot.
ghost use Rattle.std.specs.Prelude.{◌≡◌, ◌*◌, ◌<◌, ◌≤◌, length, take};
ghost use Rattle.side.specs.Choices.{ChoosesPort};
ghost use Rattle.meter.specs.Record.{entry_of, next_slot};
ghost use Rattle.smoothness.specs.Printout.{three_frames_of};

use meter::IDLE_SLOT;
use multiplexer::Multiplexer;
use plan::range::{MOST_PORTS, MOST_SLOTS};

// Room for the record of three frames.
pub const RECORD_ROOM: usize = 3 * MOST_SLOTS as usize;

fn entry(choice: Option<usize>) -> u16
    requires { ChoosesPort choice }
    ensures { result ≡ entry_of choice }
{
    match choice {
        Some(flow) => flow as u16,
        None => IDLE_SLOT,
    }
}

// After the last slot of a frame comes slot 0.
fn next_slot(slot: u32, frame: u32) -> u32
    requires { slot < frame }
    ensures { (result ≡ next_slot frame slot) × (result < frame) }
{
    if slot + 1 == frame { 0 } else { slot + 1 }
}

// What a head with these rates serves in three frames, at the start of the list.
pub fn record_frames(rates: &[u16], frame: u32, recorded: &mut [u16])
    requires { 3 * frame ≤ length recorded.old }
    ensures { take (3 * frame) recorded.new ≡ three_frames_of rates.now frame }
{
    let mut port = Multiplexer {
        served: [0; MOST_PORTS],
    };
    let mut slot = 0;
    for place in &mut recorded[..3 * frame as usize] {
        let served = port.serve(rates, frame, slot);
        *place = entry(served.choice);
        port = served.port;
        slot = next_slot(slot, frame);
    }
}
