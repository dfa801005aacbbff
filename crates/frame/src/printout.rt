// The printout of a plan file, as a whole.
ghost use Rattle.std.specs.Prelude.{◌≡◌, ◌+◌, ◌≤◌, ◌++◌, length};
ghost use Rattle.arrayvec.specs.ArrayString.{array_string_len};
ghost use Rattle.plan.specs.Range.{most_ports};
ghost use Rattle.frame.specs.Printout.{slot_lines_of, frame_printout_of, printout_of, printout_room};

use crate::line::{header, slot_line};
use crate::room::Text;
use console::append::refusal_line;
use crossbar::start::start;
use crossbar::state::{Reply, SlotReply, Switch};
use plan::Plan;
use plan::range::MOST_FLOWS;
use planfile::read;

// The lines of the slots of a frame, up to the first refusal.
fn slot_lines(out: &mut Text, fresh: Switch, store: &[u32], n: usize, frame: u32)
    requires { (n ≤ most_ports) × (array_string_len out.old + length (slot_lines_of fresh store.now n 0 frame) ≤ printout_room) }
    ensures { out.new.bytes ≡ out.old.bytes ++ slot_lines_of fresh store.now n 0 frame }
{
    let mut state = fresh;
    for slot in 0..frame {
        let SlotReply {
            state: next,
            verdict,
            moves,
            sends,
        } = state.step(store);
        let Ok(()) = verdict else {
            return refusal_line(out, verdict);
        };
        slot_line(out, slot, moves, sends, n);
        state = next;
    }
}

// One frame from a fresh start. No cell arrives: the choices don't look at queues, so a store for Q = 1 will do.
fn frame_printout(out: &mut Text, plan: Plan)
    requires { (plan.ports ≤ most_ports) × (array_string_len out.old + length (frame_printout_of plan) ≤ printout_room) }
    ensures { out.new.bytes ≡ out.old.bytes ++ frame_printout_of plan }
{
    let n = plan.ports;
    let zeros = [0u32; MOST_FLOWS];
    let store = &zeros[..n * n];
    let Reply { state, verdict } = start(n, plan.frame, &plan.rates[..n * n], 1, store);
    let Ok(()) = verdict else {
        return refusal_line(out, verdict);
    };
    header(out, n);
    slot_lines(out, state, store, n, plan.frame);
}

// Puts what is printed of a plan file in place of what the text has.
pub fn printout(file: &[u8], out: &mut Text)
    ensures { out.new.bytes ≡ printout_of file.now }
{
    out.clear();
    // by `let .. else`, as the scope has it for the reader's answer and for start's
    let reading = read(file);
    let Ok(plan) = reading else {
        return refusal_line(out, reading.and(Ok(())));
    };
    frame_printout(out, plan);
}
