// The printout of a plan file, as a whole. Each function puts its lines behind those that a text has.
ghost use Rattle.std.specs.Prelude.{◌≡◌, ◌+◌, ◌*◌, ◌<◌, ◌≤◌, ◌++◌, length};
ghost use Rattle.arrayvec.specs.ArrayString.{array_string_len};
ghost use Rattle.plan.specs.Range.{most_ports, most_slots};
ghost use Rattle.meter.specs.Cover.{most_record};
ghost use Rattle.console.specs.TextBelow.{text_below};
ghost use Rattle.smoothness.specs.Printout.{stretches, counts, flow_lines_of, head_lines_of, printout_of, printout_room};
ghost use Rattle.smoothness.specs.Head.{flows_lines_of, rates_lines_of};

use crate::flow::{Flow, Head};
use crate::line::line;
use crate::record::{RECORD_ROOM, record_frames};
use crate::room::{STRETCHES, Text};
use console::append::refusal_line;
use meter::cover;
use plan::Plan;
use plan::desk::desk_view;
use plan::range::MOST_FLOWS;
use planfile::read;
use side::columns::transpose;

// Whether the length at place k is 1 or more, and stands at no place before.
fn counts(lengths: [u32; STRETCHES], k: usize) -> bool
    requires { k < stretches }
    ensures { result ≡ counts lengths k }
{
    let l = lengths[k];
    l > 0 && !lengths[..k].contains(&l)
}

// The lines of a flow whose head has this record.
#[tactic(auto, using(console::proofs::TextBelowLaws::put_below), unfolding(crate::specs::Printout::flow_lines_of))]
fn flow_lines(out: &mut Text, recorded: &[u16], flow: Flow)
    requires { (flow.board < most_ports) × (array_string_len out.old + length (flow_lines_of recorded.now flow.head.number flow.board flow.rate flow.head.frame) ≤ printout_room) × (flow.head.frame ≤ length recorded.now) × (length recorded.now ≤ most_record) }
    ensures { out.new.bytes ≡ out.old.bytes ++ flow_lines_of recorded.now flow.head.number flow.board flow.rate flow.head.frame }
{
    let frame = flow.head.frame;
    let lengths = [1, frame / 4, frame / 2, frame];
    for (k, &l) in lengths.iter().enumerate() {
        if !counts(lengths, k) {
            continue;
        }
        let measured = cover(recorded, flow.board as u16, l as usize).unwrap();
        line(out, flow, l, measured);
    }
}

// The lines of all flows of a head, which has these rates and this record.
#[tactic(auto, using(console::proofs::TextBelowLaws::put_below))]
fn flows_lines(out: &mut Text, recorded: &[u16], rates: &[u16], head: Head)
    requires { (length rates.now ≤ most_ports) × (array_string_len out.old + length (flows_lines_of recorded.now rates.now head.number head.frame) ≤ printout_room) × (head.frame ≤ length recorded.now) × (length recorded.now ≤ most_record) }
    ensures { out.new.bytes ≡ out.old.bytes ++ flows_lines_of recorded.now rates.now head.number head.frame }
{
    for (board, &rate) in rates.iter().enumerate() {
        if rate == 0 {
            continue;
        }
        flow_lines(out, recorded, Flow { head, board, rate });
    }
}

// The lines of a head, whose record is made once for all of its flows.
fn head_lines(out: &mut Text, rates: &[u16], head: Head)
    requires { (head.frame ≤ most_slots) × (length rates.now ≤ most_ports) × (array_string_len out.old + length (rates_lines_of rates.now head.number head.frame) ≤ printout_room) }
    ensures { out.new.bytes ≡ out.old.bytes ++ rates_lines_of rates.now head.number head.frame }
{
    let mut recorded = [0u16; RECORD_ROOM];
    record_frames(rates, head.frame, &mut recorded);
    flows_lines(out, &recorded[..3 * head.frame as usize], rates, head);
}

// The lines of all heads. By number: a loop over `chunks_exact` asks for N of 1 or more, and is proved by what its iterator has
// left, which takes five answers in place of two.
#[tactic(auto, using(console::proofs::TextBelowLaws::put_below))]
fn heads_lines(out: &mut Text, plan: Plan)
    requires { (plan.ports ≤ most_ports) × (1 ≤ plan.frame) × (plan.frame ≤ most_slots) × (array_string_len out.old + length (text_below (head_lines_of plan) plan.ports) ≤ printout_room) }
    ensures { out.new.bytes ≡ out.old.bytes ++ text_below (head_lines_of plan) plan.ports }
{
    let n = plan.ports;
    let mut array = [0u16; MOST_FLOWS];
    transpose(&plan.rates[..n * n], n, &mut array);
    let columns = &array[..n * n];
    for j in 0..n {
        let column = desk_view(columns, columns, n, j, false);
        let head = Head {
            number: j,
            frame: plan.frame,
        };
        head_lines(out, column, head);
    }
}

// Puts what is printed of a plan file in place of what the text has.
pub fn printout(file: &[u8], out: &mut Text)
    ensures { out.new.bytes ≡ printout_of file.now }
{
    out.clear();
    match read(file) {
        Ok(plan) => {
            out.push_str("out in rate slots least promised most promised\n");
            heads_lines(out, plan);
        }
        Err(refusal) => refusal_line(out, Err(refusal)),
    }
}
