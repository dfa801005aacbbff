// The lines of the printout. Each function puts its text behind what there is.
ghost use Rattle.std.specs.Prelude.{◌≡◌, ◌+◌, ◌≤◌, ◌++◌, length};
ghost use Rattle.arrayvec.specs.ArrayString.{array_string_len};
ghost use Rattle.plan.specs.Range.{most_ports};
ghost use Rattle.frame.specs.Printout.{names_of, choice_of, side_choices_of, header_of, slot_line_of, printout_room};

use crate::room::Text;
use console::append::{field, number};
use fabric::flow::Answer;
use plan::range::MOST_PORTS;

// The names of the ports of one side.
#[tactic(auto, using(console::proofs::TextBelowLaws::put_below))]
fn names(out: &mut Text, side: &str, n: usize)
    requires { array_string_len out.old + length (names_of side.now n) ≤ printout_room }
    ensures { out.new.bytes ≡ out.old.bytes ++ names_of side.now n }
{
    // by number, which is what is printed
    for port in 0..n {
        out.push_str(side);
        number(out, port as u64);
    }
}

// The port that another one chose.
fn choice(out: &mut Text, answer: Answer)
    requires { array_string_len out.old + length (choice_of answer) ≤ printout_room }
    ensures { out.new.bytes ≡ out.old.bytes ++ choice_of answer }
{
    match answer {
        Answer::Idle => out.push_str(" -"),
        Answer::Empty(other) | Answer::Moved(other, _) => field(out, other as u64),
    }
}

// The choices of the ports of one side.
#[tactic(auto, using(console::proofs::TextBelowLaws::put_below))]
fn choices(out: &mut Text, answers: [Answer; MOST_PORTS], n: usize)
    requires { (n ≤ most_ports) × (array_string_len out.old + length (side_choices_of answers n) ≤ printout_room) }
    ensures { out.new.bytes ≡ out.old.bytes ++ side_choices_of answers n }
{
    for &answer in &answers[..n] {
        choice(out, answer);
    }
}

#[tactic(auto, unfolding(crate::specs::Printout::header_of))]
pub fn header(out: &mut Text, n: usize)
    requires { array_string_len out.old + length (header_of n) ≤ printout_room }
    ensures { out.new.bytes ≡ out.old.bytes ++ header_of n }
{
    out.push_str("slot");
    names(out, " in", n);
    names(out, " out", n);
    out.push_str("\n");
}

#[tactic(auto, unfolding(crate::specs::Printout::slot_line_of))]
pub fn slot_line(
    out: &mut Text,
    slot: u32,
    boards: [Answer; MOST_PORTS],
    heads: [Answer; MOST_PORTS],
    n: usize,
)
    requires { (n ≤ most_ports) × (array_string_len out.old + length (slot_line_of slot boards heads n) ≤ printout_room) }
    ensures { out.new.bytes ≡ out.old.bytes ++ slot_line_of slot boards heads n }
{
    number(out, u64::from(slot));
    choices(out, boards, n);
    choices(out, heads, n);
    out.push_str("\n");
}
