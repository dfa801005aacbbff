// The printout, which is one number a line. Each function puts its lines behind those that a text has.
ghost use Rattle.std.specs.Prelude.{◌≡◌, ◌+◌, ◌*◌, ◌≤◌, ◌++◌, length};
ghost use Rattle.arrayvec.specs.ArrayString.{array_string_len};
ghost use Rattle.multiplexer.specs.Choose.{rounded_up};
ghost use Rattle.multiplexer.specs.Deadlines.{table_frame};
ghost use Rattle.deadlines.specs.Printout.{line_of, rate_lines_of, printout_of, printout_room};

use arrayvec::ArrayString;
use console::append::number;
use multiplexer::TABLE_FRAME;

// A number of 64 bits, LF.
const LINE_ROOM: usize = 20 + 1;

// Room for the printout: no rate has more lines than the highest one.
const PRINTOUT_ROOM: usize = TABLE_FRAME as usize * (TABLE_FRAME as usize * LINE_ROOM);

pub type Text = ArrayString<PRINTOUT_ROOM>;

// s × 64 / a rounded up.
#[tactic(auto, using(console::proofs::CeilLaws::ceil_is, multiplexer::proofs::RoundLaws::quotient_rounded))]
fn deadline(a: u32, s: u32) -> u64
    requires { (1 ≤ a) × (a ≤ table_frame) × (s ≤ a) }
    ensures { result ≡ rounded_up (s * table_frame) a }
{
    u64::from((s * TABLE_FRAME).div_ceil(a))
}

fn line(out: &mut Text, value: u64)
    requires { array_string_len out.old + length (line_of value) ≤ printout_room }
    ensures { out.new.bytes ≡ out.old.bytes ++ line_of value }
{
    number(out, value);
    out.push_str("\n");
}

// The lines of rate a. From 0, as `text_below` counts: a loop over `1..=a` takes one answer more.
#[tactic(auto, using(console::proofs::TextBelowLaws::put_below), unfolding(crate::specs::Printout::rate_lines_of))]
fn rate_lines(out: &mut Text, a: u32)
    requires { (1 ≤ a) × (a ≤ table_frame) × (array_string_len out.old + length (rate_lines_of a) ≤ printout_room) }
    ensures { out.new.bytes ≡ out.old.bytes ++ rate_lines_of a }
{
    for k in 0..a {
        line(out, deadline(a, k + 1));
    }
}

// Puts the lines of all rates, from 0 likewise, in place of what the text has. It is lent: a text of this size, handed back by
// value, is copied.
#[tactic(auto, using(console::proofs::TextBelowLaws::put_below), unfolding(crate::specs::Printout::printout_of))]
pub fn printout(out: &mut Text)
    ensures { out.new.bytes ≡ printout_of }
{
    out.clear();
    for b in 0..TABLE_FRAME {
        rate_lines(out, b + 1);
    }
}
