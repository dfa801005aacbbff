// Reads a plan file from standard input and prints how evenly each flow is served, beside what is promised, or the number of
// the refusal.
#![tactic(auto)]

ghost use Rattle.std.specs.Prelude.{◌≡◌};
ghost use Rattle.smoothness.specs.Printout.{printout_of};

use crate::printout::printout;
use crate::room::Text;
use console::failure::fail;
use console::program::print_of;
use planfile::LONGEST_FILE;

mod flow;
mod line;
mod printout;
mod record;
mod room;

// One byte more than the longest plan file has: the bytes past these don't change the printout
// (proofs/PrintoutLaws.antt).
const MOST_INPUT: usize = LONGEST_FILE + 1;

// All that the programs that print have in common is `print_of`; the room and the printout are this one's. What it gets of the text
// is a view: a text of this size, handed on by value, is copied.
fn main(rt: HostRuntime) {
    let mut room = [0u8; MOST_INPUT];
    let mut text = Text::new();
    let lent = &mut text;
    let text_of = move |file: &[u8]|
        ensures { result.now ≡ printout_of file.now }
    {
        // taken out of the closure, which the view of it outlives
        let out = lent;
        printout(file, out);
        out.as_str()
    };
    if let Err(failure) = print_of(&mut rt.stdin(), &mut room, &mut rt.stdout(), text_of) {
        fail(&rt, failure.what, failure.error);
    }
}
