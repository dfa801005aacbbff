// Prints the deadlines of frames of 64 slots, by the formula: the table that the multiplexer reads them from.
#![tactic(auto)]

use crate::printout::{Text, printout};
use console::failure::fail;

mod printout;

fn main(rt: HostRuntime) {
    let mut out = Text::new();
    printout(&mut out);
    if let Err(error) = rt.write_all(out.as_bytes()) {
        fail(&rt, "standard output", error);
    }
}
