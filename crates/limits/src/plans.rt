// Plans, by acceptance, from a file and from a text.
use crate::report::report;
use plan::acceptance::accept;
use plan::range::MOST_SLOTS;
use planfile::read;
use plantext::read_text;

pub fn plan(rt: &impl Print, what: &str, n: usize, t: u32, rates: &[u16]) {
    report(rt, what, accept(n, t, rates));
}

pub fn frame(rt: &impl Print, t: u32) {
    report(rt, format_args!("T = {t}"), accept(1, t, &[0; 1]));
}

pub fn ports(rt: &impl Print, n: usize, rates: &[u16]) {
    report(rt, format_args!("N = {n}"), accept(n, 1, rates));
}

pub fn file(rt: &impl Print, what: &str, bytes: &[u8]) {
    report(rt, what, read(bytes));
}

// A text for one port.
pub fn text(rt: &impl Print, what: &str, text: &[u8]) {
    report(rt, what, read_text(1, MOST_SLOTS, text, &mut [0; 1]));
}
