// The limits of the switch, tried from both sides: case C11 of the scope, then the small example of each row of its
// table "What is sent back" beside a neighbour that is accepted, then texts beside those that keep to the rules, and records
// beside those that are measured. The example of row 9, a load while a plan waits, is accepted: number 9 is given to no
// refusal.
#![tactic(auto)]

use crate::meters::record;
use crate::plans::{file, frame, plan, ports, text};
use crate::switches::{arrivals, crosspoint, depth, loads, output, places, slot};
use plan::range::MOST_SLOTS;

mod meters;
mod plans;
mod report;
mod switches;

fn case_11(rt: &impl Print) {
    arrivals(rt, &mut [0; 64]);
    frame(rt, MOST_SLOTS);
    frame(rt, MOST_SLOTS + 1);
}

fn plan_rows(rt: &impl Print) {
    ports(rt, 16, &[0; 16 * 16]);
    ports(rt, 17, &[0; 17 * 17]);
    ports(rt, 1, &[0; 1]);
    ports(rt, 0, &[0; 0]);
    frame(rt, 1);
    frame(rt, 0);
    plan(rt, "N = 2, 4 rates", 2, 3, &[0; 4]);
    plan(rt, "N = 2, 3 rates", 2, 3, &[0; 3]);
    plan(rt, "N = 2, 5 rates", 2, 3, &[0; 5]);
    plan(rt, "T = 3, row 1 2", 2, 3, &[1, 2, 0, 0]);
    plan(rt, "T = 3, row 2 2", 2, 3, &[2, 2, 0, 0]);
    plan(rt, "T = 3, rows 2 0 and 1 0", 2, 3, &[2, 0, 1, 0]);
    plan(rt, "T = 3, rows 2 0 and 2 0", 2, 3, &[2, 0, 2, 0]);
}

fn switch_rows(rt: &impl Print) {
    depth(rt, &[0; 64]);
    depth(rt, &[0; 65]);
    depth(rt, &[0; 1]);
    depth(rt, &[0; 0]);
    places(rt, &[0; 2]);
    places(rt, &[0; 3]);
    places(rt, &[0; 1]);
    loads(rt);
    output(rt, 1);
    output(rt, 2);
    arrivals(rt, &mut [0; 1]);
    slot(rt, 5);
    slot(rt, 6);
    crosspoint(rt, 1);
    crosspoint(rt, 2);
}

fn file_rows(rt: &impl Print) {
    file(rt, "version 1", b"LSP\x01\x00\x01\x01\x00\x01\x00");
    file(rt, "version 2", b"LSP\x02\x00\x01\x01\x00\x01\x00");
    file(
        rt,
        "file with a rate too many",
        b"LSP\x01\x00\x01\x01\x00\x01\x00\x00\x00",
    );
    file(rt, "empty file", b"");
}

// Number 16 of the request for texts, after 3 and before 4.
fn text_rows(rt: &impl Print) {
    text(rt, "field 00001", b"00001\r\n");
    text(rt, "field 000001", b"000001\r\n");
    text(rt, "field 65535", b"65535\r\n");
    text(rt, "field 65536", b"65536\r\n");
    text(rt, "field in quotes", b"\"1\"\r\n");
    text(rt, "field in one quote", b"\"1\r\n");
    text(rt, "record with no line end", b"1");
    text(rt, "record with LF alone", b"1\n");
    text(rt, "empty text", b"");
}

// Number 17 of the request for the meter.
fn record_rows(rt: &impl Print) {
    record(rt, &[0; 0], 0);
    record(rt, &[0; 3], 3);
    record(rt, &[0; 3], 4);
    record(rt, &[0; 65535], 1);
    record(rt, &[0; 65536], 1);
}

fn main(rt: HostRuntime) {
    case_11(&rt);
    plan_rows(&rt);
    switch_rows(&rt);
    file_rows(&rt);
    text_rows(&rt);
    record_rows(&rt);
}
