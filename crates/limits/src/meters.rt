// Records of what an output served.
use crate::report::report;
use meter::cover;

pub fn record(rt: &impl Print, slots: &[u16], l: usize) {
    let count = slots.len();
    report(
        rt,
        format_args!("l = {l}, slots in the record: {count}"),
        cover(slots, 0, l),
    );
}
