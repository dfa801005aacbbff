// Number 12's rules for the flows.
ghost use Rattle.std.specs.Prelude.{◌≡◌, ◌≤◌};
ghost use Rattle.plan.specs.Range.{most_ports};
ghost use Rattle.fabric.specs.Valid.{flow_valid, flows_valid};

use crate::flow::{CROSSPOINT_DEPTH, Crosspoint, Queue};
use plan::range::MOST_FLOWS;

fn flow_valid(queue: Queue, point: Crosspoint, depth: usize) -> bool
    ensures { result ≡ flow_valid depth queue point }
{
    usize::from(queue.place) < depth
        && usize::from(queue.count) <= depth
        && point.count <= CROSSPOINT_DEPTH
}

// The queues and crosspoints of the flows below N x N.
pub fn flows_valid(
    queues: [Queue; MOST_FLOWS],
    points: [Crosspoint; MOST_FLOWS],
    n: usize,
    depth: usize,
) -> bool
    requires { n ≤ most_ports }
    ensures { result ≡ flows_valid queues points n depth }
{
    queues
        .iter()
        .zip(points.iter())
        .take(n * n)
        .all(|(queue, point)| flow_valid(*queue, *point, depth))
}
