// A line of the printout.
ghost use Rattle.std.specs.Prelude.{◌≡◌, ◌+◌, ◌≤◌, ◌++◌, length};
ghost use Rattle.arrayvec.specs.ArrayString.{array_string_len};
ghost use Rattle.console.specs.Text.{decimal_of, field_of};
ghost use Rattle.smoothness.specs.Printout.{line_of, printout_room};

use crate::flow::Flow;
use crate::room::Text;
use console::append::{field, number};
use meter::Measured;

// Which flow it is, its rate, and in how many slots it is measured.
fn flow_fields(out: &mut Text, flow: Flow, l: u32)
    requires { array_string_len out.old + length (decimal_of flow.head.number ++ field_of flow.board ++ field_of flow.rate ++ field_of l) ≤ printout_room }
    ensures { out.new.bytes ≡ out.old.bytes ++ decimal_of flow.head.number ++ field_of flow.board ++ field_of flow.rate ++ field_of l }
{
    number(out, flow.head.number as u64);
    field(out, flow.board as u64);
    field(out, u64::from(flow.rate));
    field(out, u64::from(l));
}

// Puts the line of the flow, measured in l slots, behind what there is.
#[tactic(auto, unfolding(crate::specs::Printout::line_of))]
pub fn line(out: &mut Text, flow: Flow, l: u32, measured: Measured)
    requires { (1 ≤ l) × (array_string_len out.old + length (line_of flow.head.number flow.board flow.rate l flow.head.frame measured) ≤ printout_room) }
    ensures { out.new.bytes ≡ out.old.bytes ++ line_of flow.head.number flow.board flow.rate l flow.head.frame measured }
{
    flow_fields(out, flow, l);
    field(out, measured.least.services as u64);
    field(out, flow.least_bound(l));
    field(out, measured.most.services as u64);
    field(out, flow.most_bound(l));
    out.push_str("\n");
}
