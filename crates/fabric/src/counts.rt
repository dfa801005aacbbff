// The service counts after a slot.
ghost use Rattle.std.specs.Prelude.{◌≡◌, ◌≤◌};
ghost use Rattle.plan.specs.Range.{most_ports};
ghost use Rattle.fabric.specs.Counts.{counted_of};

use crate::Fabric;
use side::choices::Side;

impl Fabric {
    // The counts of the ports below n, as their slot leaves them. By number: of a field that is lent to `copy_from_slice`, a proof
    // knows nothing of the structs in it.
    pub fn counted(mut self, boards: Side, heads: Side, n: usize) -> Fabric
        requires { n ≤ most_ports }
        ensures { result ≡ counted_of self boards.ports heads.ports n }
    {
        for p in 0..n {
            self.boards[p] = boards.ports[p];
            self.heads[p] = heads.ports[p];
        }
        self
    }
}
