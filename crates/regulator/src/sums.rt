// The sums of all rows and columns of a list, kept side by side.
ghost use Rattle.std.specs.Prelude.{◌≡◌, ◌+◌, ◌*◌, ◌<◌, ◌≤◌, ◌^◌, max, length, get_or, set};
ghost use Rattle.plan.specs.Lines.{line_sum};
ghost use Rattle.plan.specs.Range.{most_ports};
ghost use Rattle.regulator.specs.Sums.{Holds, LineSums};

use plan::lines::Lines;
use plan::range::MOST_PORTS;

// The sums of the lines, and 0 in the places past them.
fn sums_of(lines: &Lines<'_>) -> [u32; MOST_PORTS]
    ensures { Holds result (line_sum lines.now.list.now lines.now.n lines.now.across lines.now.along) lines.now.n }
{
    let mut sums = [0; MOST_PORTS];
    for (k, sum) in sums[..lines.n].iter_mut().enumerate() {
        *sum = lines.sum(k);
    }
    sums
}

#[derive(Drop)]
pub struct Sums {
    pub rows: [u32; MOST_PORTS],
    pub columns: [u32; MOST_PORTS],
}

impl Sums {
    pub fn of(list: &[u16], n: usize) -> Sums
        requires { (n ≤ most_ports) × (length list.now ≡ n * n) }
        ensures { LineSums list.now n result.rows result.columns }
    {
        Sums {
            rows: sums_of(&Lines::rows(list, n)),
            columns: sums_of(&Lines::columns(list, n)),
        }
    }

    // The larger of the sums of row i and column j.
    pub fn larger(&self, i: usize, j: usize) -> u32
        requires { (i < most_ports) × (j < most_ports) }
        ensures { result ≡ max (get_or self.now.rows i 0) (get_or self.now.columns j 0) }
    {
        self.rows[i].max(self.columns[j])
    }

    // The rate at (i, j) has grown.
    pub fn add(&mut self, i: usize, j: usize, spare: u32)
        requires in_range { (i < most_ports) × (j < most_ports) }
        requires fits { (get_or self.old.rows i 0 + spare < 2 ^ 32) × (get_or self.old.columns j 0 + spare < 2 ^ 32) }
        ensures rows { self.new.rows ≡ set self.old.rows i (get_or self.old.rows i 0 + spare) }
        ensures columns { self.new.columns ≡ set self.old.columns j (get_or self.old.columns j 0 + spare) }
    {
        self.rows[i] += spare;
        self.columns[j] += spare;
    }
}
