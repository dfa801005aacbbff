// The sums of rows and columns, and the number of a flow.
ghost use Rattle.std.specs.Prelude.{◌≡◌, ◌+◌, ◌*◌, ◌<◌, ◌≤◌, length, get_or};
ghost use Rattle.plan.specs.Accept.{within_frame};
ghost use Rattle.plan.specs.Lines.{FlowPlace, LinesIn, line_sum};
ghost use Rattle.plan.specs.Range.{most_ports};

// A list of n x n numbers as n lines of n: line k begins at place k * across, and its numbers stand `along` places apart.
#[derive(Clone, Copy)]
pub struct Lines<'a> {
    pub list: &'a [u16],
    pub n: usize,
    pub across: usize,
    pub along: usize,
    pub ghost within: { LinesIn list.now n across along },
}

impl<'a> Lines<'a> {
    // The rows of a list for n ports.
    #[tactic(auto, using(crate::proofs::LineLaws::rows_in))]
    pub fn rows(list: &'a [u16], n: usize) -> Lines<'a>
        requires { (n ≤ most_ports) × (length list.now ≡ n * n) }
        ensures { (result.list.now ≡ list.now) × (result.n ≡ n) × (result.across ≡ n) × (result.along ≡ 1) }
    {
        Lines {
            list,
            n,
            across: n,
            along: 1,
        }
    }

    // The columns of a list for n ports.
    #[tactic(auto, using(crate::proofs::LineLaws::columns_in_lem))]
    pub fn columns(list: &'a [u16], n: usize) -> Lines<'a>
        requires { (n ≤ most_ports) × (length list.now ≡ n * n) }
        ensures { (result.list.now ≡ list.now) × (result.n ≡ n) × (result.across ≡ 1) × (result.along ≡ n) }
    {
        Lines {
            list,
            n,
            across: 1,
            along: n,
        }
    }

    // Number m of line k.
    pub fn rate(&self, k: usize, m: usize) -> u16
        requires { (k < self.now.n) × (m < self.now.n) }
        ensures { result ≡ get_or self.now.list.now (k * self.now.across + m * self.now.along) 0 }
    {
        self.list[k * self.across + m * self.along]
    }

    // The sum of line k.
    pub fn sum(&self, k: usize) -> u32
        requires { k < self.now.n }
        ensures { result ≡ line_sum self.now.list.now self.now.n self.now.across self.now.along k }
    {
        (0..self.n).map(|m| u32::from(self.rate(k, m))).sum()
    }

    // Whether no line's sum is above t.
    pub fn fit(&self, t: u32) -> bool
        ensures { result ≡ within_frame (line_sum self.now.list.now self.now.n self.now.across self.now.along) self.now.n t }
    {
        (0..self.n).all(|k| self.sum(k) <= t)
    }
}

// The number of the flow (i, j).
pub fn flow_place(n: usize, i: usize, j: usize) -> usize
    requires { (n ≤ most_ports) × (i < n) × (j < n) }
    ensures { FlowPlace n i j result }
{
    i * n + j
}
