// The columns of a list of rates as rows, by which heads choose as boards do.
ghost use Rattle.std.specs.Prelude.{◌≡◌, ◌*◌, ◌<◌, ◌≤◌, length};
ghost use Rattle.plan.specs.Range.{most_ports};
ghost use Rattle.side.specs.Columns.{transposed_row, transposed};

use plan::lines::flow_place;
use plan::range::MOST_FLOWS;

// Column j of the rates becomes row j of the array.
#[tactic(auto, using(crate::proofs::ColumnLaws::transpose_row_step), unfolding(crate::specs::Columns::transposed_row))]
fn transpose_row(rates: &[u16], n: usize, j: usize, array: &mut [u16; MOST_FLOWS])
    requires { (n ≤ most_ports) × (j < n) × (length rates.now ≡ n * n) }
    ensures { array.new ≡ transposed_row rates.now n j array.old n }
{
    // by number: number i of the array's row j is number j of the rates' row i
    for i in 0..n {
        array[flow_place(n, j, i)] = rates[flow_place(n, i, j)];
    }
}

// The columns of the rates become the rows of the array.
#[tactic(auto, using(crate::proofs::ColumnLaws::transpose_step), unfolding(crate::specs::Columns::transposed))]
pub fn transpose(rates: &[u16], n: usize, array: &mut [u16; MOST_FLOWS])
    requires { (n ≤ most_ports) × (length rates.now ≡ n * n) }
    ensures { array.new ≡ transposed rates.now n array.old n }
{
    for j in 0..n {
        transpose_row(rates, n, j, array);
    }
}
