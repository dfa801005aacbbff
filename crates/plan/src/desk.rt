// The desk view.
ghost use Rattle.std.specs.Prelude.{◌≡◌, ◌*◌, ◌<◌, length};
ghost use Rattle.plan.specs.Desk.{row_of, has_row, desk_of};

use crate::range::{is_square, ports_in_range};

// Whether lists of these lengths have a row i of N numbers.
#[tactic(auto, unfolding(crate::specs::Desk::has_row))]
fn has_row(n: usize, i: usize, running: usize, waiting: usize) -> bool
    ensures { result ≡ has_row n i running waiting }
{
    ports_in_range(n) && i < n && is_square(n, running) && is_square(n, waiting)
}

// The row of input i.
fn row(rates: &[u16], n: usize, i: usize) -> &[u16]
    requires { (i < n) × (length rates.now ≡ n * n) }
    ensures { result.now ≡ row_of rates.now n i }
{
    &rates[i * n..][..n]
}

// The row of input i in the list that rules the coming slot, as a part of that list; where there is none the empty part, as desk_of
// and C have it.
#[tactic(auto, using(crate::proofs::DeskLaws::has_row_lem), unfolding(crate::specs::Desk::desk_of))]
pub fn desk_view<'a>(
    running: &'a [u16],
    waiting: &'a [u16],
    n: usize,
    i: usize,
    takeover: bool,
) -> &'a [u16]
    ensures { result.now ≡ desk_of running.now waiting.now n i takeover }
{
    if !has_row(n, i, running.len(), waiting.len()) {
        return &running[..0];
    }
    row(if takeover { waiting } else { running }, n, i)
}
