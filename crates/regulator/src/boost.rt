// Boost: spare slots are given out, diagonal by diagonal; the period number says which comes first.
ghost use Rattle.std.specs.Prelude.{◌≡◌, ◌*◌, ◌<◌, ◌≤◌, get_or};
ghost use Rattle.plan.specs.Range.{most_ports};
ghost use Rattle.plan.specs.Accept.{IsPlan, within_frame};
ghost use Rattle.regulator.specs.Outcome.{outcome};
ghost use Rattle.regulator.specs.Sums.{LineSums};
ghost use Rattle.regulator.specs.Boost.{column_on, boost_diagonal, diagonal_in, boosted_of, boost_of};

use crate::lists::check_lists;
use crate::sums::Sums;
use plan::lines::flow_place;
use plan::lists::copy;
use plan::range::MOST_PORTS;
use refusal::Refusal;

// Whether none of the n sums is above t. `Lines::fit` adds numbers up for the same question; here the sums are kept.
fn sums_fit(sums: &[u32; MOST_PORTS], n: usize, t: u32) -> bool
    requires { n ≤ most_ports }
    ensures { result ≡ within_frame (λ k. get_or sums.now k 0) n t }
{
    sums[..n].iter().all(|sum| *sum <= t)
}

// The column of row i on diagonal k: a rule of its own, though `diagonal_in` has the same remainder.
#[tactic(auto, using(crate::proofs::DiagonalLaws::column_below), unfolding(crate::specs::Boost::column_on))]
fn column_on(n: usize, k: usize, i: usize) -> usize
    requires { (n ≤ most_ports) × (k < n) × (i < n) }
    ensures { (result ≡ column_on n k i) × (result < n) }
{
    (i + k) % n
}

// Diagonal k. The sums of the rates are kept. By number: i is the row of a flow, whose column, place and sums it gives.
#[tactic(auto, unfolding(crate::specs::Boost::boost_diagonal))]
fn boost_diagonal(n: usize, t: u32, k: usize, sums: &mut Sums, rates: &mut [u16])
    requires { IsPlan n t rates.old × LineSums rates.old n sums.old.rows sums.old.columns × (k < n) }
    ensures { (rates.new ≡ boost_diagonal n t k rates.old n) × LineSums rates.new n sums.new.rows sums.new.columns }
{
    for i in 0..n {
        let j = column_on(n, k, i);
        let spare = t - sums.larger(i, j);
        rates[flow_place(n, i, j)] += spare as u16;
        sums.add(i, j, spare);
    }
}

// The diagonal in a turn of a period. The sum has 64 bits, so that no period number makes it wrap.
#[tactic(auto, using(crate::proofs::PeriodLaws::in_below), unfolding(crate::specs::Boost::diagonal_in))]
fn diagonal_in(n: usize, period: u32, turn: usize) -> usize
    requires { (n ≤ most_ports) × (turn < n) }
    ensures { (result ≡ diagonal_in n period turn) × (result < n) }
{
    (period as usize + turn) % n
}

// All diagonals. By number: each turn has its diagonal, and nothing is walked over.
#[tactic(auto, unfolding(crate::specs::Boost::boosted_of, crate::specs::Boost::boost_diagonals))]
fn boost_diagonals(n: usize, t: u32, period: u32, mut sums: Sums, rates: &mut [u16])
    requires { IsPlan n t rates.old × LineSums rates.old n sums.rows sums.columns }
    ensures { rates.new ≡ boosted_of n t period rates.old }
{
    for turn in 0..n {
        boost_diagonal(n, t, diagonal_in(n, period, turn), &mut sums, rates);
    }
}

// Writes the given plan with its spare slots given out, and answers whether it did.
#[tactic(auto, using(crate::proofs::OutcomeLaws::lists_passed), unfolding(crate::specs::Boost::boost_of, crate::specs::Boost::boost_verdict))]
pub fn boost(n: usize, t: u32, period: u32, given: &[u16], rates: &mut [u16]) -> Result<(), Refusal>
    ensures { outcome result rates.new ≡ boost_of n t period given.now rates.old }
{
    check_lists(n, t, given.len(), rates.len())?;
    let sums = Sums::of(given, n);
    if !sums_fit(&sums.rows, n, t) {
        return Err(Refusal::RowAboveFrame);
    }
    if !sums_fit(&sums.columns, n, t) {
        return Err(Refusal::ColumnAboveFrame);
    }
    copy(given, rates);
    boost_diagonals(n, t, period, sums, rates);
    Ok(())
}
