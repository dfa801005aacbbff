// The plan's text: comma-separated rates to an accepted plan, or the refusal.
#![tactic(auto)]

ghost use Rattle.std.specs.Prelude.{◌≡◌, ◌*◌, ◌≤◌, length};
ghost use Rattle.refusal.specs.Outcome.{outcome, written};
ghost use Rattle.plan.specs.Range.{most_ports};
ghost use Rattle.plan.specs.Accept.{accept_of};
ghost use Rattle.plantext.specs.Read.{values_in, judged_of, read_text_of};

use crate::records::read_values;
use plan::acceptance::accept;
use plan::range::{MOST_FLOWS, MOST_PORTS, check, is_square};
use refusal::Refusal;

pub mod digit;
mod records;
mod scan;

// The bytes of the longest text: quoted fields of five digits, commas, and CR LF.
pub const MOST_TEXT: usize = MOST_FLOWS * 7 + MOST_PORTS * (MOST_PORTS - 1) + MOST_PORTS * 2;

// Writes the values to the list if they are an accepted plan, and answers whether they are.
fn hand_over(n: usize, t: u32, values: &[u16], rates: &mut [u16]) -> Result<(), Refusal>
    requires { length rates.old ≡ length values.now }
    ensures { outcome result rates.new ≡ written (accept_of n t values.now) values.now rates.old }
{
    accept(n, t, values)?;
    rates.copy_from_slice(values);
    Ok(())
}

// The text's rules and then the sums, for N in range and a list for N ports. The values are kept apart until they are known
// to be a plan, so that a refused call writes nothing.
fn read_rates(n: usize, t: u32, text: &[u8], rates: &mut [u16]) -> Result<(), Refusal>
    requires { (n ≤ most_ports) × (length rates.old ≡ n * n) }
    ensures { outcome result rates.new ≡ written (judged_of n t text.now) (values_in n text.now) rates.old }
{
    let mut values = [0u16; MOST_FLOWS];
    let flows = n * n;
    read_values(text, n, &mut values[..flows]).ok_or(Refusal::NotPlanText)?;
    hand_over(n, t, &values[..flows], rates)
}

// Writes the rates of a text to the list, row by row, and answers whether it did: N, T, the list's length, the text's rules,
// then the sums.
#[tactic(auto, using(plan::proofs::RangeLaws::range_first, plan::proofs::RangeLaws::range_ports), unfolding(crate::specs::Read::read_text_of, crate::specs::Read::verdict_of))]
pub fn read_text(n: usize, t: u32, text: &[u8], rates: &mut [u16]) -> Result<(), Refusal>
    ensures { outcome result rates.new ≡ read_text_of n t text.now rates.old }
{
    check(n, t)?;
    if !is_square(n, rates.len()) {
        return Err(Refusal::ListLength);
    }
    read_rates(n, t, text, rates)
}
