// The plan file of a text.
ghost use Rattle.std.specs.Prelude.{cond, ◌≡◌, ◌*◌};
ghost use Rattle.plan.specs.Range.{ports_in_range};
ghost use Rattle.sheet.specs.Sheet.{sheet_of};

use arrayvec::ArrayVec;
use plan::range::{MOST_FLOWS, ports_in_range};
use planfile::LONGEST_FILE;
use planfile::writing::write;
use plantext::read_text;
use refusal::Refusal;

// The flows between N inputs and N outputs; none for an N that reading refuses, which looks at N in its own order.
fn flows(n: usize) -> usize
    ensures { result ≡ cond (ports_in_range n) (n * n) 0 }
{
    if ports_in_range(n) { n * n } else { 0 }
}

pub fn plan_file(n: usize, t: u32, text: &[u8]) -> Result<ArrayVec<u8, LONGEST_FILE>, Refusal>
    ensures { result ≡ sheet_of n t text.now }
{
    let mut rates = [0u16; MOST_FLOWS];
    let count = flows(n);
    read_text(n, t, text, &mut rates[..count])?;
    write(n, t, &rates[..count])
}
