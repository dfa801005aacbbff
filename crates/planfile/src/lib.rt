// The plan file: bytes to an accepted plan, or the refusal; and an accepted plan to bytes (writing).
#![tactic(auto)]

ghost use Rattle.std.specs.Prelude.{◌≡◌, ◌+◌, ◌*◌, ◌≤◌, length};
ghost use Rattle.refusal.specs.Chain.{when_accepted};
ghost use Rattle.plan.specs.Range.{most_flows};
ghost use Rattle.plan.specs.Accept.{accept_of};
ghost use Rattle.planfile.specs.Layout.{rates_of};
ghost use Rattle.planfile.specs.Read.{plan_of, read_of};

use crate::layout::{HEAD, frame_in, is_plan_file, ports_in, rates_of};
use plan::Plan;
use plan::acceptance::accept;
use plan::range::{MOST_FLOWS, check};
use refusal::Refusal;

mod layout;
pub mod writing;

// The bytes of the longest plan file.
pub const LONGEST_FILE: usize = HEAD + 2 * MOST_FLOWS;

// The plan of a file whose head gave N and T, by its first `count` rates.
fn read_rates(bytes: &[u8], n: usize, t: u32, count: usize) -> Result<Plan, Refusal>
    requires { (count ≤ most_flows) × (8 + 2 * count ≤ length bytes.now) }
    ensures { result ≡ when_accepted (accept_of n t (rates_of bytes.now count)) (plan_of n t (rates_of bytes.now count)) }
{
    let rates = rates_of(bytes, count);
    accept(n, t, &rates[..count])?;
    Ok(Plan {
        ports: n,
        frame: t,
        rates,
    })
}

// The plan of a file: the head's length, the mark and version, N, T, the whole length, then the sums.
#[tactic(auto, using(plan::proofs::RangeLaws::range_first, crate::proofs::LayoutLaws::marked_head, crate::proofs::LayoutLaws::head_byte), unfolding(crate::specs::Read::read_of, crate::specs::Read::verdict_of))]
pub fn read(bytes: &[u8]) -> Result<Plan, Refusal>
    ensures { result ≡ read_of bytes.now }
{
    let head = bytes.first_chunk::<HEAD>().ok_or(Refusal::FileLength)?;
    if !is_plan_file(head) {
        return Err(Refusal::NotPlanFile);
    }
    let n = ports_in(head);
    let t = frame_in(head);
    check(n, t)?;
    let count = n * n;
    if bytes.len() != HEAD + 2 * count {
        return Err(Refusal::FileLength);
    }
    read_rates(bytes, n, t, count)
}
