// The limits of N and T, which only this file and specs/Range.antt have, and the length of a list for N ports.
ghost use Rattle.std.specs.Prelude.{◌≡◌, ◌*◌, eqb};
ghost use Rattle.plan.specs.Range.{ports_in_range, frame_in_range, range_of};

use refusal::Refusal;

// N and T stay numbers, with their bounds in clauses: so C and a state hand them over, and every loop ends at one
// (docs/DECISIONS.md).
pub const MOST_PORTS: usize = 16;

// The flows between that many inputs and outputs.
pub const MOST_FLOWS: usize = MOST_PORTS * MOST_PORTS;

// The slots of the longest frame.
pub const MOST_SLOTS: u32 = 1024;

#[tactic(auto, unfolding(crate::specs::Range::ports_in_range))]
pub fn ports_in_range(n: usize) -> bool
    ensures { result ≡ ports_in_range n }
{
    (1..=MOST_PORTS).contains(&n)
}

#[tactic(auto, unfolding(crate::specs::Range::frame_in_range))]
pub fn frame_in_range(t: u32) -> bool
    ensures { result ≡ frame_in_range t }
{
    (1..=MOST_SLOTS).contains(&t)
}

// N, and then T: so they stand in the order of each call that has both.
#[tactic(auto, unfolding(crate::specs::Range::range_of))]
pub fn check(n: usize, t: u32) -> Result<(), Refusal>
    ensures { result ≡ range_of n t }
{
    if !ports_in_range(n) {
        return Err(Refusal::PortsOutOfRange);
    }
    if !frame_in_range(t) {
        return Err(Refusal::FrameOutOfRange);
    }
    Ok(())
}

// Whether a list of `len` numbers is N x N long; an N whose square passes 64 bits has no such list.
pub fn is_square(n: usize, len: usize) -> bool
    ensures { result ≡ eqb len (n * n) }
{
    n.checked_mul(n) == Some(len)
}
