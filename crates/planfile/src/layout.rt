// The numbers of a plan file: the mark is in bytes 0 to 2, the version in 3 and 4, N in 5, T in 6 and 7, and the
// rates follow.
ghost use Rattle.std.specs.Prelude.{◌&&◌, ◌≡◌, ◌+◌, ◌*◌, ◌<◌, ◌≤◌, eqb, length};
ghost use Rattle.plan.specs.Range.{most_flows};
ghost use Rattle.planfile.specs.Layout.{word_at, is_marked, version_in, ports_in, frame_in, rates_of, padded};

use plan::range::MOST_FLOWS;

// the bytes before the rates
pub const HEAD: usize = 8;

pub const VERSION: u16 = 1;

// The 16-bit number at a place, low byte first.
fn word_at(bytes: &[u8], at: usize) -> u16
    requires { at + 1 < length bytes.now }
    ensures { result ≡ word_at bytes.now at }
{
    u16::from_le_bytes([bytes[at], bytes[at + 1]])
}

// Whether the file begins with the mark and the version.
#[tactic(auto, unfolding(crate::specs::Layout::is_marked))]
pub fn is_plan_file(head: &[u8; HEAD]) -> bool
    ensures { result ≡ (is_marked head.now && eqb (version_in head.now) 1) }
{
    head.starts_with(b"LSP") && word_at(head, 3) == VERSION
}

pub fn ports_in(head: &[u8; HEAD]) -> usize
    ensures { result ≡ ports_in head.now }
{
    usize::from(head[5])
}

pub fn frame_in(head: &[u8; HEAD]) -> u32
    ensures { result ≡ frame_in head.now }
{
    u32::from(word_at(head, 6))
}

// The first `count` rates, and 0 in the places past them.
pub fn rates_of(bytes: &[u8], count: usize) -> [u16; MOST_FLOWS]
    requires { (count ≤ most_flows) × (8 + 2 * count ≤ length bytes.now) }
    ensures { result ≡ padded (rates_of bytes.now count) }
{
    let mut rates = [0; MOST_FLOWS];
    for (p, rate) in rates[..count].iter_mut().enumerate() {
        *rate = word_at(bytes, HEAD + 2 * p);
    }
    rates
}
