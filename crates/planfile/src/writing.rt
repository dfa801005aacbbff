// Plans to bytes.
ghost use Rattle.std.specs.Prelude.{◌≡◌, ◌<◌, ◌≤◌, ◌++◌, ◌+◌, length};
ghost use Rattle.plan.specs.Range.{most_flows};
ghost use Rattle.planfile.specs.Layout.{longest_file};
ghost use Rattle.planfile.specs.Write.{head_of, file_of, write_of};

use crate::LONGEST_FILE;
use crate::layout::{HEAD, VERSION};
use arrayvec::ArrayVec;
use plan::acceptance::accept;
use refusal::Refusal;

// The mark, the version, N and T.
#[tactic(auto, unfolding(crate::specs::Write::head_of))]
fn head(n: usize, t: u32) -> [u8; HEAD]
    requires { (n < 256) × (t < 65536) }
    ensures { result ≡ head_of n t }
{
    let version = VERSION.to_le_bytes();
    let frame = (t as u16).to_le_bytes();
    [
        b'L', b'S', b'P', version[0], version[1], n as u8, frame[0], frame[1],
    ]
}

// The head, and the rates behind it.
fn file(n: usize, t: u32, rates: &[u16]) -> ArrayVec<u8, LONGEST_FILE>
    requires { (n < 256) × (t < 65536) × (length rates.now ≤ most_flows) }
    ensures { result.items ≡ file_of n t rates.now }
{
    let mut file = ArrayVec::new();
    file.try_extend_from_slice(&head(n, t)).unwrap();
    for rate in rates {
        file.try_extend_from_slice(&rate.to_le_bytes()).unwrap();
    }
    file
}

// The file of a plan, if it is accepted.
#[tactic(auto, using(crate::proofs::WriteLaws::file_length_lem), unfolding(crate::specs::Write::write_of))]
pub fn write(n: usize, t: u32, rates: &[u16]) -> Result<ArrayVec<u8, LONGEST_FILE>, Refusal>
    ensures { result ≡ write_of n t rates.now }
{
    accept(n, t, rates)?;
    Ok(file(n, t, rates))
}
