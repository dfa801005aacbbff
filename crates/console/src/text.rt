// Text in a lent buffer. Each function writes into it from the place `at` and answers the place behind.
ghost use Rattle.console.specs.Text.{decimal_of, HasRoom, Written};
ghost use Rattle.console.specs.Refused.{refusal_line_of};

use itoa::Buffer;
use refusal::{Refusal, verdict_number};

// Room for the line of a refusal: the word and a space, a number of 64 bits, LF.
pub const REFUSAL_ROOM: usize = 8 + 20 + 1;

pub fn put(out: &mut [u8], at: usize, text: &[u8]) -> usize
    requires { HasRoom out.old at text.now }
    ensures { Written out.old at text.now out.new result }
{
    let end = at + text.len();
    out[at..end].copy_from_slice(text);
    end
}

pub fn number(out: &mut [u8], at: usize, value: u64) -> usize
    requires { HasRoom out.old at (decimal_of value) }
    ensures { Written out.old at (decimal_of value) out.new result }
{
    put(out, at, Buffer::new().format(value).as_bytes())
}

pub fn refusal_line(out: &mut [u8], at: usize, verdict: Result<(), Refusal>) -> usize
    requires { HasRoom out.old at (refusal_line_of verdict) }
    ensures { Written out.old at (refusal_line_of verdict) out.new result }
{
    let number_at = put(out, at, b"refused ");
    let end = number(out, number_at, u64::from(verdict_number(verdict)));
    put(out, end, b"\n")
}
