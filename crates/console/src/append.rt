// Text in a value with fixed room, to which each function appends. It asks for room for just its own text, which no type says.
// `write!` doesn't serve: its contract says what an `Ok` has written, and nowhere that there is one, and no text here can fail.
ghost use Rattle.std.specs.Prelude.{◌≡◌, ◌+◌, ◌≤◌, ◌++◌, length};
ghost use Rattle.arrayvec.specs.ArrayString.{array_string_len};
ghost use Rattle.console.specs.Text.{decimal_of, field_of};
ghost use Rattle.console.specs.Refused.{refusal_line_of};

use arrayvec::ArrayString;
use itoa::Buffer;
use refusal::{Refusal, verdict_number};

#[tactic(auto, using(crate::proofs::DigitLaws::decimal_is))]
pub fn number<const ROOM: usize>(out: &mut ArrayString<ROOM>, value: u64)
    requires { array_string_len out.old + length (decimal_of value) ≤ ROOM }
    ensures { out.new.bytes ≡ out.old.bytes ++ decimal_of value }
{
    out.push_str(Buffer::new().format(value));
}

// A number behind the space that parts it from the field before.
pub fn field<const ROOM: usize>(out: &mut ArrayString<ROOM>, value: u64)
    requires { array_string_len out.old + length (field_of value) ≤ ROOM }
    ensures { out.new.bytes ≡ out.old.bytes ++ field_of value }
{
    out.push_str(" ");
    number(out, value);
}

// Of any verdict: a refusal alone would ask more of callers.
#[tactic(auto, unfolding(crate::specs::Refused::refusal_line_of))]
pub fn refusal_line<const ROOM: usize>(out: &mut ArrayString<ROOM>, verdict: Result<(), Refusal>)
    requires { array_string_len out.old + length (refusal_line_of verdict) ≤ ROOM }
    ensures { out.new.bytes ≡ out.old.bytes ++ refusal_line_of verdict }
{
    out.push_str("refused ");
    number(out, u64::from(verdict_number(verdict)));
    out.push_str("\n");
}
