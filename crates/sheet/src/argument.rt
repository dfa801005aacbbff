// The numbers that the program is called with.
ghost use Rattle.std.specs.Prelude.{◌≡◌};
ghost use Rattle.sheet.specs.Argument.{argument_of};

use plantext::digit::{digit_of, is_digit};

// The number that an argument is, if it is one. A larger one than 32 bits hold counts as the largest of these, which is outside
// every range, too. Not `read_digits` of plantext: that one has another limit, and answers with what stands behind the digits.
pub fn read_argument(text: &[u8]) -> Option<u32>
    ensures { result ≡ argument_of text.now }
{
    if text.is_empty() {
        return None;
    }
    let mut value: u32 = 0;
    for &byte in text {
        if !is_digit(byte) {
            return None;
        }
        value = value.saturating_mul(10).saturating_add(digit_of(byte));
    }
    Some(value)
}
