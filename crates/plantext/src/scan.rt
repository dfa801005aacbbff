// The rules of a text up to a field. Each function takes what it can from the beginning of a text, and answers what is left
// behind that, or nothing if the text doesn't keep to the rule.
ghost use Rattle.std.specs.Prelude.{[], ◌∷◌, ◌≡◌, ◌≤◌, length, drop, option_map};
ghost use Rattle.plantext.specs.Values as values;

use crate::digit::{digit_of, is_digit};

const MOST_DIGITS: usize = 5;

#[tactic(auto, using(crate::proofs::SeriesLaws::skip_prefix))]
pub fn skip<'a>(text: &'a [u8], mark: &[u8]) -> Option<&'a [u8]>
    ensures { option_map (λ rest. ([], rest.now)) result ≡ values.skip mark.now text.now }
{
    text.strip_prefix(mark)
}

// How many digits there are, five at most, and the number that they write. By number: only the count moves at a digit, and the
// text is cut once behind all of them. A slice that moves at each digit is two words, and plain texts take a third longer.
fn count_digits(text: &[u8]) -> (usize, u32)
    ensures { (values.digits_from 5 0 0 text.now ≡ record { count = result.0; value = result.1; rest = drop result.0 text.now }) × (result.0 ≤ length text.now) }
{
    let mut value: u32 = 0;
    for count in 0..MOST_DIGITS {
        match text.get(count) {
            Some(byte) if is_digit(*byte) => value = value * 10 + digit_of(*byte),
            _ => return (count, value),
        }
    }
    (MOST_DIGITS, value)
}

// The number of as many digits as there are, five at most, and none without a digit.
fn read_digits(text: &[u8]) -> Option<(u32, &[u8])>
    ensures { option_map (λ digits. (digits.0, digits.1.now)) result ≡ values.some_digit (values.digits_from 5 0 0 text.now) }
{
    let (count, value) = count_digits(text);
    (count >= 1).then_some((value, &text[count..]))
}

#[tactic(auto, unfolding(crate::specs::Values::number))]
fn read_number(text: &[u8]) -> Option<(u16, &[u8])>
    ensures { option_map (λ field. (field.0 ∷ [], field.1.now)) result ≡ values.number text.now }
{
    let (value, rest) = read_digits(text)?;
    Some((u16::try_from(value).ok()?, rest))
}

// Plain or in double quotes.
#[tactic(auto, unfolding(crate::specs::Values::field))]
pub fn read_field(text: &[u8]) -> Option<(u16, &[u8])>
    ensures { option_map (λ field. (field.0 ∷ [], field.1.now)) result ≡ values.field text.now }
{
    let Some(inside) = skip(text, b"\"") else {
        return read_number(text);
    };
    let (value, end) = read_number(inside)?;
    Some((value, skip(end, b"\"")?))
}
