// Decimal digits in ASCII: what the library says of a byte, under the names that the rules and the program `sheet` have for it.
ghost use Rattle.std.specs.Prelude.{true, ◌≡◌, ◌<◌};
ghost use Rattle.plantext.specs.Bytes.{is_digit, digit_of};

#[tactic(auto, unfolding(crate::specs::Bytes::is_digit))]
pub fn is_digit(byte: u8) -> bool
    ensures { result ≡ is_digit byte }
{
    byte.is_ascii_digit()
}

#[tactic(auto, unfolding(crate::specs::Bytes::is_digit))]
pub fn digit_of(byte: u8) -> u32
    requires { is_digit byte ≡ true }
    ensures { (result ≡ digit_of byte) × (result < 10) }
{
    u32::from(byte - b'0')
}
