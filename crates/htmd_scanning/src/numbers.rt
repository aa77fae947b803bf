//! What the digits of a numeric character reference mean.
ghost use Rattle.std.specs.Prelude.{◌≡◌, ◌≤◌, ◌<◌, min};
ghost use Rattle.htmd_lexical.specs.Numbers as references;

/// One more than the greatest number of a character.
const LIMIT: u32 = 0x11_0000;

/// The value of a digit.
fn digit_value(digit: u8) -> u8
    ensures value { result ≡ references.digit_value digit }
{
    if digit.is_ascii_digit() {
        digit - b'0'
    } else {
        digit.to_ascii_lowercase().saturating_sub(b'a') + 10
    }
}

/// What digits mean in a base, at most one more than the greatest number of a character.
pub fn number(digits: &[u8], base: u32) -> u32
    requires small { base ≤ 16 }
    requires base { 0 < base }
    ensures { result ≡ min (references.number base 0 digits.now) 0x11_0000 }
{
    let mut sum = 0;
    for digit in digits {
        sum = LIMIT.min(base * sum + u32::from(digit_value(*digit)));
    }
    sum
}
