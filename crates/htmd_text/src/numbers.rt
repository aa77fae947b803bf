//! Numbers as they are written.
ghost use Rattle.std.specs.Prelude.{◌≡◌};
ghost use Rattle.htmd_text.specs.Digits as spec;

/// The number of decimal digits, 1 for 0.
pub fn digits(number: usize) -> usize
    ensures { result ≡ spec.digits number }
{
    let mut rest = number;
    let mut digits = 1;
    while rest >= 10 {
        rest /= 10;
        digits += 1;
    }
    digits
}
