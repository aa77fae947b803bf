//! The numbers that are values of options.
ghost use Rattle.std.specs.Prelude.{◌≡◌, ◌^◌, None, Some};
ghost use Rattle.htmd_cli.specs.Options as spec;

/// The number that decimal digits write, from 0 to 255.
pub(crate) fn number(text: &str) -> Option<u8>
    ensures { result ≡ spec.number text.now }
{
    match decimal(text) {
        Some(number) if number < 256 => Some(number as u8),
        _ => None,
    }
}

/// The number of bytes that decimal digits write, at least 1.
pub(crate) fn size(text: &str) -> Option<usize>
    ensures { result ≡ spec.size text.now }
{
    match decimal(text) {
        Some(0) => None,
        size => size,
    }
}

/// The number that decimal digits write, if it fits.
fn decimal(text: &str) -> Option<usize>
    ensures { result ≡ spec.below (2 ^ 64) (spec.decimal text.now) }
{
    if text.is_empty() {
        return None;
    }
    let mut number = 0usize;
    for byte in text.as_bytes() {
        let Some(next) = with_digit(number, *byte) else {
            return None;
        };
        number = next;
    }
    Some(number)
}

/// The number with a further digit after it, if it fits.
fn with_digit(number: usize, byte: u8) -> Option<usize>
    ensures { result ≡ spec.below (2 ^ 64) (spec.with_digit number byte) }
{
    if !byte.is_ascii_digit() {
        return None;
    }
    number
        .checked_mul(10)?
        .checked_add(usize::from(byte - b'0'))
}
