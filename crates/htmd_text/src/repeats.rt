//! Runs of one byte at the ends of a text.
ghost use Rattle.std.specs.Prelude.{◌≡◌, ◌==◌, ◌≤◌, length};
ghost use Rattle.std.specs.List.{prefix_len, suffix_len};

/// How many times in a row a byte occurs at the front of a text.
pub fn leading_len(bytes: &[u8], byte: u8) -> usize
    ensures bound { result ≤ length bytes.now }
    ensures value { result ≡ prefix_len (λ b. b == byte) bytes.now }
{
    for (len, &b) in bytes.iter().enumerate() {
        if b != byte {
            return len;
        }
    }
    bytes.len()
}

/// How many times in a row a byte occurs at the end of a text.
pub fn trailing_len(bytes: &[u8], byte: u8) -> usize
    ensures bound { result ≤ length bytes.now }
    ensures value { result ≡ suffix_len (λ b. b == byte) bytes.now }
{
    let mut end = bytes.len();
    while end > 0 && bytes[end - 1] == byte {
        end -= 1;
    }
    bytes.len() - end
}
