//! How many bytes of a class are at the beginning of a text.
ghost use Rattle.std.specs.Prelude.{◌≡◌, ◌≤◌, ℕ, Bool, length};
ghost use Rattle.std.specs.Char.{is_ascii_alphanumeric, is_ascii_digit, is_ascii_hexdigit};
ghost use Rattle.htmd_lexical.specs.CharacterClasses.{leading_run, behind_run};
ghost use Rattle.htmd_scanning.specs.Runs.{IsUniform};

/// What the bytes of a run have in common.
pub trait ByteClass: Copy {
    /// The bytes of the class.
    ghost bytes: { Self → ℕ → Bool };

    fn has(self, byte: u8) -> bool
        ensures { result ≡ bytes self byte };
}

/// How many bytes of the class are at the beginning.
#[tactic(auto, using(htmd_lexical::proofs::RunsLemmas::run_more, htmd_lexical::proofs::RunsLemmas::run_stops))]
#[inline(always)]
pub fn run_len<C: ByteClass>(bytes: &[u8], class: C) -> usize
    ensures bound { result ≤ length bytes.now }
    ensures value { result ≡ length (leading_run (C.bytes class) bytes.now) }
{
    for (len, byte) in bytes.iter().enumerate() {
        if !class.has(*byte) {
            return len;
        }
    }
    bytes.len()
}

/// The run of the class at the beginning, and what follows it. Outside ASCII all characters must be of the class, or
/// none.
#[tactic(auto)]
#[inline(always)]
pub fn split_run<C: ByteClass>(text: &str, class: C) -> (&str, &str)
    requires { IsUniform (C.bytes class) }
    ensures run { result.0.now ≡ leading_run (C.bytes class) text.now }
    ensures rest { result.1.now ≡ behind_run (C.bytes class) text.now }
{
    text.split_at(run_len(text.as_bytes(), class))
}

/// ASCII letters and digits.
#[derive(Clone, Copy)]
struct Alphanumeric;

impl ByteClass for Alphanumeric {
    ghost use Rattle.std.specs.Char.{is_ascii_alphanumeric};

    ghost bytes = { λ _. is_ascii_alphanumeric };

    #[inline(always)]
    fn has(self, byte: u8) -> bool {
        byte.is_ascii_alphanumeric()
    }
}

/// How many ASCII letters and digits are at the beginning.
pub fn alphanumeric_len(bytes: &[u8]) -> usize
    ensures bound { result ≤ length bytes.now }
    ensures value { result ≡ length (leading_run is_ascii_alphanumeric bytes.now) }
{
    run_len(bytes, Alphanumeric)
}

/// Decimal digits.
#[derive(Clone, Copy)]
struct Digit;

impl ByteClass for Digit {
    ghost use Rattle.std.specs.Char.{is_ascii_digit};

    ghost bytes = { λ _. is_ascii_digit };

    #[inline(always)]
    fn has(self, byte: u8) -> bool {
        byte.is_ascii_digit()
    }
}

/// How many decimal digits are at the beginning.
pub fn digits_len(bytes: &[u8]) -> usize
    ensures bound { result ≤ length bytes.now }
    ensures value { result ≡ length (leading_run is_ascii_digit bytes.now) }
{
    run_len(bytes, Digit)
}

/// Hexadecimal digits.
#[derive(Clone, Copy)]
struct Hexdigit;

impl ByteClass for Hexdigit {
    ghost use Rattle.std.specs.Char.{is_ascii_hexdigit};

    ghost bytes = { λ _. is_ascii_hexdigit };

    #[inline(always)]
    fn has(self, byte: u8) -> bool {
        byte.is_ascii_hexdigit()
    }
}

/// How many hexadecimal digits are at the beginning.
pub fn hexdigits_len(bytes: &[u8]) -> usize
    ensures bound { result ≤ length bytes.now }
    ensures value { result ≡ length (leading_run is_ascii_hexdigit bytes.now) }
{
    run_len(bytes, Hexdigit)
}
