//! How bytes begin, the longest run of one class, and which are the same in any ASCII case.
ghost use Rattle.std.specs.Prelude.{◌≡◌, true, false, drop, MatchOption};
ghost use Rattle.htmd_lexical.specs.CharacterClasses.{first_is, leading_run, behind_run};
ghost use Rattle.htmd_encodings.specs.Declarations as declarations;
ghost use Rattle.htmd_encodings.specs.Labels as labels;
ghost use Rattle.htmd_encodings.specs.Views.{is_in};

use htmd_scanning::{ByteClass, begins_with, run_len};

/// What the bytes of a run have in common.
#[derive(Clone, Copy)]
pub(crate) enum Class {
    White,
    /// White space or `/`.
    Gap,
    AttributeName,
    UnquotedValue,
    /// Of a label that ends at white space or `;`.
    Label,
    /// A control or a space.
    Control,
    /// Any but those.
    Visible,
    /// Any but this one.
    Other(u8),
}

impl ByteClass for Class {
    ghost use Rattle.htmd_encodings.specs.Views.{is_in};

    ghost bytes = { is_in };

    #[inline(always)]
    fn has(self, byte: u8) -> bool {
        match self {
            Class::White => byte.is_ascii_whitespace(),
            Class::Gap => byte.is_ascii_whitespace() || byte == b'/',
            Class::AttributeName => !(byte.is_ascii_whitespace()
                || matches!(byte, b'/' | b'=' | b'>')),
            Class::UnquotedValue => !(byte.is_ascii_whitespace() || byte == b'>'),
            Class::Label => !(byte.is_ascii_whitespace() || byte == b';'),
            Class::Control => byte <= b' ',
            Class::Visible => byte > b' ',
            Class::Other(other) => byte != other,
        }
    }
}

/// The run at the front of the bytes, and what follows it.
pub(crate) fn split_run(bytes: &[u8], class: Class) -> (&[u8], &[u8])
    ensures run { result.0.now ≡ leading_run (is_in class) bytes.now }
    ensures rest { result.1.now ≡ behind_run (is_in class) bytes.now }
{
    bytes.split_at(run_len(bytes, class))
}

/// The bytes after this one, if they begin with it.
pub(crate) fn strip_byte(bytes: &[u8], byte: u8) -> Option<&[u8]>
    ensures { MatchOption result (first_is byte bytes.now ≡ false)
        (λ rest. (first_is byte bytes.now ≡ true) × (rest.now ≡ drop 1 bytes.now)) }
{
    match bytes {
        [first, after @ ..] if *first == byte => Some(after),
        _ => None,
    }
}

/// What follows the first such bytes, or nothing if there are none.
pub(crate) fn after_first<'a>(bytes: &'a [u8], searched: &[u8]) -> &'a [u8]
    ensures { result.now ≡ declarations.after_first searched.now bytes.now }
{
    let mut rest = bytes;
    while let [_, after @ ..] = rest {
        if begins_with(rest, searched) {
            let (_, after) = rest.split_at(searched.len());
            return after;
        }
        rest = after;
    }
    rest
}

/// Whether they are the same in any ASCII case.
pub(crate) fn is_in_any_case(text: &[u8], other: &[u8]) -> bool
    ensures { result ≡ labels.is_in_any_case text.now other.now }
{
    text.eq_ignore_ascii_case(other)
}
