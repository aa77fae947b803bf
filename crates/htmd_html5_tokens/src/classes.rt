//! How a text begins: the longest run of characters of one class.
ghost use Rattle.std.specs.Prelude.{◌≡◌, true};
ghost use Rattle.htmd_lexical.specs.CharacterClasses.{leading_run, behind_run};
ghost use Rattle.htmd_html5_tokens.specs.Classes.{is_in, is_ascii};

use htmd_scanning::ByteClass;

/// What the characters of a run have in common. Outside ASCII they are all of the class, or none is.
#[derive(Clone, Copy)]
pub(crate) enum Class {
    Name,
    AttributeName,
    UnquotedValue,
    Gap,
    White,
    /// Any but white space.
    Black,
    /// Any but this one, which must be ASCII.
    Other(u8),
}

impl ByteClass for Class {
    ghost use Rattle.htmd_html5_tokens.specs.Classes.{is_in};

    ghost bytes = { is_in };

    #[inline(always)]
    fn has(self, byte: u8) -> bool {
        match self {
            Class::Name => !(byte.is_ascii_whitespace() || matches!(byte, b'/' | b'>')),
            Class::AttributeName => !(byte.is_ascii_whitespace()
                || matches!(byte, b'/' | b'>' | b'=')),
            Class::UnquotedValue => !(byte.is_ascii_whitespace() || byte == b'>'),
            Class::Gap => byte.is_ascii_whitespace() || byte == b'/',
            Class::White => byte.is_ascii_whitespace(),
            Class::Black => !byte.is_ascii_whitespace(),
            Class::Other(other) => byte != other,
        }
    }
}

/// The run at the front of a text, and what follows it.
#[inline(always)]
pub(crate) fn split_run(text: &str, class: Class) -> (&str, &str)
    requires { is_ascii class ≡ true }
    ensures run { result.0.now ≡ leading_run (is_in class) text.now }
    ensures rest { result.1.now ≡ behind_run (is_in class) text.now }
{
    htmd_scanning::split_run(text, class)
}
