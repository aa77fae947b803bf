//! How a text begins: with markup, with one character, or with a run of characters of one class. Each character that
//! the grammar names is ASCII, and so one byte.
ghost use Rattle.std.specs.Prelude.{◌≡◌, length, ◌<◌, true, drop, slice_index};
ghost use Rattle.htmd_lexical.specs.CharacterClasses.{leading_run, behind_run};
ghost use Rattle.htmd_tree.specs.Classes.{is_in, is_ascii};
ghost use Rattle.htmd_grammar.specs.RawContent as raw;

use htmd_scanning::ByteClass;

/// Whether markup begins here: `<` before a letter, `/`, `!` or `?`.
pub(crate) fn begins_markup(bytes: &[u8]) -> bool
    ensures { result ≡ raw.begins_markup bytes.now }
{
    match bytes {
        [b'<', c, ..] => c.is_ascii_alphabetic() || *c == b'/' || *c == b'!' || *c == b'?',
        _ => false,
    }
}

/// What the characters of a run have in common. Outside ASCII they are all of the class, or none is.
#[derive(Clone, Copy)]
pub(crate) enum Class {
    TagName,
    WhiteSpace,
    AttributeName,
    UnquotedValue,
    /// Any but this one, which must be ASCII.
    Other(u8),
}

impl ByteClass for Class {
    ghost use Rattle.htmd_tree.specs.Classes.{is_in};

    ghost bytes = { is_in };

    #[inline(always)]
    fn has(self, byte: u8) -> bool {
        match self {
            Class::TagName => {
                byte.is_ascii_alphanumeric() || matches!(byte, b'-' | b'_' | b'.' | b':')
            }
            Class::WhiteSpace => byte.is_ascii_whitespace(),
            Class::AttributeName => {
                byte.is_ascii_alphabetic()
                    || !(byte.is_ascii_whitespace()
                        || byte.is_ascii_control()
                        || matches!(byte, b'"' | b'\'' | b'<' | b'/' | b'>' | b'='))
            }
            Class::UnquotedValue => {
                !(byte.is_ascii_whitespace() || matches!(byte, b'"' | b'\'' | b'<' | b'>' | b'`'))
            }
            Class::Other(other) => byte != other,
        }
    }
}

/// The run at the front of a text, and what follows it.
#[tactic(auto)]
pub(crate) fn split_run(text: &str, class: Class) -> (&str, &str)
    requires { is_ascii class ≡ true }
    ensures run { result.0.now ≡ leading_run (is_in class) text.now }
    ensures rest { result.1.now ≡ behind_run (is_in class) text.now }
{
    htmd_scanning::split_run(text, class)
}

#[tactic(auto, using(std::proofs::lemmas::Str::lead_after_ascii))]
/// The text after its first character, which must be ASCII.
pub(crate) fn behind_first(text: &str) -> &str
    requires filled { 0 < length text.now }
    requires ascii { slice_index text.now 0 < 128 }
    ensures { result.now ≡ drop 1 text.now }
{
    &text[1..]
}
