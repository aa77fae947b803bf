//! Signs that links to their own place show.
ghost use Rattle.std.specs.Prelude.{◌≡◌, ◌&&◌, drop};
ghost use Rattle.htmd_shown.specs.Belows as views;
ghost use Rattle.htmd_shown.specs.Marks as spec;
ghost use Rattle.htmd_shown.specs.TextViews.{begins_visibly};

use crate::shown_text::is_blank_character;
use unicode::properties::{GeneralCategory, GeneralCategoryGroup};

/// What a text shows, white space aside: nothing, one character, or more.
#[derive(Clone, Copy, PartialEq, Eq)]
pub(crate) enum Sign {
    Nothing,
    One(char),
    More,
}

impl Sign {
    /// What two texts show together.
    pub(crate) fn and(self, other: Sign) -> Sign
        ensures { result ≡ views.sign_and self other }
    {
        match (self, other) {
            (Sign::Nothing, sign) => sign,
            (sign, Sign::Nothing) => sign,
            _ => Sign::More,
        }
    }

    /// What a text of the page shows. Most begin with two visible characters.
    pub(crate) fn of_text(text: &str) -> Sign
        ensures { result ≡ views.sign_of (spec.letters text.now) }
    {
        if shows_two(text.as_bytes()) {
            return Sign::More;
        }
        Sign::of_characters(text)
    }

    /// The same of any text, by its characters.
    fn of_characters(text: &str) -> Sign
        ensures { result ≡ views.sign_of (spec.letters text.now) }
    {
        let mut sign = Sign::Nothing;
        for c in text.chars() {
            if is_blank_character(c) {
                continue;
            }
            if !sign.is_nothing() {
                return Sign::More;
            }
            sign = Sign::One(c);
        }
        sign
    }

    pub(crate) fn is_nothing(self) -> bool
        ensures { result ≡ views.is_nothing self }
    {
        matches!(self, Sign::Nothing)
    }

    /// Whether it is one usual sign.
    pub(crate) fn is_usual(self) -> bool
        ensures { result ≡ views.is_one spec.is_usual_sign self }
    {
        match self {
            Sign::One(c) => is_usual_sign(c),
            Sign::Nothing => false,
            Sign::More => false,
        }
    }

    /// Whether it is one sign: a usual one, punctuation or a symbol.
    pub(crate) fn is_any(self) -> bool
        ensures { result ≡ views.is_one spec.is_sign self }
    {
        match self {
            Sign::One(c) => is_usual_sign(c) || is_punctuation(c) || is_symbol(c),
            Sign::Nothing => false,
            Sign::More => false,
        }
    }
}

/// Whether the first two bytes are visible ASCII characters.
fn shows_two(bytes: &[u8]) -> bool
    ensures { result ≡ (begins_visibly bytes.now && begins_visibly (drop 1 bytes.now)) }
{
    matches!(bytes, [b'!'..=b'~', b'!'..=b'~', ..])
}

/// Whether a character means a link to its own place: not `+`, `-` and such, which can be terms of their own.
pub fn is_usual_sign(c: char) -> bool
    ensures { result ≡ spec.is_usual_sign c }
{
    matches!(
        c,
        '#' | '¶' | '§' | '◆' | '⚓' | '∞' | '🔗' | '\u{200b}' | '\u{e000}'..='\u{f8ff}'
    )
}

/// Whether a character is of the category P.
fn is_punctuation(c: char) -> bool
    ensures { result ≡ spec.is_punctuation c }
{
    GeneralCategoryGroup::Punctuation.contains(GeneralCategory::for_char(c))
}

/// Whether a character is of the category S.
fn is_symbol(c: char) -> bool
    ensures { result ≡ spec.is_symbol c }
{
    GeneralCategoryGroup::Symbol.contains(GeneralCategory::for_char(c))
}
