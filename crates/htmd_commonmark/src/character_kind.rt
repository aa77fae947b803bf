//! The characters at the ends of a text, and what a character is to the marks beside it (CommonMark 0.31.2, 2.1, 6.2).
ghost use Rattle.std.specs.Prelude.{◌≡◌, length};
ghost use Rattle.std.specs.Str.{chars};
ghost use Rattle.htmd_commonmark.specs.CharacterKinds as spec;

use unicode::properties::{GeneralCategory, GeneralCategoryGroup};

/// The first character of the text, none of an empty one.
pub fn first_character(text: &str) -> Option<char>
    ensures { result ≡ spec.first_character text.now }
{
    text.chars().next()
}

/// The last character of the text, none of an empty one.
pub fn last_character(text: &str) -> Option<char>
    ensures { result ≡ spec.last_character text.now }
{
    text.chars().next_back()
}

/// How many characters the text has.
pub(crate) fn character_count(text: &str) -> usize
    ensures { result ≡ length (chars text.now) }
{
    text.chars().count()
}

/// Whether the character is white space: tab, line feed, form feed, carriage return, or a space of any width.
pub fn is_space(c: char) -> bool
    ensures { result ≡ spec.is_space c }
{
    c.is_ascii_whitespace()
        || matches!(
            GeneralCategory::for_char(c),
            GeneralCategory::SpaceSeparator
        )
}

/// Whether a mark can stand beside the character for any reader: it is no white space, punctuation or symbol.
pub(crate) fn is_word(c: char) -> bool
    ensures { result ≡ spec.is_word c }
{
    let category = GeneralCategory::for_char(c);
    !(is_space(c)
        || c.is_ascii_punctuation()
        || GeneralCategoryGroup::Punctuation.contains(category)
        || GeneralCategoryGroup::Symbol.contains(category))
}

/// Whether the character is white space or punctuation to all readers.
pub(crate) fn is_apart(c: char) -> bool
    ensures { result ≡ spec.is_apart c }
{
    is_space(c)
        || c.is_ascii_punctuation()
        || GeneralCategoryGroup::Punctuation.contains(GeneralCategory::for_char(c))
}
