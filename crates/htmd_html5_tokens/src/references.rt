//! Character references (HTML Standard, 13.2.5.72 to 13.2.5.80).
ghost use Rattle.std.specs.Prelude.{◌≡◌, ◌≤◌, ◌<◌, ◌+◌, ℕ, Bool, length, drop, true};
ghost use Rattle.std.specs.Str.{IsCharBoundary};
ghost use Rattle.htmd_lexical.specs.Characters.{number_sign};
ghost use Rattle.htmd_lexical.specs.CharacterClasses.{leading_run, first_is};
ghost use Rattle.htmd_lexical.specs.Numbers as grammar;
ghost use Rattle.htmd_html5_tokens.specs.NamedReferences.{longest_old};
ghost use Rattle.htmd_html5_tokens.specs.References as spec;
ghost use Rattle.htmd_html5_tokens.specs.ReferenceViews.{piece_of, IsAsciiTest};

use crate::names::{longest_old, named};
use htmd_scanning::{
    alphanumeric_len, begins_in_any_case, digits_len, first_is, hexdigits_len, number,
};

const REPLACEMENT_CHARACTER: char = '\u{fffd}';

/// What the numbers 0x80 to 0x9F stand for.
static WINDOWS_CHARACTERS: [char; 32] = [
    '\u{20ac}', '\u{81}', '\u{201a}', '\u{192}', '\u{201e}', '\u{2026}', '\u{2020}', '\u{2021}',
    '\u{2c6}', '\u{2030}', '\u{160}', '\u{2039}', '\u{152}', '\u{8d}', '\u{17d}', '\u{8f}',
    '\u{90}', '\u{2018}', '\u{2019}', '\u{201c}', '\u{201d}', '\u{2022}', '\u{2013}', '\u{2014}',
    '\u{2dc}', '\u{2122}', '\u{161}', '\u{203a}', '\u{153}', '\u{9d}', '\u{17e}', '\u{178}',
];

/// The characters that a reference stands for.
#[derive(Clone, Copy, Drop)]
pub(crate) enum Characters {
    One(char),
    Named(&'static str),
}

/// What `&` begins: the characters that it stands for, and how many of the bytes that follow belong to it.
#[derive(Clone, Copy, Drop)]
pub(crate) struct Reference {
    pub(crate) characters: Characters,
    pub(crate) following: usize,
}

/// `&` that begins no reference.
const AMPERSAND_ITSELF: Reference = Reference {
    characters: Characters::One('&'),
    following: 0,
};

/// Whether windows-1252 says what this number stands for.
fn is_windows(number: u32) -> bool
    ensures { result ≡ grammar.is_between 0x80 0x9F number }
{
    0x80 <= number && number <= 0x9F
}

/// The character that a reference by this number stands for.
fn character_numbered(number: u32) -> char
    ensures { result ≡ spec.character_numbered number }
{
    if number == 0 {
        return REPLACEMENT_CHARACTER;
    }
    if is_windows(number) {
        return WINDOWS_CHARACTERS[(number - 0x80) as usize];
    }
    match char::from_u32(number) {
        Some(character) => character,
        None => REPLACEMENT_CHARACTER,
    }
}

/// One `;` may end a number.
fn semicolon_len(bytes: &[u8]) -> usize
    ensures { result ≡ spec.semicolon_len bytes.now }
{
    if first_is(bytes, b';') { 1 } else { 0 }
}

/// A reference by a number, whose `len` digits begin at `from`.
fn reference_by_number(after: &str, from: usize, len: usize, base: u32) -> Reference
    requires small { base ≤ 16 }
    requires base { 0 < base }
    requires within { from + len ≤ length after.now }
    ensures piece { (is_digit : ℕ → Bool) → len ≡ length (leading_run is_digit (drop from after.now))
        → piece_of result ≡ spec.numbered is_digit base from (drop from after.now) }
    ensures end { (is_digit : ℕ → Bool) → len ≡ length (leading_run is_digit (drop from after.now))
        → IsAsciiTest is_digit → IsCharBoundary after.now result.following }
{
    if len == 0 {
        return AMPERSAND_ITSELF;
    }
    let bytes = after.as_bytes();
    let end = from + len;
    let value = character_numbered(number(&bytes[from..end], base));
    Reference {
        characters: Characters::One(value),
        following: end + semicolon_len(&bytes[end..]),
    }
}

/// What `&#` begins; the text begins with its `#`.
fn after_number_sign(after: &str) -> Reference
    requires { first_is number_sign after.now ≡ true }
    ensures piece { piece_of result ≡ spec.after_number_sign (drop 1 after.now) }
    ensures end { IsCharBoundary after.now result.following }
{
    let bytes = after.as_bytes();
    if begins_in_any_case(&bytes[1..], b"x") {
        let len = hexdigits_len(&bytes[2..]);
        reference_by_number(after, 2, len, 16)
    } else {
        let len = digits_len(&bytes[1..]);
        reference_by_number(after, 1, len, 10)
    }
}

/// Whether a name without `;` isn't a reference here, in the value of an attribute.
fn goes_on(bytes: &[u8]) -> bool
    ensures { result ≡ spec.goes_on bytes.now }
{
    matches!(bytes, [first, ..] if *first == b'=' || first.is_ascii_alphanumeric())
}

/// A reference by a name without `;`, or `&` itself.
fn old_reference(after: &str, in_value: bool) -> Reference
    ensures piece { piece_of result ≡ spec.old_reference in_value (longest_old after.now) after.now }
    ensures end { IsCharBoundary after.now result.following }
{
    let bytes = after.as_bytes();
    let Some((name, characters)) = longest_old(bytes) else {
        return AMPERSAND_ITSELF;
    };
    if in_value && goes_on(&bytes[name.len()..]) {
        return AMPERSAND_ITSELF;
    }
    Reference {
        characters: Characters::Named(characters),
        following: name.len(),
    }
}

/// A reference by a name, or `&` itself.
fn reference_by_name(after: &str, in_value: bool) -> Reference
    ensures piece { piece_of result ≡ spec.reference_by_name in_value after.now }
    ensures end { IsCharBoundary after.now result.following }
{
    let bytes = after.as_bytes();
    let len = alphanumeric_len(bytes);
    if !first_is(&bytes[len..], b';') {
        return old_reference(after, in_value);
    }
    match named(&bytes[..len]) {
        Some(characters) => Reference {
            characters: Characters::Named(characters),
            following: len + 1,
        },
        None => old_reference(after, in_value),
    }
}

/// What `&` begins, when this text follows it: a reference, or `&` itself.
pub(crate) fn read_reference(after: &str, in_value: bool) -> Reference
    ensures piece { piece_of result ≡ spec.after_ampersand in_value after.now }
    ensures end { IsCharBoundary after.now result.following }
{
    if first_is(after.as_bytes(), b'#') {
        after_number_sign(after)
    } else {
        reference_by_name(after, in_value)
    }
}
