//! Decoders for characters of several bytes: what is read at once, from the first byte of a character to the answer.
ghost use Rattle.std.specs.Prelude.{◌≡◌, ◌≤◌, ◌<◌, ◌⊎◌, ◌+◌, ◌-◌, ◌++◌, MatchBool, OnOk, drop, encode_utf8_all};
ghost use Rattle.std.specs.Prelude.{string_bytes};
ghost use Rattle.std.specs.Char.{InScalarRange};
ghost use Rattle.htmd_lexical.specs.Numbers as numbers;
ghost use Rattle.htmd_encodings.specs.Sequences as spec;

use std::alloc::AllocError;

/// The characters of an answer.
#[derive(Clone, Copy)]
pub(crate) enum Characters {
    /// None, after an escape sequence.
    Nothing,
    One(char),
    /// A letter and its mark.
    Two(char, char),
}

/// What a decoder makes of a byte and of those after it.
#[derive(Clone, Copy)]
pub(crate) struct Sequence {
    /// U+FFFD if it is an error.
    pub(crate) characters: Characters,
    /// How many bytes after the first are eaten.
    pub(crate) further: usize,
}

/// Whether a byte is in a range.
#[inline(always)]
pub(crate) fn is_between(low: u8, high: u8, byte: u8) -> bool
    ensures value { result ≡ numbers.is_between low high byte }
    ensures cases { MatchBool result (low ≤ byte × byte ≤ high) (byte < low ⊎ high < byte) }
{
    low <= byte && byte <= high
}

/// An answer of one character.
pub(crate) fn reads(character: char, further: usize) -> Sequence
    ensures { result ≡ spec.reads character further }
{
    Sequence {
        characters: Characters::One(character),
        further,
    }
}

/// An answer of two characters.
pub(crate) fn reads_two(letter: char, mark: char, further: usize) -> Sequence
    ensures { result ≡ spec.reads_two letter mark further }
{
    Sequence {
        characters: Characters::Two(letter, mark),
        further,
    }
}

/// An error.
pub(crate) fn error(further: usize) -> Sequence
    ensures { result ≡ spec.error further }
{
    reads(char::REPLACEMENT_CHARACTER, further)
}

/// The answer to a second byte by the character of both, which is U+FFFD if there is none.
pub(crate) fn pair(character: char, second: u8) -> Sequence
    ensures { result ≡ spec.pair character second }
{
    if character == char::REPLACEMENT_CHARACTER && second.is_ascii() {
        return error(0);
    }
    reads(character, 1)
}

/// The character of a pointer, or U+FFFD if the index has none.
pub(crate) fn character_at(index: &[char], pointer: usize) -> char
    ensures { result ≡ spec.character_at index.now pointer }
{
    match index.get(pointer) {
        Some(character) => *character,
        None => char::REPLACEMENT_CHARACTER,
    }
}

/// The character of a pointer in an index whose two halves are arrays of their own.
pub(crate) fn character_in_halves(first: &[char], rest: &[char], pointer: usize) -> char
    ensures { result ≡ spec.character_at (first.now ++ rest.now) pointer }
{
    if pointer < first.len() {
        return character_at(first, pointer);
    }
    character_at(rest, pointer - first.len())
}

/// The character with a number that is one.
pub(crate) fn character_of(number: u32) -> char
    requires { InScalarRange number }
    ensures { result ≡ number }
{
    match char::from_u32(number) {
        Some(character) => character,
        None => unreachable!(),
    }
}

/// The half-width katakana of a byte from A1 to DF.
pub(crate) fn half_width(byte: u8) -> char
    requires { 0xA1 ≤ byte × byte ≤ 0xDF }
    ensures { result ≡ 0xFF61 - 0xA1 + byte }
{
    character_of(0xFF61 - 0xA1 + u32::from(byte))
}

/// Appends the characters of an answer.
pub(crate) fn push_characters(text: &mut String, characters: Characters) -> Result<(), AllocError>
    ensures { OnOk result (string_bytes text.new
        ≡ string_bytes text.old ++ encode_utf8_all (spec.characters_of characters)) }
{
    match characters {
        Characters::Nothing => Ok(()),
        Characters::One(character) => text.push(character),
        Characters::Two(letter, mark) => {
            text.push(letter)?;
            text.push(mark)
        }
    }
}

/// What is left after this many bytes.
pub(crate) fn after(bytes: &[u8], eaten: usize) -> &[u8]
    ensures { result.now ≡ drop eaten bytes.now }
{
    match bytes.get(eaten..) {
        Some(rest) => rest,
        None => &[],
    }
}

/// How much room a text is given at first: enough for two bytes that are a character of three in UTF-8.
pub(crate) fn room_for(bytes: &[u8]) -> usize {
    bytes.len().saturating_add(bytes.len() / 2)
}
