//! gb18030, and gbk, which is decoded in the same way.
ghost use Rattle.std.specs.Prelude.{◌≡◌, ◌≤◌, ◌<◌, ◌⊎◌, MatchBool};
ghost use Rattle.htmd_encodings.specs.Gb18030 as spec;

use crate::indexes::gb18030_first::GB18030_FIRST;
use crate::indexes::gb18030_ranges::GB18030_RANGES;
use crate::indexes::gb18030_rest::GB18030_REST;
use crate::sequences::{
    Sequence, character_in_halves, character_of, error, is_between, pair, reads,
};

/// What the decoder makes of a byte and of those after it.
pub(crate) fn sequence_of(first: u8, rest: &[u8]) -> Sequence
    ensures { result ≡ spec.sequence_of first rest.now }
{
    if first.is_ascii() {
        return reads(char::from(first), 0);
    }
    if first == 0x80 {
        return reads('\u{20ac}', 0);
    }
    if is_between(0x81, 0xFE, first) {
        return after_lead(first, rest);
    }
    error(0)
}

fn after_lead(lead: u8, rest: &[u8]) -> Sequence
    requires { 0x81 ≤ lead }
    ensures { result ≡ spec.after_lead lead rest.now }
{
    let [byte, after @ ..] = rest else {
        return error(0);
    };
    if is_between(b'0', b'9', *byte) {
        return after_two(lead, *byte, after);
    }
    pair(character(lead, *byte), *byte)
}

// The character of two bytes.
fn character(lead: u8, byte: u8) -> char
    requires { 0x81 ≤ lead }
    ensures { result ≡ spec.character lead byte }
{
    if is_between(0x40, 0x7E, byte) || is_between(0x80, 0xFE, byte) {
        let offset = if byte < 0x7F { 0x40 } else { 0x41 };
        let pointer = usize::from(lead - 0x81) * 190 + usize::from(byte - offset);
        return character_in_halves(&GB18030_FIRST, &GB18030_REST, pointer);
    }
    char::REPLACEMENT_CHARACTER
}

// After a lead byte and a digit.
fn after_two(first: u8, second: u8, rest: &[u8]) -> Sequence
    requires first { 0x81 ≤ first }
    requires second { 0x30 ≤ second }
    ensures { result ≡ spec.after_two first second rest.now }
{
    let [third, after @ ..] = rest else {
        return error(1);
    };
    if is_between(0x81, 0xFE, *third) {
        return after_three(first, second, *third, after);
    }
    error(0)
}

// After a lead byte, a digit and a lead byte.
fn after_three(first: u8, second: u8, third: u8, rest: &[u8]) -> Sequence
    requires first { 0x81 ≤ first }
    requires second { 0x30 ≤ second }
    requires third { 0x81 ≤ third }
    ensures { result ≡ spec.after_three first second third rest.now }
{
    let [byte, ..] = rest else {
        return error(2);
    };
    if is_between(b'0', b'9', *byte) {
        return reads(by_ranges(pointer_of(first, second, third, *byte)), 3);
    }
    error(0)
}

// The pointer of four bytes.
fn pointer_of(first: u8, second: u8, third: u8, fourth: u8) -> u32
    requires first { 0x81 ≤ first }
    requires second { 0x30 ≤ second }
    requires third { 0x81 ≤ third }
    requires fourth { 0x30 ≤ fourth }
    ensures { result ≡ spec.pointer_of first second third fourth }
{
    u32::from(first - 0x81) * 12600
        + u32::from(second - 0x30) * 1260
        + u32::from(third - 0x81) * 10
        + u32::from(fourth - 0x30)
}

// The character of a pointer of four bytes, or U+FFFD if there is none.
fn by_ranges(pointer: u32) -> char
    ensures { result ≡ spec.by_ranges pointer }
{
    if is_unused(pointer) {
        return char::REPLACEMENT_CHARACTER;
    }
    if pointer == 7457 {
        return '\u{e7c7}';
    }
    let (first, number) = range_of(&GB18030_RANGES, pointer);
    character_of(number + (pointer - first))
}

// Whether a pointer has no character.
fn is_unused(pointer: u32) -> bool
    ensures value { result ≡ spec.is_unused pointer }
    ensures cases { MatchBool result (39419 < pointer)
        (pointer ≤ 39419 ⊎ (189000 ≤ pointer × pointer ≤ 1237575)) }
{
    39419 < pointer && pointer < 189000 || 1237575 < pointer
}

// The last of the ranges that begins no later than the pointer.
fn range_of(ranges: &[(u32, u32)], pointer: u32) -> (u32, u32)
    ensures { result ≡ spec.range_of (0, 0x80) ranges.now pointer }
{
    let mut found = (0, 0x80);
    for range in ranges {
        if pointer < range.0 {
            return found;
        }
        found = *range;
    }
    found
}
