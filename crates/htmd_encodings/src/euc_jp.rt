//! EUC-JP.
ghost use Rattle.std.specs.Prelude.{◌≡◌, ◌≤◌};
ghost use Rattle.htmd_encodings.specs.EucJp as spec;

use crate::indexes::jis0208::JIS0208;
use crate::indexes::jis0212::JIS0212;
use crate::sequences::{Sequence, character_at, error, half_width, is_between, pair, reads};

/// What the decoder makes of a byte and of those after it.
pub(crate) fn sequence_of(first: u8, rest: &[u8]) -> Sequence
    ensures { result ≡ spec.sequence_of first rest.now }
{
    if first.is_ascii() {
        return reads(char::from(first), 0);
    }
    if first == 0x8E {
        return after_8e(rest);
    }
    if first == 0x8F {
        return after_8f(rest);
    }
    if is_between(0xA1, 0xFE, first) {
        return after_lead(first, rest);
    }
    error(0)
}

// After the byte 8E, which half-width katakana follow.
fn after_8e(rest: &[u8]) -> Sequence
    ensures { result ≡ spec.after_8e rest.now }
{
    let [byte, ..] = rest else {
        return error(0);
    };
    if is_between(0xA1, 0xDF, *byte) {
        return reads(half_width(*byte), 1);
    }
    pair(char::REPLACEMENT_CHARACTER, *byte)
}

// After the byte 8F, which two bytes of JIS X 0212 follow.
fn after_8f(rest: &[u8]) -> Sequence
    ensures { result ≡ spec.after_8f rest.now }
{
    let [lead, after @ ..] = rest else {
        return error(0);
    };
    if is_between(0xA1, 0xFE, *lead) {
        return after_8f_lead(*lead, after);
    }
    pair(char::REPLACEMENT_CHARACTER, *lead)
}

fn after_8f_lead(lead: u8, rest: &[u8]) -> Sequence
    requires { 0xA1 ≤ lead }
    ensures { result ≡ spec.after_8f_lead lead rest.now }
{
    match rest {
        [byte, ..] => triple(character(&JIS0212, lead, *byte), *byte),
        [] => error(1),
    }
}

// The answer to a third byte by the character of it and the second, which is U+FFFD if there is none.
fn triple(character: char, third: u8) -> Sequence
    ensures { result ≡ spec.triple character third }
{
    if character == char::REPLACEMENT_CHARACTER && third.is_ascii() {
        return error(1);
    }
    reads(character, 2)
}

fn after_lead(lead: u8, rest: &[u8]) -> Sequence
    requires { 0xA1 ≤ lead }
    ensures { result ≡ spec.after_lead lead rest.now }
{
    match rest {
        [byte, ..] => pair(character(&JIS0208, lead, *byte), *byte),
        [] => error(0),
    }
}

// The character of two bytes.
fn character(index: &[char], lead: u8, byte: u8) -> char
    requires { 0xA1 ≤ lead }
    ensures { result ≡ spec.character index.now lead byte }
{
    if !is_between(0xA1, 0xFE, byte) {
        return char::REPLACEMENT_CHARACTER;
    }
    let pointer = usize::from(lead - 0xA1) * 94 + usize::from(byte - 0xA1);
    character_at(index, pointer)
}
