//! Big5.
ghost use Rattle.std.specs.Prelude.{◌≡◌, ◌≤◌, ◌<◌, ◌⊎◌};
ghost use Rattle.htmd_encodings.specs.Big5 as spec;

use crate::indexes::big5_first::BIG5_FIRST;
use crate::indexes::big5_rest::BIG5_REST;
use crate::sequences::{Sequence, character_in_halves, error, is_between, pair, reads, reads_two};

/// What the decoder makes of a byte and of those after it.
pub(crate) fn sequence_of(first: u8, rest: &[u8]) -> Sequence
    ensures { result ≡ spec.sequence_of first rest.now }
{
    if first.is_ascii() {
        return reads(char::from(first), 0);
    }
    if is_between(0x81, 0xFE, first) {
        return after_lead(first, rest);
    }
    error(0)
}

fn after_lead(lead: u8, rest: &[u8]) -> Sequence
    requires { 0x81 ≤ lead }
    ensures { result ≡ spec.after_lead lead rest.now }
{
    let [byte, ..] = rest else {
        return error(0);
    };
    if is_between(0x40, 0x7E, *byte) || is_between(0xA1, 0xFE, *byte) {
        return by_pointer(pointer_of(lead, *byte), *byte);
    }
    pair(char::REPLACEMENT_CHARACTER, *byte)
}

// The pointer of two bytes.
fn pointer_of(lead: u8, byte: u8) -> usize
    requires lead { 0x81 ≤ lead }
    requires byte { (0x40 ≤ byte × byte < 0x7F) ⊎ (0x62 ≤ byte) }
    ensures { result ≡ spec.pointer_of lead byte }
{
    let offset = if byte < 0x7F { 0x40 } else { 0x62 };
    usize::from(lead - 0x81) * 157 + usize::from(byte - offset)
}

// The answer to a second byte by the pointer of both.
fn by_pointer(pointer: usize, byte: u8) -> Sequence
    ensures { result ≡ spec.by_pointer pointer byte }
{
    match pointer {
        1133 => reads_two('\u{ca}', '\u{304}', 1),
        1135 => reads_two('\u{ca}', '\u{30c}', 1),
        1164 => reads_two('\u{ea}', '\u{304}', 1),
        1166 => reads_two('\u{ea}', '\u{30c}', 1),
        _ => pair(character_in_halves(&BIG5_FIRST, &BIG5_REST, pointer), byte),
    }
}
