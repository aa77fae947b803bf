//! Shift_JIS.
ghost use Rattle.std.specs.Prelude.{◌≡◌, ◌<◌, ◌⊎◌, ◌≤◌, MatchBool};
ghost use Rattle.htmd_encodings.specs.ShiftJis as spec;

use crate::indexes::jis0208::JIS0208;
use crate::sequences::{
    Sequence, character_at, character_of, error, half_width, is_between, pair, reads,
};

/// What the decoder makes of a byte and of those after it.
pub(crate) fn sequence_of(first: u8, rest: &[u8]) -> Sequence
    ensures { result ≡ spec.sequence_of first rest.now }
{
    if first <= 0x80 {
        return reads(char::from(first), 0);
    }
    if is_between(0xA1, 0xDF, first) {
        return reads(half_width(first), 0);
    }
    if is_between(0x81, 0x9F, first) || is_between(0xE0, 0xFC, first) {
        return after_lead(first, rest);
    }
    error(0)
}

fn after_lead(lead: u8, rest: &[u8]) -> Sequence
    requires { (0x81 ≤ lead × lead < 0xA0) ⊎ (0xC1 ≤ lead) }
    ensures { result ≡ spec.after_lead lead rest.now }
{
    match rest {
        [byte, ..] => pair(character(lead, *byte), *byte),
        [] => error(0),
    }
}

// The character of two bytes.
fn character(lead: u8, byte: u8) -> char
    requires { (0x81 ≤ lead × lead < 0xA0) ⊎ (0xC1 ≤ lead) }
    ensures { result ≡ spec.character lead byte }
{
    if is_between(0x40, 0x7E, byte) || is_between(0x80, 0xFC, byte) {
        return by_pointer(pointer_of(lead, byte));
    }
    char::REPLACEMENT_CHARACTER
}

// The pointer of two bytes.
fn pointer_of(lead: u8, byte: u8) -> u32
    requires lead { (0x81 ≤ lead × lead < 0xA0) ⊎ (0xC1 ≤ lead) }
    requires byte { 0x40 ≤ byte }
    ensures value { result ≡ spec.pointer_of lead byte }
    ensures bound { result < 0x10000 }
{
    let lead_offset = if lead < 0xA0 { 0x81 } else { 0xC1 };
    let offset = if byte < 0x7F { 0x40 } else { 0x41 };
    u32::from(lead - lead_offset) * 188 + u32::from(byte - offset)
}

// The character of a pointer; some are for private use.
fn by_pointer(pointer: u32) -> char
    ensures { result ≡ spec.by_pointer pointer }
{
    if is_for_private_use(pointer) {
        return character_of(0xE000 - 8836 + pointer);
    }
    character_at(&JIS0208, pointer as usize)
}

fn is_for_private_use(pointer: u32) -> bool
    ensures value { result ≡ spec.is_for_private_use pointer }
    ensures cases { MatchBool result (8836 ≤ pointer × pointer ≤ 10715) (pointer < 8836 ⊎ 10715 < pointer) }
{
    8836 <= pointer && pointer <= 10715
}
