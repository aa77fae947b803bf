//! EUC-KR.
ghost use Rattle.std.specs.Prelude.{◌≡◌, ◌≤◌};
ghost use Rattle.htmd_encodings.specs.EucKr as spec;

use crate::indexes::euc_kr_first::EUC_KR_FIRST;
use crate::indexes::euc_kr_rest::EUC_KR_REST;
use crate::sequences::{Sequence, character_in_halves, error, is_between, pair, reads};

/// What the decoder makes of a byte and of those after it.
pub(crate) fn sequence_of(first: u8, rest: &[u8]) -> Sequence
    ensures { result ≡ spec.sequence_of first rest.now }
{
    if first.is_ascii() {
        return reads(char::from(first), 0);
    }
    if is_between(0x81, 0xFE, first) {
        return after_lead(first, rest);
    }
    error(0)
}

fn after_lead(lead: u8, rest: &[u8]) -> Sequence
    requires { 0x81 ≤ lead }
    ensures { result ≡ spec.after_lead lead rest.now }
{
    match rest {
        [byte, ..] => pair(character(lead, *byte), *byte),
        [] => error(0),
    }
}

// The character of two bytes.
fn character(lead: u8, byte: u8) -> char
    requires { 0x81 ≤ lead }
    ensures { result ≡ spec.character lead byte }
{
    if !is_between(0x41, 0xFE, byte) {
        return char::REPLACEMENT_CHARACTER;
    }
    let pointer = usize::from(lead - 0x81) * 190 + usize::from(byte - 0x41);
    character_in_halves(&EUC_KR_FIRST, &EUC_KR_REST, pointer)
}
