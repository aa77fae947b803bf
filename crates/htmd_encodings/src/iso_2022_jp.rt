//! ISO-2022-JP.
ghost use Rattle.std.specs.Prelude.{◌≡◌, ◌≤◌, IfOk, string_bytes};
ghost use Rattle.htmd_encodings.specs.Iso2022Jp as spec;

use crate::indexes::jis0208::JIS0208;
use crate::sequences::{
    Characters, Sequence, after, character_at, character_of, error, push_characters, reads,
    room_for,
};
use std::alloc::{AllocError, Global};

/// What bytes stand for after an escape sequence.
#[derive(Clone, Copy)]
pub(crate) enum Mode {
    Ascii,
    Roman,
    Katakana,
    Jis0208,
}

/// What the decoder makes of a byte and of those after it.
#[derive(Clone, Copy)]
pub(crate) struct Step {
    /// U+FFFD if it is an error.
    pub(crate) characters: Characters,
    /// How many bytes after the first are eaten.
    pub(crate) further: usize,
    pub(crate) mode: Mode,
    /// Whether it is an escape sequence.
    pub(crate) is_escaped: bool,
}

const ESCAPE: u8 = 0x1B;

/// The text of ISO-2022-JP.
pub(crate) fn iso_2022_jp_text(alloc: Global, bytes: &[u8]) -> Result<String, AllocError>
    ensures { IfOk result (λ text. string_bytes text ≡ spec.iso_2022_jp_text bytes.now) }
{
    let mut text = String::with_capacity(alloc, room_for(bytes))?;
    let mut rest = bytes;
    let mut mode = Mode::Ascii;
    let mut is_escaped = false;
    while let [first, further @ ..] = rest {
        let step = step_of(mode, is_escaped, *first, further);
        push_characters(&mut text, step.characters)?;
        mode = step.mode;
        is_escaped = step.is_escaped;
        rest = after(further, step.further);
    }
    Ok(text)
}

fn step_of(mode: Mode, is_escaped: bool, first: u8, rest: &[u8]) -> Step
    ensures { result ≡ spec.step_of mode is_escaped first rest.now }
{
    if first == ESCAPE {
        return after_escape(mode, is_escaped, rest);
    }
    stays(mode, sequence_in(mode, first, rest))
}

// A step that stays in a mode.
fn stays(mode: Mode, sequence: Sequence) -> Step
    ensures { result ≡ spec.stays mode sequence }
{
    Step {
        characters: sequence.characters,
        further: sequence.further,
        mode,
        is_escaped: false,
    }
}

fn after_escape(mode: Mode, is_escaped: bool, rest: &[u8]) -> Step
    ensures { result ≡ spec.after_escape mode is_escaped rest.now }
{
    let [lead, byte, ..] = rest else {
        return stays(mode, error(0));
    };
    match mode_of(*lead, *byte) {
        Some(new) => enters(new, is_escaped),
        None => stays(mode, error(0)),
    }
}

// A step into a mode, which is an error too if it comes right after an escape sequence.
fn enters(mode: Mode, is_escaped: bool) -> Step
    ensures { result ≡ spec.enters mode is_escaped }
{
    let characters = if is_escaped {
        Characters::One(char::REPLACEMENT_CHARACTER)
    } else {
        Characters::Nothing
    };
    Step {
        characters,
        further: 2,
        mode,
        is_escaped: true,
    }
}

// The mode of an escape sequence, by the two bytes after the first.
fn mode_of(lead: u8, byte: u8) -> Option<Mode>
    ensures { result ≡ spec.mode_of lead byte }
{
    match (lead, byte) {
        (b'(', b'B') => Some(Mode::Ascii),
        (b'(', b'J') => Some(Mode::Roman),
        (b'(', b'I') => Some(Mode::Katakana),
        (b'$', b'@' | b'B') => Some(Mode::Jis0208),
        _ => None,
    }
}

fn sequence_in(mode: Mode, first: u8, rest: &[u8]) -> Sequence
    ensures { result ≡ spec.sequence_in mode first rest.now }
{
    match (mode, first) {
        (Mode::Roman, 0x5C) => reads('\u{a5}', 0),
        (Mode::Roman, 0x7E) => reads('\u{203e}', 0),
        (Mode::Ascii | Mode::Roman, _) if is_plain(first) => reads(char::from(first), 0),
        (Mode::Katakana, 0x21..=0x5F) => {
            reads(character_of(0xFF61 - 0x21 + u32::from(first)), 0)
        }
        (Mode::Jis0208, 0x21..=0x7E) => after_lead(first, rest),
        _ => error(0),
    }
}

// Whether it is an ASCII byte that stands for itself.
fn is_plain(byte: u8) -> bool
    ensures { result ≡ spec.is_plain byte }
{
    byte.is_ascii() && !matches!(byte, 0x0E | 0x0F | ESCAPE)
}

fn after_lead(lead: u8, rest: &[u8]) -> Sequence
    requires { 0x21 ≤ lead }
    ensures { result ≡ spec.after_lead lead rest.now }
{
    match rest {
        [byte @ 0x21..=0x7E, ..] => {
            let pointer = usize::from(lead - 0x21) * 94 + usize::from(*byte - 0x21);
            reads(character_at(&JIS0208, pointer), 1)
        }
        [] | [ESCAPE, ..] => error(0),
        _ => error(1),
    }
}
