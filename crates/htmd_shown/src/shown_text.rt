//! The texts of a page that show.
ghost use Rattle.std.specs.Prelude.{◌≡◌, true, IfOk, string_bytes};
ghost use Rattle.std.specs.List.{list_all, list_any};
ghost use Rattle.std.specs.Str.{chars};
ghost use Rattle.htmd_shown.specs.ShownTexts as spec;
ghost use Rattle.htmd_shown.specs.Spaces.{is_blank_text};
ghost use Rattle.htmd_shown.specs.TextViews as views;

use crate::spaces::is_white;
use std::alloc::{AllocError, Global};

/// Whether it never shows: U+0000 and U+FEFF.
pub fn is_shown(c: char) -> bool
    ensures { result ≡ spec.is_shown c }
{
    !matches!(c, '\0' | '\u{feff}')
}

/// Whether all of the text shows.
pub fn is_all_shown(text: &str) -> bool
    ensures { result ≡ true → spec.shown_text text.now ≡ text.now }
{
    if !holds_unshown_byte(text.as_bytes()) {
        return true;
    }
    text.chars().all(is_shown)
}

/// Whether a byte is U+0000, or begins U+FEFF as some other characters. All bytes are looked at, so that a processor
/// can compare many at once.
fn holds_unshown_byte(bytes: &[u8]) -> bool
    ensures { result ≡ list_any views.is_unshown_byte bytes.now }
{
    // A number, since of a bool LLVM makes branches where this is inlined.
    let mut found = 0;
    for b in bytes {
        found = found.max(is_unshown_byte(*b) as u8);
    }
    found == 1
}

/// Whether the byte is U+0000, or the first of U+FEFF.
fn is_unshown_byte(byte: u8) -> bool
    ensures { result ≡ views.is_unshown_byte byte }
{
    matches!(byte, 0 | 0xEF)
}

/// The text without U+0000 and U+FEFF. `Err` means out of memory.
pub fn shown_text(alloc: Global, text: &str) -> Result<String, AllocError>
    ensures { IfOk result (λ s. string_bytes s ≡ spec.shown_text text.now) }
{
    let mut shown = String::with_capacity(alloc, text.len())?;
    for c in text.chars() {
        if is_shown(c) {
            shown.push(c)?;
        }
    }
    Ok(shown)
}

/// Whether a character is white space, or never shows.
pub fn is_blank_character(c: char) -> bool
    ensures { result ≡ spec.is_blank_character c }
{
    is_white(c) || !is_shown(c)
}

/// Whether none of a text's characters shows.
fn are_blank_characters(text: &str) -> bool
    ensures { result ≡ list_all spec.is_blank_character (chars text.now) }
{
    text.chars().all(is_blank_character)
}

/// Whether nothing of a text shows.
pub fn is_blank_when_shown(text: &str) -> bool
    ensures { result ≡ is_blank_text (spec.shown_text text.now) }
{
    if begins_visibly(text.as_bytes()) {
        return false;
    }
    are_blank_characters(text)
}

/// Whether the first byte is a visible ASCII character.
fn begins_visibly(bytes: &[u8]) -> bool
    ensures { result ≡ views.begins_visibly bytes.now }
{
    matches!(bytes, [b'!'..=b'~', ..])
}
