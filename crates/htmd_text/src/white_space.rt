//! White space of a text.
ghost use Rattle.std.specs.Prelude.{◌≡◌, ◌++◌, ℕ, List, true, false, IfOk, OnOk, IsOkAnd, MatchOption, take, drop};
ghost use Rattle.std.specs.Prelude.{string_bytes};
ghost use Rattle.std.specs.Cow.{cow_str_bytes, IsBorrowedStr};
ghost use Rattle.htmd_lexical.specs.WhiteSpace as white;
ghost use Rattle.htmd_text.specs.SqueezedTexts as spec;
ghost use Rattle.htmd_text.specs.Replacement.{IsReplaced, is_squeezed, is_squeezed_after};

use std::alloc::{AllocError, Global};
use std::borrow::CowStr;

/// The text with each maximal run of ASCII white space (Infra standard, 4.5) as one space. A text that doesn't change
/// is borrowed; `Err` means out of memory for one that does.
pub fn compress_whitespace(alloc: Global, text: &str) -> Result<CowStr<'_>, AllocError>
    ensures text { IfOk result (λ c. cow_str_bytes c ≡ spec.squeezed_text text.now) }
    ensures borrowed { spec.squeezed_text text.now ≡ text.now → IsOkAnd result (λ c. IsBorrowedStr c) }
{
    if is_squeezed(text) {
        return Ok(CowStr::Borrowed(text));
    }
    let mut squeezed = String::with_capacity(alloc, text.len())?;
    push_squeezed(&mut squeezed, text)?;
    Ok(CowStr::Owned(squeezed))
}

/// Appends the text to another, with each maximal run of ASCII white space as one space. `Err` means out of memory.
pub fn push_squeezed(out: &mut String, text: &str) -> Result<(), AllocError>
    ensures { OnOk result (string_bytes out.new ≡ string_bytes out.old ++ spec.squeezed_text text.now) }
{
    let bytes = text.as_bytes();
    let mut from = 0;
    for i in 0..bytes.len() {
        if let Some(instead) = replacement(&bytes[i..]) {
            out.push_str(&text[from..i])?;
            out.push_str(instead)?;
            from = i + 1;
        }
    }
    out.push_str(&text[from..])
}

/// Whether squeezing white space leaves the text as it is.
pub fn is_squeezed(text: &str) -> bool
    ensures stays { result ≡ true → spec.squeezed_text text.now ≡ text.now }
    ensures changes { spec.squeezed_text text.now ≡ text.now → result ≡ true }
{
    has_single_spaces(text.as_bytes())
}

/// So many bytes are compared at once; the last ones, and those of a shorter text, each by itself.
const AT_ONCE: usize = 32;

/// Whether each white space is a single space.
fn has_single_spaces(bytes: &[u8]) -> bool
    ensures { result ≡ is_squeezed false bytes.now }
{
    let (front, rest) = bytes.split_at(bytes.len() - bytes.len() % AT_ONCE);
    match white_after(front) {
        Some(after_white) => few_are_single(after_white, rest),
        None => false,
    }
}

/// The same of a few bytes, after white space or not.
fn few_are_single(is_behind_white: bool, bytes: &[u8]) -> bool
    ensures { result ≡ is_squeezed is_behind_white bytes.now }
{
    let mut after_white = is_behind_white;
    for b in bytes {
        if !b.is_ascii_whitespace() {
            after_white = false;
            continue;
        }
        if after_white || *b != b' ' {
            return false;
        }
        after_white = true;
    }
    true
}

/// Whether the last byte is white space, if each white space is a single space. All bytes are looked at, so that a
/// processor can compare many at once.
fn white_after(bytes: &[u8]) -> Option<bool>
    ensures { (rest : List ℕ) → is_squeezed false (bytes.now ++ rest) ≡ is_squeezed_after result rest }
{
    // A number, since of a bool LLVM makes branches where this is inlined.
    let mut other = 0;
    let mut after_white = false;
    for b in bytes {
        let white = b.is_ascii_whitespace();
        other = other.max((white & (after_white | (*b != b' '))) as u8);
        after_white = white;
    }
    if other == 0 { Some(after_white) } else { None }
}

/// What the squeezed text has in place of the first byte, if that is not the byte itself: nothing for white space
/// before more of it, a space for other white space.
fn replacement(bytes: &[u8]) -> Option<&'static str>
    ensures { MatchOption result
        (spec.squeezed_text bytes.now ≡ take 1 bytes.now ++ spec.squeezed_text (drop 1 bytes.now))
        (λ instead. IsReplaced bytes.now instead.now) }
{
    match bytes {
        [b, behind @ ..] if b.is_ascii_whitespace() => {
            if begins_with_white_space(behind) {
                Some("")
            } else if *b == b' ' {
                None
            } else {
                Some(" ")
            }
        }
        _ => None,
    }
}

/// Whether the text begins with ASCII white space.
fn begins_with_white_space(bytes: &[u8]) -> bool
    ensures { result ≡ white.begins_with_white_space bytes.now }
{
    match bytes {
        [b, ..] => b.is_ascii_whitespace(),
        [] => false,
    }
}
