//! Addresses and titles of links and images (CommonMark 0.31.2, 6.3), and autolinks (6.5).
ghost use Rattle.std.specs.Prelude.{◌≡◌, ◌++◌, IsTrue, OnOk, codes, slice_get, string_bytes};
ghost use Rattle.std.specs.Char.{is_ascii};
ghost use Rattle.std.specs.List.{list_all, list_any, prefix_len};
ghost use Rattle.std.specs.Option.{option_copied};
ghost use Rattle.htmd_lexical.specs.Characters.{is_one_of};
ghost use Rattle.htmd_commonmark.specs.Addresses as spec;
ghost use Rattle.htmd_commonmark.specs.PlainTexts.{may_be_escaped};

use crate::reference::{begins_reference, holds_reference};
use std::alloc::AllocError;

/// Appends the address as it is written in a link.
pub(crate) fn push_destination(out: &mut String, address: &str) -> Result<(), AllocError>
    ensures { OnOk result
        (string_bytes out.new ≡ string_bytes out.old ++ spec.destination address.now) }
{
    if needs_brackets(address) {
        return push_in_brackets(out, address);
    }
    if !holds_sign(address.as_bytes()) {
        return out.push_str(address);
    }
    push_escaped_in(out, address, b"()<>")
}

/// Appends the address between `<` and `>`.
fn push_in_brackets(out: &mut String, address: &str) -> Result<(), AllocError>
    ensures { OnOk result
        (string_bytes out.new ≡ string_bytes out.old
        ++ codes "<" ++ spec.escaped_in (codes "<>") address.now ++ codes ">") }
{
    out.push('<')?;
    push_escaped_in(out, address, b"<>")?;
    out.push('>')
}

/// Whether a byte is one that is escaped in some addresses. All are looked at, so that a processor can compare many at
/// once.
fn holds_sign(bytes: &[u8]) -> bool
    ensures { result ≡ list_any may_be_escaped bytes.now }
{
    // A number, since of a bool LLVM makes branches where this is inlined.
    let mut found = 0;
    for b in bytes {
        found = found.max(may_be_escaped(*b) as u8);
    }
    found == 1
}

/// Whether a byte is escaped in some addresses. All are compared, so that there is no branch.
fn may_be_escaped(byte: u8) -> bool
    ensures { result ≡ may_be_escaped byte }
{
    (byte == b'&')
        | (byte == b'(')
        | (byte == b')')
        | (byte == b'<')
        | (byte == b'>')
        | (byte == b'\\')
}

/// Appends a space and the title between quotation marks, if there is one.
pub(crate) fn push_title(out: &mut String, title: Option<&str>) -> Result<(), AllocError>
    ensures { OnOk result
        (string_bytes out.new ≡ string_bytes out.old ++ spec.title (option_copied title.entry)) }
{
    if let Some(title) = title {
        out.push_str(" \"")?;
        push_escaped_in(out, title, b"\"")?;
        out.push('"')?;
    }
    Ok(())
}

/// Whether an address is written between `<` and `>`.
fn needs_brackets(address: &str) -> bool
    ensures { result ≡ spec.needs_brackets address.now }
{
    address.is_empty() || holds_space_or_control(address.as_bytes())
}

/// Whether a space or a control is among the bytes. All are looked at, so that a processor can compare many at once.
fn holds_space_or_control(bytes: &[u8]) -> bool
    ensures { result ≡ list_any spec.is_space_or_control bytes.now }
{
    // A number, since of a bool LLVM makes branches where this is inlined.
    let mut found = 0;
    for b in bytes {
        found = found.max(is_space_or_control(*b) as u8);
    }
    found == 1
}

/// Whether the byte is a space or a control.
fn is_space_or_control(byte: u8) -> bool
    ensures { result ≡ spec.is_space_or_control byte }
{
    matches!(byte, 0..=b' ' | 0x7F)
}

/// Appends the text with a backslash before each of these ASCII characters and before each backslash that would escape,
/// and with `&amp;` for the `&` of what would be a character reference.
fn push_escaped_in(out: &mut String, text: &str, signs: &[u8]) -> Result<(), AllocError>
    requires ascii { IsTrue (list_all is_ascii signs.now) }
    ensures { OnOk result
        (string_bytes out.new ≡ string_bytes out.old ++ spec.escaped_in signs.now text.now) }
{
    let bytes = text.as_bytes();
    let mut from = 0;
    for i in 0..bytes.len() {
        if is_escaped(bytes[i], &bytes[i + 1..], signs) {
            out.push_str(&text[from..i])?;
            out.push('\\')?;
            from = i;
        } else if begins_reference(&bytes[i..]) {
            out.push_str(&text[from..i])?;
            out.push_str("&amp;")?;
            from = i + 1;
        }
    }
    out.push_str(&text[from..])
}

/// Whether the byte gets a backslash before these bytes.
fn is_escaped(byte: u8, rest: &[u8], signs: &[u8]) -> bool
    ensures { result ≡ spec.is_escaped signs.now byte rest.now }
{
    is_one_of(byte, signs) || byte == b'\\' && may_escape(rest)
}

/// Whether the byte is one of the signs.
fn is_one_of(byte: u8, signs: &[u8]) -> bool
    ensures { result ≡ is_one_of signs.now byte }
{
    signs.iter().any(|sign| byte == *sign)
}

/// Whether a backslash before these bytes escapes.
fn may_escape(rest: &[u8]) -> bool
    ensures { result ≡ spec.may_escape (slice_get rest.now 0) }
{
    match rest {
        [b, ..] => b.is_ascii_punctuation(),
        [] => true,
    }
}

/// Whether the address can be written between `<` and `>` as it is.
pub(crate) fn is_autolink(address: &str) -> bool
    ensures { result ≡ spec.is_autolink address.now }
{
    let bytes = address.as_bytes();
    begins_with_scheme(bytes) && !holds_barred(bytes) && !holds_reference(bytes)
}

/// Whether the text begins with a letter, 1 to 31 letters, digits, `+`, `.` or `-`, and a colon.
fn begins_with_scheme(bytes: &[u8]) -> bool
    ensures { result ≡ spec.begins_with_scheme bytes.now }
{
    let len = scheme_len(bytes);
    matches!(bytes, [b'A'..=b'Z' | b'a'..=b'z', ..])
        && (2..=32).contains(&len)
        && len < bytes.len()
        && bytes[len] == b':'
}

/// How many letters, digits, `+`, `.` and `-` begin the text.
fn scheme_len(bytes: &[u8]) -> usize
    ensures { result ≡ prefix_len spec.is_scheme_character bytes.now }
{
    for (len, b) in bytes.iter().enumerate() {
        if !is_scheme_character(*b) {
            return len;
        }
    }
    bytes.len()
}

fn is_scheme_character(byte: u8) -> bool
    ensures { result ≡ spec.is_scheme_character byte }
{
    byte.is_ascii_alphanumeric() || matches!(byte, b'+' | b'.' | b'-')
}

/// Whether the text holds a control, a space, `<` or `>`.
fn holds_barred(bytes: &[u8]) -> bool
    ensures { result ≡ list_any spec.is_barred bytes.now }
{
    bytes
        .iter()
        .any(|b| matches!(*b, 0..=b' ' | 0x7F | b'<' | b'>'))
}
