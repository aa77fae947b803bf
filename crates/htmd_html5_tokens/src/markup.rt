//! Markup, and the text before it.
ghost use Rattle.std.specs.Prelude.{◌≡◌, ◌<◌, ◌≤◌, drop, length, IfOk};
ghost use Rattle.htmd_lexical.specs.CharacterClasses.{up_to, onward};
ghost use Rattle.htmd_html5_tokens.specs.NextToken as spec;
ghost use Rattle.htmd_html5_tokens.specs.AppendedCharacters as plain;
ghost use Rattle.htmd_html5_tokens.specs.Readings.{read_of};

use crate::comments::{read_bogus_comment, read_comment};
use crate::contents::{Reading, decoded, split_literals};
use crate::doctypes::read_doctype;
use crate::tags::read_tag;
use crate::tokens::Token;
use htmd_scanning::{strip, strip_byte, strip_in_any_case};
use std::alloc::{AllocError, Global};

/// Whether markup begins here.
pub(crate) fn begins_markup(bytes: &[u8]) -> bool
    ensures { result ≡ spec.begins_markup bytes.now }
{
    match bytes {
        [b'<', b'/', third, ..] => *third != b'>',
        [b'<', second, ..] => second.is_ascii_alphabetic() || matches!(second, b'!' | b'?'),
        _ => false,
    }
}

/// How many bytes are before markup.
fn text_len(bytes: &[u8]) -> usize
    ensures bound { result ≤ length bytes.now }
    ensures value { result ≡ length (up_to spec.begins_markup bytes.now) }
{
    for (len, byte) in bytes.iter().enumerate() {
        if *byte == b'<' && begins_markup(&bytes[len..]) {
            return len;
        }
    }
    bytes.len()
}

/// What comes before markup, and the markup with what follows.
fn split_text(text: &str) -> (&str, &str)
    ensures held { result.0.now ≡ up_to spec.begins_markup text.now }
    ensures rest { result.1.now ≡ onward spec.begins_markup text.now }
{
    text.split_at(text_len(text.as_bytes()))
}

/// The text before markup, and the markup.
fn read_decoded(alloc: Global, text: &str) -> Result<(Token<'_>, &str), AllocError>
    ensures { IfOk result (λ r. read_of r ≡ spec.read_text text.now) }
{
    let (held, rest) = split_text(text);
    let read = decoded(alloc, held, Reading::Text)?;
    Ok((Token::Text(read), rest))
}

/// Whether a text ends here, at the end of the page or before markup.
fn ends_text(bytes: &[u8]) -> bool
    ensures { result ≡ plain.ends_text bytes.now }
{
    bytes.is_empty() || begins_markup(bytes)
}

/// The text before markup, and the markup. Mostly all its characters stand for themselves.
#[inline(always)]
pub(crate) fn read_text(alloc: Global, text: &str) -> Result<(Token<'_>, &str), AllocError>
    ensures { IfOk result (λ r. read_of r ≡ spec.read_text text.now) }
{
    let (front, rest) = split_literals(text);
    if !ends_text(rest.as_bytes()) {
        return read_decoded(alloc, text);
    }
    let read = String::from_str(alloc, front)?;
    Ok((Token::Text(read), rest))
}

/// A comment, a doctype or what is read as a comment, from just after its `<!`, and what follows it.
fn read_declaration(alloc: Global, text: &str) -> Result<(Token<'_>, &str), AllocError>
    ensures { IfOk result (λ r. read_of r ≡ spec.read_declaration text.now) }
{
    if let Some(after) = strip(text, "--") {
        return read_comment(alloc, after);
    }
    match strip_in_any_case(text, "doctype") {
        Some(after) => Ok(read_doctype(after)),
        None => read_bogus_comment(alloc, text),
    }
}

/// Whether the text begins with an ASCII letter.
fn begins_letter(bytes: &[u8]) -> bool
    ensures { result ≡ spec.begins_letter bytes.now }
{
    matches!(bytes, [first, ..] if first.is_ascii_alphabetic())
}

/// Markup from just after its `<`, and what follows it.
#[inline(always)]
pub(crate) fn read_markup(alloc: Global, text: &str) -> Result<(Token<'_>, &str), AllocError>
    ensures { IfOk result (λ r. read_of r ≡ spec.read_markup text.now) }
{
    if let Some(declaration) = strip_byte(text, b'!') {
        return read_declaration(alloc, declaration);
    }
    if strip_byte(text, b'?').is_some() {
        return read_bogus_comment(alloc, text);
    }
    match strip_byte(text, b'/') {
        Some(name) if !begins_letter(name.as_bytes()) => read_bogus_comment(alloc, name),
        _ => read_tag(alloc, text),
    }
}
