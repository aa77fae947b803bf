//! CDATA sections in foreign content, and empty pieces, which denote nothing.
ghost use Rattle.std.specs.Prelude.{◌≡◌, ◌≤◌, length, option_map, IfOk};
ghost use Rattle.htmd_lexical.specs.CharacterClasses.{up_to, onward};
ghost use Rattle.htmd_html5_tokens.specs.NextToken as spec;
ghost use Rattle.htmd_html5_tokens.specs.Readings.{read_of};

use crate::tokens::Token;
use htmd_scanning::strip;
use std::alloc::{AllocError, Global};

/// Whether a section ends here.
fn ends_section(bytes: &[u8]) -> bool
    ensures { result ≡ spec.ends_section bytes.now }
{
    matches!(bytes, [b']', b']', b'>', ..])
}

/// How many bytes are before the end of a section.
fn section_len(bytes: &[u8]) -> usize
    ensures bound { result ≤ length bytes.now }
    ensures value { result ≡ length (up_to spec.ends_section bytes.now) }
{
    let mut len = 0;
    while len < bytes.len() && !ends_section(&bytes[len..]) {
        len += 1;
    }
    len
}

/// What comes before the end of a section, and that end with what follows.
fn split_section(text: &str) -> (&str, &str)
    ensures held { result.0.now ≡ up_to spec.ends_section text.now }
    ensures rest { result.1.now ≡ onward spec.ends_section text.now }
{
    text.split_at(section_len(text.as_bytes()))
}

/// What follows the end of a section.
fn after_section_end(text: &str) -> &str
    ensures { result.now ≡ spec.after_section_end text.now }
{
    match strip(text, "]]>") {
        Some(rest) => rest,
        None => "",
    }
}

/// A section from just after its `<![CDATA[`, and what follows it.
pub(crate) fn read_section(alloc: Global, text: &str) -> Result<(Token<'_>, &str), AllocError>
    ensures { IfOk result (λ r. read_of r ≡ spec.read_section text.now) }
{
    let (held, end) = split_section(text);
    let held = String::from_str(alloc, held)?;
    Ok((Token::Text(held), after_section_end(end)))
}

/// What follows a section that holds nothing, given from just after its `<![CDATA[`.
fn strip_empty_section(text: &str) -> Option<&str>
    ensures { option_map (λ rest. rest.now) result ≡ spec.after_empty_section text.now }
{
    if text.is_empty() {
        return Some(text);
    }
    strip(text, "]]>")
}

/// What follows an empty piece: `</>`, or a section that holds nothing.
fn strip_empty_piece(text: &str, foreign: bool) -> Option<&str>
    ensures { option_map (λ rest. rest.now) result ≡ spec.after_empty_piece foreign text.now }
{
    if let Some(rest) = strip(text, "</>") {
        return Some(rest);
    }
    if !foreign {
        return None;
    }
    match strip(text, "<![CDATA[") {
        Some(held) => strip_empty_section(held),
        None => None,
    }
}

/// What follows all empty pieces at the beginning.
pub(crate) fn after_empty_pieces(text: &str, foreign: bool) -> &str
    ensures { result.now ≡ spec.after_empty_pieces foreign text.now }
{
    let mut rest = text;
    while let Some(after) = strip_empty_piece(rest, foreign) {
        rest = after;
    }
    rest
}
