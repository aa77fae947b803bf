//! A text in one line.
ghost use Rattle.std.specs.Prelude.{◌≡◌, ◌++◌, OnOk, string_bytes};
ghost use Rattle.htmd_test_cases.specs.Encodings as spec;

use crate::faults::LineFault;
use std::alloc::{AllocError, Global};

/// Appends a text as it is written in a line.
pub(crate) fn push_encoded(out: &mut String, text: &str) -> Result<(), AllocError>
    ensures { OnOk result
        (string_bytes out.new ≡ string_bytes out.old ++ spec.encoded_text text.now) }
{
    for c in text.chars() {
        push_encoded_char(out, c)?;
    }
    Ok(())
}

/// Appends a character as it is written in a line.
fn push_encoded_char(out: &mut String, c: char) -> Result<(), AllocError>
    ensures { OnOk result
        (string_bytes out.new ≡ string_bytes out.old ++ spec.encoded_char c) }
{
    match c {
        '\\' => out.push_str("\\\\"),
        '\n' => out.push_str("\\n"),
        '\r' => out.push_str("\\r"),
        '\t' => out.push_str("\\t"),
        '\0' => out.push_str("\\0"),
        _ => out.push(c),
    }
}

/// The text that is written in a line like this.
pub(crate) fn decode(alloc: Global, code: &str) -> Result<String, LineFault> {
    let mut text = String::with_capacity(alloc, code.len())?;
    let mut rest = code.chars();
    while let Some(c) = rest.next() {
        let c = if c == '\\' {
            escaped_char(rest.next())?
        } else {
            c
        };
        text.push(c)?;
    }
    Ok(text)
}

/// The character that a backslash and this one stand for.
fn escaped_char(letter: Option<char>) -> Result<char, LineFault> {
    match letter {
        Some('\\') => Ok('\\'),
        Some('n') => Ok('\n'),
        Some('r') => Ok('\r'),
        Some('t') => Ok('\t'),
        Some('0') => Ok('\0'),
        _ => Err(LineFault::UnknownEscape),
    }
}
