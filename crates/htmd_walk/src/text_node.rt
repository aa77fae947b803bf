//! How the text of a text node is appended to a text.

ghost use Rattle.std.specs.Prelude.{◌≡◌, ◌++◌, Bool, false, IsTrue, OnOk, if◌then◌else◌, string_bytes};
ghost use Rattle.std.specs.Result.{is_ok};
ghost use Rattle.htmd_text.specs.EscapedPlaces.{escaped_markdown};
ghost use Rattle.htmd_text.specs.SqueezedTexts.{squeezed_text};
ghost use Rattle.htmd_walk.specs.OrdinaryText as spec;
ghost use Rattle.htmd_walk.specs.UnescapedTexts.{is_literal_byte, stays_literal, may_begin, begins_literal};

use crate::spare_texts::SpareTexts;
use htmd_text::repeats::{leading_len, trailing_len};
use htmd_text::{escape_if_needed, escape_pre_text_if_needed, is_squeezed, push_squeezed};
use std::alloc::{AllocError, Global};

/// Where a text is written: as preformatted text or not, with this trim flag.
#[derive(Clone, Copy)]
pub(crate) struct Context {
    pub(crate) preformatted: bool,
    pub(crate) trim: bool,
}

/// A text without the space at its start, if that is to go.
fn without_first_space(text: &str, goes: bool) -> &str
    ensures { result.now ≡ spec.without_first_space goes text.now }
{
    if goes && leading_len(text.as_bytes(), b' ') > 0 {
        return &text[1..];
    }
    text
}

/// Whether the byte stands for itself wherever it is.
fn is_literal_byte(byte: u8) -> bool
    ensures { result ≡ is_literal_byte byte }
{
    // Most bytes are letters in lower case, which are greater than each of the marks.
    byte > b'`' || byte > b' ' && !matches!(byte, b'\\' | b'*' | b'_' | b'`' | b'[' | b']' | b'<')
}

/// Whether each byte stands for itself or is a single space. All bytes are looked at, so that a processor can compare
/// many at once.
fn stays_literal(bytes: &[u8]) -> bool
    ensures { result ≡ stays_literal false bytes.now }
{
    let mut plain = true;
    let mut after_space = false;
    for b in bytes {
        let space = *b == b' ';
        plain &= is_literal_byte(*b) | (!after_space & space);
        after_space = space;
    }
    plain
}

/// Whether the byte may get a backslash only at the start of a text.
fn may_begin(byte: u8) -> bool
    ensures { result ≡ may_begin byte }
{
    matches!(byte, b'=' | b'~' | b'>' | b'-' | b'+' | b'#' | b'0'..=b'9')
}

/// Whether neither the text nor what follows a space at its start begins with such a byte.
fn begins_literal(bytes: &[u8]) -> bool
    ensures { result ≡ begins_literal bytes.now }
{
    match bytes {
        [b' ', b, ..] => !may_begin(*b),
        [b, ..] => !may_begin(*b),
        [] => true,
    }
}

/// Whether a text is written as it is, with the space at its start or without it.
fn is_written_as_is(text: &str) -> bool
    ensures { IsTrue result → (goes : Bool)
        → escaped_markdown (spec.without_first_space goes (squeezed_text text.now))
        ≡ spec.without_first_space goes text.now }
{
    begins_literal(text.as_bytes()) && stays_literal(text.as_bytes())
}

/// The least room that is made in an empty text: 64 bytes with what malloc adds.
const ROOM: usize = 56;

/// Makes room in an empty text for this one and for more after it, so that it seldom grows.
fn make_room(out: &mut String, text: &str) -> Result<(), AllocError>
    ensures { string_bytes out.new ≡ string_bytes out.old }
{
    if out.is_empty() {
        out.reserve(text.len().max(ROOM))?;
    }
    Ok(())
}

/// Appends a text to another, with room for more.
fn push_with_room(out: &mut String, text: &str) -> Result<(), AllocError>
    ensures bytes { string_bytes out.new
        ≡ (if is_ok result then string_bytes out.old ++ text.now else string_bytes out.old) }
{
    make_room(out, text)?;
    out.push_str(text)
}

/// Appends a text to another with a backslash before each place that would be read as markup, with room for more.
fn push_escaped(alloc: Global, out: &mut String, text: &str) -> Result<(), AllocError>
    ensures { OnOk result
        (string_bytes out.new ≡ string_bytes out.old ++ escaped_markdown text.now) }
{
    let escaped = escape_if_needed(alloc, text)?;
    push_with_room(out, escaped.as_str())
}

/// Appends the text squeezed, without its first space where a space is not wanted, and escaped.
fn append_ordinary(
    text: &str,
    trim: bool,
    spare: &SpareTexts,
    out: &mut String,
) -> Result<(), AllocError>
    ensures { OnOk result (string_bytes out.new
        ≡ string_bytes out.old ++ spec.ordinary_text trim (string_bytes out.old) text.now) }
{
    let goes = trim || trailing_len(out.as_bytes(), b' ') > 0;
    if is_written_as_is(text) {
        return push_with_room(out, without_first_space(text, goes));
    }
    if is_squeezed(text) {
        return push_escaped(spare.alloc, out, without_first_space(text, goes));
    }
    let mut squeezed = spare.take();
    push_squeezed(&mut squeezed, text)?;
    push_escaped(
        spare.alloc,
        out,
        without_first_space(squeezed.as_str(), goes),
    )?;
    spare.keep(squeezed);
    Ok(())
}

/// Appends the text as it is, but so that it opens no fence if the parent is `pre`.
fn append_preformatted(
    alloc: Global,
    out: &mut String,
    text: &str,
    in_pre: bool,
) -> Result<(), AllocError>
    ensures { OnOk result
        (string_bytes out.new ≡ string_bytes out.old ++ spec.preformatted_text in_pre text.now) }
{
    if !in_pre {
        return out.push_str(text);
    }
    let escaped = escape_pre_text_if_needed(alloc, text)?;
    out.push_str(escaped.as_str())
}

/// Appends the text of a text node to what is written so far.
pub(crate) fn append_text(
    text: &str,
    in_pre: bool,
    context: Context,
    spare: &SpareTexts,
    out: &mut String,
) -> Result<(), AllocError>
    ensures { OnOk result (string_bytes out.new ≡ string_bytes out.old
        ++ spec.written_text context.preformatted in_pre context.trim (string_bytes out.old) text.now) }
{
    if context.preformatted {
        return append_preformatted(spare.alloc, out, text, in_pre);
    }
    append_ordinary(text, context.trim, spare, out)
}
