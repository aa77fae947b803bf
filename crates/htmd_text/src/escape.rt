//! Backslashes before characters that Markdown could read as its own (CommonMark 0.31.2, 2.4).
ghost use Rattle.std.specs.Prelude.{◌≡◌, ◌<◌, IfOk, IsOkAnd, IsTrue, false, length};
ghost use Rattle.std.specs.List.{list_any};
ghost use Rattle.std.specs.Cow.{cow_str_bytes, IsBorrowedStr};
ghost use Rattle.htmd_text.specs.EscapedPlaces as spec;
ghost use Rattle.htmd_text.specs.Unescape.{unescape};
ghost use Rattle.htmd_text.specs.PlainText.{each_bare, begins_no_inline, begins_no_html, begins_item};
ghost use Rattle.htmd_text.specs.EscapeKinds.{is_escaped_by, needs_no_escape, is_special, AreAscii};

use crate::list_markers::{index_of_markdown_ordered_item_dot, is_markdown_atx_heading};
use std::alloc::{AllocError, Global};
use std::borrow::CowStr;

/// Which places of a text get a backslash.
#[derive(Clone, Copy)]
pub(crate) enum EscapeKind {
    /// each `<` that opens HTML; brackets may have been escaped before
    Html,
    /// each place that `escape_if_needed` names
    Markdown {
        begins_block: bool,
        item_dot: Option<usize>,
    },
}

/// The text with a backslash before each escaped place: `\`, `*`, `_`, backquote, `[` and `]`; a `<` that opens HTML;
/// at
/// the front `=`, `~`, `>`, `-` or `+` before a space, the first `#` of an ATX heading; and the dot of an ordered list
/// item whose number begins with an ASCII digit (CommonMark 0.31.2, 2.4). So `---`, `1) a`, `#` alone and `-` alone
/// stay as they are. A text without escaped places is borrowed; `Err` means out of memory for one with escaped places.
pub fn escape_if_needed(alloc: Global, text: &str) -> Result<CowStr<'_>, AllocError>
    ensures text { IfOk result (λ c. cow_str_bytes c ≡ spec.escaped_markdown text.now) }
    ensures reads_back { IfOk result (λ c. unescape (cow_str_bytes c) ≡ text.now) }
    ensures inline { IfOk result (λ c. IsTrue (each_bare begins_no_inline (cow_str_bytes c))) }
    ensures html { IfOk result (λ c. IsTrue (each_bare begins_no_html (cow_str_bytes c))) }
    ensures block { IfOk result (λ c. spec.begins_block (cow_str_bytes c) ≡ false) }
    ensures item { IfOk result (λ c. begins_item (cow_str_bytes c) ≡ false) }
    ensures borrowed { spec.escaped_markdown text.now ≡ text.now → IsOkAnd result (λ c. IsBorrowedStr c) }
{
    let kind = EscapeKind::Markdown {
        begins_block: begins_block(text),
        item_dot: numbered_item_dot(text),
    };
    with_backslashes(alloc, text, kind)
}

/// The text with a backslash before each `<` that opens HTML: before an ASCII letter, `?`, `/` and a letter, or `!`
/// that does not begin a CDATA section, escaped or not (CommonMark 0.31.2, 4.6 and 6.6). A text without such a `<` is
/// borrowed; `Err` means out of memory for one with escaped places.
pub fn escape_html(alloc: Global, text: &str) -> Result<CowStr<'_>, AllocError>
    ensures text { IfOk result (λ c. cow_str_bytes c ≡ spec.escaped_angle_brackets text.now) }
    ensures borrowed { spec.escaped_angle_brackets text.now ≡ text.now
        → IsOkAnd result (λ c. IsBorrowedStr c) }
{
    with_backslashes(alloc, text, EscapeKind::Html)
}

/// The text of a `pre`, with a backslash in front if it begins with a backquote or a tilde, so that no fence opens
/// (CommonMark 0.31.2, 4.5). Any other text is borrowed; `Err` means out of memory for the backslash.
pub fn escape_pre_text_if_needed(alloc: Global, text: &str) -> Result<CowStr<'_>, AllocError>
    ensures text { IfOk result (λ c. cow_str_bytes c ≡ spec.escaped_pre_text text.now) }
    ensures borrowed { spec.escaped_pre_text text.now ≡ text.now
        → IsOkAnd result (λ c. IsBorrowedStr c) }
{
    if !matches!(text.as_bytes(), [b'`' | b'~', ..]) {
        return Ok(CowStr::Borrowed(text));
    }
    let mut escaped = String::with_capacity(alloc, text.len() + 1)?;
    escaped.push('\\')?;
    escaped.push_str(text)?;
    Ok(CowStr::Owned(escaped))
}

/// The text with a backslash before each escaped place.
fn with_backslashes(alloc: Global, text: &str, kind: EscapeKind) -> Result<CowStr<'_>, AllocError>
    requires { AreAscii kind text.now }
    ensures text { IfOk result
        (λ c. cow_str_bytes c ≡ spec.with_backslashes (is_escaped_by kind text.now) 0 text.now) }
    ensures borrowed { spec.with_backslashes (is_escaped_by kind text.now) 0 text.now ≡ text.now
        → IsOkAnd result (λ c. IsBorrowedStr c) }
{
    let bytes = text.as_bytes();
    if needs_no_escape(bytes, kind) {
        return Ok(CowStr::Borrowed(text));
    }
    let mut escaped = String::new(alloc);
    let mut from = 0;
    for i in 0..bytes.len() {
        if is_escaped(bytes, i, kind) {
            if escaped.is_empty() {
                escaped.reserve(bytes.len() + bytes.len() / 8 + 8)?;
            }
            escaped.push_str(&text[from..i])?;
            escaped.push('\\')?;
            from = i;
        }
    }
    if escaped.is_empty() {
        return Ok(CowStr::Borrowed(text));
    }
    escaped.push_str(&text[from..])?;
    Ok(CowStr::Owned(escaped))
}

/// Whether no place gets a backslash, as far as its characters alone tell.
fn needs_no_escape(bytes: &[u8], kind: EscapeKind) -> bool
    ensures { result ≡ needs_no_escape kind bytes.now }
{
    match kind {
        EscapeKind::Html => !has_special(bytes),
        EscapeKind::Markdown {
            begins_block,
            item_dot,
        } => !begins_block && item_dot.is_none() && !has_special(bytes),
    }
}

/// Whether a character may get a backslash wherever it is. All bytes are looked at, so that a processor can compare
/// many at once.
fn has_special(bytes: &[u8]) -> bool
    ensures { result ≡ list_any is_special bytes.now }
{
    let mut has = false;
    for b in bytes {
        has |= is_special(*b);
    }
    has
}

/// Whether the character may get a backslash wherever it is.
fn is_special(byte: u8) -> bool
    ensures { result ≡ is_special byte }
{
    matches!(byte, b'\\' | b'*' | b'_' | b'`' | b'[' | b']' | b'<')
}

/// Whether the character gets a backslash wherever it is.
fn is_always_escaped(byte: u8) -> bool
    ensures { result ≡ spec.is_always_escaped byte }
{
    matches!(byte, b'\\' | b'*' | b'_' | b'`' | b'[' | b']')
}

/// Whether the place gets a backslash.
fn is_escaped(bytes: &[u8], place: usize, kind: EscapeKind) -> bool
    requires { place < length bytes.now }
    ensures { result ≡ is_escaped_by kind bytes.now place }
{
    let byte = bytes[place];
    let behind = &bytes[place + 1..];
    match kind {
        EscapeKind::Html => byte == b'<'
            && opens_html(behind)
            && !behind.starts_with(b"!\\[CDATA\\["),
        EscapeKind::Markdown {
            begins_block,
            item_dot,
        } => {
            is_always_escaped(byte)
                || byte == b'<' && opens_html(behind)
                || place == 0 && begins_block
                || item_dot == Some(place)
        }
    }
}

/// Whether a `<` before these bytes opens a tag, a declaration, a comment or an instruction
/// (CommonMark 0.31.2, 4.6 and 6.6).
fn opens_html(behind: &[u8]) -> bool
    ensures { result ≡ spec.opens_html behind.now }
{
    match behind {
        [b'?', ..] => true,
        [b'/', c, ..] => c.is_ascii_alphabetic(),
        [b'!', rest @ ..] => !rest.starts_with(b"[CDATA["),
        [c, ..] => c.is_ascii_alphabetic(),
        [] => false,
    }
}

/// Whether the first character begins a block or underlines a heading.
fn begins_block(text: &str) -> bool
    ensures { result ≡ spec.begins_block text.now }
{
    match text.as_bytes() {
        [b'=' | b'~' | b'>', ..] => true,
        [b'-' | b'+', b' ', ..] => true,
        _ => is_markdown_atx_heading(text),
    }
}

/// The dot of an ordered list item whose number begins with an ASCII digit.
fn numbered_item_dot(text: &str) -> Option<usize>
    ensures { result ≡ spec.numbered_item_dot text.now }
{
    match text.as_bytes() {
        [b'0'..=b'9', ..] => index_of_markdown_ordered_item_dot(text),
        _ => None,
    }
}
