//! A text with a backslash before each character that a reader would take for more (CommonMark 0.31.2, 2.4).
ghost use Rattle.std.specs.Prelude.{◌≡◌, ◌<◌, ◌++◌, ◌-◌, ◌&&◌, ◌||◌, ◌==◌, ℕ, not, true, OnOk, length, slice_index};
ghost use Rattle.std.specs.List.{list_any};
ghost use Rattle.std.specs.Prelude.{string_bytes};
ghost use Rattle.htmd_lexical.specs.Characters.{underscore};
ghost use Rattle.htmd_text.specs.EscapedPlaces.{is_place};
ghost use Rattle.htmd_commonmark.specs.LineMarks.{line_mark};
ghost use Rattle.htmd_commonmark.specs.PlainTexts.{may_be_marked};
ghost use Rattle.htmd_commonmark.specs.TextEscapes as spec;

use crate::character_kind::{first_character, is_word, last_character};
use crate::line_mark::line_mark;
use crate::reference::is_reference;
use htmd_text::repeats::{leading_len, trailing_len};
use std::alloc::AllocError;

/// Where a text is.
#[derive(Clone, Copy)]
pub struct Place {
    /// Whether the text begins a line of a paragraph.
    pub begins_line: bool,
    /// Whether it is in the brackets of a link or an image.
    pub in_brackets: bool,
    /// The character before it, none at the line's beginning.
    pub before: Option<char>,
    /// The character after it, none at the line's end.
    pub after: Option<char>,
}

/// Appends the text so that a reader takes each character as itself.
pub(crate) fn push_escaped(out: &mut String, text: &str, place: &Place) -> Result<(), AllocError>
    ensures { OnOk result
        (string_bytes out.new ≡ string_bytes out.old ++ spec.escaped place.now text.now) }
{
    if is_plain(text.as_bytes(), place) {
        return out.push_str(text);
    }
    push_with_marks(out, text, place)
}

/// Whether no place of the text gets a backslash, as is soon seen of most texts.
fn is_plain(bytes: &[u8], place: &Place) -> bool
    ensures { result ≡ true → spec.escaped place.now bytes.now ≡ bytes.now }
{
    if holds_mark(bytes) {
        return false;
    }
    line_mark_of(bytes, place).is_none()
}

/// Whether a byte is one that gets a backslash in some places. All bytes are looked at, so that a processor can compare
/// many at once.
fn holds_mark(bytes: &[u8]) -> bool
    ensures { result ≡ list_any may_be_marked bytes.now }
{
    // A number, since of a bool LLVM makes branches where this is inlined.
    let mut found = 0;
    for b in bytes {
        found = found.max(may_be_marked(*b) as u8);
    }
    found == 1
}

/// Whether a byte gets a backslash in some places of lines: the six from `[` to a backquote, and others. All are
/// compared, so that there is no branch.
fn may_be_marked(byte: u8) -> bool
    ensures { result ≡ may_be_marked byte }
{
    ((byte >= b'[') & (byte <= b'`'))
        | (byte == b'!')
        | (byte == b'&')
        | (byte == b'*')
        | (byte == b'<')
        | (byte == b'~')
}

/// The same of a text with places that get a backslash.
fn push_with_marks(out: &mut String, text: &str, place: &Place) -> Result<(), AllocError>
    ensures { OnOk result
        (string_bytes out.new ≡ string_bytes out.old ++ spec.escaped place.now text.now) }
{
    let bytes = text.as_bytes();
    let line_mark = line_mark_of(bytes, place);
    let mut from = 0;
    let mut in_word = false;
    for i in 0..bytes.len() {
        if begins_row(bytes, i) {
            in_word = is_in_word(text, i, place);
        }
        if is_marked(bytes, i, place, in_word, line_mark) {
            out.push_str(&text[from..i])?;
            out.push('\\')?;
            from = i;
        }
    }
    out.push_str(&text[from..])
}

/// The place that gets a backslash if the text begins a line.
fn line_mark_of(bytes: &[u8], place: &Place) -> Option<usize>
    ensures { (k : ℕ) → is_place result k
        ≡ (place.now.begins_line && is_place (line_mark bytes.now place.now.after) k) }
{
    if place.begins_line {
        line_mark(bytes, place.after)
    } else {
        None
    }
}

/// Whether a row of underscores begins there.
fn begins_row(bytes: &[u8], i: usize) -> bool
    requires { i < length bytes.now }
    ensures { result ≡ ((slice_index bytes.now i == underscore)
        && ((i == 0) || not (slice_index bytes.now (i - 1) == underscore))) }
{
    bytes[i] == b'_' && (i == 0 || bytes[i - 1] != b'_')
}

/// Whether the row of underscores there is between characters of words.
fn is_in_word(text: &str, i: usize, place: &Place) -> bool
    requires bound { i < length text.now }
    requires underscore { slice_index text.now i ≡ underscore }
    ensures { result ≡ spec.is_in_word place.now text.now i }
{
    let (front, rest) = text.split_at(i);
    is_of_word(character_before(front, place)) && is_of_word(character_after(rest, place))
}

/// The character before the underscores that end the text's front.
fn character_before(front: &str, place: &Place) -> Option<char>
    ensures { result ≡ spec.character_before place.now front.now }
{
    let front = &front[..front.len() - trailing_len(front.as_bytes(), b'_')];
    last_character(front).or(place.before)
}

/// The character after the underscores that begin the text's rest.
fn character_after(rest: &str, place: &Place) -> Option<char>
    ensures { result ≡ spec.character_after place.now rest.now }
{
    let rest = &rest[leading_len(rest.as_bytes(), b'_')..];
    first_character(rest).or(place.after)
}

/// Whether the character is there and of a word.
fn is_of_word(beside: Option<char>) -> bool
    ensures { result ≡ spec.is_of_word beside }
{
    match beside {
        Some(c) => is_word(c),
        None => false,
    }
}

/// Whether the place gets a backslash.
fn is_marked(bytes: &[u8], i: usize, place: &Place, in_word: bool, line_mark: Option<usize>) -> bool
    requires bound { i < length bytes.now }
    requires row { slice_index bytes.now i ≡ underscore
        → in_word ≡ spec.is_in_word place.now bytes.now i }
    ensures { result ≡ (spec.is_inline_mark place.now bytes.now i || is_place line_mark i) }
{
    is_inline_mark(bytes, i, place, in_word) || line_mark == Some(i)
}

/// Whether the place gets a backslash wherever the text is in a line. `in_word` tells of a row of underscores there
/// whether it is between characters of words.
fn is_inline_mark(bytes: &[u8], i: usize, place: &Place, in_word: bool) -> bool
    requires bound { i < length bytes.now }
    requires row { slice_index bytes.now i ≡ underscore
        → in_word ≡ spec.is_in_word place.now bytes.now i }
    ensures { result ≡ spec.is_inline_mark place.now bytes.now i }
{
    match bytes[i] {
        b'`' | b'*' | b'[' | b'~' => true,
        b']' => place.in_brackets,
        b'\\' => may_be_escaped(next_character(bytes, i, place)),
        b'_' => !in_word,
        b'<' => may_be_in_tag(next_character(bytes, i, place)),
        b'&' => is_reference(&bytes[i + 1..]),
        b'!' => i + 1 == bytes.len() && is_bracket(place.after),
        b'^' => i == 0 && is_bracket(place.before),
        _ => false,
    }
}

/// What follows the place: a byte of the text, or the character after the text.
fn next_character(bytes: &[u8], i: usize, place: &Place) -> Option<char>
    requires { i < length bytes.now }
    ensures { result ≡ spec.next_byte place.now bytes.now i }
{
    match bytes.get(i + 1) {
        Some(b) => Some(char::from(*b)),
        None => place.after,
    }
}

/// Whether a backslash before this would escape it.
fn may_be_escaped(next: Option<char>) -> bool
    ensures { result ≡ spec.may_be_escaped next }
{
    match next {
        Some(c) => c == '\n' || c.is_ascii_punctuation(),
        None => true,
    }
}

/// Whether a `<` before this could begin HTML or an autolink.
fn may_be_in_tag(next: Option<char>) -> bool
    ensures { result ≡ spec.may_be_in_tag next }
{
    !matches!(next, None | Some(' ' | '\n'))
}

/// Whether the character is a `[`.
fn is_bracket(beside: Option<char>) -> bool
    ensures { result ≡ spec.is_bracket beside }
{
    matches!(beside, Some('['))
}
