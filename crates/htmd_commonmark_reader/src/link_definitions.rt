//! Link labels, destinations and titles (CommonMark 0.31.2, 6.3), and the link reference definitions that a paragraph
//! begins with (4.7).
ghost use Rattle.std.specs.Prelude.{◌≡◌, ◌<◌, ◌≤◌, ◌+◌, ◌==◌, ◌&&◌, not, false, length, slice_index, option_map};
ghost use Rattle.std.specs.Prelude.{IfSome};
ghost use Rattle.std.specs.Str.{IsCharBoundary};
ghost use Rattle.htmd_lexical.specs.Characters.{backslash};
ghost use Rattle.htmd_commonmark_reading.specs.Characters.{begins_with_punctuation};
ghost use Rattle.htmd_commonmark_reading.specs.LinkDefinitions as spec;
ghost use Rattle.htmd_commonmark_reader.specs.Fronts.{front_of, around, split, depth_after, if_closed};

use crate::characters::{White, begins_with_punctuation, is_white, lacks, past_blanks};
use htmd_scanning::{split_run, strip_byte};

/// A beginning of a text, and what follows it.
#[derive(Clone, Copy, Drop)]
pub(crate) struct Front<'a> {
    pub(crate) front: &'a str,
    pub(crate) rest: &'a str,
}

/// What comes before an ASCII character and after it.
fn around(text: &str, at: usize) -> Front<'_>
    requires within { at < length text.now }
    requires ascii { slice_index text.now at < 128 }
    ensures { front_of result ≡ around text.now at }
{
    Front {
        front: &text[..at],
        rest: &text[at + 1..],
    }
}

/// Whether a byte is this sign, with no backslash before it.
fn is_plain(byte: u8, sign: u8, is_escaped: bool) -> bool
    ensures { result ≡ (not is_escaped && (byte == sign)) }
{
    !is_escaped && byte == sign
}

/// Where a sign stands that no backslash stands before; nowhere if another sign comes first.
fn sign_at(bytes: &[u8], stop: u8, refused: u8) -> Option<usize>
    ensures value { option_map (around bytes.now) result ≡ spec.until_sign stop refused false bytes.now }
    ensures within { IfSome result (λ at. at < length bytes.now) }
    ensures sign { IfSome result (λ at. slice_index bytes.now at ≡ stop) }
{
    let mut is_escaped = false;
    for (at, byte) in bytes.iter().enumerate() {
        if is_plain(*byte, stop, is_escaped) {
            return Some(at);
        }
        if is_plain(*byte, refused, is_escaped) {
            return None;
        }
        is_escaped = is_plain(*byte, b'\\', is_escaped);
    }
    None
}

/// The text up to a sign that no backslash stands before, and what follows that; none if another sign comes first.
pub(crate) fn until_sign(text: &str, stop: u8, refused: u8) -> Option<Front<'_>>
    requires { stop < 128 }
    ensures { option_map front_of result ≡ spec.until_sign stop refused false text.now }
{
    match sign_at(text.as_bytes(), stop, refused) {
        Some(at) => Some(around(text, at)),
        None => None,
    }
}

/// The text without spaces, tabs and line endings at its beginning.
pub(crate) fn past_white(text: &str) -> &str
    ensures { result.now ≡ spec.past_white text.now }
{
    split_run(text, White).1
}

/// The label at the beginning of a text, between its brackets.
pub(crate) fn label(text: &str) -> Option<Front<'_>>
    ensures { option_map front_of result ≡ spec.label text.now }
{
    match strip_byte(text, b'[') {
        Some(rest) => until_sign(rest, b']', b'['),
        None => None,
    }
}

/// Between `<` and `>` on one line.
fn pointed(text: &str) -> Option<Front<'_>>
    ensures { option_map front_of result ≡ spec.pointed text.now }
{
    let Some(found) = until_sign(text, b'>', b'<') else {
        return None;
    };
    if !lacks(found.front.as_bytes(), b'\n') {
        return None;
    }
    Some(found)
}

/// The parentheses that are open after a character.
fn depth_after(depth: usize, is_escaped: bool, byte: u8) -> usize
    requires { depth < 0x8000_0000_0000_0000 }
    ensures value { result ≡ depth_after depth is_escaped byte }
    ensures more { result ≤ depth + 1 }
{
    if is_escaped {
        return depth;
    }
    match byte {
        b'(' => depth + 1,
        b')' => depth.saturating_sub(1),
        _ => depth,
    }
}

/// Whether a bare destination ends before the byte.
pub(crate) fn ends_bare(depth: usize, is_escaped: bool, byte: u8) -> bool
    ensures { result ≡ (not is_escaped && spec.ends_bare depth byte) }
{
    !is_escaped && (byte <= b' ' || byte == 0x7F || (byte == b')' && depth == 0))
}

/// Whether a byte escapes the first of those that follow.
pub(crate) fn escapes(byte: u8, is_escaped: bool, after: &[u8]) -> bool
    ensures { result ≡ (not is_escaped && ((byte == backslash) && begins_with_punctuation after.now)) }
{
    !is_escaped && byte == b'\\' && begins_with_punctuation(after)
}

/// The end of a bare destination, if no parenthesis is open there.
fn if_closed(depth: usize, end: usize) -> Option<usize>
    ensures { result ≡ if_closed depth end }
{
    if depth == 0 { Some(end) } else { None }
}

/// Where the bare destination at the beginning of a text ends.
fn bare_end(bytes: &[u8]) -> Option<usize>
    ensures value { option_map (split bytes.now) result ≡ spec.bare 0 false bytes.now }
    ensures cut { IfSome result (λ end. IsCharBoundary bytes.now end) }
{
    let mut depth = 0;
    let mut is_escaped = false;
    for (at, byte) in bytes.iter().enumerate() {
        if ends_bare(depth, is_escaped, *byte) {
            return if_closed(depth, at);
        }
        depth = depth_after(depth, is_escaped, *byte);
        is_escaped = escapes(*byte, is_escaped, &bytes[at + 1..]);
    }
    if_closed(depth, bytes.len())
}

/// A bare destination that isn't empty.
fn filled_bare(text: &str) -> Option<Front<'_>>
    ensures { option_map front_of result ≡ spec.unless_front_is_empty (spec.bare 0 false text.now) }
{
    let Some(end) = bare_end(text.as_bytes()) else {
        return None;
    };
    if end == 0 {
        return None;
    }
    Some(Front {
        front: &text[..end],
        rest: &text[end..],
    })
}

/// The raw destination that a text begins with.
pub(crate) fn destination(text: &str) -> Option<Front<'_>>
    ensures { option_map front_of result ≡ spec.destination text.now }
{
    match strip_byte(text, b'<') {
        Some(rest) => pointed(rest),
        None => filled_bare(text),
    }
}

/// The raw title that a text begins with, between quotes of either kind, or parentheses.
pub(crate) fn raw_title(text: &str) -> Option<Front<'_>>
    ensures { option_map front_of result ≡ spec.raw_title text.now }
{
    if let Some(rest) = strip_byte(text, b'"') {
        return until_sign(rest, b'"', b'"');
    }
    if let Some(rest) = strip_byte(text, b'\'') {
        return until_sign(rest, b'\'', b'\'');
    }
    match strip_byte(text, b'(') {
        Some(rest) => until_sign(rest, b')', b'('),
        None => None,
    }
}

/// The raw title after white space.
pub(crate) fn title_after(text: &str) -> Option<Front<'_>>
    ensures { option_map front_of result ≡ spec.title_after text.now }
{
    match text.as_bytes() {
        [first, ..] if is_white(*first) => raw_title(past_white(text)),
        _ => None,
    }
}

/// What follows the rest of a line, if that is white.
pub(crate) fn past_line(text: &str) -> Option<&str>
    ensures { option_map (λ t. t.now) result ≡ spec.past_line text.now }
{
    let rest = past_blanks(text);
    if rest.is_empty() {
        return Some(rest);
    }
    strip_byte(rest, b'\n')
}
