//! Which bare destinations of a text end (CommonMark 0.31.2, 6.3), all at once: where many begin and none ends, each
//! would be looked at to the end of the text.
ghost use Rattle.std.specs.Prelude.{◌≡◌, ◌∷◌, ◌-◌, ◌<◌, ◌≤◌, None, true, IfOk, drop, length};
ghost use Rattle.htmd_commonmark_reading.specs.LinkDefinitions.{destination};
ghost use Rattle.htmd_commonmark_reader.specs.Destinations.{left_of, lefts_of, AreKnown};

use crate::link_definitions::{ends_bare, escapes};
use htmd_scanning::first_is;
use std::alloc::{AllocError, Global};

/// What is left behind the destination that begins at so many bytes before the end.
fn left_at(text: &[u8], lefts: &[Option<usize>], len: usize) -> Option<usize>
    requires known { lefts.now ≡ lefts_of text.now }
    requires within { len ≤ length text.now }
    requires bound { len < length lefts.now }
    ensures { result ≡ left_of (drop (length text.now - len) text.now) }
{
    lefts[len]
}

/// What is left behind a destination that begins with a parenthesis and this text: another one closes that.
fn left_in_parentheses(after: &[u8], lefts: &[Option<usize>]) -> Option<usize>
    requires { lefts.now ≡ lefts_of after.now }
    ensures { result ≡ left_of (40 ∷ after.now) }
{
    let Some(left) = left_at(after, lefts, after.len()) else {
        return None;
    };
    if !first_is(&after[after.len() - left..], b')') {
        return None;
    }
    left_at(after, lefts, left - 1)
}

/// What is left behind a destination that begins with this byte and this text.
fn left_before(byte: u8, after: &[u8], lefts: &[Option<usize>]) -> Option<usize>
    requires { lefts.now ≡ lefts_of after.now }
    ensures { result ≡ left_of (byte ∷ after.now) }
{
    if ends_bare(0, false, byte) {
        return Some(after.len() + 1);
    }
    if byte == b'(' {
        return left_in_parentheses(after, lefts);
    }
    if escapes(byte, false, after) {
        return left_at(after, lefts, after.len() - 1);
    }
    left_at(after, lefts, after.len())
}

/// What is left behind the destination that begins at each place, from the end on. `Err` means out of memory.
fn lefts(alloc: Global, text: &[u8]) -> Result<Vec<Option<usize>>, AllocError>
    ensures { IfOk result (λ lefts. lefts.items ≡ lefts_of text.now) }
{
    let mut lefts = Vec::new(alloc);
    lefts.push(Some(0))?;
    let mut at = text.len();
    while at > 0 {
        at -= 1;
        let left = left_before(text[at], &text[at + 1..], &lefts);
        lefts.push(left)?;
    }
    Ok(lefts)
}

/// Notes which destinations end, if none is known and a link's text was followed by none that does.
pub(crate) fn note_lefts(
    alloc: Global,
    after: &[u8],
    known: &mut Vec<Option<usize>>,
) -> Result<(), AllocError>
    requires { AreKnown known.old.items after.now }
    ensures { AreKnown known.new.items after.now }
{
    if known.is_empty() && first_is(after, b'(') {
        *known = lefts(alloc, after)?;
    }
    Ok(())
}

/// Whether it is known that no destination begins the text.
pub(crate) fn lacks_destination(text: &[u8], known: &[Option<usize>]) -> bool
    requires { AreKnown known.now text.now }
    ensures { result ≡ true → destination text.now ≡ None }
{
    if first_is(text, b'<') || known.len() <= text.len() {
        return false;
    }
    match known[text.len()] {
        Some(_) => false,
        None => true,
    }
}
