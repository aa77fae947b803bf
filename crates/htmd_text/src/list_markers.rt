//! The beginnings of a line that Markdown reads as a heading or as an ordered list item.
ghost use Rattle.std.specs.Prelude.{◌≡◌, ◌==◌, ◌&&◌, ◌≤◌, ◌+◌, ◌-◌, None, Some, if◌then◌else◌, length, nat_lt};
ghost use Rattle.std.specs.Prelude.{slice_index};
ghost use Rattle.htmd_lexical.specs.Characters.{space};
ghost use Rattle.htmd_text.specs.ListMarkers as spec;

use crate::repeats::leading_len;
use unicode::properties::GeneralCategory;

/// Whether the text begins with one or more `#` and then a space, as an ATX heading does (CommonMark 0.31.2, 4.2).
pub fn is_markdown_atx_heading(text: &str) -> bool
    ensures { result ≡ spec.is_atx_heading text.now }
{
    let bytes = text.as_bytes();
    let level = leading_len(bytes, b'#');
    level > 0 && is_space_at(bytes, level)
}

/// Whether a space is there.
fn is_space_at(bytes: &[u8], place: usize) -> bool
    ensures { result ≡ (slice_index bytes.now place == space) }
{
    place < bytes.len() && bytes[place] == b' '
}

/// The place of the last dot, if the text begins with one or more numeric characters (general categories Nd, Nl and
/// No), one or more dots and a space. An ordered list item begins like this (CommonMark 0.31.2, 5.2).
pub fn index_of_markdown_ordered_item_dot(text: &str) -> Option<usize>
    ensures { result ≡ spec.ordered_item_dot text.now }
{
    let bytes = text.as_bytes();
    let numerals = numerals_len(text);
    let dots = leading_len(&bytes[numerals..], b'.');
    last_dot(bytes, numerals, dots)
}

/// The place of the last of this many dots after these numerals, if a space follows them.
fn last_dot(bytes: &[u8], numerals: usize, dots: usize) -> Option<usize>
    requires { numerals + dots ≤ length bytes.now }
    ensures { result ≡ (if nat_lt 0 numerals && nat_lt 0 dots && (slice_index bytes.now (numerals + dots) == space)
        then Some (numerals + dots - 1)
        else None) }
{
    let end = numerals + dots;
    if numerals > 0 && dots > 0 && is_space_at(bytes, end) {
        return Some(end - 1);
    }
    None
}

/// How many bytes the numeric characters at the front take.
fn numerals_len(text: &str) -> usize
    ensures bound { result ≤ length text.now }
    ensures value { result ≡ spec.numerals_len text.now }
{
    let mut len = 0;
    for c in text.chars() {
        if !is_numeric(c) {
            return len;
        }
        len += c.len_utf8();
    }
    len
}

/// Whether the character is a number: a digit of any script, a letter number, a fraction.
fn is_numeric(c: char) -> bool
    ensures { result ≡ spec.is_numeric c }
{
    if c.is_ascii() {
        return c.is_ascii_digit();
    }
    matches!(
        GeneralCategory::for_char(c),
        GeneralCategory::DecimalNumber
            | GeneralCategory::LetterNumber
            | GeneralCategory::OtherNumber
    )
}
