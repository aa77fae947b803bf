//! The markers of list items (CommonMark 0.31.2, 5.2).
ghost use Rattle.std.specs.Prelude.{◌≡◌, ◌<◌, ◌≤◌, ◌+◌, ◌-◌, ◌&&◌, true, false, slice_index, codes, length, option_map};
ghost use Rattle.std.specs.Prelude.{IfSome};
ghost use Rattle.std.specs.Option.{MatchOption};
ghost use Rattle.std.specs.Char.{is_ascii_digit};
ghost use Rattle.std.specs.List.{list_all};
ghost use Rattle.htmd_lexical.specs.Characters.{is_one_of};
ghost use Rattle.htmd_lexical.specs.Numbers.{number};
ghost use Rattle.htmd_commonmark_reading.specs.BlockStarts as spec;
ghost use Rattle.htmd_commonmark_reader.specs.LineViews.{line_of, IsLine};
ghost use Rattle.htmd_commonmark_reader.specs.Markers.{marker_of, numbered};
ghost use Rattle.htmd_commonmark_reader.specs.Starts.{after_of};

use crate::block_starts::{After, is_empty_or_blank};
use crate::lines::Line;
use htmd_scanning::digits_len;

/// The most digits that the number of an item has.
const MOST_DIGITS: usize = 9;

/// The marker of a numbered item: the sign after its number, the number, and how many characters it has.
#[derive(Clone, Copy, Drop)]
pub(crate) struct NumberMarker {
    pub(crate) sign: u8,
    pub(crate) number: u32,
    pub(crate) len: usize,
}

/// What the digits of an item's number mean.
#[tactic(auto, using(crate::proofs::MarkersLemmas::few_beyond))]
fn number_of(digits: &[u8]) -> u32
    requires few { length digits.now ≤ 9 }
    requires digits { list_all is_ascii_digit digits.now ≡ true }
    ensures { result ≡ number 10 0 digits.now }
{
    let mut sum: u32 = 0;
    for digit in digits {
        sum = 10 * sum + u32::from(*digit - b'0');
    }
    sum
}

/// Whether a byte may stand after the number of an item.
fn is_sign(byte: u8) -> bool
    ensures { result ≡ is_one_of (codes ".)") byte }
{
    byte == b'.' || byte == b')'
}

/// The marker of a numbered item that a text begins with: one to nine digits, and `.` or `)` after them.
pub(crate) fn number_marker(bytes: &[u8]) -> Option<NumberMarker>
    ensures value { option_map marker_of result ≡ numbered bytes.now }
    ensures few { IfSome result (λ m. m.len ≤ 10) }
    ensures place { IfSome result (λ m. (0 < m.len) × (m.len ≤ length bytes.now)) }
    ensures ascii { IfSome result (λ m. slice_index bytes.now (m.len - 1) < 128) }
{
    let len = digits_len(bytes);
    if len > MOST_DIGITS {
        return None;
    }
    if len == bytes.len() {
        return None;
    }
    let sign = bytes[len];
    if !is_sign(sign) {
        return None;
    }
    Some(NumberMarker {
        sign,
        number: number_of(&bytes[..len]),
        len: len + 1,
    })
}

/// The columns between a marker and the content: one to four, or one if there are more or none follows.
fn padding(line: Line<'_>) -> usize
    requires { IsLine line }
    ensures { result ≡ spec.padding (line_of line.entry) }
{
    if line.is_blank() {
        return 1;
    }
    if line.indent > 4 {
        return 1;
    }
    line.indent
}

/// Under a paragraph an item must have text, and a number must be 1.
fn may_begin(after: After, number: Option<u32>, line: Line<'_>) -> bool
    requires { IsLine line }
    ensures { result ≡ spec.may_begin (after_of after) number (line_of line.entry) }
{
    if !after.is_under() {
        return true;
    }
    match number {
        Some(number) => number == 1 && !line.is_blank(),
        None => !line.is_blank(),
    }
}

/// What follows a marker: the columns before the content, and the content.
#[derive(Clone, Copy, Drop)]
pub(crate) struct Item<'a> {
    pub(crate) columns: usize,
    pub(crate) content: Line<'a>,
}

/// The item that a marker begins, which ends after so many columns, if the rest of its line may follow it.
pub(crate) fn begun_item<'a>(
    after: After,
    number: Option<u32>,
    before: usize,
    rest: Line<'a>,
) -> Option<Item<'a>>
    requires line { IsLine rest }
    requires uncut { rest.spaces ≡ 0 }
    requires few { before ≤ 20 }
    ensures none { MatchOption result ((spec.is_empty_or_blank (line_of rest.entry).text
        && spec.may_begin (after_of after) number (line_of rest.entry)) ≡ false)
        (λ _. (spec.is_empty_or_blank (line_of rest.entry).text
        && spec.may_begin (after_of after) number (line_of rest.entry)) ≡ true) }
    ensures columns { IfSome result (λ i. i.columns ≡ before + spec.padding (line_of rest.entry)) }
    ensures content { IfSome result (λ i. line_of i.content ≡ spec.behind_padding (line_of rest.entry)) }
    ensures held { IfSome result (λ i. IsLine i.content) }
{
    if !is_empty_or_blank(rest.text.as_bytes()) {
        return None;
    }
    if !may_begin(after, number, rest) {
        return None;
    }
    let padding = padding(rest);
    Some(Item {
        columns: before + padding,
        content: rest.cut(padding),
    })
}
