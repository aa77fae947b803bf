//! Rows of tables and their cells (GFM 0.29, 4.10).
ghost use Rattle.std.specs.Prelude.{◌≡◌, ◌<◌, ◌≤◌, ◌+◌, ◌&&◌, ◌==◌, ◌∷◌, ◌++◌, [], not, length, take, drop};
ghost use Rattle.std.specs.Prelude.{slice_index};
ghost use Rattle.std.specs.Prelude.{true, reverse, option_map, string_bytes, IfOk, IfSome, MatchOption};
ghost use Rattle.std.specs.List.{list_all};
ghost use Rattle.htmd_lexical.specs.CharacterClasses.{first_is};
ghost use Rattle.htmd_lexical.specs.Characters.{backslash, vertical_bar};
ghost use Rattle.htmd_commonmark_reading.specs.Lines.{is_blank_text};
ghost use Rattle.htmd_commonmark_reading.specs.Tables as spec;
ghost use Rattle.htmd_commonmark_reader.specs.Rows.{with_rest, until_bar, raw_cells, rest_size, escapes_bar, strings};

use crate::characters::stripped;
use crate::lines::is_blank_text;
use htmd_document::Alignment;
use htmd_scanning::{first_is, strip_byte};
use std::alloc::{AllocError, Global};

/// The text without the bar with which it begins.
fn without_first_bar(text: &str) -> &str
    ensures { result.now ≡ spec.without_first_bar text.now }
{
    strip_byte(text, b'|').unwrap_or(text)
}

/// Whether a byte is a bar that separates cells.
fn is_separator(before: u8, byte: u8) -> bool
    ensures { result ≡ ((byte == vertical_bar) && not (before == backslash)) }
{
    byte == b'|' && before != b'\\'
}

/// How many bytes stand before the first bar that separates cells.
#[tactic(auto, using(crate::proofs::RowsLemmas::bar_more, crate::proofs::RowsLemmas::bar_stops))]
fn bar_at(bytes: &[u8]) -> usize
    ensures bound { result ≤ length bytes.now }
    ensures value { result ≡ length (until_bar 0 bytes.now) }
{
    let mut before = 0;
    for (at, byte) in bytes.iter().enumerate() {
        if is_separator(before, *byte) {
            return at;
        }
        before = *byte;
    }
    bytes.len()
}

/// Whether a backslash stands before a bar here.
fn escapes_bar(bytes: &[u8]) -> bool
    ensures { result ≡ escapes_bar bytes.now }
{
    matches!(bytes, [b'\\', b'|', ..])
}

/// A raw cell, whether a bar follows it, and what follows that.
#[derive(Clone, Copy, Drop)]
struct RawCell<'a> {
    cell: &'a str,
    more: bool,
    rest: &'a str,
}

/// The first of the cells of a text.
fn first_cell(text: &str) -> RawCell<'_>
    ensures cells { spec.split_at_bars 0 text.now ≡ with_rest result.cell.now result.more result.rest.now }
    ensures shorter { result.more ≡ true → length result.rest.now < length text.now }
{
    let (cell, rest) = text.split_at(bar_at(text.as_bytes()));
    match strip_byte(rest, b'|') {
        Some(after) => RawCell {
            cell,
            more: true,
            rest: after,
        },
        None => RawCell {
            cell,
            more: false,
            rest,
        },
    }
}

/// Whether a cell is blank, and the last one.
fn is_blank_last(raw: RawCell<'_>) -> bool
    ensures { result ≡ (not raw.entry.more && is_blank_text raw.entry.cell.now) }
{
    !raw.more && is_blank_text(raw.cell.as_bytes())
}

/// The next raw cell of a row, without a blank one at its end.
fn next_cell(more: bool, rest: &str) -> Option<RawCell<'_>>
    ensures cells { MatchOption result (raw_cells more rest.now ≡ [])
        (λ raw. raw_cells more rest.now ≡ raw.cell.now ∷ raw_cells raw.more raw.rest.now) }
    ensures shorter { IfSome result (λ raw. rest_size raw.more raw.rest.now < rest_size more rest.now) }
{
    if !more {
        return None;
    }
    let raw = first_cell(rest);
    if is_blank_last(raw) {
        return None;
    }
    Some(raw)
}

/// Where a backslash stands before a bar.
fn escaped_bar(bytes: &[u8]) -> Option<usize>
    ensures place { IfSome result (λ at. at < length bytes.now) }
    ensures sign { IfSome result (λ at. slice_index bytes.now at ≡ backslash) }
    ensures value { MatchOption result (spec.with_bars bytes.now ≡ bytes.now)
        (λ at. spec.with_bars bytes.now ≡ take at bytes.now ++ spec.with_bars (drop (at + 1) bytes.now)) }
{
    for at in 0..bytes.len() {
        if escapes_bar(&bytes[at..]) {
            return Some(at);
        }
    }
    None
}

/// A bar with a backslash before it is a bar.
fn with_bars(alloc: Global, text: &str) -> Result<String, AllocError>
    ensures { IfOk result (λ t. string_bytes t ≡ spec.with_bars text.now) }
{
    let mut held = String::with_capacity(alloc, text.len())?;
    let mut rest = text;
    while let Some(at) = escaped_bar(rest.as_bytes()) {
        held.push_str(&rest[..at])?;
        rest = &rest[at + 1..];
    }
    held.push_str(rest)?;
    Ok(held)
}

/// The raw cells of a row.
pub(crate) fn cells(alloc: Global, text: &str) -> Result<Vec<String>, AllocError>
    ensures { IfOk result (λ cells. strings cells.items ≡ spec.cells text.now) }
{
    let mut cells = Vec::new(alloc);
    let mut more = true;
    let mut rest = without_first_bar(stripped(text));
    while let Some(raw) = next_cell(more, rest) {
        cells.push(with_bars(alloc, stripped(raw.cell))?)?;
        more = raw.more;
        rest = raw.rest;
    }
    Ok(cells)
}

/// The raw cells of a row of so many: padded, or cut. `Err` means out of memory.
pub(crate) fn fitted_cells(
    alloc: Global,
    text: &str,
    count: usize,
) -> Result<Vec<String>, AllocError>
    ensures { IfOk result (λ row. strings row.items ≡ spec.fitted count (spec.cells text.now)) }
{
    let mut row = cells(alloc, text)?;
    row.truncate(count);
    while row.len() < count {
        row.push(String::new(alloc))?;
    }
    Ok(row)
}

/// How many cells a row has.
pub(crate) fn cell_count(text: &str) -> usize
    ensures { result ≡ length (spec.cells text.now) }
{
    let mut count: usize = 0;
    let mut more = true;
    let mut rest = without_first_bar(stripped(text));
    while let Some(raw) = next_cell(more, rest) {
        count += 1;
        more = raw.more;
        rest = raw.rest;
    }
    count
}

fn without_first_colon(bytes: &[u8]) -> &[u8]
    ensures { result.now ≡ spec.without_colon bytes.now }
{
    match bytes {
        [b':', rest @ ..] => rest,
        _ => bytes,
    }
}

fn without_last_colon(bytes: &[u8]) -> &[u8]
    ensures { result.now ≡ reverse (spec.without_colon (reverse bytes.now)) }
{
    match bytes {
        [front @ .., b':'] => front,
        _ => bytes,
    }
}

/// Whether the text ends with this byte.
fn last_is(bytes: &[u8], byte: u8) -> bool
    ensures { result ≡ first_is byte (reverse bytes.now) }
{
    matches!(bytes, [.., last] if *last == byte)
}

fn are_hyphens(bytes: &[u8]) -> bool
    ensures { result ≡ list_all spec.is_hyphen bytes.now }
{
    bytes.iter().all(|byte| *byte == b'-')
}

/// Whether a text is a cell of a delimiter row: hyphens, with a colon at either side or none.
#[tactic(auto, using(crate::proofs::DelimitersLemmas::hyphens_alone))]
fn is_delimiter(bytes: &[u8]) -> bool
    ensures { result ≡ spec.is_delimiter bytes.now }
{
    let hyphens = without_last_colon(without_first_colon(bytes));
    first_is(hyphens, b'-') && are_hyphens(hyphens)
}

fn aligned(at_left: bool, at_right: bool) -> Alignment
    ensures { result ≡ spec.aligned at_left at_right }
{
    match (at_left, at_right) {
        (false, false) => Alignment::None,
        (true, false) => Alignment::Left,
        (true, true) => Alignment::Center,
        (false, true) => Alignment::Right,
    }
}

fn alignment_of(bytes: &[u8]) -> Alignment
    ensures { result ≡ spec.alignment_of bytes.now }
{
    aligned(first_is(bytes, b':'), last_is(bytes, b':'))
}

/// The alignments of a row all of whose cells are of that form. `Err` means out of memory.
pub(crate) fn delimiter_row(alloc: Global, text: &str) -> Result<Option<Vec<Alignment>>, AllocError>
    ensures { IfOk result (λ row. option_map (λ a. a.items) row ≡ spec.delimiter_row text.now) }
{
    let mut alignments = Vec::new(alloc);
    let mut more = true;
    let mut rest = without_first_bar(stripped(text));
    while let Some(raw) = next_cell(more, rest) {
        let cell = stripped(raw.cell);
        if !is_delimiter(cell.as_bytes()) {
            return Ok(None);
        }
        alignments.push(alignment_of(cell.as_bytes()))?;
        more = raw.more;
        rest = raw.rest;
    }
    Ok(Some(alignments))
}
