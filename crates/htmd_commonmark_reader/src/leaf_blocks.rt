//! What an open leaf looks for in a line (CommonMark 0.31.2, 4.3; GFM 0.29, 4.10).
ghost use Rattle.std.specs.Prelude.{◌≡◌, ◌&&◌, option_map, IfOk};
ghost use Rattle.std.specs.List.{list_all};
ghost use Rattle.htmd_lexical.specs.CharacterClasses.{first_is};
ghost use Rattle.htmd_commonmark_reading.specs.BlockStarts.{is_same};
ghost use Rattle.htmd_commonmark_reading.specs.LeafBlocks as spec;
ghost use Rattle.htmd_commonmark_reader.specs.LineViews.{line_of, IsLine};

use crate::block_starts::are_all;
use crate::characters::stripped;
use crate::lines::Line;
use crate::tables::delimiter_row;
use htmd_document::Alignment;
use htmd_scanning::first_is;
use std::alloc::{AllocError, Global};

/// Whether a text is one or more of a sign.
fn is_line_of(sign: u8, text: &[u8]) -> bool
    ensures { result ≡ (first_is sign text.now && list_all (is_same sign) text.now) }
{
    first_is(text, sign) && are_all(text, sign)
}

/// The level of the heading that a text underlines.
fn underline(text: &[u8]) -> Option<u8>
    ensures { result ≡ spec.underline text.now }
{
    if is_line_of(b'=', text) {
        return Some(1);
    }
    if is_line_of(b'-', text) {
        return Some(2);
    }
    None
}

/// The level of the heading that a line underlines.
pub(crate) fn underline_of(line: Line<'_>) -> Option<u8>
    requires { IsLine line }
    ensures { result ≡ spec.underline_of (line_of line.entry) }
{
    if line.indent > 3 {
        return None;
    }
    underline(stripped(line.text).as_bytes())
}

/// The alignments of the delimiter row that a line is. `Err` means out of memory.
pub(crate) fn delimiter_row_of(
    alloc: Global,
    line: Line<'_>,
) -> Result<Option<Vec<Alignment>>, AllocError>
    requires { IsLine line }
    ensures { IfOk result (λ row. option_map (λ a. a.items) row ≡ spec.delimiter_row_of (line_of line.entry)) }
{
    if line.indent > 3 {
        return Ok(None);
    }
    let row = delimiter_row(alloc, stripped(line.text))?;
    Ok(row)
}
