//! Tables: lines of cells between bars.
ghost use Rattle.std.specs.Prelude.{◌≡◌, ◌≤◌, ◌+◌, ◌∷◌, ◌++◌, IfOk, OnOk, MatchOption, length, map, fold, min};
ghost use Rattle.std.specs.Prelude.{string_bytes};
ghost use Rattle.htmd_markdown.specs.Tables as spec;
ghost use Rattle.htmd_markdown.specs.TableReading.{read_row, bars, column_count, IsEven};
ghost use Rattle.htmd_markdown.specs.CellBytes as bytes;

use htmd_text::{TrimDocumentWhitespace, push_repeated};
use std::alloc::{AllocError, Global};

/// The line of a table's row: each cell after a space and padded to its column's width, with bars around. In a cell a
/// line feed becomes a space, a carriage return goes, a bar becomes a character reference, and document white space at
/// the ends is cut; missing cells are empty. `Err` means out of memory.
pub fn write_row(alloc: Global, cells: &[String], widths: &[usize]) -> Result<String, AllocError>
    requires { length cells.now ≤ length widths.now }
    ensures text { IfOk result
        (λ s. string_bytes s ≡ spec.row (spec.texts cells.now) widths.now) }
    ensures reads_back { IfOk result
        (λ s. read_row (string_bytes s)
        ≡ spec.line_cells (length widths.now) (spec.texts cells.now)) }
    ensures bars { IfOk result (λ s. bars (string_bytes s) ≡ length widths.now + 1) }
{
    let room = line_room(widths).saturating_add(further_bytes(cells));
    let mut text = String::with_capacity(alloc, room)?;
    push_row(&mut text, cells, widths)?;
    Ok(text)
}

/// The lines of a table: the headers and a line of dashes below them if there are headers, and the rows. There are as
/// many columns as the longest line has cells, each as wide as its widest cell. `Err` means out of memory.
pub fn write_table(
    alloc: Global,
    headers: &[String],
    rows: &[Vec<String>],
) -> Result<String, AllocError>
    ensures text { IfOk result (λ s. string_bytes s
        ≡ spec.table (spec.texts headers.now) (map spec.row_texts rows.now)) }
    ensures even { IfOk result (λ s. IsEven
        (column_count (spec.texts headers.now ∷ map spec.row_texts rows.now)) (string_bytes s)) }
{
    let widths = column_widths(alloc, headers, rows)?;
    let mut text = String::with_capacity(alloc, table_room(&widths, headers, rows))?;
    push_head(&mut text, headers, &widths)?;
    for row in rows {
        push_row(&mut text, row, &widths)?;
    }
    Ok(text)
}

/// The widths of the columns, as far as a `usize` goes.
fn column_widths(
    alloc: Global,
    headers: &[String],
    rows: &[Vec<String>],
) -> Result<Vec<usize>, AllocError>
    ensures { IfOk result (λ widths. widths.items ≡ fold spec.wider
        (bytes.held_widths (spec.texts headers.now))
        (map (λ row. bytes.held_widths (spec.row_texts row)) rows.now)) }
{
    let mut widths = Vec::new(alloc);
    widen(&mut widths, headers)?;
    for row in rows {
        widen(&mut widths, row)?;
    }
    Ok(widths)
}

/// Makes the columns wide enough for the cells of one more line.
fn widen(widths: &mut Vec<usize>, cells: &[String]) -> Result<(), AllocError>
    ensures { OnOk result (widths.new.items
        ≡ spec.wider widths.old.items (bytes.held_widths (spec.texts cells.now))) }
{
    for (i, cell) in cells.iter().enumerate() {
        let width = cell_width(cell.as_str());
        if i < widths.len() {
            widths[i] = widths[i].max(width);
        } else {
            widths.push(width)?;
        }
    }
    Ok(())
}

/// How many bytes the table has, as far as a `usize` goes.
fn table_room(widths: &[usize], headers: &[String], rows: &[Vec<String>]) -> usize {
    let lines = rows.len().saturating_add(2);
    let mut room = line_room(widths)
        .saturating_mul(lines)
        .saturating_add(further_bytes(headers));
    for row in rows {
        room = room.saturating_add(further_bytes(row));
    }
    room
}

/// Appends the headers and the separator, if there are headers.
fn push_head(text: &mut String, headers: &[String], widths: &[usize]) -> Result<(), AllocError>
    ensures { OnOk result (string_bytes text.new
        ≡ string_bytes text.old ++ spec.head (spec.texts headers.now) widths.now) }
{
    if headers.is_empty() {
        return Ok(());
    }
    push_row(text, headers, widths)?;
    push_separator(text, widths)?;
    Ok(())
}

/// Appends the line between headers and rows.
fn push_separator(text: &mut String, widths: &[usize]) -> Result<(), AllocError>
    ensures { OnOk result
        (string_bytes text.new ≡ string_bytes text.old ++ spec.separator widths.now) }
{
    text.push_str("|")?;
    for width in widths {
        text.push_str(" ")?;
        push_repeated(text, '-', *width)?;
        text.push_str(" |")?;
    }
    text.push_str("\n")?;
    Ok(())
}

/// Appends the line of a row.
fn push_row(text: &mut String, cells: &[String], widths: &[usize]) -> Result<(), AllocError>
    ensures { OnOk result
        (string_bytes text.new ≡ string_bytes text.old
        ++ spec.row (spec.texts cells.now) widths.now) }
{
    text.push_str("|")?;
    for (i, width) in widths.iter().enumerate() {
        let cell = match cells.get(i) {
            Some(cell) => cell.as_str(),
            None => "",
        };
        push_padded(text, cell, *width)?;
    }
    text.push_str("\n")?;
    Ok(())
}

/// Appends a cell with its spaces and the bar after it.
fn push_padded(text: &mut String, cell: &str, width: usize) -> Result<(), AllocError>
    ensures { OnOk result
        (string_bytes text.new ≡ (string_bytes text.old
        ++ spec.padded_cell (spec.normalised_cell cell.now) width) ++ bytes.bar) }
{
    text.push_str(" ")?;
    push_normalised(text, cell)?;
    push_repeated(text, ' ', width.saturating_sub(cell_width(cell)))?;
    text.push_str(" |")?;
    Ok(())
}

/// Appends the cell as it is written.
fn push_normalised(text: &mut String, cell: &str) -> Result<(), AllocError>
    ensures { OnOk result
        (string_bytes text.new ≡ string_bytes text.old ++ spec.normalised_cell cell.now) }
{
    let cell = cell.trim_document_whitespace();
    let bytes = cell.as_bytes();
    let mut from = 0;
    for i in 0..bytes.len() {
        if let Some(instead) = replacement(bytes[i]) {
            text.push_str(&cell[from..i])?;
            text.push_str(instead)?;
            from = i + 1;
        }
    }
    text.push_str(&cell[from..])?;
    Ok(())
}

/// What a cell has in place of the byte, if that is not the byte itself.
fn replacement(byte: u8) -> Option<&'static str>
    ensures { MatchOption result (spec.in_cell byte ≡ bytes.itself byte)
        (λ instead. bytes.IsReplaced byte instead.now) }
{
    match byte {
        b'\n' => Some(" "),
        b'\r' => Some(""),
        b'|' => Some("&#124;"),
        _ => None,
    }
}

/// How many characters the cell takes, as far as a `usize` goes.
fn cell_width(cell: &str) -> usize
    ensures { result ≡ min (spec.cell_width cell.now) usize.MAX }
{
    let cell = cell.trim_document_whitespace();
    let mut width: usize = 0;
    for b in cell.as_bytes() {
        width = width.saturating_add(byte_width(*b));
    }
    width
}

/// How many characters begin in what stands for the byte.
fn byte_width(byte: u8) -> usize
    ensures { result ≡ bytes.byte_width byte }
{
    match byte {
        b'\r' | 0x80..=0xBF => 0,
        b'|' => 6,
        _ => 1,
    }
}

/// How many characters a line of these widths has, with its line feed, as far as a `usize` goes.
fn line_room(widths: &[usize]) -> usize {
    let mut room: usize = 2;
    for width in widths {
        room = room.saturating_add(*width).saturating_add(3);
    }
    room
}

/// How many bytes of the cells don't begin a character, as far as a `usize` goes.
fn further_bytes(cells: &[String]) -> usize {
    let mut count: usize = 0;
    for cell in cells {
        count = count.saturating_add(continuation_count(cell.as_bytes()));
    }
    count
}

/// How many bytes don't begin a character of UTF-8.
fn continuation_count(bytes: &[u8]) -> usize {
    bytes.iter().filter(|b| matches!(**b, 0x80..=0xBF)).count()
}
