//! Tables (GitHub Flavored Markdown 0.29, 4.10).

ghost use Rattle.std.specs.Prelude.{◌≡◌, ◌++◌, [], IfOk, OnOk, drop, length, map, min, replicate, codes};
ghost use Rattle.std.specs.Prelude.{string_bytes, false, true};
ghost use Rattle.htmd_markdown.specs.Tables as tables;
ghost use Rattle.htmd_commonmark.specs.BlockMarkdown.{written_cells, written_rows};
ghost use Rattle.htmd_commonmark.specs.BlockViews.{cells_of, rows_of};
ghost use Rattle.htmd_commonmark.specs.TableLines as spec;
ghost use Rattle.htmd_commonmark.specs.WrittenText.{written_of};

use crate::columns::width_of;
use crate::inlines::InlineWriter;
use crate::line::Line;
use htmd_document::{Alignment, CellContent, RowContent};
use htmd_text::push_repeated;
use std::alloc::{AllocError, Global};

/// The longest line that is padded.
const LONGEST_PADDED: usize = 100;

/// With fewer dashes, not every reader sees a separator.
const NARROWEST: usize = 3;

/// A table whose cells are written.
#[derive(Drop)]
pub(crate) struct TableTexts {
    pub(crate) header: Vec<String>,
    pub(crate) rows: Vec<Vec<String>>,
}

impl TableTexts {
    /// Writes the cells, the header first.
    ///
    /// `Err` means out of memory.
    pub(crate) fn of(
        alloc: Global,
        inlines: &mut InlineWriter,
        header: &[CellContent],
        rows: &[RowContent],
        line: Line,
    ) -> Result<TableTexts, AllocError>
        ensures header { let top = written_cells line (written_of inlines.old).definitions (cells_of header.now) in
            IfOk result (λ t. tables.texts t.header.items ≡ top.cells) }
        ensures rows { let top = written_cells line (written_of inlines.old).definitions (cells_of header.now) in
            IfOk result (λ t. map tables.row_texts t.rows.items
            ≡ (written_rows line top.definitions (rows_of rows.now)).rows) }
        ensures definitions { let top = written_cells line (written_of inlines.old).definitions (cells_of header.now) in
            OnOk result ((written_of inlines.new).definitions
            ≡ (written_rows line top.definitions (rows_of rows.now)).definitions) }
    {
        let header = cell_texts(alloc, inlines, header, line)?;
        let mut texts = Vec::with_capacity(alloc, rows.len())?;
        for row in rows {
            texts.push(cell_texts(alloc, inlines, row, line)?)?;
        }
        Ok(TableTexts {
            header,
            rows: texts,
        })
    }

    /// Appends the lines of the table.
    ///
    /// `Err` means out of memory.
    pub(crate) fn push(
        &self,
        alloc: Global,
        out: &mut String,
        alignments: &[Alignment],
    ) -> Result<(), AllocError>
        ensures { OnOk result (string_bytes out.new ≡ string_bytes out.old
            ++ spec.table_text alignments.now (tables.texts self.now.header.items)
            (map tables.row_texts self.now.rows.items)) }
    {
        let mut widths = self.widths(alloc)?;
        if line_width(&widths) <= LONGEST_PADDED {
            push_row(out, &self.header, &widths)?;
            push_delimiters(out, alignments, &widths)?;
            return push_padded_rows(out, &self.rows, &widths);
        }
        set_all(&mut widths, 0);
        push_row(out, &self.header, &widths)?;
        set_all(&mut widths, NARROWEST);
        push_delimiters(out, alignments, &widths)?;
        set_all(&mut widths, 0);
        push_rows(out, &self.rows, &widths)
    }

    /// How wide each column is.
    fn widths(&self, alloc: Global) -> Result<Vec<usize>, AllocError>
        ensures { IfOk result (λ widths. widths.items ≡ spec.column_widths
            (tables.texts self.now.header.items) (map tables.row_texts self.now.rows.items)) }
    {
        let mut widths = Vec::with_capacity(alloc, self.header.len())?;
        for cell in &self.header {
            widths.push(NARROWEST.max(width_of(cell)))?;
        }
        for row in &self.rows {
            widen(&mut widths, row);
        }
        Ok(widths)
    }
}

/// Writes the cells of a row, each bar after a backslash.
fn cell_texts(
    alloc: Global,
    inlines: &mut InlineWriter,
    cells: &[CellContent],
    line: Line,
) -> Result<Vec<String>, AllocError>
    ensures cells { let w = written_cells line (written_of inlines.old).definitions (cells_of cells.now) in
        IfOk result (λ texts. tables.texts texts.items ≡ w.cells) }
    ensures definitions { let w = written_cells line (written_of inlines.old).definitions (cells_of cells.now) in
        OnOk result ((written_of inlines.new).definitions ≡ w.definitions) }
{
    let mut texts = Vec::with_capacity(alloc, cells.len())?;
    for cell in cells {
        inlines.write_line(cell, line)?;
        texts.push(with_escaped_bars(alloc, &inlines.text)?)?;
    }
    Ok(texts)
}

/// The text with a backslash before each bar.
pub(crate) fn with_escaped_bars(alloc: Global, text: &str) -> Result<String, AllocError>
    ensures { IfOk result (λ s. string_bytes s ≡ spec.with_escaped_bars text.now) }
{
    let mut escaped = String::with_capacity(alloc, text.len())?;
    let mut is_first = true;
    for part in text.split('|') {
        if !is_first {
            escaped.push_str("\\|")?;
        }
        escaped.push_str(part)?;
        is_first = false;
    }
    Ok(escaped)
}

/// Makes the columns wide enough for the cells of one more row.
fn widen(widths: &mut [usize], cells: &[String])
    ensures { widths.new ≡ spec.widened widths.old (tables.texts cells.now) }
{
    for (i, cell) in cells.iter().enumerate() {
        if i < widths.len() {
            widths[i] = widths[i].max(width_of(cell));
        }
    }
}

/// How many characters a line of these widths has, as far as a `usize` goes.
fn line_width(widths: &[usize]) -> usize
    ensures { result ≡ min (spec.line_width widths.now) usize.MAX }
{
    let mut len: usize = 1;
    for width in widths {
        len = len.saturating_add(*width).saturating_add(3);
    }
    len
}

fn set_all(widths: &mut [usize], width: usize)
    ensures { widths.new ≡ replicate (length widths.old) width }
{
    for i in 0..widths.len() {
        widths[i] = width;
    }
}

/// Appends the lines of the rows, each after a line feed.
fn push_rows(out: &mut String, rows: &[Vec<String>], widths: &[usize]) -> Result<(), AllocError>
    ensures { OnOk result (string_bytes out.new ≡ string_bytes out.old
        ++ spec.rows_text false widths.now (map tables.row_texts rows.now)) }
{
    for row in rows {
        out.push('\n')?;
        push_row(out, row, widths)?;
    }
    Ok(())
}

/// The same with an empty cell for each one that a row lacks.
fn push_padded_rows(
    out: &mut String,
    rows: &[Vec<String>],
    widths: &[usize],
) -> Result<(), AllocError>
    ensures { OnOk result (string_bytes out.new ≡ string_bytes out.old
        ++ spec.rows_text true widths.now (map tables.row_texts rows.now)) }
{
    for row in rows {
        out.push('\n')?;
        push_padded_row(out, row, widths)?;
    }
    Ok(())
}

/// Appends the line of a row, filled up.
fn push_padded_row(out: &mut String, cells: &[String], widths: &[usize]) -> Result<(), AllocError>
    ensures { OnOk result (string_bytes out.new ≡ string_bytes out.old
        ++ spec.line (spec.shown_cells true (length widths.now) (tables.texts cells.now)) widths.now) }
{
    push_row(out, cells, widths)?;
    push_empty_cells(out, widths, cells.len())
}

/// Appends the line of a row.
fn push_row(out: &mut String, cells: &[String], widths: &[usize]) -> Result<(), AllocError>
    ensures { OnOk result (string_bytes out.new
        ≡ string_bytes out.old ++ spec.line (tables.texts cells.now) widths.now) }
{
    out.push('|')?;
    for (cell, width) in cells.iter().zip(widths) {
        out.push(' ')?;
        out.push_str(cell)?;
        push_repeated(out, ' ', width.saturating_sub(width_of(cell)))?;
        out.push_str(" |")?;
    }
    Ok(())
}

/// Appends an empty cell for each column from this one on.
fn push_empty_cells(out: &mut String, widths: &[usize], from: usize) -> Result<(), AllocError>
    ensures { OnOk result (string_bytes out.new ≡ string_bytes out.old
        ++ spec.barred_cells (drop from (replicate (length widths.now) [])) (drop from widths.now)) }
{
    for i in from..widths.len() {
        out.push(' ')?;
        push_repeated(out, ' ', widths[i])?;
        out.push_str(" |")?;
    }
    Ok(())
}

/// Appends a line feed and the line between the header and the rows.
fn push_delimiters(
    out: &mut String,
    alignments: &[Alignment],
    widths: &[usize],
) -> Result<(), AllocError>
    ensures { OnOk result (string_bytes out.new
        ≡ string_bytes out.old ++ (codes "\n|" ++ spec.delimiters alignments.now widths.now)) }
{
    out.push_str("\n|")?;
    for (alignment, width) in alignments.iter().zip(widths) {
        out.push(' ')?;
        push_delimiter(out, *alignment, *width)?;
        out.push_str(" |")?;
    }
    Ok(())
}

/// Appends the dashes of a column, with a colon at each side to which it is aligned.
fn push_delimiter(out: &mut String, alignment: Alignment, width: usize) -> Result<(), AllocError>
    ensures { OnOk result
        (string_bytes out.new ≡ string_bytes out.old ++ spec.dashes alignment width) }
{
    out.push(if is_aligned_left(alignment) { ':' } else { '-' })?;
    push_repeated(out, '-', width.saturating_sub(2))?;
    out.push(if is_aligned_right(alignment) {
        ':'
    } else {
        '-'
    })
}

/// Whether there is a colon at the left.
fn is_aligned_left(alignment: Alignment) -> bool
    ensures { result ≡ spec.is_left alignment }
{
    matches!(alignment, Alignment::Left | Alignment::Center)
}

/// Whether there is a colon at the right.
fn is_aligned_right(alignment: Alignment) -> bool
    ensures { result ≡ spec.is_right alignment }
{
    matches!(alignment, Alignment::Right | Alignment::Center)
}
