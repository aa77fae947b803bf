//! The rows of a table, and its parts.
ghost use Rattle.std.specs.Prelude.{◌≡◌, IfOk, OnOk, drop, length, map, sum as sum_of, take};
ghost use Rattle.std.specs.Vec.Iter.{into_iter_items};
ghost use Rattle.htmd_commonmark.specs.BlockViews.{cells_of, rows_of};
ghost use Rattle.htmd_commonmark.specs.TableLines.{line_width};
ghost use Rattle.htmd_document.specs.Documents as value;
ghost use Rattle.htmd_document.specs.DocumentViews.{block_of};
ghost use Rattle.htmd_chunks.specs.RowViews as views;
ghost use Rattle.htmd_chunks.specs.Rows as spec;

use crate::bounds::Bounds;
use crate::copies::copied_cells;
use crate::numbers::{product, sum};
use crate::size::{Margin, Size};
use htmd_commonmark::{DocumentOptions, cell_text, width_of};
use htmd_document::{Alignment, Block, CellContent, RowContent};
use std::alloc::{AllocError, Global};
use std::vec::IntoIter;

/// The longest line that is padded.
const LONGEST_PADDED: usize = 100;

/// The fewest dashes under a column.
const NARROWEST: usize = 3;

/// Two spaces and a bar.
const BESIDE_CELL: usize = 3;

/// What a row has in the columns of its table: how wide its cells are, and how many bytes they have together.
#[derive(Drop)]
struct RowSize {
    widths: Vec<usize>,
    bytes: usize,
}

/// What a header and rows have together: how wide the columns are, how many lines there are, and in these how many
/// cells, how wide they are and how many bytes they have together.
#[derive(Drop)]
struct RowRun {
    columns: Vec<usize>,
    lines: usize,
    cells: usize,
    width: usize,
    bytes: usize,
}

/// Measures the first cells of a row.
fn row_size(
    alloc: Global,
    options: &DocumentOptions,
    cells: &[CellContent],
    columns: usize,
) -> Result<RowSize, AllocError>
    ensures { IfOk result (λ size. views.size_of size
        ≡ views.measured (take columns (spec.cell_texts options.now (cells_of cells.now)))) }
{
    let count = cells.len().min(columns);
    let mut widths = Vec::with_capacity(alloc, count)?;
    let mut bytes: usize = 0;
    for cell in &cells[..count] {
        let text = cell_text(alloc, cell, options)?;
        widths.push(width_of(&text))?;
        bytes = sum(bytes, text.len())?;
    }
    Ok(RowSize { widths, bytes })
}

/// The sum of these widths.
fn total(widths: &[usize]) -> Result<usize, AllocError>
    ensures { IfOk result (λ total. total ≡ sum_of widths.now) }
{
    let mut total: usize = 0;
    for width in widths {
        total = sum(total, *width)?;
    }
    Ok(total)
}

/// The bytes of a padded line of columns that are so wide.
fn line_bytes(columns: &[usize]) -> Result<usize, AllocError>
    ensures { IfOk result (λ bytes. bytes ≡ line_width columns.now) }
{
    let mut bytes: usize = 1;
    for column in columns {
        bytes = sum(bytes, sum(*column, BESIDE_CELL)?)?;
    }
    Ok(bytes)
}

impl RowRun {
    /// A header alone.
    fn of_header(alloc: Global, header: &RowSize) -> Result<RowRun, AllocError>
        ensures { IfOk result (λ run. views.run_of run ≡ views.header_run (views.size_of header.now)) }
    {
        let mut columns = Vec::with_capacity(alloc, header.widths.len())?;
        for width in &header.widths {
            columns.push(NARROWEST.max(*width))?;
        }
        Ok(RowRun {
            columns,
            lines: 1,
            cells: header.widths.len(),
            width: total(&header.widths)?,
            bytes: header.bytes,
        })
    }

    /// With one more row.
    fn with_row(&self, alloc: Global, row: &RowSize) -> Result<RowRun, AllocError>
        ensures { IfOk result (λ run. views.run_of run
            ≡ views.with_row (views.run_of self.now) (views.size_of row.now)) }
    {
        Ok(RowRun {
            columns: widened(alloc, &self.columns, &row.widths)?,
            lines: sum(self.lines, 1)?,
            cells: sum(self.cells, row.widths.len())?,
            width: sum(self.width, total(&row.widths)?)?,
            bytes: sum(self.bytes, row.bytes)?,
        })
    }

    /// The bytes of a table of these rows with so many columns aligned, after a margin.
    fn cost(&self, margin: Margin, aligned: usize) -> Result<usize, AllocError>
        ensures { IfOk result (λ bytes. bytes ≡ views.run_cost margin aligned (views.run_of self.now)) }
    {
        let line = line_bytes(&self.columns)?;
        let lines = if line <= LONGEST_PADDED {
            self.padded_bytes(line, aligned)?
        } else {
            self.plain_bytes(aligned)?
        };
        margin.cost(Size {
            bytes: sum(lines, self.lines)?,
            full: sum(self.lines, 1)?,
            empty: 0,
        })
    }

    /// The bytes without line feeds, where lines are padded to this length.
    fn padded_bytes(&self, line: usize, aligned: usize) -> Result<usize, AllocError>
        ensures { IfOk result
            (λ bytes. bytes ≡ views.padded_bytes line aligned (views.run_of self.now)) }
    {
        let dashed = aligned.min(self.columns.len());
        let lines = sum(product(self.lines, line)?, self.bytes)?;
        sum(
            lines.saturating_sub(self.width),
            line_bytes(&self.columns[..dashed])?,
        )
    }

    /// The same where lines aren't padded.
    fn plain_bytes(&self, aligned: usize) -> Result<usize, AllocError>
        ensures { IfOk result (λ bytes. bytes ≡ views.plain_bytes aligned (views.run_of self.now)) }
    {
        let dashed = aligned.min(self.columns.len());
        let bars = sum(product(BESIDE_CELL, self.cells)?, self.lines)?;
        let dashes = sum(product(dashed, NARROWEST + BESIDE_CELL)?, 1)?;
        sum(sum(self.bytes, bars)?, dashes)
    }
}

/// These columns, as wide as the cells of one more row.
fn widened(alloc: Global, columns: &[usize], widths: &[usize]) -> Result<Vec<usize>, AllocError>
    ensures { IfOk result (λ wide. wide.items ≡ views.widened columns.now widths.now) }
{
    let mut wide = Vec::with_capacity(alloc, columns.len())?;
    for (i, column) in columns.iter().enumerate() {
        wide.push(if i < widths.len() {
            (*column).max(widths[i])
        } else {
            *column
        })?;
    }
    Ok(wide)
}

/// How many rows each part has.
fn row_counts(
    alloc: Global,
    bounds: &Bounds,
    margin: Margin,
    first: usize,
    alignments: &[Alignment],
    header: &[CellContent],
    rows: &[RowContent],
) -> Result<Vec<usize>, AllocError>
    ensures { IfOk result (λ counts. counts.items ≡ map length
        (spec.table_parts bounds.now margin first alignments.now (cells_of header.now) (rows_of rows.now))) }
{
    let columns = header.len();
    let header = row_size(alloc, &bounds.options, header, columns)?;
    let none = RowRun::of_header(alloc, &header)?;
    let mut counts = Vec::new(alloc);
    let mut run = RowRun::of_header(alloc, &header)?;
    let mut count: usize = 0;
    let mut free = first;
    for row in rows {
        let row = row_size(alloc, &bounds.options, row, columns)?;
        let longer = run.with_row(alloc, &row)?;
        if count == 0 || longer.cost(margin, alignments.len())? <= free {
            run = longer;
            count = sum(count, 1)?;
        } else {
            counts.push(count)?;
            run = none.with_row(alloc, &row)?;
            count = 1;
            free = bounds.most;
        }
    }
    counts.push(count)?;
    Ok(counts)
}

/// So many of the next rows.
fn next_rows(
    alloc: Global,
    rows: &mut IntoIter<RowContent, Global>,
    count: usize,
) -> Result<Vec<RowContent>, AllocError>
    ensures part { IfOk result (λ part. part.items ≡ take count (into_iter_items rows.old)) }
    ensures rows { OnOk result (into_iter_items rows.new ≡ drop count (into_iter_items rows.old)) }
{
    let mut part = Vec::with_capacity(alloc, count)?;
    for _i in 0..count {
        if let Some(row) = rows.next() {
            part.push(row)?;
        }
    }
    Ok(part)
}

/// The parts of a table, of which the first may have so many bytes. `Err` means out of memory.
pub(crate) fn table_parts(
    alloc: Global,
    bounds: &Bounds,
    margin: Margin,
    first: usize,
    alignments: Vec<Alignment>,
    header: Vec<CellContent>,
    rows: Vec<RowContent>,
) -> Result<Vec<Block>, AllocError>
    ensures { IfOk result (λ parts. map block_of parts.items
        ≡ map (value.table alignments.items (cells_of header.items))
        (spec.table_parts bounds.now margin first alignments.items (cells_of header.items)
        (rows_of rows.items))) }
{
    let counts = row_counts(alloc, bounds, margin, first, &alignments, &header, &rows)?;
    let mut parts = Vec::with_capacity(alloc, counts.len())?;
    let mut rows = rows.into_iter();
    for count in &counts {
        parts.push(Block::Table {
            alignments: Vec::from_slice(alloc, &alignments)?,
            header: copied_cells(alloc, &header)?,
            rows: next_rows(alloc, &mut rows, *count)?,
        })?;
    }
    Ok(parts)
}

/// The bytes of the least part of a table. `Err` means out of memory.
pub(crate) fn least_rows(
    alloc: Global,
    bounds: &Bounds,
    margin: Margin,
    alignments: &[Alignment],
    header: &[CellContent],
    rows: &[RowContent],
) -> Result<usize, AllocError>
    ensures { IfOk result (λ bytes. bytes ≡ spec.least_rows bounds.now margin alignments.now
        (cells_of header.now) (rows_of rows.now)) }
{
    let columns = header.len();
    let none = RowRun::of_header(alloc, &row_size(alloc, &bounds.options, header, columns)?)?;
    match rows.first() {
        Some(row) => {
            let row = row_size(alloc, &bounds.options, row, columns)?;
            none.with_row(alloc, &row)?.cost(margin, alignments.len())
        }
        None => none.cost(margin, alignments.len()),
    }
}
