//! The grid of a table whose cells may take more than one column and row (HTML, 4.9.12).
ghost use Rattle.std.specs.Prelude.{◌≡◌, ◌≤◌, ◌<◌, ◌+◌, ◌-◌, ◌++◌, ◌∷◌, [], false, true, nat_lt, nat_le, if◌then◌else◌};
ghost use Rattle.std.specs.Prelude.{IfOk, OnOk, length, map};
ghost use Rattle.std.specs.Prelude.{take, drop, replicate, get_or, Some, None};
ghost use Rattle.std.specs.List.{list_all, prefix_len};
ghost use Rattle.std.specs.Option.{option_map};
ghost use Rattle.std.specs.Vec.Iter.{into_iter_items};
ghost use Rattle.htmd_document.specs.DocumentViews.{inlines_of, block_of};
ghost use Rattle.htmd_flow.specs.GridViews.{cell_of, row_of, filled_row, line_of, lines_of};
ghost use Rattle.htmd_flow.specs.Grids as spec;

use crate::table_form::TablePart;
use htmd_document::{Alignment, Block, CellContent, Inline, RowContent};
use htmd_nodes::NodeId;
use std::alloc::{AllocError, Global};
use std::vec::IntoIter;

/// A cell.
#[derive(Drop)]
pub(crate) struct Cell {
    pub(crate) content: CellContent,
    /// How many columns it takes.
    pub(crate) columns: u8,
    /// How many rows it takes; 0 stands for all further ones of its group.
    pub(crate) rows: u16,
    pub(crate) is_header: bool,
    pub(crate) alignment: Alignment,
}

/// A row.
#[derive(Drop)]
pub(crate) struct Row {
    /// The part of the table that it is in.
    pub(crate) part: Option<NodeId>,
    pub(crate) is_in_head: bool,
    pub(crate) cells: Vec<Cell>,
}

/// Adds a row of these cells, if there are some.
pub(crate) fn push_filled(
    rows: &mut Vec<Row>,
    part: TablePart,
    cells: Vec<Cell>,
) -> Result<(), AllocError>
    ensures { OnOk result (map row_of rows.new.items
        ≡ map row_of rows.old.items ++ filled_row part (map cell_of cells.items)) }
{
    if cells.is_empty() {
        return Ok(());
    }
    rows.push(Row {
        part: part.id,
        is_in_head: part.is_head,
        cells,
    })?;
    Ok(())
}

/// For each column of a row, whether a cell begins there.
type RowShape = Vec<bool>;

/// A group has no more rows than this.
const MOST_ROWS: usize = 1 << 30;

/// How many of these columns, which are taken up to a row each, are taken in a row.
fn taken_len(taken: &[usize], row: usize) -> usize
    ensures bound { result ≤ length taken.now }
    ensures value { result ≡ prefix_len (nat_lt row) taken.now }
{
    for (len, until) in taken.iter().enumerate() {
        if *until <= row {
            return len;
        }
    }
    taken.len()
}

/// How many of these columns, which are taken up to a row each, are free in a row.
fn free_len(taken: &[usize], row: usize) -> usize
    ensures bound { result ≤ length taken.now }
    ensures value { result ≡ prefix_len (λ until. nat_le until row) taken.now }
{
    for (len, until) in taken.iter().enumerate() {
        if *until > row {
            return len;
        }
    }
    taken.len()
}

/// How many columns a cell takes before the next one that is taken. A cell looks at no more columns than it takes.
fn columns_before(free: &[usize], row: usize, columns: u8) -> usize
    ensures value { result ≡ spec.columns_before free.now row columns }
    ensures bound { result < 256 }
{
    let columns = columns as usize;
    let near = &free[..free.len().min(columns)];
    let len = free_len(near, row);
    if len == near.len() { columns } else { len }
}

/// Appends columns in which no cell begins.
fn push_no_cells(begins: &mut Vec<bool>, count: usize) -> Result<(), AllocError>
    ensures { OnOk result (begins.new.items ≡ begins.old.items ++ replicate count false) }
{
    for _column in 0..count {
        begins.push(false)?;
    }
    Ok(())
}

/// Up to which row a cell of a row takes its columns.
fn end_of(row: usize, rows: u16) -> usize
    requires { row < 9223372036854775808 }
    ensures { result ≡ spec.end_of row rows }
{
    if rows == 0 {
        row + MOST_ROWS
    } else {
        row + rows as usize
    }
}

/// Takes columns up to a row.
fn take_columns(
    taken: &mut Vec<usize>,
    from: usize,
    count: usize,
    until: usize,
) -> Result<(), AllocError>
    requires within { from ≤ length taken.old.items }
    requires bound { from + count < 18446744073709551616 }
    ensures { OnOk result (taken.new.items
        ≡ take from taken.old.items ++ (replicate count until ++ drop (from + count) taken.old.items)) }
{
    let end = from + count;
    for _column in 0..end.saturating_sub(taken.len()) {
        taken.push(until)?;
    }
    taken[from..end].fill(until);
    Ok(())
}

/// Appends the columns that a cell takes, after those that are taken already.
fn push_cell(begins: &mut Vec<bool>, kept: usize, columns: usize) -> Result<(), AllocError>
    ensures { OnOk result (begins.new.items
        ≡ begins.old.items ++ (replicate kept false ++ true ∷ replicate (columns - 1) false)) }
{
    push_no_cells(begins, kept)?;
    begins.push(true)?;
    push_no_cells(begins, columns.saturating_sub(1))
}

/// In which columns of a row its cells begin. After it columns are taken up to other rows.
fn lay(
    alloc: Global,
    taken: &mut Vec<usize>,
    row: usize,
    cells: &[Cell],
) -> Result<RowShape, AllocError>
    requires { row < 9223372036854775808 }
    ensures begins { IfOk result (λ begins. begins.items
        ≡ (spec.laid row taken.old.items (map cell_of cells.now)).begins) }
    ensures taken { OnOk result (taken.new.items ≡ (spec.laid row taken.old.items (map cell_of cells.now)).taken) }
{
    let mut begins = Vec::with_capacity(alloc, cells.len())?;
    let mut column = 0;
    for cell in cells {
        let kept = taken_len(&taken[column..], row);
        let from = column + kept;
        let columns = columns_before(&taken[from..], row, cell.columns);
        take_columns(taken, from, columns, end_of(row, cell.rows))?;
        push_cell(&mut begins, kept, columns)?;
        column = from + columns;
    }
    let kept = taken_len(&taken[column..], row);
    push_no_cells(&mut begins, kept)?;
    Ok(begins)
}

/// No more cells are counted.
const MOST_COUNTED: usize = 1 << 56;

/// How many cells the rows have.
fn count_cells(rows: &[Row]) -> usize
    ensures value { result ≡ spec.count_of (map row_of rows.now) }
    ensures bound { result ≤ spec.most_counted }
{
    let mut count = 0;
    for row in rows {
        count = (count + row.cells.len()).min(MOST_COUNTED);
    }
    count
}

/// Nothing is taken where a group of rows begins.
fn free_at_group(taken: &mut Vec<usize>, part: Option<NodeId>, next: Option<NodeId>)
    ensures { taken.new.items ≡ spec.taken_in part next taken.old.items }
{
    if part != next {
        taken.clear();
    }
}

/// In which columns the cells of each row begin; `None` where there would be more columns than this in all.
fn shapes(alloc: Global, rows: &[Row], most: usize) -> Result<Option<Vec<RowShape>>, AllocError>
    requires { most < 9223372036854775808 }
    ensures { IfOk result (λ shapes. option_map (λ v. map (λ b. b.items) v.items) shapes
        ≡ (if nat_lt most (spec.total (spec.shapes_of (map row_of rows.now))) then None
        else Some (spec.shapes_of (map row_of rows.now)))) }
{
    let mut shapes = Vec::with_capacity(alloc, rows.len())?;
    let mut taken = Vec::new(alloc);
    let mut part = None;
    let mut count = 0;
    for row in rows {
        free_at_group(&mut taken, part, row.part);
        part = row.part;
        let begins = lay(alloc, &mut taken, shapes.len(), row.cells.as_slice())?;
        count += begins.len();
        if count > most {
            return Ok(None);
        }
        shapes.push(begins)?;
    }
    Ok(Some(shapes))
}

/// The contents of the cells, each where one begins.
fn filled(alloc: Global, begins: &[bool], cells: Vec<Cell>) -> Result<RowContent, AllocError>
    ensures { IfOk result (λ line. line_of line.items ≡ spec.filled begins.now (map cell_of cells.items)) }
{
    let mut line = Vec::with_capacity(alloc, begins.len())?;
    let mut cells = cells.into_iter();
    for is_cell in begins {
        if !*is_cell {
            line.push(Vec::new(alloc))?;
            continue;
        }
        match cells.next() {
            Some(cell) => line.push(cell.content)?,
            None => line.push(Vec::new(alloc))?,
        }
    }
    Ok(line)
}

/// The contents of the cells of a row.
fn contents(alloc: Global, cells: Vec<Cell>) -> Result<RowContent, AllocError>
    ensures { IfOk result (λ line. line_of line.items
        ≡ map (λ (c : spec.Cell). c.content) (map cell_of cells.items)) }
{
    let mut line = Vec::with_capacity(alloc, cells.len())?;
    for cell in cells {
        line.push(cell.content)?;
    }
    Ok(line)
}

/// The contents of all rows, by their shapes.
fn filled_all(
    alloc: Global,
    shapes: Vec<RowShape>,
    rows: Vec<Row>,
) -> Result<Vec<RowContent>, AllocError>
    ensures { IfOk result (λ lines. lines_of lines.items
        ≡ spec.filled_all (map (λ b. b.items) shapes.items) (map row_of rows.items)) }
{
    let mut lines = Vec::with_capacity(alloc, rows.len())?;
    for (row, begins) in rows.into_iter().zip(shapes) {
        lines.push(filled(alloc, begins.as_slice(), row.cells)?)?;
    }
    Ok(lines)
}

/// The contents of all rows, each cell in one column.
fn contents_of_all(alloc: Global, rows: Vec<Row>) -> Result<Vec<RowContent>, AllocError>
    ensures { IfOk result (λ lines. lines_of lines.items ≡ map spec.contents_of (map row_of rows.items)) }
{
    let mut lines = Vec::with_capacity(alloc, rows.len())?;
    for row in rows {
        lines.push(contents(alloc, row.cells)?)?;
    }
    Ok(lines)
}

/// The cells of each row by columns, with an empty one in each that a cell takes beside it or below it. A table that
/// would have more than 8 times its cells, and 64 more, is written without spans.
fn grid(alloc: Global, rows: Vec<Row>) -> Result<Vec<RowContent>, AllocError>
    ensures { IfOk result (λ lines. lines_of lines.items ≡ spec.grid (map row_of rows.items)) }
{
    let most = 8 * count_cells(rows.as_slice()) + 64;
    match shapes(alloc, rows.as_slice(), most)? {
        Some(shapes) => filled_all(alloc, shapes, rows),
        None => contents_of_all(alloc, rows),
    }
}

// ---- the table

/// Whether nothing shows in a cell.
#[tactic(auto, using(crate::proofs::GridsLemmas::empty_is))]
fn is_empty(content: &[Inline]) -> bool
    ensures { result ≡ spec.is_empty_cell (inlines_of content.now) }
{
    content.is_empty()
}

/// How many columns the longest row has.
fn width(lines: &[RowContent]) -> usize
    ensures { result ≡ spec.width (lines_of lines.now) }
{
    let mut width = 0;
    for cells in lines {
        width = width.max(cells.len());
    }
    width
}

/// Adds empty cells up to this many columns.
fn pad(alloc: Global, cells: &mut RowContent, columns: usize) -> Result<(), AllocError>
    ensures { OnOk result (line_of cells.new.items ≡ spec.padded columns (line_of cells.old.items)) }
{
    let missing = columns.saturating_sub(cells.len());
    cells.reserve(missing)?;
    for _column in 0..missing {
        cells.push(Vec::new(alloc))?;
    }
    Ok(())
}

/// Cuts or fills up to this many columns.
fn align(alignments: &mut Vec<Alignment>, columns: usize) -> Result<(), AllocError>
    ensures { OnOk result (alignments.new.items ≡ spec.aligned columns alignments.old.items) }
{
    alignments.truncate(columns);
    for _column in 0..columns.saturating_sub(alignments.len()) {
        alignments.push(Alignment::None)?;
    }
    Ok(())
}

/// How many cells come before the empty ones at the end.
fn filled_len(cells: &[CellContent]) -> usize
    ensures bound { result ≤ length cells.now }
    ensures value { take result (line_of cells.now) ≡ spec.trimmed_row (line_of cells.now) }
{
    let mut len = 0;
    for (i, cell) in cells.iter().enumerate() {
        if is_empty(cell.as_slice()) {
            continue;
        }
        len = i + 1;
    }
    len
}

/// Takes the empty cells at the end of a row away.
fn trim(cells: &mut RowContent)
    ensures { line_of cells.new.items ≡ spec.trimmed_row (line_of cells.old.items) }
{
    let len = filled_len(cells.as_slice());
    cells.truncate(len);
}

/// The same of all rows.
fn trim_all(lines: &mut [RowContent])
    ensures { lines_of lines.new ≡ map spec.trimmed_row (lines_of lines.old) }
{
    for cells in lines.iter_mut() {
        trim(cells);
    }
}

/// The rows below the header, without those in which nothing shows.
fn body(alloc: Global, lines: IntoIter<RowContent, Global>) -> Result<Vec<RowContent>, AllocError>
    ensures { IfOk result (λ rows. lines_of rows.items ≡ spec.body (lines_of (into_iter_items lines))) }
{
    let mut rows = Vec::new(alloc);
    for cells in lines {
        if !cells.is_empty() {
            rows.push(cells)?;
        }
    }
    Ok(rows)
}

/// Takes off the first row where it is a header; else the header is empty.
fn take_header(
    alloc: Global,
    has_header: bool,
    lines: &mut IntoIter<RowContent, Global>,
) -> RowContent
    ensures header { line_of result.items
        ≡ (if has_header then get_or (lines_of (into_iter_items lines.old)) 0 [] else []) }
    ensures lines { into_iter_items lines.new
        ≡ (if has_header then drop 1 (into_iter_items lines.old) else into_iter_items lines.old) }
{
    if has_header {
        if let Some(cells) = lines.next() {
            return cells;
        }
    }
    Vec::new(alloc)
}

/// The table of these rows, whose first one is its header or not; none where nothing shows in it.
pub(crate) fn table(
    alloc: Global,
    mut lines: Vec<RowContent>,
    mut alignments: Vec<Alignment>,
    has_header: bool,
) -> Result<Option<Block>, AllocError>
    ensures { IfOk result (λ block. option_map block_of block
        ≡ spec.table_of_all alignments.items has_header (lines_of lines.items)) }
{
    trim_all(&mut lines);
    let columns = width(lines.as_slice());
    if columns == 0 {
        return Ok(None);
    }
    align(&mut alignments, columns)?;
    let mut lines = lines.into_iter();
    let mut header = take_header(alloc, has_header, &mut lines);
    pad(alloc, &mut header, columns)?;
    let rows = body(alloc, lines)?;
    Ok(Some(Block::Table {
        alignments,
        header,
        rows,
    }))
}

/// Whether all these cells are headers.
fn are_headers(cells: &[Cell]) -> bool
    ensures { result ≡ list_all (λ (c : spec.Cell). c.is_header) (map cell_of cells.now) }
{
    cells.iter().all(|cell| cell.is_header)
}

/// Whether the first row is the header of its table.
fn begins_with_header(first: &Row) -> bool
    ensures { result ≡ spec.begins_with_header (row_of first.now) }
{
    first.is_in_head || are_headers(first.cells.as_slice())
}

/// Adds the alignment of so many columns.
fn push_alignments(
    alignments: &mut Vec<Alignment>,
    alignment: Alignment,
    columns: u8,
) -> Result<(), AllocError>
    ensures { OnOk result (alignments.new.items ≡ alignments.old.items ++ replicate columns alignment) }
{
    for _column in 0..columns {
        alignments.push(alignment)?;
    }
    Ok(())
}

/// How the cells of the first row say that the columns are aligned.
fn alignments_of(alloc: Global, first: &Row) -> Result<Vec<Alignment>, AllocError>
    ensures { IfOk result (λ alignments. alignments.items ≡ spec.alignments_of (row_of first.now)) }
{
    let mut alignments = Vec::with_capacity(alloc, first.cells.len())?;
    for cell in &first.cells {
        push_alignments(&mut alignments, cell.alignment, cell.columns)?;
    }
    Ok(alignments)
}

/// The table of these rows; none where nothing shows in it.
pub(crate) fn table_of_rows(alloc: Global, rows: Vec<Row>) -> Result<Option<Block>, AllocError>
    ensures { IfOk result (λ block. option_map block_of block ≡ spec.table_of_rows (map row_of rows.items)) }
{
    let Some(first) = rows.first() else {
        return Ok(None);
    };
    let has_header = begins_with_header(first);
    let alignments = alignments_of(alloc, first)?;
    let lines = grid(alloc, rows)?;
    table(alloc, lines, alignments, has_header)
}
