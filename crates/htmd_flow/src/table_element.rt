//! Tables of rich documents: their cells hold blocks.
ghost use Rattle.std.specs.Prelude.{◌≡◌, ◌++◌, ◌<◌, IfOk, OnOk, map};
ghost use Rattle.std.specs.List.{list_all, list_any};
ghost use Rattle.std.specs.Option.{option_copied, option_map};
ghost use Rattle.htmd_document.specs.DocumentViews.{attribute_of, block_of, inlines_of};
ghost use Rattle.htmd_flow.specs.ElementViews as views;
ghost use Rattle.htmd_flow.specs.Flows as flow;
ghost use Rattle.htmd_flow.specs.GridViews.{line_of, lines_of};
ghost use Rattle.htmd_flow.specs.ParagraphViews.{writing_in};
ghost use Rattle.htmd_flow.specs.Paragraphs.{fed_all};
ghost use Rattle.htmd_flow.specs.TableElements as spec;

use crate::blocks::is_paragraph_at_most;
use crate::grid::table;
use crate::list::is_filled;
use crate::paragraphs::Paragraphs;
use crate::table_pieces::is_same_part;
use htmd_document::{
    Alignment, AttributeName, Block, BlockAttribute, BlockElement, Inline, RowContent,
};
use htmd_nodes::NodeId;
use std::alloc::{AllocError, Global};

/// A cell with its blocks.
#[derive(Drop)]
pub(crate) struct RichCell {
    pub(crate) is_header: bool,
    /// How many columns it takes.
    pub(crate) columns: usize,
    /// How many rows it takes; 0 stands for all further ones of its part.
    pub(crate) rows: usize,
    pub(crate) alignment: Alignment,
    pub(crate) content: Vec<Block>,
}

/// A row.
#[derive(Drop)]
pub(crate) struct RichRow {
    /// The part of the table that it is in.
    pub(crate) part: Option<NodeId>,
    pub(crate) cells: Vec<RichCell>,
}

/// A caption, or a row.
#[derive(Drop)]
pub(crate) enum RichPiece {
    Caption(Vec<Block>),
    Row(RichRow),
}

// ---- no cell takes rows past its part

/// The part of a row, and how many rows of it there are from that one on.
#[derive(Drop)]
pub struct Stretch {
    pub part: Option<NodeId>,
    pub left: usize,
}

impl Stretch {
    /// How many rows there are from a row of this part on, before rows of this stretch.
    fn rows_from(&self, part: Option<NodeId>) -> usize
        requires { self.now.left < 18446744073709551615 }
        ensures { result ≡ (spec.stretched part (views.stretch_in self.now)).left }
    {
        if self.left > 0 && is_same_part(part, self.part) {
            self.left + 1
        } else {
            1
        }
    }

    /// Goes on to the caption or row before. No table has more rows than it is long.
    fn reach(&mut self, piece: &RichPiece)
        requires { self.now.left < 18446744073709551615 }
        ensures { views.stretch_in self.new
            ≡ views.stretch_from (views.piece_of piece.now) (views.stretch_in self.old) }
    {
        if let RichPiece::Row(row) = piece {
            self.left = self.rows_from(row.part);
            self.part = row.part;
        }
    }
}

/// So many rows, and no more than are left; 0 stands for these.
fn rows_within(left: usize, rows: usize) -> usize
    ensures { result ≡ spec.rows_within left rows }
{
    if rows == 0 { left } else { rows.min(left) }
}

/// Lets no cell take more than so many rows.
fn cut_cells(left: usize, cells: &mut [RichCell])
    ensures { map views.cell_of cells.new ≡ map (spec.cut_cell left) (map views.cell_of cells.old) }
{
    for cell in cells.iter_mut() {
        cell.rows = rows_within(left, cell.rows);
    }
}

/// Lets no cell of a row take more than so many rows.
fn cut_piece(left: usize, piece: &mut RichPiece)
    ensures { views.piece_of piece.new ≡ views.cut_in left (views.piece_of piece.old) }
{
    match piece {
        RichPiece::Caption(_) => {}
        RichPiece::Row(row) => cut_cells(left, &mut row.cells),
    }
}

/// Lets no cell take rows past its part of the table.
pub(crate) fn cut_all(pieces: &mut [RichPiece])
    ensures { views.pieces_in pieces.new ≡ spec.cut_all (views.pieces_in pieces.old) }
{
    let mut stretch = Stretch {
        part: None,
        left: 0,
    };
    let mut at = pieces.len();
    while at > 0 {
        at -= 1;
        stretch.reach(&pieces[at]);
        cut_piece(stretch.left, &mut pieces[at]);
    }
}

// ---- GitHub's form

/// Whether a cell is a paragraph at most.
fn is_paragraph_cell(cell: &RichCell) -> bool
    ensures { result ≡ spec.is_paragraph_cell (views.cell_of cell.now) }
{
    is_paragraph_at_most(cell.content.as_slice())
}

/// Whether each of these cells is a paragraph at most.
fn are_paragraph_cells(cells: &[RichCell]) -> bool
    ensures { result ≡ list_all spec.is_paragraph_cell (map views.cell_of cells.now) }
{
    for cell in cells {
        if !is_paragraph_cell(cell) {
            return false;
        }
    }
    true
}

/// Whether each cell of a row is a paragraph at most.
fn holds_paragraphs(piece: &RichPiece) -> bool
    ensures { result ≡ spec.holds_paragraphs (views.piece_of piece.now) }
{
    match piece {
        RichPiece::Caption(_) => true,
        RichPiece::Row(row) => are_paragraph_cells(row.cells.as_slice()),
    }
}

/// Whether each cell of all rows is a paragraph at most.
pub(crate) fn are_paragraphs(pieces: &[RichPiece]) -> bool
    ensures { result ≡ spec.are_paragraphs (views.pieces_in pieces.now) }
{
    for piece in pieces {
        if !holds_paragraphs(piece) {
            return false;
        }
    }
    true
}

/// Whether a cell takes more than one column or row.
fn spans(cell: &RichCell) -> bool
    ensures { result ≡ spec.spans (views.cell_of cell.now) }
{
    cell.columns > 1 || cell.rows > 1
}

/// Whether a cell can be in a header.
fn is_in_header(cell: &RichCell) -> bool
    ensures { result ≡ spec.is_in_header (views.cell_of cell.now) }
{
    cell.is_header && !spans(cell)
}

/// Whether a cell can be below a header.
fn is_in_body(cell: &RichCell) -> bool
    ensures { result ≡ spec.is_in_body (views.cell_of cell.now) }
{
    !cell.is_header && !spans(cell)
}

/// Whether all these cells can be in a header.
fn are_in_header(cells: &[RichCell]) -> bool
    ensures { result ≡ list_all spec.is_in_header (map views.cell_of cells.now) }
{
    for cell in cells {
        if !is_in_header(cell) {
            return false;
        }
    }
    true
}

/// Whether all these cells can be below a header.
fn are_in_body(cells: &[RichCell]) -> bool
    ensures { result ≡ list_all spec.is_in_body (map views.cell_of cells.now) }
{
    for cell in cells {
        if !is_in_body(cell) {
            return false;
        }
    }
    true
}

/// Whether it is a row that can be below a header of so many cells.
fn fits_below(columns: usize, piece: &RichPiece) -> bool
    ensures { result ≡ spec.fits_below columns (views.piece_of piece.now) }
{
    match piece {
        RichPiece::Caption(_) => false,
        RichPiece::Row(row) => row.cells.len() <= columns && are_in_body(row.cells.as_slice()),
    }
}

/// Whether all these are rows that can be below a header of so many cells.
fn fit_below(columns: usize, pieces: &[RichPiece]) -> bool
    ensures { result ≡ list_all (spec.fits_below columns) (views.pieces_in pieces.now) }
{
    for piece in pieces {
        if !fits_below(columns, piece) {
            return false;
        }
    }
    true
}

/// Whether there are rows alone; the first one, and no other, is of header cells, none has more cells, and no cell
/// spans.
fn has_header_alone(pieces: &[RichPiece]) -> bool
    ensures { result ≡ spec.has_header_alone (views.pieces_in pieces.now) }
{
    match pieces {
        [RichPiece::Row(first), rest @ ..] => {
            are_in_header(first.cells.as_slice()) && fit_below(first.cells.len(), rest)
        }
        _ => false,
    }
}

/// The inlines of a block, if it is a paragraph.
fn inlines_of_block(alloc: Global, block: Block) -> Vec<Inline>
    ensures { inlines_of result.items ≡ views.inlines_in_block (block_of block) }
{
    match block {
        Block::Paragraph(content) => content,
        _ => Vec::new(alloc),
    }
}

/// What a cell says in one paragraph.
fn cell_line(alloc: Global, cell: RichCell) -> Vec<Inline>
    ensures { inlines_of result.items ≡ spec.cell_line (views.cell_of cell) }
{
    let mut blocks = cell.content.into_iter();
    match blocks.next() {
        Some(block) => inlines_of_block(alloc, block),
        None => Vec::new(alloc),
    }
}

/// What these cells say.
fn line(alloc: Global, cells: Vec<RichCell>) -> Result<RowContent, AllocError>
    ensures { IfOk result (λ line. line_of line.items ≡ map spec.cell_line (map views.cell_of cells.items)) }
{
    let mut line = Vec::with_capacity(alloc, cells.len())?;
    for cell in cells {
        line.push(cell_line(alloc, cell))?;
    }
    Ok(line)
}

/// What the cells of a row say.
fn line_in(alloc: Global, piece: RichPiece) -> Result<RowContent, AllocError>
    ensures { IfOk result (λ line. line_of line.items ≡ spec.line_of (views.piece_of piece)) }
{
    match piece {
        RichPiece::Caption(_) => Ok(Vec::new(alloc)),
        RichPiece::Row(row) => line(alloc, row.cells),
    }
}

/// What the cells of all rows say.
fn lines(alloc: Global, pieces: Vec<RichPiece>) -> Result<Vec<RowContent>, AllocError>
    ensures { IfOk result (λ lines. lines_of lines.items ≡ map spec.line_of (views.pieces_in pieces.items)) }
{
    let mut lines = Vec::with_capacity(alloc, pieces.len())?;
    for piece in pieces {
        lines.push(line_in(alloc, piece)?)?;
    }
    Ok(lines)
}

/// How these cells are aligned.
fn cell_alignments(alloc: Global, cells: &[RichCell]) -> Result<Vec<Alignment>, AllocError>
    ensures { IfOk result (λ alignments. alignments.items
        ≡ map spec.alignment_in (map views.cell_of cells.now)) }
{
    let mut alignments = Vec::with_capacity(alloc, cells.len())?;
    for cell in cells {
        alignments.push(cell.alignment)?;
    }
    Ok(alignments)
}

/// How the cells of the first row are aligned.
fn alignments(alloc: Global, pieces: &[RichPiece]) -> Result<Vec<Alignment>, AllocError>
    ensures { IfOk result (λ alignments. alignments.items ≡ spec.alignments_of (views.pieces_in pieces.now)) }
{
    match pieces {
        [RichPiece::Row(first), ..] => cell_alignments(alloc, first.cells.as_slice()),
        _ => Ok(Vec::new(alloc)),
    }
}

/// GitHub's table of these rows.
fn table_of_lines(alloc: Global, pieces: Vec<RichPiece>) -> Result<Option<Block>, AllocError>
    ensures { IfOk result (λ block. option_map block_of block
        ≡ spec.table_of_lines (views.pieces_in pieces.items)) }
{
    let alignments = alignments(alloc, pieces.as_slice())?;
    let lines = lines(alloc, pieces)?;
    table(alloc, lines, alignments, true)
}

// ---- elements

/// How many columns or rows a cell takes, if more than one.
fn push_span(
    alloc: Global,
    attributes: &mut Vec<BlockAttribute>,
    name: AttributeName,
    count: usize,
) -> Result<(), AllocError>
    ensures { OnOk result (map attribute_of attributes.new.items
        ≡ map attribute_of attributes.old.items ++ spec.span_attribute name count) }
{
    if count > 1 {
        let mut value = String::new(alloc);
        write!(value, "{count}")?;
        attributes.push(BlockAttribute { name, value })?;
    }
    Ok(())
}

/// The name of an alignment, if it is one.
fn alignment_name(alignment: Alignment) -> Option<&'static str>
    ensures { option_copied result ≡ spec.alignment_name alignment }
{
    match alignment {
        Alignment::None => None,
        Alignment::Left => Some("left"),
        Alignment::Center => Some("center"),
        Alignment::Right => Some("right"),
    }
}

/// How a cell is aligned.
fn push_alignment(
    alloc: Global,
    attributes: &mut Vec<BlockAttribute>,
    alignment: Alignment,
) -> Result<(), AllocError>
    ensures { OnOk result (map attribute_of attributes.new.items
        ≡ map attribute_of attributes.old.items ++ spec.align_attribute alignment) }
{
    if let Some(name) = alignment_name(alignment) {
        attributes.push(BlockAttribute {
            name: AttributeName::Align,
            value: String::from_str(alloc, name)?,
        })?;
    }
    Ok(())
}

/// The element of a cell.
fn cell_element(alloc: Global, cell: RichCell) -> Result<Block, AllocError>
    ensures { IfOk result (λ b. block_of b ≡ spec.cell_element (views.cell_of cell)) }
{
    let mut attributes = Vec::new(alloc);
    push_span(
        alloc,
        &mut attributes,
        AttributeName::ColumnSpan,
        cell.columns,
    )?;
    push_span(alloc, &mut attributes, AttributeName::RowSpan, cell.rows)?;
    push_alignment(alloc, &mut attributes, cell.alignment)?;
    Ok(Block::Element {
        name: if cell.is_header {
            BlockElement::HeaderCell
        } else {
            BlockElement::Cell
        },
        attributes,
        content: cell.content,
    })
}

/// The elements of cells.
fn cell_elements(alloc: Global, cells: Vec<RichCell>) -> Result<Vec<Block>, AllocError>
    ensures { IfOk result (λ bs. map block_of bs.items ≡ map spec.cell_element (map views.cell_of cells.items)) }
{
    let mut elements = Vec::with_capacity(alloc, cells.len())?;
    for cell in cells {
        elements.push(cell_element(alloc, cell)?)?;
    }
    Ok(elements)
}

/// The element of a caption or a row.
fn piece_element(alloc: Global, piece: RichPiece) -> Result<Block, AllocError>
    ensures { IfOk result (λ b. block_of b ≡ spec.piece_element (views.piece_of piece)) }
{
    let (name, content) = match piece {
        RichPiece::Caption(content) => (BlockElement::Caption, content),
        RichPiece::Row(row) => (BlockElement::Row, cell_elements(alloc, row.cells)?),
    };
    Ok(Block::Element {
        name,
        attributes: Vec::new(alloc),
        content,
    })
}

/// The elements of captions and rows.
fn piece_elements(alloc: Global, pieces: Vec<RichPiece>) -> Result<Vec<Block>, AllocError>
    ensures { IfOk result (λ bs. map block_of bs.items ≡ map spec.piece_element (views.pieces_in pieces.items)) }
{
    let mut elements = Vec::with_capacity(alloc, pieces.len())?;
    for piece in pieces {
        elements.push(piece_element(alloc, piece)?)?;
    }
    Ok(elements)
}

/// Whether something is in a cell.
fn is_filled_cell(cell: &RichCell) -> bool
    ensures { result ≡ spec.is_filled_cell (views.cell_of cell.now) }
{
    is_filled(cell.content.as_slice())
}

/// Whether something is in one of these cells.
fn are_filled_cells(cells: &[RichCell]) -> bool
    ensures { result ≡ list_any spec.is_filled_cell (map views.cell_of cells.now) }
{
    for cell in cells {
        if is_filled_cell(cell) {
            return true;
        }
    }
    false
}

/// Whether something is in a caption or a row.
fn is_filled_piece(piece: &RichPiece) -> bool
    ensures { result ≡ spec.is_filled_piece (views.piece_of piece.now) }
{
    match piece {
        RichPiece::Caption(content) => is_filled(content.as_slice()),
        RichPiece::Row(row) => are_filled_cells(row.cells.as_slice()),
    }
}

/// Whether something is in one of these captions and rows.
fn are_filled_pieces(pieces: &[RichPiece]) -> bool
    ensures { result ≡ list_any spec.is_filled_piece (views.pieces_in pieces.now) }
{
    for piece in pieces {
        if is_filled_piece(piece) {
            return true;
        }
    }
    false
}

/// The attribute of a table with a border.
fn border_attribute(alloc: Global, has_border: bool) -> Result<Vec<BlockAttribute>, AllocError>
    ensures { IfOk result (λ attributes. map attribute_of attributes.items ≡ spec.border_attribute has_border) }
{
    let mut attributes = Vec::new(alloc);
    if has_border {
        attributes.push(BlockAttribute {
            name: AttributeName::Border,
            value: String::from_str(alloc, "1")?,
        })?;
    }
    Ok(attributes)
}

/// The element of a table, if something is in it.
fn table_of_elements(
    alloc: Global,
    has_border: bool,
    pieces: Vec<RichPiece>,
) -> Result<Option<Block>, AllocError>
    ensures { IfOk result (λ block. option_map block_of block
        ≡ spec.table_of_elements has_border (views.pieces_in pieces.items)) }
{
    if !are_filled_pieces(pieces.as_slice()) {
        return Ok(None);
    }
    Ok(Some(Block::Element {
        name: BlockElement::Table,
        attributes: border_attribute(alloc, has_border)?,
        content: piece_elements(alloc, pieces)?,
    }))
}

/// Adds the table of these captions and rows: GitHub's if that says all, else an element; none if nothing is in it.
pub(crate) fn push_rich_table(
    alloc: Global,
    has_border: bool,
    pieces: Vec<RichPiece>,
    out: &mut Paragraphs,
) -> Result<(), AllocError>
    ensures { OnOk result (writing_in out.new ≡ fed_all (writing_in out.old)
        (flow.block_part (spec.table_of_pieces has_border (views.pieces_in pieces.items)))) }
{
    match table_of_pieces(alloc, has_border, pieces)? {
        Some(block) => out.block(block),
        None => Ok(()),
    }
}

/// The table of these captions and rows.
fn table_of_pieces(
    alloc: Global,
    has_border: bool,
    pieces: Vec<RichPiece>,
) -> Result<Option<Block>, AllocError>
    ensures { IfOk result (λ block. option_map block_of block
        ≡ spec.table_of_pieces has_border (views.pieces_in pieces.items)) }
{
    if are_paragraphs(pieces.as_slice()) && has_header_alone(pieces.as_slice()) {
        return table_of_lines(alloc, pieces);
    }
    table_of_elements(alloc, has_border, pieces)
}
