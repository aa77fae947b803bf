//! Tables of rich documents.
#![tactic(auto, using(crate::proofs::NodesLemmas::content_lower, crate::proofs::LevelsLemmas::highest_steps))]

ghost use Rattle.std.specs.Prelude.{◌≡◌, ◌≤◌, ◌||◌, if◌then◌else◌, IfOk, OnOk, map};
ghost use Rattle.htmd_lexical.specs.Attributes.{pairs_of};
ghost use Rattle.htmd_shown.specs.Attributes as at;
ghost use Rattle.htmd_shown.specs.SimpleViews.{simple_of};
ghost use Rattle.htmd_flow.specs.ElementViews as elements;
ghost use Rattle.htmd_flow.specs.Flows as spec;
ghost use Rattle.htmd_flow.specs.FlowViews as views;
ghost use Rattle.htmd_flow.specs.Levels.{highest};
ghost use Rattle.htmd_flow.specs.PieceViews as pieces;
ghost use Rattle.htmd_flow.specs.ParagraphViews.{writing_in};
ghost use Rattle.htmd_flow.specs.Paragraphs.{fed_all};
ghost use Rattle.htmd_flow.specs.TableElements as blocks;
ghost use Rattle.htmd_flow.specs.TableViews as tables;

use crate::around::Around;
use crate::flow::{Element, Flow};
use crate::node::attributes_of;
use crate::paragraphs::Paragraphs;
use crate::place::Place;
use crate::table_element::{
    RichCell, RichPiece, RichRow, are_paragraphs, cut_all, push_rich_table,
};
use crate::table_pieces::{
    TablePiece, has_border, have_row_spans, is_for_page, is_headed, is_header, kept_pieces,
    pieces_of,
};
use htmd_nodes::Attribute;
use htmd_shown::attributes::{alignment, row_span, wide_span};
use htmd_shown::{Simple, content_of, is_caption, is_cell};
use std::alloc::AllocError;

impl Flow {
    /// A table: GitHub's if that says all, else an element; its content where it is for the page's layout.
    #[cycle(flow)]
    pub(crate) fn rich_table<'t>(
        &self,
        element: &Element<'_, 't>,
        place: &Place<'t>,
        around: &mut Vec<Around>,
        out: &mut Paragraphs,
    ) -> Result<(), AllocError>
        ensures out { OnOk result (writing_in out.new ≡ fed_all (writing_in out.old)
            (spec.rich_table_at (views.element_in element.now) (views.context_in place.now around.old.items))) }
        ensures around { OnOk result (around.new.items ≡ around.old.items) }
    {
        let pieces = pieces_of(self.alloc, element.content)?;
        let has_spans = have_row_spans(pieces.as_slice());
        let kept = kept_pieces(self.alloc, pieces.as_slice(), has_spans)?;
        out.edge()?;
        self.kept_table(element, has_spans, kept.as_slice(), place, around, out)?;
        out.edge()
    }

    /// A table of these captions and rows, or its content.
    #[cycle(flow)]
    fn kept_table<'t>(
        &self,
        element: &Element<'_, 't>,
        has_spans: bool,
        kept: &[TablePiece<'_, 't>],
        place: &Place<'t>,
        around: &mut Vec<Around>,
        out: &mut Paragraphs,
    ) -> Result<(), AllocError>
        requires { pieces.highest (pieces.pieces_in kept.now) ≤ highest (map simple_of element.now.content.now) }
        ensures out { OnOk result (writing_in out.new ≡ fed_all (writing_in out.old)
            (spec.kept_table_parts (map simple_of element.now.content.now) (pairs_of element.now.attrs.now) has_spans
            (pieces.pieces_in kept.now) (views.nodes_at element.now.content.now)
            (views.context_in place.now around.old.items))) }
        ensures around { OnOk result (around.new.items ≡ around.old.items) }
    {
        if is_for_page(element.content, element.attrs, kept) {
            return self.among(element.content, place, around, out);
        }
        let made = self.rich_pieces(has_spans, kept, place, around)?;
        if is_table(element.attrs, kept, made.as_slice()) {
            return push_rich_table(self.alloc, has_border(element.attrs), made, out);
        }
        self.among(element.content, place, around, out)
    }

    /// Captions and rows with their blocks.
    #[cycle(flow)]
    fn rich_pieces<'t>(
        &self,
        has_spans: bool,
        kept: &[TablePiece<'_, 't>],
        place: &Place<'t>,
        around: &mut Vec<Around>,
    ) -> Result<Vec<RichPiece>, AllocError>
        ensures made { IfOk result (λ made. elements.pieces_in made.items ≡ spec.pieces_with_blocks has_spans
            (pieces.pieces_in kept.now) (views.context_in place.now around.old.items)) }
        ensures around { OnOk result (around.new.items ≡ around.old.items) }
    {
        let mut made = Vec::with_capacity(self.alloc, kept.len())?;
        for piece in kept {
            made.push(self.rich_piece(has_spans, piece, place, around)?)?;
        }
        cut_all(&mut made);
        Ok(made)
    }

    /// A caption or a row with its blocks.
    #[cycle(flow)]
    fn rich_piece<'t>(
        &self,
        has_spans: bool,
        piece: &TablePiece<'_, 't>,
        place: &Place<'t>,
        around: &mut Vec<Around>,
    ) -> Result<RichPiece, AllocError>
        ensures made { IfOk result (λ made. elements.piece_of made ≡ spec.piece_with_blocks has_spans
            (views.context_in place.now around.old.items) (pieces.piece_of piece.now)) }
        ensures around { OnOk result (around.new.items ≡ around.old.items) }
    {
        if is_caption(piece.node) {
            return Ok(RichPiece::Caption(self.blocks_within(piece.node, place, around)?));
        }
        let part = piece.part();
        let cells = self.rich_cells(
            has_spans,
            part.is_head,
            content_of(piece.node),
            place,
            around,
        )?;
        Ok(RichPiece::Row(RichRow {
            part: part.id,
            cells,
        }))
    }

    /// The cells of a row with their blocks.
    #[cycle(flow)]
    fn rich_cells<'t>(
        &self,
        has_spans: bool,
        is_in_head: bool,
        row: &[Simple<'t>],
        place: &Place<'t>,
        around: &mut Vec<Around>,
    ) -> Result<Vec<RichCell>, AllocError>
        ensures cells { IfOk result (λ made. map elements.cell_of made.items
            ≡ map (spec.cell_with_blocks has_spans is_in_head (views.context_in place.now around.old.items))
            (tables.cells_at row.now)) }
        ensures around { OnOk result (around.new.items ≡ around.old.items) }
    {
        let mut cells = Vec::with_capacity(self.alloc, row.len())?;
        for node in row {
            if !is_cell(node) {
                continue;
            }
            let cell = self.rich_cell(has_spans, is_in_head, node, place, around)?;
            cells.push(cell)?;
        }
        Ok(cells)
    }

    /// A cell with its blocks; a `td` can say the language of the code in it.
    #[cycle(flow)]
    fn rich_cell<'t>(
        &self,
        has_spans: bool,
        is_in_head: bool,
        cell: &Simple<'t>,
        place: &Place<'t>,
        around: &mut Vec<Around>,
    ) -> Result<RichCell, AllocError>
        ensures cell { IfOk result (λ made. elements.cell_of made ≡ spec.cell_with_blocks has_spans is_in_head
            (views.context_in place.now around.old.items) (views.node_at cell.now)) }
        ensures around { OnOk result (around.new.items ≡ around.old.items) }
    {
        let attrs = attributes_of(cell);
        let mut content = Paragraphs::new(self.alloc, false, false);
        self.among(content_of(cell), &place.in_cell(cell), around, &mut content)?;
        Ok(RichCell {
            is_header: is_header(is_in_head, cell),
            columns: wide_span(attrs) as usize,
            rows: rows_of(has_spans, attrs),
            alignment: alignment(attrs),
            content: content.finish()?,
        })
    }
}

/// Whether captions and rows are a table: with a border, a caption or a header, or of paragraphs alone.
fn is_table(attrs: &[Attribute], kept: &[TablePiece], made: &[RichPiece]) -> bool
    ensures { result ≡ (spec.is_headed (pairs_of attrs.now) (pieces.pieces_in kept.now)
        || blocks.are_paragraphs (elements.pieces_in made.now)) }
{
    is_headed(attrs, kept) || are_paragraphs(made)
}

/// How many rows a cell takes, if that counts.
fn rows_of(has_spans: bool, attrs: &[Attribute]) -> usize
    ensures { result ≡ (if has_spans then at.row_span (pairs_of attrs.now) else 1) }
{
    if has_spans {
        row_span(attrs) as usize
    } else {
        1
    }
}
