//! Captions and rows of a table, and what a table of a rich document is for.
ghost use Rattle.std.specs.Prelude.{◌≡◌, ◌++◌, true, IfOk, OnOk, map, filter};
ghost use Rattle.std.specs.List.{list_any};
ghost use Rattle.htmd_lexical.specs.Attributes.{pairs_of};
ghost use Rattle.htmd_shown.specs.Kinds.{has, holds};
ghost use Rattle.htmd_shown.specs.Roles as roles;
ghost use Rattle.htmd_shown.specs.SimpleViews.{simple_of, simples_of};
ghost use Rattle.htmd_flow.specs.Flows as spec;
ghost use Rattle.htmd_flow.specs.FlowViews.{node_at};
ghost use Rattle.htmd_flow.specs.Grids as grid;
ghost use Rattle.htmd_flow.specs.PieceViews as views;

use crate::node::{attributes_of, holds_table};
use crate::table_form::{TablePart, cells_len, holds_table_alone};
use htmd_nodes::{Attribute, NodeId, value_of};
use htmd_shown::attributes::{number_at, row_span};
use htmd_shown::showing::show;
use htmd_shown::{Simple, content_of, is_caption, is_cell, is_header_cell, is_part, is_row};
use std::alloc::{AllocError, Global};

/// A caption of a table, or a row, and the part of the table that a row is in; without one the node itself.
#[derive(Clone, Copy)]
pub(crate) struct TablePiece<'a, 't> {
    pub(crate) part: &'a Simple<'t>,
    pub(crate) node: &'a Simple<'t>,
}

/// The captions and rows of a table, in order. `Err` means out of memory.
pub(crate) fn pieces_of<'a, 't>(
    alloc: Global,
    table: &'a [Simple<'t>],
) -> Result<Vec<TablePiece<'a, 't>>, AllocError>
    ensures { IfOk result (λ pieces. views.pieces_in pieces.items ≡ spec.pieces_of (simples_of table.now)) }
{
    let mut pieces = Vec::with_capacity(alloc, table.len())?;
    for node in table {
        push_piece(&mut pieces, node)?;
    }
    Ok(pieces)
}

/// Adds a caption, or the rows that a node is.
fn push_piece<'a, 't>(
    pieces: &mut Vec<TablePiece<'a, 't>>,
    node: &'a Simple<'t>,
) -> Result<(), AllocError>
    ensures { OnOk result (views.pieces_in pieces.new.items ≡ views.pieces_in pieces.old.items
        ++ spec.pieces_at (node_at node.now) (spec.rows_at spec.no_part (simple_of node.now))) }
{
    if is_caption(node) {
        pieces.push(TablePiece { part: node, node })?;
        return Ok(());
    }
    if is_row(node) {
        pieces.push(TablePiece { part: node, node })?;
        return Ok(());
    }
    if !is_part(node) {
        return Ok(());
    }
    push_rows(pieces, node, content_of(node))
}

/// Adds the rows of a part of the table.
fn push_rows<'a, 't>(
    pieces: &mut Vec<TablePiece<'a, 't>>,
    part: &'a Simple<'t>,
    nodes: &'a [Simple<'t>],
) -> Result<(), AllocError>
    requires { has roles.is_part (simple_of part.now) ≡ true }
    ensures { OnOk result (views.pieces_in pieces.new.items ≡ views.pieces_in pieces.old.items
        ++ map spec.of_row (spec.rows_among (spec.part_of (simple_of part.now)) (simples_of nodes.now))) }
{
    for node in nodes {
        if !is_row(node) {
            continue;
        }
        pieces.push(TablePiece { part, node })?;
    }
    Ok(())
}

// ---- rows

/// Whether a node is a cell that takes more than one row, if there are some.
fn cell_may_span(node: &Simple) -> bool
    ensures { result ≡ views.cell_is spec.may_span (simple_of node.now) }
{
    is_cell(node) && row_span(attributes_of(node)) != 1
}

/// Whether a cell of the row takes more than one row, if there are some.
fn may_span(row: &[Simple]) -> bool
    ensures { result ≡ list_any (views.cell_is spec.may_span) (map simple_of row.now) }
{
    for node in row {
        if cell_may_span(node) {
            return true;
        }
    }
    false
}

/// Whether a node is a cell in which something shows.
fn cell_shows(node: &Simple) -> bool
    ensures { result ≡ views.cell_is spec.content_shows (simple_of node.now) }
{
    is_cell(node) && show(content_of(node))
}

/// Whether something shows in a cell of the row.
fn cells_show(row: &[Simple]) -> bool
    ensures { result ≡ list_any (views.cell_is spec.content_shows) (map simple_of row.now) }
{
    for node in row {
        if cell_shows(node) {
            return true;
        }
    }
    false
}

/// Whether a cell, which is in the head of a table or not, is a header.
pub(crate) fn is_header(is_in_head: bool, cell: &Simple) -> bool
    ensures { result ≡ spec.is_header is_in_head (simple_of cell.now) }
{
    is_in_head || is_header_cell(cell)
}

/// Whether a node, which is in the head of a table or not, is a cell that is a header.
fn cell_is_header(is_in_head: bool, node: &Simple) -> bool
    ensures { result ≡ views.cell_is (spec.is_header is_in_head) (simple_of node.now) }
{
    is_cell(node) && is_header(is_in_head, node)
}

/// Whether a cell of the row, which is in the head of a table or not, is a header.
fn has_header(is_in_head: bool, row: &[Simple]) -> bool
    ensures { result ≡ list_any (views.cell_is (spec.is_header is_in_head)) (map simple_of row.now) }
{
    for node in row {
        if cell_is_header(is_in_head, node) {
            return true;
        }
    }
    false
}

/// Whether a node is a cell with a table in it.
fn cell_holds_table(node: &Simple) -> bool
    ensures { result ≡ views.cell_is (holds (λ f. f.holds_table)) (simple_of node.now) }
{
    is_cell(node) && holds_table(node)
}

/// Whether a table is in a cell of the row.
fn cells_hold_table(row: &[Simple]) -> bool
    ensures { result ≡ list_any (views.cell_is (holds (λ f. f.holds_table))) (map simple_of row.now) }
{
    for node in row {
        if cell_holds_table(node) {
            return true;
        }
    }
    false
}

impl TablePiece<'_, '_> {
    /// The part of the table that a row is in.
    pub(crate) fn part(&self) -> TablePart
        ensures { result ≡ views.part_in self.now }
    {
        if is_part(self.part) {
            TablePart::of(self.part)
        } else {
            TablePart::NONE
        }
    }

    /// Whether it stays: a caption that shows nothing goes, and such a row, unless a cell of the table spans rows.
    #[tactic(auto, using(crate::proofs::TablePieceLemmas::content_any))]
    fn stays(&self, has_spans: bool) -> bool
        ensures { result ≡ spec.stays has_spans (views.piece_of self.now) }
    {
        if is_caption(self.node) {
            return show(content_of(self.node));
        }
        has_spans || cells_show(content_of(self.node))
    }

    /// Whether it is a caption, or has a header.
    #[tactic(auto, using(crate::proofs::TablePieceLemmas::content_any))]
    fn heads(&self) -> bool
        ensures { result ≡ spec.heads (views.piece_of self.now) }
    {
        is_caption(self.node) || has_header(self.part().is_head, content_of(self.node))
    }

    /// Whether it is a row of two cells.
    #[tactic(auto, using(crate::proofs::TablePieceLemmas::content_count))]
    fn is_wide(&self) -> bool
        ensures { result ≡ spec.is_wide (views.piece_of self.now) }
    {
        !is_caption(self.node) && cells_len(content_of(self.node)) > 1
    }

    /// Whether a table is in a cell of it.
    #[tactic(auto, using(crate::proofs::TablePieceLemmas::content_any))]
    fn holds_table(&self) -> bool
        ensures { result ≡ spec.holds_table (views.piece_of self.now) }
    {
        !is_caption(self.node) && cells_hold_table(content_of(self.node))
    }

    /// Whether it is a row with a cell that takes more than one row, if there are some.
    #[tactic(auto, using(crate::proofs::TablePieceLemmas::content_any))]
    fn may_span(&self) -> bool
        ensures { result ≡ views.row_may_span (views.piece_of self.now) }
    {
        !is_caption(self.node) && may_span(content_of(self.node))
    }
}

/// Whether two rows are of the same part.
pub(crate) fn is_same_part(part: Option<NodeId>, next: Option<NodeId>) -> bool
    ensures { result ≡ grid.is_same_part part next }
{
    part == next
}

/// Whether the first row of these is of the part that a row is in.
fn follow_in_part(row: &TablePiece, pieces: &[TablePiece]) -> bool
    ensures { result ≡ spec.follows_in_part (views.part_in row.now).id (spec.rows_in (views.pieces_in pieces.now)) }
{
    for piece in pieces {
        if !is_caption(piece.node) {
            return is_same_part(row.part().id, piece.part().id);
        }
    }
    false
}

/// Whether a cell takes more than one row of its part of the table.
pub(crate) fn have_row_spans(pieces: &[TablePiece]) -> bool
    ensures { result ≡ spec.have_row_spans (spec.rows_in (views.pieces_in pieces.now)) }
{
    let mut at = 0;
    while at < pieces.len() {
        let piece = &pieces[at];
        at += 1;
        if piece.may_span() && follow_in_part(piece, &pieces[at..]) {
            return true;
        }
    }
    false
}

/// The captions and rows that stay. `Err` means out of memory.
pub(crate) fn kept_pieces<'a, 't>(
    alloc: Global,
    pieces: &[TablePiece<'a, 't>],
    has_spans: bool,
) -> Result<Vec<TablePiece<'a, 't>>, AllocError>
    ensures { IfOk result (λ kept. views.pieces_in kept.items
        ≡ filter (spec.stays has_spans) (views.pieces_in pieces.now)) }
{
    let mut kept = Vec::with_capacity(alloc, pieces.len())?;
    for piece in pieces {
        if piece.stays(has_spans) {
            kept.push(*piece)?;
        }
    }
    Ok(kept)
}

// ---- what the table is for

/// Whether a border is asked for.
pub(crate) fn has_border(attrs: &[Attribute]) -> bool
    ensures { result ≡ spec.has_border (pairs_of attrs.now) }
{
    value_of(attrs, "border").is_some() && number_at(attrs, "border") != Some(0)
}

/// Whether a caption or a header is among these.
fn have_head(kept: &[TablePiece]) -> bool
    ensures { result ≡ list_any spec.heads (views.pieces_in kept.now) }
{
    for piece in kept {
        if piece.heads() {
            return true;
        }
    }
    false
}

/// Whether a row of two cells is among these.
fn are_wide(kept: &[TablePiece]) -> bool
    ensures { result ≡ list_any spec.is_wide (views.pieces_in kept.now) }
{
    for piece in kept {
        if piece.is_wide() {
            return true;
        }
    }
    false
}

/// Whether a table is in a cell.
fn hold_table(kept: &[TablePiece]) -> bool
    ensures { result ≡ list_any spec.holds_table (views.pieces_in kept.now) }
{
    for piece in kept {
        if piece.holds_table() {
            return true;
        }
    }
    false
}

/// Whether a table has a border, a caption or a header.
pub(crate) fn is_headed(attrs: &[Attribute], kept: &[TablePiece]) -> bool
    ensures { result ≡ spec.is_headed (pairs_of attrs.now) (views.pieces_in kept.now) }
{
    has_border(attrs) || have_head(kept)
}

/// Whether some row has two cells, and no cell holds a table.
fn may_be_grid(kept: &[TablePiece]) -> bool
    ensures { result ≡ spec.may_be_grid (views.pieces_in kept.now) }
{
    are_wide(kept) && !hold_table(kept)
}

/// Whether a table is for the layout of the page, whatever its cells give.
pub(crate) fn is_for_page(table: &[Simple], attrs: &[Attribute], kept: &[TablePiece]) -> bool
    ensures { result ≡ spec.is_for_page (map simple_of table.now) (pairs_of attrs.now) (views.pieces_in kept.now) }
{
    !holds_table_alone(true, table) || !(is_headed(attrs, kept) || may_be_grid(kept))
}
