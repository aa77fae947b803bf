//! Tables.
#![tactic(auto, using(crate::proofs::NodesLemmas::content_lower, crate::proofs::LevelsLemmas::highest_steps))]

ghost use Rattle.std.specs.Prelude.{◌≡◌, ◌++◌, false, IfOk, OnOk, map, flat_map};
ghost use Rattle.std.specs.List.{list_all};
ghost use Rattle.htmd_shown.specs.SimpleViews.{simple_of, simples_of};
ghost use Rattle.htmd_flow.specs.Contexts as contexts;
ghost use Rattle.htmd_flow.specs.Flows as spec;
ghost use Rattle.htmd_flow.specs.FlowViews as views;
ghost use Rattle.htmd_flow.specs.GridViews as grids;
ghost use Rattle.htmd_flow.specs.ParagraphViews.{writing_in};
ghost use Rattle.htmd_flow.specs.Paragraphs.{fed_all};
ghost use Rattle.htmd_flow.specs.TableViews as tables;

use crate::around::Around;
use crate::blocks::{is_paragraph_at_most, push_table};
use crate::flow::Flow;
use crate::grid::{Cell, Row, push_filled};
use crate::node::attributes_of;
use crate::paragraphs::Paragraphs;
use crate::place::Place;
use crate::table_form::{Layout, TablePart, before_row_len, layout_of};
use htmd_shown::attributes::{alignment, column_span, row_span};
use htmd_shown::{Simple, content_of, is_caption, is_cell, is_header_cell, is_row};
use std::alloc::AllocError;

impl Flow {
    /// A table, or its content where it is for the page's layout.
    #[cycle(flow)]
    pub(crate) fn table<'t>(
        &self,
        nodes: &[Simple<'t>],
        place: &Place<'t>,
        around: &mut Vec<Around>,
        out: &mut Paragraphs,
    ) -> Result<(), AllocError>
        ensures out { OnOk result (writing_in out.new ≡ fed_all (writing_in out.old)
            (spec.table_parts (map simple_of nodes.now) (views.nodes_at nodes.now)
            (spec.rows_of_table (simples_of nodes.now)) (views.context_in place.now around.old.items))) }
        ensures around { OnOk result (around.new.items ≡ around.old.items) }
    {
        let is_grid = self.is_grid(nodes)?;
        if !is_grid {
            return self.apart(nodes, place, around, out);
        }
        out.edge()?;
        if place.is_flat {
            return self.grid_in_one_line(nodes, place, around, out);
        }
        self.grid(nodes, place, around, out)
    }

    /// Whether a table of these nodes is one of rows and columns.
    #[cycle(flow)]
    pub(crate) fn is_grid<'t>(&self, nodes: &[Simple<'t>]) -> Result<bool, AllocError>
        ensures { IfOk result (λ b. b ≡ spec.is_grid (map simple_of nodes.now)
            (spec.rows_of_table (simples_of nodes.now))) }
    {
        match layout_of(nodes) {
            Layout::Grid => Ok(true),
            Layout::GridOfParagraphs => {
                let part = TablePart::NONE;
                self.are_paragraphs(nodes, &part)
            }
            Layout::Page => Ok(false),
        }
    }

    /// Whether each cell of the rows among these nodes is a paragraph at most.
    #[cycle(flow)]
    fn are_paragraphs<'t>(&self, nodes: &[Simple<'t>], part: &TablePart) -> Result<bool, AllocError>
        ensures { IfOk result (λ b. b ≡ spec.are_paragraphs (spec.rows_among part.now (simples_of nodes.now))) }
    {
        for node in nodes {
            let is_plain = self.is_plain(node, part)?;
            if !is_plain {
                return Ok(false);
            }
        }
        Ok(true)
    }

    /// Whether each cell of the rows that a node is, is a paragraph at most.
    #[cycle(flow)]
    fn is_plain<'t>(&self, node: &Simple<'t>, part: &TablePart) -> Result<bool, AllocError>
        ensures { IfOk result (λ b. b ≡ spec.are_paragraphs (spec.rows_at part.now (simple_of node.now))) }
    {
        if is_row(node) {
            return self.holds_paragraphs(content_of(node));
        }
        if !part.leads_to(node) {
            return Ok(true);
        }
        self.are_paragraphs(content_of(node), &TablePart::of(node))
    }

    /// Whether each cell of a row is a paragraph at most.
    #[cycle(flow)]
    fn holds_paragraphs<'t>(&self, row: &[Simple<'t>]) -> Result<bool, AllocError>
        ensures { IfOk result (λ b. b ≡ list_all spec.is_paragraph (tables.cells_at row.now)) }
    {
        for node in row {
            if !is_cell(node) {
                continue;
            }
            let is_paragraph = self.is_paragraph(content_of(node))?;
            if !is_paragraph {
                return Ok(false);
            }
        }
        Ok(true)
    }

    /// Whether these nodes are a paragraph at most.
    #[cycle(flow)]
    fn is_paragraph<'t>(&self, nodes: &[Simple<'t>]) -> Result<bool, AllocError>
        ensures { IfOk result (λ b. b ≡ spec.is_paragraph_at_most (spec.blocks_of false
            (spec.flow_all (views.nodes_at nodes.now) contexts.bare))) }
    {
        let mut content = Paragraphs::new(self.alloc, false, false);
        let mut around = Vec::new(self.alloc);
        self.among(nodes, &Place::bare(false), &mut around, &mut content)?;
        Ok(is_paragraph_at_most(content.finish()?.as_slice()))
    }

    /// A table of rows and columns in one line.
    #[cycle(flow)]
    fn grid_in_one_line<'t>(
        &self,
        nodes: &[Simple<'t>],
        place: &Place<'t>,
        around: &mut Vec<Around>,
        out: &mut Paragraphs,
    ) -> Result<(), AllocError>
        ensures out { OnOk result (writing_in out.new ≡ fed_all (writing_in out.old)
            (spec.grid_in_one_line (views.nodes_at nodes.now) (spec.rows_of_table (simples_of nodes.now))
            (views.context_in place.now around.old.items))) }
        ensures around { OnOk result (around.new.items ≡ around.old.items) }
    {
        let len = before_row_len(nodes);
        self.captions_in_one_line(&nodes[..len], place, around, out)?;
        let part = TablePart::NONE;
        self.rows_in_one_line(nodes, &part, place, around, out)?;
        self.captions_in_one_line(&nodes[len..], place, around, out)
    }

    /// The captions among these nodes, in one line.
    #[cycle(flow)]
    fn captions_in_one_line<'t>(
        &self,
        nodes: &[Simple<'t>],
        place: &Place<'t>,
        around: &mut Vec<Around>,
        out: &mut Paragraphs,
    ) -> Result<(), AllocError>
        ensures out { OnOk result (writing_in out.new ≡ fed_all (writing_in out.old)
            (spec.captions_in_one_line (views.nodes_at nodes.now) (views.context_in place.now around.old.items))) }
        ensures around { OnOk result (around.new.items ≡ around.old.items) }
    {
        for node in nodes {
            if !is_caption(node) {
                continue;
            }
            self.among(content_of(node), place, around, out)?;
            out.edge()?;
        }
        Ok(())
    }

    /// The rows among these nodes, in one line.
    #[cycle(flow)]
    fn rows_in_one_line<'t>(
        &self,
        nodes: &[Simple<'t>],
        part: &TablePart,
        place: &Place<'t>,
        around: &mut Vec<Around>,
        out: &mut Paragraphs,
    ) -> Result<(), AllocError>
        ensures out { OnOk result (writing_in out.new ≡ fed_all (writing_in out.old)
            (spec.rows_in_one_line (spec.rows_among part.now (simples_of nodes.now))
            (views.context_in place.now around.old.items))) }
        ensures around { OnOk result (around.new.items ≡ around.old.items) }
    {
        for node in nodes {
            self.row_in_one_line(node, part, place, around, out)?;
        }
        Ok(())
    }

    /// The rows that a node is, in one line.
    #[cycle(flow)]
    fn row_in_one_line<'t>(
        &self,
        node: &Simple<'t>,
        part: &TablePart,
        place: &Place<'t>,
        around: &mut Vec<Around>,
        out: &mut Paragraphs,
    ) -> Result<(), AllocError>
        ensures out { OnOk result (writing_in out.new ≡ fed_all (writing_in out.old)
            (spec.rows_in_one_line (spec.rows_at part.now (simple_of node.now))
            (views.context_in place.now around.old.items))) }
        ensures around { OnOk result (around.new.items ≡ around.old.items) }
    {
        if is_row(node) {
            self.cells_in_one_line(content_of(node), place, around, out)?;
            return out.edge();
        }
        if !part.leads_to(node) {
            return Ok(());
        }
        self.rows_in_one_line(content_of(node), &TablePart::of(node), place, around, out)
    }

    /// The cells of a row in one line, with a space after each.
    #[cycle(flow)]
    fn cells_in_one_line<'t>(
        &self,
        row: &[Simple<'t>],
        place: &Place<'t>,
        around: &mut Vec<Around>,
        out: &mut Paragraphs,
    ) -> Result<(), AllocError>
        ensures out { OnOk result (writing_in out.new ≡ fed_all (writing_in out.old)
            (flat_map (spec.cell_in_one_line (views.context_in place.now around.old.items))
            (tables.cells_at row.now))) }
        ensures around { OnOk result (around.new.items ≡ around.old.items) }
    {
        for node in row {
            if !is_cell(node) {
                continue;
            }
            self.among(content_of(node), place, around, out)?;
            out.run(" ", around, false)?;
        }
        Ok(())
    }

    /// A table of rows and columns, between its captions.
    #[cycle(flow)]
    fn grid<'t>(
        &self,
        nodes: &[Simple<'t>],
        place: &Place<'t>,
        around: &mut Vec<Around>,
        out: &mut Paragraphs,
    ) -> Result<(), AllocError>
        ensures out { OnOk result (writing_in out.new ≡ fed_all (writing_in out.old)
            (spec.grid_inside (views.nodes_at nodes.now) (spec.rows_of_table (simples_of nodes.now))
            (views.context_in place.now around.old.items))) }
        ensures around { OnOk result (around.new.items ≡ around.old.items) }
    {
        let len = before_row_len(nodes);
        self.captions(&nodes[..len], place, around, out)?;
        out.edge()?;
        let mut rows = Vec::new(self.alloc);
        let part = TablePart::NONE;
        self.push_rows(nodes, &part, place, around, &mut rows)?;
        push_table(self.alloc, rows, out)?;
        out.edge()?;
        self.captions(&nodes[len..], place, around, out)?;
        out.edge()
    }

    /// The captions among these nodes.
    #[cycle(flow)]
    fn captions<'t>(
        &self,
        nodes: &[Simple<'t>],
        place: &Place<'t>,
        around: &mut Vec<Around>,
        out: &mut Paragraphs,
    ) -> Result<(), AllocError>
        ensures out { OnOk result (writing_in out.new ≡ fed_all (writing_in out.old)
            (spec.captions_among (views.nodes_at nodes.now) (views.context_in place.now around.old.items))) }
        ensures around { OnOk result (around.new.items ≡ around.old.items) }
    {
        for node in nodes {
            if !is_caption(node) {
                continue;
            }
            self.apart(content_of(node), place, around, out)?;
        }
        Ok(())
    }

    /// Adds the rows among these nodes that have cells.
    #[cycle(flow)]
    fn push_rows<'t>(
        &self,
        nodes: &[Simple<'t>],
        part: &TablePart,
        place: &Place<'t>,
        around: &mut Vec<Around>,
        rows: &mut Vec<Row>,
    ) -> Result<(), AllocError>
        ensures rows { OnOk result (map grids.row_of rows.new.items ≡ map grids.row_of rows.old.items
            ++ spec.filled_rows (map (spec.row_of (views.context_in place.now around.old.items))
            (spec.rows_among part.now (simples_of nodes.now)))) }
        ensures around { OnOk result (around.new.items ≡ around.old.items) }
    {
        for node in nodes {
            self.push_row(node, part, place, around, rows)?;
        }
        Ok(())
    }

    /// Adds the rows that a node is, if they have cells.
    #[cycle(flow)]
    fn push_row<'t>(
        &self,
        node: &Simple<'t>,
        part: &TablePart,
        place: &Place<'t>,
        around: &mut Vec<Around>,
        rows: &mut Vec<Row>,
    ) -> Result<(), AllocError>
        ensures rows { OnOk result (map grids.row_of rows.new.items ≡ map grids.row_of rows.old.items
            ++ spec.filled_rows (map (spec.row_of (views.context_in place.now around.old.items))
            (spec.rows_at part.now (simple_of node.now)))) }
        ensures around { OnOk result (around.new.items ≡ around.old.items) }
    {
        if is_row(node) {
            let cells = self.cells(content_of(node), place, around)?;
            return push_filled(rows, *part, cells);
        }
        if !part.leads_to(node) {
            return Ok(());
        }
        self.push_rows(content_of(node), &TablePart::of(node), place, around, rows)
    }

    /// The cells of a row, each in one line.
    #[cycle(flow)]
    fn cells<'t>(
        &self,
        row: &[Simple<'t>],
        place: &Place<'t>,
        around: &mut Vec<Around>,
    ) -> Result<Vec<Cell>, AllocError>
        ensures cells { IfOk result (λ made. map grids.cell_of made.items
            ≡ map (spec.cell_of (views.context_in place.now around.old.items)) (tables.cells_at row.now)) }
        ensures around { OnOk result (around.new.items ≡ around.old.items) }
    {
        let mut made = Vec::with_capacity(self.alloc, row.len())?;
        for node in row {
            if !is_cell(node) {
                continue;
            }
            let cell = self.cell(node, place, around)?;
            made.push(cell)?;
        }
        Ok(made)
    }

    /// A cell, in one line.
    #[cycle(flow)]
    fn cell<'t>(
        &self,
        node: &Simple<'t>,
        place: &Place<'t>,
        around: &mut Vec<Around>,
    ) -> Result<Cell, AllocError>
        ensures cell { IfOk result (λ made. grids.cell_of made
            ≡ spec.cell_of (views.context_in place.now around.old.items) (views.node_at node.now)) }
        ensures around { OnOk result (around.new.items ≡ around.old.items) }
    {
        let attrs = attributes_of(node);
        Ok(Cell {
            content: self.line(content_of(node), place, around)?,
            columns: column_span(attrs),
            rows: row_span(attrs),
            is_header: is_header_cell(node),
            alignment: alignment(attrs),
        })
    }
}
