//! What is in a table: its rows, and what else.
ghost use Rattle.std.specs.Prelude.{◌≡◌, ◌≤◌, ◌||◌, nat_lt, length, map};
ghost use Rattle.std.specs.List.{list_all, prefix_len};
ghost use Rattle.htmd_shown.specs.SimpleViews.{simple_of};
ghost use Rattle.htmd_flow.specs.Flows as flow;
ghost use Rattle.htmd_flow.specs.Tables as spec;

use crate::node::{holds_header, holds_table};
use htmd_nodes::NodeId;
use htmd_shown::showing::shows;
use htmd_shown::{
    Role, Simple, content_of, is_blank, is_caption, is_cell, is_head, is_header_cell, is_part,
    is_row, is_row_or_part,
};

/// A part of a table that rows are in, by its number, and whether it is the head; or the table itself.
#[derive(Clone, Copy)]
pub struct TablePart {
    pub id: Option<NodeId>,
    pub is_head: bool,
}

impl TablePart {
    /// The table itself.
    pub(crate) const NONE: TablePart = TablePart {
        id: None,
        is_head: false,
    };

    /// This part of a table.
    pub(crate) fn of(node: &Simple) -> TablePart
        ensures { result ≡ flow.part_of (simple_of node.now) }
    {
        match node {
            Simple::Element { node: id, role, .. } => TablePart {
                id: Some(*id),
                is_head: matches!(role, Role::TableHead),
            },
            Simple::Text(_) => TablePart::NONE,
            Simple::Image { .. } => TablePart::NONE,
            Simple::Formula { .. } => TablePart::NONE,
            Simple::Embedded(_) => TablePart::NONE,
            Simple::Anchor(_) => TablePart::NONE,
        }
    }

    /// Whether a node here is a part of the table: in a part no other is.
    pub(crate) fn leads_to(self, node: &Simple) -> bool
        ensures { result ≡ flow.leads_to self (simple_of node.now) }
    {
        self.id.is_none() && is_part(node)
    }
}

// ---- what else is in it

/// Whether nothing shows of a node; in a rich document breaks and images without anything to see are nothing.
fn is_nothing(is_rich: bool, node: &Simple) -> bool
    ensures { result ≡ spec.is_nothing is_rich (simple_of node.now) }
{
    if is_rich {
        !shows(node)
    } else {
        is_blank(node)
    }
}

/// Whether a node of a row is a cell, or nothing shows of it.
fn is_cell_or_nothing(is_rich: bool, node: &Simple) -> bool
    ensures { result ≡ spec.is_cell_or_nothing is_rich (simple_of node.now) }
{
    is_cell(node) || is_nothing(is_rich, node)
}

/// Whether nothing shows of a row but its cells.
fn holds_cells_alone(is_rich: bool, row: &[Simple]) -> bool
    ensures { result ≡ list_all (spec.is_cell_or_nothing is_rich) (map simple_of row.now) }
{
    for node in row {
        if !is_cell_or_nothing(is_rich, node) {
            return false;
        }
    }
    true
}

/// Whether a node is a row of cells alone, or nothing shows of it.
fn is_row_or_nothing(is_rich: bool, node: &Simple) -> bool
    ensures { result ≡ spec.is_row_or_nothing is_rich (simple_of node.now) }
{
    if is_row(node) {
        return holds_cells_alone(is_rich, content_of(node));
    }
    is_nothing(is_rich, node)
}

/// Whether nothing shows of a part of a table but rows of cells.
fn holds_rows_alone(is_rich: bool, part: &[Simple]) -> bool
    ensures { result ≡ list_all (spec.is_row_or_nothing is_rich) (map simple_of part.now) }
{
    for node in part {
        if !is_row_or_nothing(is_rich, node) {
            return false;
        }
    }
    true
}

/// Whether nothing shows of a node of a table but captions and cells.
fn is_table_child(is_rich: bool, node: &Simple) -> bool
    ensures { result ≡ spec.is_table_child is_rich (simple_of node.now) }
{
    if is_caption(node) {
        return true;
    }
    if is_part(node) {
        return holds_rows_alone(is_rich, content_of(node));
    }
    is_row_or_nothing(is_rich, node)
}

/// Whether nothing shows of a table but captions and cells.
pub(crate) fn holds_table_alone(is_rich: bool, table: &[Simple]) -> bool
    ensures { result ≡ spec.holds_table_alone is_rich (map simple_of table.now) }
{
    for node in table {
        if !is_table_child(is_rich, node) {
            return false;
        }
    }
    true
}

/// How many nodes come before the first row, or part with rows.
pub(crate) fn before_row_len(table: &[Simple]) -> usize
    ensures bound { result ≤ length table.now }
    ensures value { result ≡ prefix_len spec.is_no_row (map simple_of table.now) }
{
    for (len, node) in table.iter().enumerate() {
        if is_row_or_part(node) {
            return len;
        }
    }
    table.len()
}

/// How many nodes come before the first caption.
fn before_caption_len(table: &[Simple]) -> usize
    ensures bound { result ≤ length table.now }
    ensures value { result ≡ prefix_len spec.is_no_caption (map simple_of table.now) }
{
    for (len, node) in table.iter().enumerate() {
        if is_caption(node) {
            return len;
        }
    }
    table.len()
}

/// The nodes from the first row on.
fn from_row<'a, 't>(table: &'a [Simple<'t>]) -> &'a [Simple<'t>]
    ensures { map simple_of result.now ≡ spec.from_row (map simple_of table.now) }
{
    &table[before_row_len(table)..]
}

/// The nodes from the first caption on.
fn from_caption<'a, 't>(table: &'a [Simple<'t>]) -> &'a [Simple<'t>]
    ensures { map simple_of result.now ≡ spec.from_caption (map simple_of table.now) }
{
    &table[before_caption_len(table)..]
}

/// Whether no row, and no part with rows, is among these.
fn holds_no_row(nodes: &[Simple]) -> bool
    ensures { result ≡ list_all spec.is_no_row (map simple_of nodes.now) }
{
    for node in nodes {
        if is_row_or_part(node) {
            return false;
        }
    }
    true
}

/// Whether no caption is among the rows and parts of a table.
fn has_captions_around(table: &[Simple]) -> bool
    ensures { result ≡ spec.has_captions_around (map simple_of table.now) }
{
    holds_no_row(from_caption(from_row(table)))
}

/// Whether a table has a head.
fn has_head(table: &[Simple]) -> bool
    ensures { result ≡ spec.has_head (map simple_of table.now) }
{
    for node in table {
        if is_head(node) {
            return true;
        }
    }
    false
}

// ---- its cells

/// How many cells are in a row.
pub(crate) fn cells_len(row: &[Simple]) -> usize
    ensures value { result ≡ spec.cells_len (map simple_of row.now) }
    ensures bound { result ≤ length row.now }
{
    let mut count = 0;
    for node in row {
        if is_cell(node) {
            count += 1;
        }
    }
    count
}

/// What is known of the cells of a table.
#[derive(Clone, Copy)]
pub(crate) struct Cells {
    pub(crate) is_filled: bool,
    /// Whether two are in one row.
    pub(crate) is_wide: bool,
    pub(crate) has_header: bool,
    pub(crate) holds_table: bool,
    pub(crate) holds_header: bool,
}

impl Cells {
    const NONE: Cells = Cells {
        is_filled: false,
        is_wide: false,
        has_header: false,
        holds_table: false,
        holds_header: false,
    };

    /// With one more cell.
    fn with_cell(self, cell: &Simple) -> Cells
        ensures { result ≡ spec.with_cell self (simple_of cell.now) }
    {
        Cells {
            is_filled: true,
            is_wide: self.is_wide,
            has_header: self.has_header || is_header_cell(cell),
            holds_table: self.holds_table || holds_table(cell),
            holds_header: self.holds_header || holds_header(cell),
        }
    }

    /// With one more node of a row.
    fn with_cell_at(self, node: &Simple) -> Cells
        ensures { result ≡ spec.with_cell_at self (simple_of node.now) }
    {
        if is_cell(node) {
            return self.with_cell(node);
        }
        self
    }

    /// With the cells of one more row.
    fn with_row(self, row: &[Simple]) -> Cells
        ensures { result ≡ spec.with_row self (map simple_of row.now) }
    {
        let mut cells = self;
        for node in row {
            cells = cells.with_cell_at(node);
        }
        Cells {
            is_wide: self.is_wide_with(row),
            ..cells
        }
    }

    /// Whether two cells are in one row, with one more row.
    fn is_wide_with(self, row: &[Simple]) -> bool
        ensures { result ≡ (self.is_wide || nat_lt 1 (spec.cells_len (map simple_of row.now))) }
    {
        self.is_wide || cells_len(row) > 1
    }

    /// With the cells of a node, if that is a row.
    fn with_row_at(self, node: &Simple) -> Cells
        ensures { result ≡ spec.with_row_at self (simple_of node.now) }
    {
        if is_row(node) {
            return self.with_row(content_of(node));
        }
        self
    }

    /// With the cells of the rows among these nodes.
    fn with_rows(self, nodes: &[Simple]) -> Cells
        ensures { result ≡ spec.with_rows self (map simple_of nodes.now) }
    {
        let mut cells = self;
        for node in nodes {
            cells = cells.with_row_at(node);
        }
        cells
    }

    /// With the rows of a node, if that is a part of the table.
    fn with_part(self, node: &Simple) -> Cells
        ensures { result ≡ spec.with_part self (simple_of node.now) }
    {
        if is_part(node) {
            return self.with_rows(content_of(node));
        }
        self
    }

    /// What a table with headers and these cells is for.
    fn layout_with_headers(self) -> Layout
        ensures { result ≡ spec.layout_with_headers self }
    {
        if !self.is_filled || (self.holds_table && self.holds_header) {
            Layout::Page
        } else {
            Layout::Grid
        }
    }

    /// What a table without headers and with these cells is for.
    fn layout_without_headers(self) -> Layout
        ensures { result ≡ spec.layout_without_headers self }
    {
        if self.is_wide && !self.holds_table {
            Layout::GridOfParagraphs
        } else {
            Layout::Page
        }
    }

    /// The cells of a table.
    fn of(table: &[Simple]) -> Cells
        ensures { result ≡ spec.cells_in (map simple_of table.now) }
    {
        let mut cells = Cells::NONE.with_rows(table);
        for node in table {
            cells = cells.with_part(node);
        }
        cells
    }
}

/// What a table is for.
#[derive(Clone, Copy)]
pub enum Layout {
    /// Rows and columns.
    Grid,
    /// Rows and columns, if its cells are paragraphs at most.
    GridOfParagraphs,
    /// The layout of the page.
    Page,
}

/// What a table is for. One with headers isn't one of rows and columns if another such table is in it.
pub(crate) fn layout_of(table: &[Simple]) -> Layout
    ensures { result ≡ spec.layout_of (map simple_of table.now) }
{
    if !has_captions_around(table) || !holds_table_alone(false, table) {
        return Layout::Page;
    }
    let cells = Cells::of(table);
    if has_head(table) || cells.has_header {
        cells.layout_with_headers()
    } else {
        cells.layout_without_headers()
    }
}
