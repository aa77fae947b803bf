//! Which nodes of a table are rendered, and what they are to it.

ghost use Rattle.std.specs.Prelude.{◌≡◌, ◌<◌, OnOk, IfOk, [], ◌∷◌, length, fold};
ghost use Rattle.std.specs.Prelude.{codes};
ghost use Rattle.htmd_nodes.specs.Items.{data_at, tag_of};
ghost use Rattle.htmd_walk.specs.TableLayouts as spec;
ghost use Rattle.htmd_walk.specs.TableViews.{layout_view, parts_view};

use htmd_nodes::{NodeId, Tree};
use std::alloc::{AllocError, Global};

/// What the nodes of a part are.
#[derive(Clone, Copy)]
pub(crate) enum PartKind {
    Caption,
    Headers,
    Row,
}

/// What a child is to its table.
#[derive(Clone, Copy)]
pub(crate) enum TableChild {
    TableCaption,
    TableHead,
    TableSection,
    DirectRow,
    OtherChild,
}

/// A caption, the header cells of a table, or the cells of a row.
#[derive(Drop)]
pub(crate) struct Part {
    pub(crate) kind: PartKind,
    pub(crate) nodes: Vec<NodeId>,
}

/// The parts of a table so far, whether a head was seen, and whether there are headers and rows.
#[derive(Drop)]
pub(crate) struct Layout {
    pub(crate) parts: Vec<Part>,
    head_seen: bool,
    has_headers: bool,
    has_rows: bool,
}

/// What an element of this tag is to its table.
fn child_of_tag(tag: &str) -> TableChild
    ensures { result ≡ spec.child_of_tag tag.now }
{
    match tag {
        "caption" => TableChild::TableCaption,
        "thead" => TableChild::TableHead,
        "tbody" => TableChild::TableSection,
        "tfoot" => TableChild::TableSection,
        "tr" => TableChild::DirectRow,
        _ => TableChild::OtherChild,
    }
}

/// What a node is to its table.
fn table_child(tree: &Tree, node: NodeId) -> TableChild
    requires { node < length tree.now }
    ensures { result ≡ spec.table_child (tag_of (data_at tree.now node)) }
{
    match tree.tag_name(node) {
        Some(tag) => child_of_tag(tag),
        None => TableChild::OtherChild,
    }
}

/// Whether a node has this tag.
pub(crate) fn has_tag(tree: &Tree, node: NodeId, tag: &str) -> bool
    requires { node < length tree.now }
    ensures { result ≡ spec.has_tag (tag.now ∷ []) tree.now node }
{
    tree.tag_name(node) == Some(tag)
}

/// The children that have this tag.
fn tagged_children(
    alloc: Global,
    tree: &Tree,
    node: NodeId,
    tag: &str,
) -> Result<Vec<NodeId>, AllocError>
    requires { node < length tree.now }
    ensures { IfOk result (λ nodes. nodes.items ≡ spec.tagged_children tag.now tree.now node) }
{
    let mut tagged = Vec::new(alloc);
    for child in tree.children(node) {
        if !has_tag(tree, *child, tag) {
            continue;
        }
        tagged.push(*child)?;
    }
    Ok(tagged)
}

/// The `th` cells of a row, or its `td` cells if there are none.
fn header_cells(alloc: Global, tree: &Tree, row: NodeId) -> Result<Vec<NodeId>, AllocError>
    requires { row < length tree.now }
    ensures { IfOk result (λ nodes. nodes.items ≡ spec.header_cells tree.now row) }
{
    let headers = tagged_children(alloc, tree, row, "th")?;
    if headers.is_empty() {
        return tagged_children(alloc, tree, row, "td");
    }
    Ok(headers)
}

/// The first row of `thead`, or itself.
fn head_row(tree: &Tree, head: NodeId) -> NodeId
    requires { head < length tree.now }
    ensures row { result ≡ spec.head_row (spec.tagged_children (codes "tr") tree.now head) head }
    ensures within { result < length tree.now }
{
    for child in tree.children(head) {
        if has_tag(tree, *child, "tr") {
            return *child;
        }
    }
    head
}

impl Layout {
    /// Whether there are headers or rows.
    pub(crate) fn has_lines(&self) -> bool
        ensures { result ≡ spec.has_lines (layout_view self.now) }
    {
        self.has_headers || self.has_rows
    }

    /// Whether no head was seen and there are no headers.
    fn is_headless(&self) -> bool
        ensures { result ≡ spec.is_headless (layout_view self.now) }
    {
        !self.head_seen && !self.has_headers
    }

    /// A caption.
    fn push_caption(&mut self, alloc: Global, node: NodeId) -> Result<(), AllocError>
        ensures { OnOk result (layout_view self.new ≡ spec.with_caption node (layout_view self.old)) }
    {
        let mut nodes = Vec::new(alloc);
        nodes.push(node)?;
        self.parts.push(Part {
            kind: PartKind::Caption,
            nodes,
        })?;
        Ok(())
    }

    /// These cells, or none, become the headers.
    fn push_headers(&mut self, cells: Vec<NodeId>) -> Result<(), AllocError>
        ensures { OnOk result (layout_view self.new ≡ spec.with_headers cells.items (layout_view self.old)) }
    {
        let has_headers = !cells.is_empty();
        self.parts.push(Part {
            kind: PartKind::Headers,
            nodes: cells,
        })?;
        self.head_seen = true;
        self.has_headers = has_headers;
        Ok(())
    }

    /// Cells, if there are any, are a row.
    fn push_cells(&mut self, cells: Vec<NodeId>) -> Result<(), AllocError>
        ensures { OnOk result (layout_view self.new ≡ spec.with_cells cells.items (layout_view self.old)) }
    {
        if cells.is_empty() {
            return Ok(());
        }
        self.parts.push(Part {
            kind: PartKind::Row,
            nodes: cells,
        })?;
        self.has_rows = true;
        Ok(())
    }

    /// A row of `td` cells.
    fn push_row(&mut self, alloc: Global, tree: &Tree, row: NodeId) -> Result<(), AllocError>
        requires { row < length tree.now }
        ensures { OnOk result (layout_view self.new ≡ spec.with_row tree.now row (layout_view self.old)) }
    {
        let cells = tagged_children(alloc, tree, row, "td")?;
        self.push_cells(cells)
    }

    /// The cells of the first row of `thead`, or its own.
    fn push_head(&mut self, alloc: Global, tree: &Tree, head: NodeId) -> Result<(), AllocError>
        requires { head < length tree.now }
        ensures { OnOk result (layout_view self.new ≡ spec.with_head tree.now head (layout_view self.old)) }
    {
        let cells = header_cells(alloc, tree, head_row(tree, head))?;
        self.push_headers(cells)
    }

    /// A row in `tbody` or `tfoot`.
    fn push_section_row(
        &mut self,
        alloc: Global,
        tree: &Tree,
        row: NodeId,
    ) -> Result<(), AllocError>
        requires { row < length tree.now }
        ensures { OnOk result
            (layout_view self.new ≡ spec.with_section_row tree.now (layout_view self.old) row) }
    {
        if !self.is_headless() {
            return self.push_row(alloc, tree, row);
        }
        let headers = tagged_children(alloc, tree, row, "th")?;
        if headers.is_empty() {
            return self.push_row(alloc, tree, row);
        }
        self.push_headers(headers)
    }

    /// The rows in `tbody` or `tfoot`.
    fn push_section(
        &mut self,
        alloc: Global,
        tree: &Tree,
        section: NodeId,
    ) -> Result<(), AllocError>
        requires { section < length tree.now }
        ensures { OnOk result (layout_view self.new ≡ fold (spec.with_section_row tree.now) (layout_view self.old)
            (spec.tagged_children (codes "tr") tree.now section)) }
    {
        for child in tree.children(section) {
            if !has_tag(tree, *child, "tr") {
                continue;
            }
            self.push_section_row(alloc, tree, *child)?;
        }
        Ok(())
    }

    /// A row right below the table.
    fn push_table_row(&mut self, alloc: Global, tree: &Tree, row: NodeId) -> Result<(), AllocError>
        requires { row < length tree.now }
        ensures { OnOk result (layout_view self.new ≡ spec.with_table_row tree.now row (layout_view self.old)) }
    {
        if !self.is_headless() {
            return self.push_row(alloc, tree, row);
        }
        let headers = header_cells(alloc, tree, row)?;
        if headers.is_empty() {
            return Ok(());
        }
        self.push_headers(headers)
    }

    /// One more child of the table.
    fn push_child(&mut self, alloc: Global, tree: &Tree, node: NodeId) -> Result<(), AllocError>
        requires { node < length tree.now }
        ensures { OnOk result (layout_view self.new ≡ spec.with_child tree.now (layout_view self.old) node) }
    {
        match table_child(tree, node) {
            TableChild::TableCaption => self.push_caption(alloc, node),
            TableChild::TableHead => self.push_head(alloc, tree, node),
            TableChild::TableSection => self.push_section(alloc, tree, node),
            TableChild::DirectRow => self.push_table_row(alloc, tree, node),
            TableChild::OtherChild => Ok(()),
        }
    }
}

/// The parts of a table, in the order in which they are rendered.
pub(crate) fn layout_of(alloc: Global, tree: &Tree, table: NodeId) -> Result<Layout, AllocError>
    requires { table < length tree.now }
    ensures { IfOk result (λ layout. layout_view layout ≡ spec.layout_of tree.now table) }
{
    let mut layout = Layout {
        parts: Vec::new(alloc),
        head_seen: false,
        has_headers: false,
        has_rows: false,
    };
    for child in tree.children(table) {
        layout.push_child(alloc, tree, *child)?;
    }
    Ok(layout)
}

/// The nodes of the parts, in order.
pub(crate) fn nodes_of(alloc: Global, parts: &[Part]) -> Result<Vec<NodeId>, AllocError>
    ensures { IfOk result (λ nodes. nodes.items ≡ spec.nodes_of (parts_view parts.now)) }
{
    let mut nodes = Vec::new(alloc);
    for part in parts {
        nodes.extend_from_slice(part.nodes.as_slice())?;
    }
    Ok(nodes)
}
