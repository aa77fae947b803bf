//! Documents in the form of mdast 4, as JSON.
ghost use Rattle.std.specs.Prelude.{◌≡◌, true, if◌then◌else◌, IfOk, map, string_bytes, codes};
ghost use Rattle.serde_json.specs.View.{view, items_of, items_view};
ghost use Rattle.serde_json.specs.Written.{compact_text};
ghost use Rattle.htmd_document.specs.DocumentViews.{inline_of, inlines_of, block_of, blocks_of, document_of};
ghost use Rattle.htmd_document.specs.DocumentViews.{bytes_of_title};
ghost use Rattle.htmd_document.specs.FlatDocuments as flat;
ghost use Rattle.htmd_document.specs.FlatViews.{flat_of};
ghost use Rattle.htmd_document.specs.Formats.{of_format, of_element};
ghost use Rattle.htmd_document.specs.Mdast as spec;

use crate::document::{
    Alignment, Block, CellContent, Document, Format, Inline, InlineElement, RowContent,
};
use crate::flat::{FlatBlock, flattened};
use crate::tags::{
    END_OF_ABBREVIATION, END_OF_ANCHOR, end_of_inline, inline_tag, push_abbreviation, push_anchor,
};
use serde_json::{Value, json};
use std::alloc::{AllocError, Global};

impl Document {
    /// The document as JSON, in the form of mdast 4. `Err` means out of memory.
    pub fn to_mdast(&self, alloc: Global) -> Result<String, AllocError>
        ensures { IfOk result (λ s. string_bytes s ≡ compact_text (spec.root_data (document_of self.now))) }
    {
        let children = blocks_values(alloc, &self.blocks, false)?;
        parent(alloc, "root", children)?.to_string(alloc)
    }

    /// The same, and before the blocks a node `yaml` with the front matter of the page.
    pub fn to_mdast_with_front_matter(
        &self,
        alloc: Global,
        yaml: &str,
    ) -> Result<String, AllocError>
        ensures { IfOk result (λ s. string_bytes s ≡ spec.mdast_with_front_matter yaml.now (document_of self.now)) }
    {
        let nodes = blocks_values(alloc, &self.blocks, false)?;
        let children = after_yaml(alloc, yaml, nodes)?;
        parent(alloc, "root", children)?.to_string(alloc)
    }
}

/// A node with nothing but its type.
fn bare(alloc: Global, kind: &str) -> Result<Value, AllocError>
    ensures { IfOk result (λ v. view v ≡ spec.bare kind.now) }
{
    json!(in alloc; {"type": kind})
}

/// A node with a text.
fn with_value(alloc: Global, kind: &str, text: &str) -> Result<Value, AllocError>
    ensures { IfOk result (λ v. view v ≡ spec.with_value kind.now text.now) }
{
    json!(in alloc; {"type": kind, "value": text})
}

/// Nodes after one with YAML.
fn after_yaml(alloc: Global, yaml: &str, nodes: Vec<Value>) -> Result<Vec<Value>, AllocError>
    ensures { IfOk result (λ vs. items_view vs.items ≡ spec.after_yaml yaml.now (items_view nodes.items)) }
{
    let mut nodes = nodes;
    nodes.insert(0, with_value(alloc, "yaml", yaml)?)?;
    Ok(nodes)
}

/// A node with children.
fn parent(alloc: Global, kind: &str, children: Vec<Value>) -> Result<Value, AllocError>
    ensures { IfOk result (λ v. view v ≡ spec.parent kind.now (items_view children.items)) }
{
    json!(in alloc; {"type": kind, "children": children})
}

fn text_or_null(alloc: Global, text: &Option<String>) -> Result<Value, AllocError>
    ensures { IfOk result (λ v. view v ≡ spec.text_or_null (bytes_of_title text.now)) }
{
    match text {
        Some(text) => json!(in alloc; text),
        None => Ok(Value::Null),
    }
}

fn link(
    alloc: Global,
    address: &str,
    title: &Option<String>,
    children: Vec<Value>,
) -> Result<Value, AllocError>
    ensures { IfOk result (λ v. view v
        ≡ spec.link_data address.now (bytes_of_title title.now) (items_view children.items)) }
{
    let title = text_or_null(alloc, title)?;
    json!(in alloc; {"type": "link", "url": address, "title": title, "children": children})
}

fn image(
    alloc: Global,
    address: &str,
    title: &Option<String>,
    description: &str,
) -> Result<Value, AllocError>
    ensures { IfOk result (λ v. view v
        ≡ spec.image_data address.now (bytes_of_title title.now) description.now) }
{
    let title = text_or_null(alloc, title)?;
    json!(in alloc; {"type": "image", "url": address, "title": title, "alt": description})
}

/// The box of a task as its text.
fn box_text(is_checked: bool) -> &'static str
    ensures { result.now ≡ spec.box_text is_checked }
{
    if is_checked { "[x]" } else { "[ ]" }
}

fn push_value(out: &mut Vec<Value>, value: Value) -> Result<(), AllocError>
    ensures { IfOk result (λ _. items_view out.new.items
        ≡ spec.beside (items_view out.old.items) (spec.one_item (view value))) }
{
    out.push(value)?;
    Ok(())
}

/// Appends nodes between two pieces of HTML.
fn push_between(
    alloc: Global,
    out: &mut Vec<Value>,
    before: &str,
    mut children: Vec<Value>,
    after: &str,
) -> Result<(), AllocError>
    ensures { IfOk result (λ _. items_view out.new.items
        ≡ spec.beside (items_view out.old.items) (spec.between before.now (items_view children.items) after.now)) }
{
    out.push(with_value(alloc, "html", before)?)?;
    out.append(&mut children)?;
    out.push(with_value(alloc, "html", after)?)?;
    Ok(())
}

/// Appends a format, by what is in it.
fn push_format(
    alloc: Global,
    out: &mut Vec<Value>,
    format: Format,
    children: Vec<Value>,
) -> Result<(), AllocError>
    ensures { IfOk result (λ _. items_view out.new.items
        ≡ spec.beside (items_view out.old.items)
        (spec.format_data (of_format format) (items_view children.items))) }
{
    match format {
        Format::Emphasis => push_value(out, parent(alloc, "emphasis", children)?),
        Format::Strong => push_value(out, parent(alloc, "strong", children)?),
        Format::Deleted => push_value(out, parent(alloc, "delete", children)?),
    }
}

/// Appends an element of HTML, by what is in it.
fn push_element(
    alloc: Global,
    out: &mut Vec<Value>,
    element: InlineElement,
    children: Vec<Value>,
) -> Result<(), AllocError>
    ensures { IfOk result (λ _. items_view out.new.items
        ≡ spec.beside (items_view out.old.items)
        (spec.format_data (of_element element) (items_view children.items))) }
{
    push_between(
        alloc,
        out,
        inline_tag(element),
        children,
        end_of_inline(element),
    )
}

/// Appends an abbreviation, by what is in it.
fn push_abbreviation_node(
    alloc: Global,
    out: &mut Vec<Value>,
    title: &str,
    children: Vec<Value>,
) -> Result<(), AllocError>
    ensures { IfOk result (λ _. items_view out.new.items
        ≡ spec.beside (items_view out.old.items) (spec.abbreviation_data title.now (items_view children.items))) }
{
    let mut tag = String::with_capacity(alloc, title.len().saturating_add(15))?;
    push_abbreviation(&mut tag, title)?;
    push_between(alloc, out, &tag, children, END_OF_ABBREVIATION)
}

/// Appends an anchor.
fn push_anchor_node(
    alloc: Global,
    out: &mut Vec<Value>,
    id: &str,
    children: Vec<Value>,
) -> Result<(), AllocError>
    ensures { IfOk result (λ _. items_view out.new.items
        ≡ spec.beside (items_view out.old.items) (spec.anchor_data id.now (items_view children.items))) }
{
    let mut tag = String::with_capacity(alloc, id.len().saturating_add(9))?;
    push_anchor(&mut tag, id)?;
    push_between(alloc, out, &tag, children, END_OF_ANCHOR)
}

/// Appends an inline, by what is in it.
fn push_node(
    alloc: Global,
    out: &mut Vec<Value>,
    inline: &Inline,
    children: Vec<Value>,
) -> Result<(), AllocError>
    ensures { IfOk result (λ _. items_view out.new.items
        ≡ spec.beside (items_view out.old.items)
        (spec.node_data (inline_of inline.now) (items_view children.items))) }
{
    match inline {
        Inline::Text(text) => push_value(out, with_value(alloc, "text", text)?),
        Inline::Code(text) => push_value(out, with_value(alloc, "inlineCode", text)?),
        Inline::Formatted(format, _) => push_format(alloc, out, *format, children),
        Inline::Element(element, _) => push_element(alloc, out, *element, children),
        Inline::Abbreviation { title, .. } => push_abbreviation_node(alloc, out, title, children),
        Inline::Anchor(id) => push_anchor_node(alloc, out, id, children),
        Inline::Link { address, title, .. } => {
            push_value(out, link(alloc, address, title, children)?)
        }
        Inline::Image {
            address,
            title,
            description,
        } => push_value(out, image(alloc, address, title, description)?),
        Inline::LineBreak => push_value(out, bare(alloc, "break")?),
        Inline::Task(is_checked) => {
            push_value(out, with_value(alloc, "text", box_text(*is_checked))?)
        }
    }
}

/// What is in an inline.
#[cycle(inlines)]
fn children_of(alloc: Global, inline: &Inline) -> Result<Vec<Value>, AllocError>
    ensures { IfOk result (λ vs. items_view vs.items ≡ spec.children_data (inline_of inline.now)) }
{
    match inline {
        Inline::Formatted(_, content)
        | Inline::Element(_, content)
        | Inline::Abbreviation { content, .. }
        | Inline::Link { content, .. } => inlines_values(alloc, content),
        _ => Ok(Vec::new(alloc)),
    }
}

#[cycle(inlines)]
fn inlines_values(alloc: Global, inlines: &[Inline]) -> Result<Vec<Value>, AllocError>
    ensures { IfOk result (λ vs. items_view vs.items ≡ spec.inlines_data (inlines_of inlines.now)) }
{
    let mut values = Vec::with_capacity(alloc, inlines.len())?;
    for inline in inlines {
        let children = children_of(alloc, inline)?;
        push_node(alloc, &mut values, inline, children)?;
    }
    Ok(values)
}

/// A node with inlines in it.
fn around(alloc: Global, kind: &str, content: &[Inline]) -> Result<Value, AllocError>
    ensures { IfOk result (λ v. view v ≡ spec.parent kind.now (spec.inlines_data (inlines_of content.now))) }
{
    let children = inlines_values(alloc, content)?;
    parent(alloc, kind, children)
}

fn row(alloc: Global, cells: &[CellContent]) -> Result<Value, AllocError>
    ensures { IfOk result (λ v. view v ≡ spec.row_data (map (λ cell. inlines_of cell.items) cells.now)) }
{
    let mut children = Vec::with_capacity(alloc, cells.len())?;
    for cell in cells {
        children.push(around(alloc, "tableCell", cell)?)?;
    }
    parent(alloc, "tableRow", children)
}

fn alignment(alloc: Global, alignment: Alignment) -> Result<Value, AllocError>
    ensures { IfOk result (λ v. view v ≡ spec.alignment_data alignment) }
{
    match alignment {
        Alignment::None => Ok(Value::Null),
        Alignment::Left => json!(in alloc; "left"),
        Alignment::Center => json!(in alloc; "center"),
        Alignment::Right => json!(in alloc; "right"),
    }
}

fn alignments_values(alloc: Global, alignments: &[Alignment]) -> Result<Vec<Value>, AllocError>
    ensures { IfOk result (λ vs. items_view vs.items ≡ items_of (map spec.alignment_data alignments.now)) }
{
    let mut values = Vec::with_capacity(alloc, alignments.len())?;
    for a in alignments {
        values.push(alignment(alloc, *a)?)?;
    }
    Ok(values)
}

fn table_node(alloc: Global, align: Vec<Value>, children: Vec<Value>) -> Result<Value, AllocError>
    ensures { IfOk result (λ v. view v ≡ spec.table_node (items_view align.items) (items_view children.items)) }
{
    json!(in alloc; {"type": "table", "align": align, "children": children})
}

fn table(
    alloc: Global,
    alignments: &[Alignment],
    header: &[CellContent],
    rows: &[RowContent],
) -> Result<Value, AllocError>
    ensures { IfOk result (λ v. view v ≡ spec.table_data alignments.now
        (map (λ cell. inlines_of cell.items) header.now)
        (map (λ r. map (λ cell. inlines_of cell.items) r.items) rows.now)) }
{
    let mut children = Vec::with_capacity(alloc, 1)?;
    children.push(row(alloc, header)?)?;
    for cells in rows {
        children.push(row(alloc, cells)?)?;
    }
    let align = alignments_values(alloc, alignments)?;
    table_node(alloc, align, children)
}

fn heading(alloc: Global, level: u8, content: &[Inline]) -> Result<Value, AllocError>
    ensures { IfOk result (λ v. view v ≡ spec.heading_data level (spec.inlines_data (inlines_of content.now))) }
{
    let children = inlines_values(alloc, content)?;
    json!(in alloc; {"type": "heading", "depth": level, "children": children})
}

fn code_block(alloc: Global, language: &Option<String>, text: &str) -> Result<Value, AllocError>
    ensures { IfOk result (λ v. view v ≡ spec.code_data (bytes_of_title language.now) text.now) }
{
    let lang = text_or_null(alloc, language)?;
    json!(in alloc; {"type": "code", "lang": lang, "value": text})
}

/// A paragraph; the first one of an item has no box.
fn paragraph(alloc: Global, content: &[Inline], is_first: bool) -> Result<Value, AllocError>
    ensures { IfOk result (λ v. view v
        ≡ spec.parent (codes "paragraph") (spec.inlines_data (if is_first
        then spec.without_box (inlines_of content.now)
        else inlines_of content.now))) }
{
    match content {
        [Inline::Task(_), behind @ ..] if is_first => after_box(alloc, behind),
        _ => around(alloc, "paragraph", content),
    }
}

/// A paragraph that follows the box of a task, without a space after it.
fn after_box(alloc: Global, content: &[Inline]) -> Result<Value, AllocError>
    ensures { IfOk result (λ v. view v
        ≡ spec.parent (codes "paragraph") (spec.inlines_data (spec.after_box (inlines_of content.now)))) }
{
    let [Inline::Text(first), behind @ ..] = content else {
        return around(alloc, "paragraph", content);
    };
    text_before(alloc, without_space(first), behind)
}

/// The text without a space that begins it.
fn without_space(text: &str) -> &str
    ensures { result.now ≡ spec.without_space text.now }
{
    match text.strip_prefix(' ') {
        Some(rest) => rest,
        None => text,
    }
}

/// A paragraph of a text, if there is one, and inlines.
fn text_before(alloc: Global, text: &str, behind: &[Inline]) -> Result<Value, AllocError>
    ensures { IfOk result (λ v. view v
        ≡ spec.parent (codes "paragraph") (spec.inlines_data (spec.text_before text.now (inlines_of behind.now)))) }
{
    let mut children = inlines_values(alloc, behind)?;
    if text.is_empty() {
        return parent(alloc, "paragraph", children);
    }
    children.insert(0, with_value(alloc, "text", text)?)?;
    parent(alloc, "paragraph", children)
}

/// Whether an item is a task, and whether it is checked.
fn checked(blocks: &[Block]) -> Value
    ensures { view result ≡ spec.checked_data (blocks_of blocks.now) }
{
    let [Block::Paragraph(content), ..] = blocks else {
        return Value::Null;
    };
    match content.as_slice() {
        [Inline::Task(is_checked), ..] => Value::Bool(*is_checked),
        _ => Value::Null,
    }
}

fn item(
    alloc: Global,
    tight: bool,
    checked: Value,
    children: Vec<Value>,
) -> Result<Value, AllocError>
    ensures { IfOk result (λ v. view v ≡ spec.item_data tight (view checked) (items_view children.items)) }
{
    json!(in alloc; {"type": "listItem", "spread": !tight, "checked": checked, "children": children})
}

fn number_or_null(number: Option<u32>) -> Value
    ensures { view result ≡ spec.number_or_null number }
{
    match number {
        Some(number) => Value::from(number),
        None => Value::Null,
    }
}

fn list(
    alloc: Global,
    start: Option<u32>,
    tight: bool,
    children: Vec<Value>,
) -> Result<Value, AllocError>
    ensures { IfOk result (λ v. view v ≡ spec.list_data start tight (items_view children.items)) }
{
    let ordered = start.is_some();
    let start = number_or_null(start);
    json!(in alloc; {
        "type": "list", "ordered": ordered, "start": start, "spread": !tight, "children": children
    })
}

/// A block, by what is in it; the first one of an item has no box.
fn block_value(
    alloc: Global,
    block: &Block,
    is_first: bool,
    children: Vec<Value>,
) -> Result<Value, AllocError>
    ensures { IfOk result (λ v. view v
        ≡ spec.block_data is_first (flat.flat_block (block_of block.now)) (items_view children.items)) }
{
    match block {
        Block::Paragraph(content) => paragraph(alloc, content, is_first),
        Block::Heading { level, content } => heading(alloc, *level, content),
        Block::CodeBlock { language, text } => code_block(alloc, language, text),
        Block::Quote(_) => parent(alloc, "blockquote", children),
        Block::ThematicBreak => bare(alloc, "thematicBreak"),
        Block::List { start, tight, .. } => list(alloc, *start, *tight, children),
        Block::Table {
            alignments,
            header,
            rows,
        } => table(alloc, alignments, header, rows),
        Block::Element { .. } => Ok(Value::Null),
    }
}

/// A block or lines of tags.
fn flat_value(
    alloc: Global,
    block: &FlatBlock,
    is_first: bool,
    children: Vec<Value>,
) -> Result<Value, AllocError>
    ensures { IfOk result (λ v. view v
        ≡ spec.block_data is_first (flat_of block.now) (items_view children.items)) }
{
    match block {
        FlatBlock::Tags(text) => with_value(alloc, "html", text),
        FlatBlock::Block(block) => block_value(alloc, block, is_first, children),
    }
}

/// What is in a block.
#[cycle(blocks)]
fn values_within(alloc: Global, block: &Block) -> Result<Vec<Value>, AllocError>
    ensures { IfOk result (λ vs. items_view vs.items ≡ spec.within_data (flat.flat_block (block_of block.now))) }
{
    match block {
        Block::Quote(blocks) => blocks_values(alloc, blocks, false),
        Block::List { tight, items, .. } => {
            let mut values = Vec::with_capacity(alloc, items.len())?;
            for blocks in items {
                let children = blocks_values(alloc, blocks, true)?;
                values.push(item(alloc, *tight, checked(blocks), children)?)?;
            }
            Ok(values)
        }
        _ => Ok(Vec::new(alloc)),
    }
}

/// What is in a block, or nothing in lines of tags.
#[cycle(blocks)]
fn values_in_flat(alloc: Global, block: &FlatBlock) -> Result<Vec<Value>, AllocError>
    ensures { IfOk result (λ vs. items_view vs.items ≡ spec.within_data (flat_of block.now)) }
{
    match block {
        FlatBlock::Tags(_) => Ok(Vec::new(alloc)),
        FlatBlock::Block(block) => values_within(alloc, block),
    }
}

#[cycle(blocks)]
fn blocks_values(alloc: Global, blocks: &[Block], in_item: bool) -> Result<Vec<Value>, AllocError>
    ensures { IfOk result (λ vs. items_view vs.items
        ≡ spec.blocks_data in_item (flat.flattened (blocks_of blocks.now))) }
{
    let flat = flattened(alloc, blocks)?;
    let mut values = Vec::with_capacity(alloc, flat.len())?;
    for block in &flat {
        let children = values_in_flat(alloc, block)?;
        let is_first = in_item & values.is_empty();
        values.push(flat_value(alloc, block, is_first, children)?)?;
    }
    Ok(values)
}
