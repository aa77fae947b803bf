//! Blocks of what is in them: headings, quotes, elements and tables.
ghost use Rattle.std.specs.Prelude.{◌≡◌, IfOk, OnOk, map};
ghost use Rattle.htmd_document.specs.DocumentViews.{attribute_of, blocks_of, inlines_of};
ghost use Rattle.htmd_lexical.specs.Attributes.{pairs_of};
ghost use Rattle.htmd_flow.specs.Flows as spec;
ghost use Rattle.htmd_flow.specs.Grids as grids;
ghost use Rattle.htmd_flow.specs.GridViews.{row_of};
ghost use Rattle.htmd_flow.specs.ParagraphViews.{writing_in};
ghost use Rattle.htmd_flow.specs.Paragraphs.{fed_all};

use crate::grid::{Row, table_of_rows};
use crate::paragraphs::Paragraphs;
use htmd_document::{AttributeName, Block, BlockAttribute, BlockElement, Inline};
use htmd_nodes::{Attribute, value_of};
use std::alloc::{AllocError, Global};

/// Adds a heading, if something is in it.
pub(crate) fn push_heading(
    out: &mut Paragraphs,
    level: u8,
    content: Vec<Inline>,
) -> Result<(), AllocError>
    ensures { OnOk result (writing_in out.new ≡ fed_all (writing_in out.old)
        (spec.heading_of level (inlines_of content.items))) }
{
    if content.is_empty() {
        return Ok(());
    }
    out.block(Block::Heading { level, content })
}

/// Adds a quote, if something is in it.
pub(crate) fn push_quote(out: &mut Paragraphs, content: Vec<Block>) -> Result<(), AllocError>
    ensures { OnOk result (writing_in out.new ≡ fed_all (writing_in out.old)
        (spec.quote_of (blocks_of content.items))) }
{
    if content.is_empty() {
        return Ok(());
    }
    out.block(Block::Quote(content))
}

/// Adds an element, if something is in it.
pub(crate) fn push_element(
    out: &mut Paragraphs,
    name: BlockElement,
    attributes: Vec<BlockAttribute>,
    content: Vec<Block>,
) -> Result<(), AllocError>
    ensures { OnOk result (writing_in out.new ≡ fed_all (writing_in out.old)
        (spec.element_part name (map attribute_of attributes.items) (blocks_of content.items))) }
{
    if content.is_empty() {
        return Ok(());
    }
    out.block(Block::Element {
        name,
        attributes,
        content,
    })
}

/// The attribute of `details` that are open.
pub(crate) fn open_attribute(
    alloc: Global,
    attrs: &[Attribute],
) -> Result<Vec<BlockAttribute>, AllocError>
    ensures { IfOk result (λ attributes. map attribute_of attributes.items
        ≡ spec.open_attribute (pairs_of attrs.now)) }
{
    let mut attributes = Vec::new(alloc);
    if value_of(attrs, "open").is_some() {
        attributes.push(BlockAttribute {
            name: AttributeName::Open,
            value: String::new(alloc),
        })?;
    }
    Ok(attributes)
}

/// Whether the blocks are a paragraph at most.
pub(crate) fn is_paragraph_at_most(blocks: &[Block]) -> bool
    ensures { result ≡ spec.is_paragraph_at_most (blocks_of blocks.now) }
{
    match blocks {
        [] => true,
        [block] => matches!(block, Block::Paragraph(_)),
        _ => false,
    }
}

/// Adds the table of these rows, if something shows in it.
pub(crate) fn push_table(
    alloc: Global,
    rows: Vec<Row>,
    out: &mut Paragraphs,
) -> Result<(), AllocError>
    ensures { OnOk result (writing_in out.new ≡ fed_all (writing_in out.old)
        (spec.block_part (grids.table_of_rows (map row_of rows.items)))) }
{
    match table_of_rows(alloc, rows)? {
        Some(block) => out.block(block),
        None => Ok(()),
    }
}
