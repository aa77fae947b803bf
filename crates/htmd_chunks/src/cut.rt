//! What blocks are cut into, each part with as much as fits.
ghost use Rattle.std.specs.Prelude.{◌≡◌, ◌+◌, ◌∷◌, ◌++◌, [], IfOk, OnOk, map};
ghost use Rattle.htmd_commonmark.specs.BlockViews.{all_items_of};
ghost use Rattle.htmd_document.specs.Documents as value;
ghost use Rattle.htmd_document.specs.DocumentViews.{block_of, blocks_of};
ghost use Rattle.htmd_chunks.specs.ChunkViews.{block_part_of, filling_of, part_of};
ghost use Rattle.htmd_chunks.specs.Cuts as spec;

use crate::bounds::{Bounds, ListShape};
use crate::code_lines::code_parts;
use crate::cut_list::cut_items;
use crate::filling::{BlockPart, Filling, Limits, Part};
use crate::joint::Joint;
use crate::kinds::is_heading;
use crate::least::{empties_before, is_too_large, least};
use crate::measures::{block_cost, gap};
use crate::numbers::sum;
use crate::rows::table_parts;
use crate::size::Margin;
use crate::words::paragraph_parts;
use htmd_document::{Block, ItemContent};
use std::alloc::{AllocError, Global};
use std::mem;

/// The parts of blocks, of which the first may have so many bytes. `Err` means out of memory.
#[cycle(cut)]
pub(crate) fn split(
    alloc: Global,
    bounds: &Bounds,
    margin: Margin,
    is_tight: bool,
    first: usize,
    blocks: Vec<Block>,
) -> Result<Vec<Part>, AllocError>
    ensures { IfOk result (λ parts. map part_of parts.items
        ≡ spec.split bounds.now margin is_tight first (blocks_of blocks.items)) }
{
    let gap = gap(margin, is_tight)?;
    let limits = Limits {
        most: bounds.most,
        gap,
    };
    let mut filling = Filling::new(alloc, first, limits);
    let mut heads = Heads::new(alloc);
    for block in blocks {
        if is_heading(&block) {
            let bytes = block_cost(alloc, &bounds.options, margin, &block)?;
            heads.push(block, bytes, gap)?;
        } else {
            let before = mem::replace(&mut heads, Heads::new(alloc));
            push_unit(alloc, bounds, margin, &mut filling, before, block)?;
        }
    }
    if !heads.blocks.is_empty() {
        filling.push_whole(heads.blocks, heads.bytes.saturating_sub(gap))?;
    }
    filling.into_parts()
}

/// Headings that wait for the block after them, and what they take, each with a gap.
#[derive(Drop)]
struct Heads {
    blocks: Vec<Block>,
    bytes: usize,
}

impl Heads {
    fn new(alloc: Global) -> Heads
        ensures blocks { result.blocks.items ≡ [] }
        ensures bytes { result.bytes ≡ 0 }
    {
        Heads {
            blocks: Vec::new(alloc),
            bytes: 0,
        }
    }

    /// Adds a heading of this many bytes.
    fn push(&mut self, block: Block, bytes: usize, gap: usize) -> Result<(), AllocError>
        ensures blocks { OnOk result (self.new.blocks.items ≡ self.old.blocks.items ++ block ∷ []) }
        ensures bytes { OnOk result (self.new.bytes ≡ self.old.bytes + (bytes + gap)) }
    {
        self.blocks.push(block)?;
        self.bytes = sum(self.bytes, sum(bytes, gap)?)?;
        Ok(())
    }
}

/// Puts headings and the block after them behind.
#[cycle(cut)]
fn push_unit(
    alloc: Global,
    bounds: &Bounds,
    margin: Margin,
    filling: &mut Filling,
    heads: Heads,
    block: Block,
) -> Result<(), AllocError>
    requires { filling.old.limits.most ≡ bounds.now.most }
    ensures filling { OnOk result (filling_of filling.new ≡ spec.with_unit bounds.now margin
        filling.old.limits.gap (filling_of filling.old) (map block_of heads.blocks.items) heads.bytes
        (block_of block) (λ room. spec.cut bounds.now margin room (block_of block))) }
    ensures limits { filling.new.limits ≡ filling.old.limits }
{
    let bytes = sum(
        heads.bytes,
        block_cost(alloc, &bounds.options, margin, &block)?,
    )?;
    if is_too_large(bounds, &block, bytes) {
        let least = sum(heads.bytes, least(alloc, bounds, margin, &block)?)?;
        filling.push_heads(heads.blocks, heads.bytes, least)?;
        let parts = cut(alloc, bounds, margin, filling.room(), block)?;
        let last = cost_of_last(alloc, bounds, margin, &parts)?;
        return filling.push_parts(parts, last);
    }
    let mut blocks = heads.blocks;
    blocks.push(block)?;
    filling.push_whole(blocks, bytes)
}

/// How many bytes the last part of a block takes.
fn cost_of_last(
    alloc: Global,
    bounds: &Bounds,
    margin: Margin,
    parts: &[BlockPart],
) -> Result<usize, AllocError>
    ensures { IfOk result (λ bytes. bytes
        ≡ spec.cost_of_last bounds.now margin (map block_part_of parts.now)) }
{
    match parts {
        [.., part] => block_cost(alloc, &bounds.options, margin, &part.block),
        [] => Ok(0),
    }
}

/// The parts of a block, of which the first may have so many bytes. `Err` means out of memory.
#[cycle(cut)]
fn cut(
    alloc: Global,
    bounds: &Bounds,
    margin: Margin,
    first: usize,
    block: Block,
) -> Result<Vec<BlockPart>, AllocError>
    ensures { IfOk result (λ parts. map block_part_of parts.items
        ≡ spec.cut bounds.now margin first (block_of block)) }
{
    match block {
        Block::Quote(content) => {
            let margin = margin.in_quote()?;
            quote_parts(alloc, split(alloc, bounds, margin, false, first, content)?)
        }
        Block::List {
            start,
            tight,
            items,
        } => cut_list(alloc, bounds, margin, first, start, tight, items),
        Block::Table {
            alignments,
            header,
            rows,
        } => {
            let parts = table_parts(alloc, bounds, margin, first, alignments, header, rows)?;
            leaf_parts(alloc, Joint::Table, parts)
        }
        Block::CodeBlock { language, text } => {
            let parts = code_parts(alloc, bounds, margin, first, &language, &text)?;
            leaf_parts(alloc, Joint::Code, parts)
        }
        Block::Paragraph(content) => {
            let parts = paragraph_parts(alloc, bounds, margin, first, &content)?;
            leaf_parts(alloc, Joint::Paragraph, parts)
        }
        block => whole(alloc, block),
    }
}

/// The parts of a list; one of empty items alone isn't cut.
#[cycle(cut)]
fn cut_list(
    alloc: Global,
    bounds: &Bounds,
    margin: Margin,
    first: usize,
    start: Option<u32>,
    tight: bool,
    items: Vec<ItemContent>,
) -> Result<Vec<BlockPart>, AllocError>
    ensures { IfOk result (λ parts. map block_part_of parts.items
        ≡ spec.cut bounds.now margin first (value.list start tight (all_items_of items.items))) }
{
    let list = ListShape {
        start,
        is_tight: tight,
        count: items.len(),
    };
    if empties_before(&items) == items.len() {
        return whole(
            alloc,
            Block::List {
                start,
                tight,
                items,
            },
        );
    }
    cut_items(alloc, bounds, margin, list, first, items)
}

/// A block that isn't cut.
fn whole(alloc: Global, block: Block) -> Result<Vec<BlockPart>, AllocError>
    ensures { IfOk result (λ parts. map block_part_of parts.items ≡ spec.whole (block_of block)) }
{
    let mut parts = Vec::with_capacity(alloc, 1)?;
    parts.push(BlockPart {
        block,
        continues: Vec::new(alloc),
    })?;
    Ok(parts)
}

/// Blocks that are parts of one: each but the first goes on with the one before.
fn leaf_parts(alloc: Global, joint: Joint, blocks: Vec<Block>) -> Result<Vec<BlockPart>, AllocError>
    ensures { IfOk result (λ parts. map block_part_of parts.items
        ≡ spec.leaf_parts joint (map block_of blocks.items)) }
{
    let mut parts = Vec::with_capacity(alloc, blocks.len())?;
    for block in blocks {
        let mut continues = Vec::new(alloc);
        if !parts.is_empty() {
            continues.push(joint)?;
        }
        parts.push(BlockPart { block, continues })?;
    }
    Ok(parts)
}

/// Quotes of what one was cut into.
fn quote_parts(alloc: Global, contents: Vec<Part>) -> Result<Vec<BlockPart>, AllocError>
    ensures { IfOk result (λ parts. map block_part_of parts.items
        ≡ spec.quote_parts (map part_of contents.items)) }
{
    let mut parts = Vec::with_capacity(alloc, contents.len())?;
    for part in contents {
        let mut continues = Vec::new(alloc);
        if !parts.is_empty() {
            continues.push(Joint::Quote)?;
            continues.extend_from_slice(&part.continues)?;
        }
        parts.push(BlockPart {
            block: Block::Quote(part.blocks),
            continues,
        })?;
    }
    Ok(parts)
}
