//! The sizes of blocks.
ghost use Rattle.std.specs.Prelude.{◌≡◌, ◌<◌, ◌+◌, ◌^◌, IfOk, length};
ghost use Rattle.htmd_commonmark.specs.BlockViews.{all_items_of};
ghost use Rattle.htmd_document.specs.DocumentViews.{block_of, blocks_of};
ghost use Rattle.htmd_chunks.specs.Measures as spec;

use crate::bounds::ListShape;
use crate::numbers::sum;
use crate::size::{Margin, Size};
use htmd_commonmark::{DocumentOptions, blocks_to_markdown};
use htmd_document::{Block, ItemContent};
use std::alloc::{AllocError, Global};
use std::slice;

/// The size of a block. `Err` means out of memory.
#[cycle(sizes)]
pub(crate) fn block_size(
    alloc: Global,
    options: &DocumentOptions,
    block: &Block,
) -> Result<Size, AllocError>
    ensures { IfOk result (λ size. size ≡ spec.block_size options.now (block_of block.now)) }
{
    match block {
        Block::Quote(content) => blocks_size(alloc, options, content, false)?.quoted(),
        Block::List {
            start,
            tight,
            items,
        } => {
            let list = ListShape {
                start: *start,
                is_tight: *tight,
                count: items.len(),
            };
            items_size(alloc, options, list, items)
        }
        _ => written_size(alloc, options, block),
    }
}

/// The size of a block as it is written alone.
fn written_size(alloc: Global, options: &DocumentOptions, block: &Block) -> Result<Size, AllocError>
    ensures { IfOk result (λ size. size ≡ spec.written_size options.now (block_of block.now)) }
{
    let text = blocks_to_markdown(alloc, slice::from_ref(block), options)?;
    Size::of_text(&text)
}

/// The size of blocks with gaps between them.
#[cycle(sizes)]
pub(crate) fn blocks_size(
    alloc: Global,
    options: &DocumentOptions,
    blocks: &[Block],
    is_tight: bool,
) -> Result<Size, AllocError>
    ensures { IfOk result
        (λ size. size ≡ spec.blocks_size options.now is_tight (blocks_of blocks.now)) }
{
    let mut size = Size::NOTHING;
    for (i, block) in blocks.iter().enumerate() {
        if i > 0 {
            size = size.plus(Size::of_gap(is_tight))?;
        }
        size = size.plus(block_size(alloc, options, block)?)?;
    }
    Ok(size)
}

/// The size of an item at this place.
#[cycle(sizes)]
pub(crate) fn item_size(
    alloc: Global,
    options: &DocumentOptions,
    list: ListShape,
    place: usize,
    content: &[Block],
) -> Result<Size, AllocError>
    requires place { place < 2 ^ 63 }
    requires count { list.count < 2 ^ 63 }
    ensures { IfOk result
        (λ size. size ≡ spec.item_size options.now list place (blocks_of content.now)) }
{
    if content.is_empty() {
        return list.empty_item_size(place);
    }
    blocks_size(alloc, options, content, list.is_tight)?.indented(list.item_width(options, place)?)
}

/// The size of the items of a list.
#[cycle(sizes)]
fn items_size(
    alloc: Global,
    options: &DocumentOptions,
    list: ListShape,
    items: &[ItemContent],
) -> Result<Size, AllocError>
    requires items { length items.now < 2 ^ 63 }
    requires count { list.count < 2 ^ 63 }
    ensures { IfOk result
        (λ size. size ≡ spec.items_size options.now list 0 (all_items_of items.now)) }
{
    let mut size = Size::NOTHING;
    for (i, item) in items.iter().enumerate() {
        if i > 0 {
            size = size.plus(Size::of_gap(list.is_tight))?;
        }
        size = size.plus(item_size(alloc, options, list, i, item)?)?;
    }
    Ok(size)
}

/// The bytes of a gap after a margin.
pub(crate) fn gap(margin: Margin, is_tight: bool) -> Result<usize, AllocError>
    ensures { IfOk result (λ bytes. bytes ≡ spec.gap margin is_tight) }
{
    margin.cost(Size::of_gap(is_tight))
}

/// The bytes of a block after a margin.
pub(crate) fn block_cost(
    alloc: Global,
    options: &DocumentOptions,
    margin: Margin,
    block: &Block,
) -> Result<usize, AllocError>
    ensures { IfOk result
        (λ bytes. bytes ≡ spec.block_cost options.now margin (block_of block.now)) }
{
    margin.cost(block_size(alloc, options, block)?)
}

/// The bytes of so many empty items from this place on, each with a gap.
pub(crate) fn empties_cost(
    margin: Margin,
    list: ListShape,
    place: usize,
    count: usize,
) -> Result<usize, AllocError>
    requires { place + count < 2 ^ 63 }
    ensures { IfOk result (λ bytes. bytes ≡ spec.empties_cost margin list place count) }
{
    let mut bytes: usize = 0;
    for i in 0..count {
        bytes = sum(bytes, margin.cost(list.empty_item_size(place + i)?)?)?;
        bytes = sum(bytes, gap(margin, list.is_tight)?)?;
    }
    Ok(bytes)
}
