//! The least of a block that can be in a piece.
ghost use Rattle.std.specs.Prelude.{◌≡◌, ◌<◌, ◌≤◌, ◌+◌, ◌^◌, ◌&&◌, not, nat_lt, IfOk, length};
ghost use Rattle.htmd_commonmark.specs.BlockViews.{all_items_of};
ghost use Rattle.htmd_document.specs.DocumentViews.{block_of, blocks_of};
ghost use Rattle.htmd_chunks.specs.Least as spec;

use crate::bounds::{Bounds, ListShape};
use crate::code_lines::least_lines;
use crate::kinds::{is_heading, is_rule};
use crate::measures::{block_cost, empties_cost, gap, item_size};
use crate::numbers::sum;
use crate::rows::least_rows;
use crate::size::Margin;
use crate::words::least_words;
use htmd_document::{Block, ItemContent};
use std::alloc::{AllocError, Global};

/// Whether a block after headings of this cost doesn't fit in a piece, and can be cut; `bytes`: what both take.
pub(crate) fn is_too_large(bounds: &Bounds, block: &Block, bytes: usize) -> bool
    ensures { result ≡ (not (spec.is_rule (block_of block.now)) && nat_lt bounds.now.most bytes) }
{
    !is_rule(block) && bytes > bounds.most
}

/// How many empty items come first.
pub(crate) fn empties_before(items: &[ItemContent]) -> usize
    ensures value { result ≡ spec.empties_before (all_items_of items.now) }
    ensures bound { result ≤ length items.now }
{
    for (i, item) in items.iter().enumerate() {
        if !item.is_empty() {
            return i;
        }
    }
    items.len()
}

/// The bytes of the least of a block. `Err` means out of memory.
#[cycle(least)]
pub(crate) fn least(
    alloc: Global,
    bounds: &Bounds,
    margin: Margin,
    block: &Block,
) -> Result<usize, AllocError>
    ensures { IfOk result (λ bytes. bytes ≡ spec.least bounds.now margin (block_of block.now)) }
{
    match block {
        Block::Quote(content) => { least_among(alloc, bounds, margin.in_quote()?, false, content) }
        Block::List {
            start,
            tight,
            items,
        } => {
            let list = ListShape {
                start: *start,
                is_tight: *tight,
                count: items.len(),
            };
            least_item(alloc, bounds, margin, list, items)
        }
        Block::Table {
            alignments,
            header,
            rows,
        } => least_rows(alloc, bounds, margin, alignments, header, rows),
        Block::CodeBlock { language, text } => {
            least_lines(alloc, bounds, margin, language, text)
        }
        Block::Paragraph(content) => least_words(alloc, bounds, margin, content),
        _ => block_cost(alloc, &bounds.options, margin, block),
    }
}

/// The bytes of headings, and of the block after them or the least of it. `Err` means out of memory.
#[cycle(least)]
pub(crate) fn least_among(
    alloc: Global,
    bounds: &Bounds,
    margin: Margin,
    is_tight: bool,
    blocks: &[Block],
) -> Result<usize, AllocError>
    ensures { IfOk result (λ bytes. bytes
        ≡ spec.least_among bounds.now margin is_tight 0 (blocks_of blocks.now)) }
{
    let mut heads: usize = 0;
    for (i, block) in blocks.iter().enumerate() {
        let whole = sum(heads, block_cost(alloc, &bounds.options, margin, block)?)?;
        if !is_heading(block) {
            if is_too_large(bounds, block, whole) {
                return sum(heads, least(alloc, bounds, margin, block)?);
            }
            return Ok(whole);
        }
        if i + 1 == blocks.len() {
            return Ok(whole);
        }
        heads = sum(whole, gap(margin, is_tight)?)?;
    }
    Ok(heads)
}

/// The bytes of an item at this place that isn't empty, and of the empty ones beside it; `heads`: those of the ones
/// before it.
pub(crate) fn group_cost(
    alloc: Global,
    bounds: &Bounds,
    margin: Margin,
    list: ListShape,
    place: usize,
    heads: usize,
    content: &[Block],
    empties: usize,
) -> Result<usize, AllocError>
    requires place { place + empties + 1 < 2 ^ 63 }
    requires count { list.count < 2 ^ 63 }
    ensures { IfOk result (λ bytes. bytes
        ≡ spec.group_cost bounds.now margin list place heads (blocks_of content.now) empties) }
{
    let item = margin.cost(item_size(alloc, &bounds.options, list, place, content)?)?;
    sum(
        sum(heads, item)?,
        empties_cost(margin, list, place + 1, empties)?,
    )
}

/// The bytes of the first item that isn't empty, with the empty ones beside it, or the least of it.
#[cycle(least)]
fn least_item(
    alloc: Global,
    bounds: &Bounds,
    margin: Margin,
    list: ListShape,
    items: &[ItemContent],
) -> Result<usize, AllocError>
    requires items { length items.now < 2 ^ 63 }
    requires count { list.count < 2 ^ 63 }
    ensures { IfOk result (λ bytes. bytes
        ≡ spec.least_item bounds.now margin list 0 0 (all_items_of items.now)) }
{
    let place = empties_before(items);
    let heads = empties_cost(margin, list, 0, place)?;
    if place == items.len() {
        return Ok(heads);
    }
    let item = &items[place];
    let empties = empties_before(&items[place + 1..]);
    let whole = group_cost(alloc, bounds, margin, list, place, heads, item, empties)?;
    if whole <= bounds.most {
        return Ok(whole);
    }
    let within = margin.in_item(list.item_width(&bounds.options, place)?)?;
    sum(
        heads,
        least_among(alloc, bounds, within, list.is_tight, item)?,
    )
}
