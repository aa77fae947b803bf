//! What a list is cut into.
ghost use Rattle.std.specs.Prelude.{◌≡◌, ◌+◌, ◌<◌, ◌≤◌, ◌^◌, IfOk, OnOk, length, map};
ghost use Rattle.htmd_commonmark.specs.BlockViews.{all_items_of};
ghost use Rattle.htmd_document.specs.DocumentViews.{blocks_of};
ghost use Rattle.htmd_chunks.specs.ChunkViews.{block_part_of, list_filling_of, part_of};
ghost use Rattle.htmd_chunks.specs.Cuts as spec;
ghost use Rattle.htmd_chunks.specs.Fillings.{list_filling, list_parts_in};
ghost use Rattle.htmd_chunks.specs.Least.{empties_before};
ghost use Rattle.htmd_chunks.specs.Measures.{gap, item_width};
ghost use Rattle.htmd_chunks.specs.Sizes.{in_item};

use crate::bounds::{Bounds, ListShape};
use crate::cut::split;
use crate::filling::{BlockPart, Limits, Part};
use crate::least::{empties_before, group_cost, least_among};
use crate::list_filling::{ListFilling, PartBytes};
use crate::measures::{blocks_size, empties_cost, gap};
use crate::numbers::sum;
use crate::size::Margin;
use htmd_document::ItemContent;
use std::alloc::{AllocError, Global};
use std::mem;

/// The parts of a list whose items aren't all empty. `Err` means out of memory.
#[cycle(cut)]
pub(crate) fn cut_items(
    alloc: Global,
    bounds: &Bounds,
    margin: Margin,
    list: ListShape,
    first: usize,
    items: Vec<ItemContent>,
) -> Result<Vec<BlockPart>, AllocError>
    requires items { length items.items < 2 ^ 63 }
    requires count { list.count < 2 ^ 63 }
    ensures { IfOk result (λ parts. map block_part_of parts.items ≡ list_parts_in list
        (spec.items_filled bounds.now margin list (list_filling first) 0
        (empties_before (all_items_of items.items)) (all_items_of items.items))) }
{
    let limits = Limits {
        most: bounds.most,
        gap: gap(margin, list.is_tight)?,
    };
    let mut filling = ListFilling::new(alloc, list, first, limits);
    let mut before = empties_before(&items);
    let mut after: usize = 0;
    let mut place: usize = 0;
    let mut last = None;
    for item in items {
        if item.is_empty() {
            after = sum(after, 1)?;
        } else {
            let next = Some(Group {
                place,
                before,
                item,
            });
            if let Some(group) = mem::replace(&mut last, next) {
                push_group(alloc, bounds, margin, list, &mut filling, group, after)?;
            }
            before = 0;
            after = 0;
        }
        place = sum(place, 1)?;
    }
    if let Some(group) = last {
        push_group(alloc, bounds, margin, list, &mut filling, group, after)?;
    }
    filling.into_parts()
}

/// An item at this place, with so many empty ones before it.
#[derive(Drop)]
struct Group {
    place: usize,
    before: usize,
    item: ItemContent,
}

/// Puts an item behind, with the empty ones before it and so many after it.
#[cycle(cut)]
fn push_group(
    alloc: Global,
    bounds: &Bounds,
    margin: Margin,
    list: ListShape,
    filling: &mut ListFilling,
    group: Group,
    after: usize,
) -> Result<(), AllocError>
    requires most { filling.old.limits.most ≡ bounds.now.most }
    requires gap { filling.old.limits.gap ≡ gap margin list.is_tight }
    requires list { filling.old.list ≡ list }
    requires count { list.count < 2 ^ 63 }
    requires before { group.before ≤ group.place }
    requires place { group.place + after + 1 < 2 ^ 63 }
    ensures filling { OnOk result (list_filling_of filling.new ≡ spec.with_group bounds.now margin list
        (list_filling_of filling.old) group.place group.before (blocks_of group.item.items) after
        (λ room. spec.split bounds.now (in_item (item_width bounds.now.options list group.place) margin)
        list.is_tight room (blocks_of group.item.items))) }
    ensures limits { filling.new.limits ≡ filling.old.limits }
    ensures list { filling.new.list ≡ filling.old.list }
{
    let Group {
        place,
        before,
        item,
    } = group;
    let from = place - before;
    let heads = empties_cost(margin, list, from, before)?;
    let whole = group_cost(alloc, bounds, margin, list, place, heads, &item, after)?;
    if whole <= bounds.most {
        return filling.push_whole(from, before, item, after, whole);
    }
    let within = margin.in_item(list.item_width(&bounds.options, place)?)?;
    let least = least_among(alloc, bounds, within, list.is_tight, &item)?;
    filling.make_room(from, sum(heads, least)?)?;
    let room = filling.room(heads)?;
    let parts = split(alloc, bounds, within, list.is_tight, room, item)?;
    let bytes = PartBytes {
        heads,
        last: cost_of_last(alloc, bounds, within, list.is_tight, &parts)?,
        tail: empties_cost(margin, list, place + 1, after)?,
    };
    filling.push_parts(place, before, parts, after, bytes)
}

/// How many bytes the last part of blocks takes.
fn cost_of_last(
    alloc: Global,
    bounds: &Bounds,
    margin: Margin,
    is_tight: bool,
    parts: &[Part],
) -> Result<usize, AllocError>
    ensures { IfOk result (λ bytes. bytes
        ≡ spec.cost_of_last_blocks bounds.now margin is_tight (map part_of parts.now)) }
{
    match parts {
        [.., part] => { margin.cost(blocks_size(alloc, &bounds.options, &part.blocks, is_tight)?) }
        [] => Ok(0),
    }
}
