//! Filling a piece with items of a list, as long as something fits.
ghost use Rattle.std.specs.Prelude.{◌≡◌, ◌+◌, ◌-◌, ◌∷◌, ◌++◌, [], IfOk, OnOk, map, not, option_map, replicate};
ghost use Rattle.htmd_commonmark.specs.BlockViews.{all_items_of};
ghost use Rattle.htmd_document.specs.Documents.{no_blocks};
ghost use Rattle.htmd_document.specs.DocumentViews.{block_of, blocks_of};
ghost use Rattle.htmd_document.specs.FlatDocuments.{flat_items};
ghost use Rattle.htmd_document.specs.NormalDocuments.{is_spread};
ghost use Rattle.htmd_chunks.specs.ChunkViews.{list_filling_of, part_of, block_part_of};
ghost use Rattle.htmd_chunks.specs.Fillings as spec;

use crate::bounds::ListShape;
use crate::filling::{BlockPart, Limits, Part};
use crate::joint::Joint;
use crate::numbers::sum;
use htmd_document::{Block, ItemContent, flattened};
use std::alloc::{AllocError, Global};
use std::mem;

/// The parts of a list so far, and what is in the next one.
#[derive(Drop)]
pub(crate) struct ListFilling {
    alloc: Global,
    list: ListShape,
    done: Vec<BlockPart>,
    next: Vec<ItemContent>,
    /// The place of its first item in the list.
    first: usize,
    /// The bytes of what is in it.
    used: usize,
    /// How many it may have.
    free: usize,
    continues: Vec<Joint>,
    limits: Limits,
}

/// Whether a list of these items can't be loose: of one item at most, with one block at most as it is written.
fn is_short(alloc: Global, items: &[ItemContent]) -> Result<bool, AllocError>
    ensures { IfOk result (λ short. short ≡ not (is_spread (flat_items (all_items_of items.now)))) }
{
    match items {
        [] => Ok(true),
        [item] => Ok(flattened(alloc, item)?.len() < 2),
        _ => Ok(false),
    }
}

/// The number of the item at this place. `Err` where that is no number.
fn number(start: u32, place: usize) -> Result<u32, AllocError>
    ensures { IfOk result (λ number. number ≡ start + place) }
{
    match u32::try_from(place) {
        Ok(place) => match start.checked_add(place) {
            Some(number) => Ok(number),
            None => Err(AllocError),
        },
        Err(_) => Err(AllocError),
    }
}

/// The start of a part whose first item is at this place.
fn start_at(list: ListShape, place: usize) -> Result<Option<u32>, AllocError>
    ensures { IfOk result (λ first. first ≡ option_map (λ start. start + place) list.start) }
{
    match list.start {
        Some(start) => Ok(Some(number(start, place)?)),
        None => Ok(None),
    }
}

/// A part of a list, whose first item is at this place.
fn list_of(
    alloc: Global,
    list: ListShape,
    first: usize,
    items: Vec<ItemContent>,
) -> Result<Block, AllocError>
    ensures { IfOk result (λ block. block_of block
        ≡ spec.list_of list first (map (λ bs. blocks_of bs.items) items.items)) }
{
    Ok(Block::List {
        start: start_at(list, first)?,
        tight: list.is_tight || is_short(alloc, &items)?,
        items,
    })
}

/// Puts so many empty items behind.
fn push_empties(alloc: Global, items: &mut Vec<ItemContent>, count: usize) -> Result<(), AllocError>
    ensures { OnOk result (map (λ bs. blocks_of bs.items) items.new.items
        ≡ map (λ bs. blocks_of bs.items) items.old.items ++ replicate count no_blocks) }
{
    for _i in 0..count {
        items.push(Vec::new(alloc))?;
    }
    Ok(())
}

impl ListFilling {
    /// Nothing yet; the first part may have so many bytes.
    pub(crate) fn new(alloc: Global, list: ListShape, first: usize, limits: Limits) -> ListFilling
        ensures filling { list_filling_of result ≡ spec.list_filling first }
        ensures limits { result.limits ≡ limits }
        ensures list { result.list ≡ list }
    {
        ListFilling {
            alloc,
            list,
            done: Vec::new(alloc),
            next: Vec::new(alloc),
            first: 0,
            used: 0,
            free: first,
            continues: Vec::new(alloc),
            limits,
        }
    }

    /// How many bytes there is room for in the next part after items that take so many.
    pub(crate) fn room(&self, heads: usize) -> Result<usize, AllocError>
        ensures { IfOk result (λ room. room ≡ self.now.free
            - (self.now.used + spec.list_gap_in self.now.limits.gap (list_filling_of self.now) + heads)) }
    {
        let used = sum(sum(self.used, self.gap_before())?, heads)?;
        Ok(self.free.saturating_sub(used))
    }

    /// All parts.
    pub(crate) fn into_parts(self) -> Result<Vec<BlockPart>, AllocError>
        ensures { IfOk result (λ parts. map block_part_of parts.items
            ≡ spec.list_parts_in self.list (list_filling_of self)) }
    {
        let mut parts = self.done;
        parts.push(BlockPart {
            block: list_of(self.alloc, self.list, self.first, self.next)?,
            continues: self.continues,
        })?;
        Ok(parts)
    }

    /// How the next part of the list goes on, and within the list.
    fn joints(&self, within: &[Joint]) -> Result<Vec<Joint>, AllocError>
        ensures { IfOk result (λ joints. joints.items ≡ spec.list_joint self.now.list ∷ within.now) }
    {
        let mut joints = Vec::with_capacity(self.alloc, within.len())?;
        joints.push(if self.list.is_tight {
            Joint::List
        } else {
            Joint::LooseList
        })?;
        joints.extend_from_slice(within)?;
        Ok(joints)
    }

    /// Ends the part. The next one begins with the item at this place, and goes on so within the list.
    fn flush(&mut self, place: usize, within: &[Joint]) -> Result<(), AllocError>
        ensures filling { OnOk result (list_filling_of self.new ≡ spec.list_flushed self.old.limits.most
            self.old.list (list_filling_of self.old) place within.now) }
        ensures limits { self.new.limits ≡ self.old.limits }
        ensures list { self.new.list ≡ self.old.list }
    {
        let items = mem::replace(&mut self.next, Vec::new(self.alloc));
        let continues = self.joints(within)?;
        self.done.push(BlockPart {
            block: list_of(self.alloc, self.list, self.first, items)?,
            continues: mem::replace(&mut self.continues, continues),
        })?;
        self.first = place;
        self.used = 0;
        self.free = self.limits.most;
        Ok(())
    }

    /// The bytes before what comes next.
    fn gap_before(&self) -> usize
        ensures { result ≡ spec.list_gap_in self.now.limits.gap (list_filling_of self.now) }
    {
        if self.next.is_empty() {
            0
        } else {
            self.limits.gap
        }
    }

    /// Ends the part if something is in it and this many bytes, from the item at this place on, don't fit.
    pub(crate) fn make_room(&mut self, place: usize, bytes: usize) -> Result<(), AllocError>
        ensures filling { OnOk result (list_filling_of self.new
            ≡ spec.list_with_room self.old.limits.most self.old.limits.gap self.old.list
            (list_filling_of self.old) place bytes) }
        ensures limits { self.new.limits ≡ self.old.limits }
        ensures list { self.new.list ≡ self.old.list }
    {
        if self.next.is_empty() || sum(sum(self.used, self.gap_before())?, bytes)? <= self.free {
            return Ok(());
        }
        self.flush(place, &[])
    }

    /// Puts an item behind, with so many empty ones before it and after it, where all have room. `place`: that of the
    /// first.
    pub(crate) fn push_whole(
        &mut self,
        place: usize,
        before: usize,
        item: ItemContent,
        after: usize,
        bytes: usize,
    ) -> Result<(), AllocError>
        ensures filling { OnOk result (list_filling_of self.new
            ≡ spec.with_whole_items self.old.limits.most self.old.limits.gap self.old.list
            (list_filling_of self.old) place
            (replicate before no_blocks ++ blocks_of item.items ∷ replicate after no_blocks) bytes) }
        ensures limits { self.new.limits ≡ self.old.limits }
        ensures list { self.new.list ≡ self.old.list }
    {
        self.make_room(place, bytes)?;
        self.used = sum(sum(self.used, self.gap_before())?, bytes)?;
        push_empties(self.alloc, &mut self.next, before)?;
        self.next.push(item)?;
        push_empties(self.alloc, &mut self.next, after)
    }

    /// Ends the part, and begins the next one with a part of the item at this place.
    fn begin(&mut self, place: usize, part: Part) -> Result<(), AllocError>
        ensures filling { OnOk result (list_filling_of self.new
            ≡ spec.with_further_items self.old.limits.most self.old.list (list_filling_of self.old) place
            (part_of part ∷ [])) }
        ensures limits { self.new.limits ≡ self.old.limits }
        ensures list { self.new.list ≡ self.old.list }
    {
        let mut within = Vec::with_capacity(self.alloc, part.continues.len())?;
        within.push(Joint::Item)?;
        within.extend_from_slice(&part.continues)?;
        self.flush(place, &within)?;
        self.next.push(part.blocks)?;
        Ok(())
    }

    /// Puts the parts of the item at this place behind, with so many empty ones before it and after it.
    pub(crate) fn push_parts(
        &mut self,
        place: usize,
        before: usize,
        parts: Vec<Part>,
        after: usize,
        bytes: PartBytes,
    ) -> Result<(), AllocError>
        ensures filling { OnOk result (list_filling_of self.new ≡ spec.with_empty_items
            (spec.with_item_parts self.old.limits.most self.old.limits.gap self.old.list
            (record (list_filling_of self.old) {
              now = (list_filling_of self.old).now ++ replicate before no_blocks;
            })
            place (map part_of parts.items) bytes.heads bytes.last) after bytes.tail) }
        ensures limits { self.new.limits ≡ self.old.limits }
        ensures list { self.new.list ≡ self.old.list }
    {
        push_empties(self.alloc, &mut self.next, before)?;
        let mut used = sum(sum(self.used, self.limits.gap)?, bytes.heads)?;
        let mut parts = parts.into_iter();
        if let Some(part) = parts.next() {
            self.next.push(part.blocks)?;
        }
        for part in parts {
            self.begin(place, part)?;
            used = 0;
        }
        push_empties(self.alloc, &mut self.next, after)?;
        self.used = sum(sum(used, bytes.last)?, bytes.tail)?;
        Ok(())
    }
}

/// What the empty items before a cut item, its last part and the empty items after it take.
#[derive(Clone, Copy)]
pub(crate) struct PartBytes {
    pub(crate) heads: usize,
    pub(crate) last: usize,
    pub(crate) tail: usize,
}
