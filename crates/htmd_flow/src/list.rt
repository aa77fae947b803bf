//! Lists: which are tight, and where the numbers of a list begin anew.
ghost use Rattle.std.specs.Prelude.{◌≡◌, [], ◌∷◌, ◌++◌, IfOk, OnOk, Some, None, length, map};
ghost use Rattle.std.specs.List.{list_all};
ghost use Rattle.htmd_document.specs.Documents as documents;
ghost use Rattle.htmd_document.specs.DocumentViews as views;
ghost use Rattle.htmd_document.specs.FlatDocuments as flat;
ghost use Rattle.htmd_flow.specs.GroupViews.{IsWithItem, AreWithItems};
ghost use Rattle.htmd_flow.specs.ListViews as items;
ghost use Rattle.htmd_flow.specs.ListViews.{item_of};
ghost use Rattle.htmd_flow.specs.Lists as spec;
ghost use Rattle.htmd_document.specs.TightItems as tight;
ghost use Rattle.htmd_flow.specs.ParagraphViews.{writing_in};
ghost use Rattle.htmd_flow.specs.Paragraphs.{fed_all};

use crate::paragraphs::Paragraphs;
use htmd_document::{Block, ItemContent, text_in_line};
use std::alloc::{AllocError, Global};
use std::mem;

/// An item of a list.
#[derive(Drop)]
pub(crate) struct ListItem {
    /// The number that it says.
    pub(crate) value: Option<i64>,
    /// Whether it has a paragraph as a child.
    pub(crate) has_paragraph: bool,
    pub(crate) blocks: ItemContent,
}

/// The greatest number that an item of Markdown can have.
const GREATEST_NUMBER: usize = 999_999_999;

/// The greatest one of two digits.
const GREATEST_SHORT_NUMBER: usize = 99;

/// No list in so many lists and quotes has numbers of more than two digits.
const MOST_NUMBERED: usize = 8;

/// No item says this number, and no number comes after it.
const LAST_NUMBER: i64 = 100_000_000_000_000_001;

/// Whether there are blocks.
#[tactic(auto, using(crate::proofs::ListsLemmas::filled_is))]
pub(crate) fn is_filled(blocks: &[Block]) -> bool
    ensures { result ≡ tight.is_filled (views.blocks_of blocks.now) }
{
    !blocks.is_empty()
}

/// Whether a block is written as nothing but tags.
#[cycle(tags)]
fn is_tags_alone(block: &Block) -> bool
    ensures { result ≡ items.is_tags_alone (views.block_of block.now) }
{
    match block {
        Block::Element { content, .. } => text_in_line(content).is_some()
            || are_tags_alone(content),
        Block::Paragraph(_) => false,
        Block::Heading { .. } => false,
        Block::CodeBlock { .. } => false,
        Block::Quote(_) => false,
        Block::ThematicBreak => false,
        Block::List { .. } => false,
        Block::Table { .. } => false,
    }
}

/// Whether blocks are written as nothing but tags.
#[cycle(tags)]
fn are_tags_alone(blocks: &[Block]) -> bool
    ensures { result ≡ items.are_tags_alone (views.blocks_of blocks.now) }
{
    for block in blocks {
        if !is_tags_alone(block) {
            return false;
        }
    }
    true
}

/// Whether blocks are written as one at most.
fn is_short(blocks: &[Block]) -> bool
    ensures { result ≡ tight.is_short (flat.flattened (views.blocks_of blocks.now)) }
{
    match blocks {
        [] => true,
        [block] => is_plain(block) || is_tags_alone(block),
        _ => are_tags_alone(blocks),
    }
}

/// Whether something shows in one of the items.
fn are_filled(items: &[ListItem]) -> bool
    ensures { result ≡ spec.are_filled (map item_of items.now) }
{
    for item in items {
        if is_filled(item.blocks.as_slice()) {
            return true;
        }
    }
    false
}

/// Whether a block is a paragraph.
fn is_paragraph(block: &Block) -> bool
    ensures { result ≡ tight.is_paragraph (views.block_of block.now) }
{
    matches!(block, Block::Paragraph(_))
}

/// Whether a block is a table.
fn is_table(block: &Block) -> bool
    ensures { result ≡ tight.is_table (views.block_of block.now) }
{
    matches!(block, Block::Table { .. })
}

/// Whether a block is no element.
fn is_plain(block: &Block) -> bool
    ensures { result ≡ flat.is_plain (views.block_of block.now) }
{
    match block {
        Block::Element { .. } => false,
        Block::Paragraph(_) => true,
        Block::Heading { .. } => true,
        Block::CodeBlock { .. } => true,
        Block::Quote(_) => true,
        Block::ThematicBreak => true,
        Block::List { .. } => true,
        Block::Table { .. } => true,
    }
}

/// Whether a paragraph is among the blocks.
fn holds_paragraph(blocks: &[Block]) -> bool
    ensures { result ≡ spec.holds_paragraph (views.blocks_of blocks.now) }
{
    for block in blocks {
        if is_paragraph(block) {
            return true;
        }
    }
    false
}

/// Whether a list has bullets, or begins at 1.
fn is_one_or_none(start: Option<u32>) -> bool
    ensures { result ≡ tight.is_one_or_none start }
{
    match start {
        None => true,
        Some(number) => number == 1,
    }
}

/// Whether something shows in the first of these items.
fn begins_with_blocks(items: &[ItemContent]) -> bool
    ensures { result ≡ tight.begins_with_blocks
        (documents.items_of (map (λ bs. views.blocks_of bs.items) items.now)) }
{
    match items {
        [] => false,
        [first, ..] => is_filled(first.as_slice()),
    }
}

/// Whether a block is a list that can follow a paragraph without a blank line.
fn goes_on_a_paragraph(block: &Block) -> bool
    ensures { result ≡ tight.goes_on_a_paragraph (views.block_of block.now) }
{
    match block {
        Block::List { start, items, .. } => {
            is_one_or_none(*start) && begins_with_blocks(items.as_slice())
        }
        _ => false,
    }
}

/// Whether the blocks of an item can be tight.
fn is_tight_item(blocks: &[Block]) -> bool
    ensures { result ≡ tight.is_tight_item (flat.flattened (views.blocks_of blocks.now)) }
{
    match blocks {
        [] => true,
        [block] => is_plain(block) && !is_table(block),
        [block, next] => is_paragraph(block) && goes_on_a_paragraph(next),
        _ => false,
    }
}

/// Whether an item leaves its list tight.
fn is_close(item: &ListItem) -> bool
    ensures { result ≡ spec.is_close (item_of item.now) }
{
    let blocks = item.blocks.as_slice();
    !(item.has_paragraph && holds_paragraph(blocks)) && is_tight_item(blocks)
}

/// Whether there is one item, of one block at most.
fn is_lone(items: &[ListItem]) -> bool
    ensures { result ≡ spec.is_lone (map item_of items.now) }
{
    match items {
        [item] => is_short(item.blocks.as_slice()),
        _ => false,
    }
}

/// Whether all items leave their list tight.
fn are_close(items: &[ListItem]) -> bool
    ensures { result ≡ list_all spec.is_close (map item_of items.now) }
{
    for item in items {
        if !is_close(item) {
            return false;
        }
    }
    true
}

/// Whether a reader can't see that a list is loose.
fn is_tight(items: &[ListItem]) -> bool
    ensures { result ≡ spec.is_tight (map item_of items.now) }
{
    is_lone(items) || are_close(items)
}

/// The blocks of each item.
fn blocks_of(alloc: Global, items: Vec<ListItem>) -> Result<Vec<ItemContent>, AllocError>
    ensures { IfOk result (λ blocks. map (λ bs. views.blocks_of bs.items) blocks.items
        ≡ map (λ (i : spec.ListItem). i.blocks) (map item_of items.items)) }
{
    let mut blocks = Vec::with_capacity(alloc, items.len())?;
    for item in items {
        blocks.push(item.blocks)?;
    }
    Ok(blocks)
}

/// A list as a block.
fn list_block(start: Option<u32>, tight: bool, items: Vec<ItemContent>) -> Block
    ensures { views.block_of result ≡ documents.list start tight
        (documents.items_of (map (λ bs. views.blocks_of bs.items) items.items)) }
{
    Block::List {
        start,
        tight,
        items,
    }
}

/// Adds a list of items, with bullets where it has no start.
fn push_list(
    alloc: Global,
    out: &mut Paragraphs,
    start: Option<u32>,
    items: Vec<ListItem>,
) -> Result<(), AllocError>
    ensures { OnOk result (writing_in out.new
        ≡ fed_all (writing_in out.old) (spec.list_of start (map item_of items.items) ∷ [])) }
{
    let tight = is_tight(items.as_slice());
    let items = blocks_of(alloc, items)?;
    out.block(list_block(start, tight, items))
}

/// The number 1, unless there are more items than numbers.
fn from_one(count: usize) -> Option<u32>
    ensures { result ≡ spec.from_one count }
{
    if count > GREATEST_NUMBER {
        return None;
    }
    Some(1)
}

/// The greatest number in so many lists and quotes.
fn greatest_in(nested: usize) -> usize
    ensures { result ≡ spec.greatest_in nested }
{
    if nested >= MOST_NUMBERED {
        GREATEST_SHORT_NUMBER
    } else {
        GREATEST_NUMBER
    }
}

/// The number that a list of so many items begins with: 1 where its numbers would go past the greatest.
fn start_of(nested: usize, start: i64, count: usize) -> Option<u32>
    ensures { result ≡ spec.start_of nested start count }
{
    let most = greatest_in(nested);
    match u32::try_from(start) {
        Ok(number) if count <= most + 1 && number as usize + count <= most + 1 => Some(number),
        _ => from_one(count),
    }
}

/// Adds a list of items with numbers one after another, if something shows in one of them.
fn push_numbered(
    alloc: Global,
    out: &mut Paragraphs,
    nested: usize,
    start: i64,
    items: Vec<ListItem>,
) -> Result<(), AllocError>
    ensures { OnOk result (writing_in out.new ≡ fed_all (writing_in out.old)
        (spec.numbered nested start (map item_of items.items))) }
{
    if !are_filled(items.as_slice()) {
        return Ok(());
    }
    let start = start_of(nested, start, items.len());
    push_list(alloc, out, start, items)
}

/// The number after this one.
fn following(number: i64) -> i64
    ensures { result ≡ spec.following number }
{
    if number < LAST_NUMBER {
        number + 1
    } else {
        number
    }
}

/// The number that an item begins anew with: it says one, and that isn't the next.
fn new_number(next: i64, value: Option<i64>) -> Option<i64>
    ensures { result ≡ spec.new_number next value }
{
    match value {
        None => None,
        Some(number) => { if number == next { None } else { Some(number) } }
    }
}

/// The items of a list that goes on, the number that it begins with, the next number, and how many lists and quotes are
/// around it.
#[derive(Drop)]
struct Group {
    nested: usize,
    start: i64,
    next: i64,
    items: Vec<ListItem>,
}

impl Group {
    /// A list that begins with this number.
    fn new(nested: usize, start: i64, items: Vec<ListItem>) -> Group
        ensures nested { result.nested ≡ nested }
        ensures start { result.start ≡ start }
        ensures next { result.next ≡ start }
        ensures items { result.items.items ≡ items.items }
    {
        Group {
            nested,
            start,
            next: start,
            items,
        }
    }

    /// Ends the list, and begins another.
    fn begin_anew(
        &mut self,
        alloc: Global,
        out: &mut Paragraphs,
        number: i64,
    ) -> Result<(), AllocError>
        ensures out { OnOk result (writing_in out.new ≡ fed_all (writing_in out.old)
            (spec.numbered self.old.nested self.old.start (map item_of self.old.items.items))) }
        ensures nested { OnOk result (self.new.nested ≡ self.old.nested) }
        ensures start { OnOk result (self.new.start ≡ number) }
        ensures next { OnOk result (self.new.next ≡ number) }
        ensures items { OnOk result (self.new.items.items ≡ []) }
    {
        let items = mem::replace(&mut self.items, Vec::new(alloc));
        push_numbered(alloc, out, self.nested, self.start, items)?;
        self.start = number;
        self.next = number;
        Ok(())
    }

    /// One item more.
    fn push(&mut self, item: ListItem) -> Result<(), AllocError>
        ensures nested { OnOk result (self.new.nested ≡ self.old.nested) }
        ensures start { OnOk result (self.new.start ≡ self.old.start) }
        ensures next { OnOk result (self.new.next ≡ spec.following self.old.next) }
        ensures items { OnOk result (self.new.items.items ≡ self.old.items.items ++ item ∷ []) }
    {
        self.items.push(item)?;
        self.next = following(self.next);
        Ok(())
    }

    /// Ends the last list.
    fn finish(self, alloc: Global, out: &mut Paragraphs) -> Result<(), AllocError>
        ensures { OnOk result (writing_in out.new ≡ fed_all (writing_in out.old)
            (spec.numbered self.nested self.start (map item_of self.items.items))) }
    {
        push_numbered(alloc, out, self.nested, self.start, self.items)
    }
}

/// Adds an item to the lists of an `ol`: where it says a number that isn't the next one, a new list begins.
fn push_item(
    alloc: Global,
    out: &mut Paragraphs,
    group: &mut Group,
    item: ListItem,
) -> Result<(), AllocError>
    ensures { OnOk result (IsWithItem (writing_in out.old) group.old item (writing_in out.new) group.new) }
{
    match new_number(group.next, item.value) {
        None => group.push(item),
        Some(number) => {
            group.begin_anew(alloc, out, number)?;
            group.push(item)
        }
    }
}

/// Adds items to the lists of an `ol`.
fn push_items(
    alloc: Global,
    out: &mut Paragraphs,
    group: &mut Group,
    items: Vec<ListItem>,
) -> Result<(), AllocError>
    ensures { OnOk result (AreWithItems (writing_in out.old) group.old (map item_of items.items)
        (writing_in out.new) group.new) }
{
    for item in items {
        push_item(alloc, out, group, item)?;
    }
    Ok(())
}

/// Adds the lists of the items of an `ol`.
fn push_groups(
    alloc: Global,
    out: &mut Paragraphs,
    nested: usize,
    start: i64,
    items: Vec<ListItem>,
) -> Result<(), AllocError>
    ensures { OnOk result (writing_in out.new ≡ fed_all (writing_in out.old)
        (spec.numbered_lists nested start (map item_of items.items))) }
{
    let mut group = Group::new(nested, start, Vec::with_capacity(alloc, items.len())?);
    push_items(alloc, out, &mut group, items)?;
    group.finish(alloc, out)
}

/// Adds the lists of these items, with bullets where there is no first number; none where nothing shows in them.
pub(crate) fn push_lists(
    alloc: Global,
    out: &mut Paragraphs,
    nested: usize,
    start: Option<i64>,
    items: Vec<ListItem>,
) -> Result<(), AllocError>
    ensures { OnOk result (writing_in out.new ≡ fed_all (writing_in out.old)
        (spec.lists_if_filled nested start (map item_of items.items))) }
{
    if !are_filled(items.as_slice()) {
        return Ok(());
    }
    match start {
        Some(start) => push_groups(alloc, out, nested, start, items),
        None => push_list(alloc, out, None, items),
    }
}
