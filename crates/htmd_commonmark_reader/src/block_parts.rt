//! Closed blocks as parts (CommonMark 0.31.2, appendix, phase 2).
ghost use Rattle.std.specs.Prelude.{◌≡◌, ◌∷◌, ◌++◌, [], drop, reverse, false, OnOk, IfOk};
ghost use Rattle.htmd_commonmark_reading.specs.Boxes.{ClosedBlocks};
ghost use Rattle.htmd_commonmark_reading.specs.Brackets as brackets;
ghost use Rattle.htmd_commonmark_reading.specs.Lists.{plain, gapped};
ghost use Rattle.htmd_commonmark_reading.specs.Markup.{paragraph, heading};
ghost use Rattle.htmd_commonmark_reader.specs.ClosedParts as closed;
ghost use Rattle.htmd_commonmark_reader.specs.ItemMarks.{first_mark};
ghost use Rattle.htmd_commonmark_reader.specs.Places as spec;
ghost use Rattle.htmd_commonmark_reader.specs.Places.{place_of, place_after, is_tight_in, text_of};
ghost use Rattle.htmd_commonmark_reader.specs.Places.{step_parts, leaf_parts};
ghost use Rattle.htmd_commonmark_reader.specs.References.{references_of};
ghost use Rattle.htmd_parts.specs.PartViews.{all_parts_of};
ghost use Rattle.htmd_parts.specs.Parts as part;

use crate::closed::{Closed, ClosedLeaf, Container};
use crate::inlines::inlines;
use crate::lists::{ItemMark, item_marks};
use crate::parts::push_part;
use crate::references::References;
use crate::table_parts::push_table;
use crate::tasks::item_text;
use htmd_parts::{Part, Tag, TagEnd};
use std::alloc::{AllocError, Global};

/// A list of which items are read.
#[derive(Clone, Copy, Drop)]
struct OpenList {
    is_tight: bool,
    is_numbered: bool,
}

/// A container whose content is read.
#[derive(Clone, Copy, Drop)]
enum OpenBox {
    Quote,
    /// An item, and whether the next block is the next one of its list.
    Item { list: OpenList, goes_on: bool },
}

/// Where among the blocks the reader is.
#[derive(Drop)]
struct Place {
    /// The innermost last.
    boxes: Vec<OpenBox>,
    /// The list that the next block goes on with.
    list: Option<OpenList>,
    /// Whether an item has just begun.
    is_first: bool,
    /// Of the items to come, the last one first.
    marks: Vec<ItemMark>,
}

/// Begins a list, unless the item goes on with one.
fn begin_list(
    list: Option<OpenList>,
    number: Option<u32>,
    is_tight: bool,
    parts: &mut Vec<Part>,
) -> Result<OpenList, AllocError>
    ensures list { IfOk result (λ l. l ≡ spec.entered list number is_tight) }
    ensures parts { OnOk result (all_parts_of parts.new.items
        ≡ all_parts_of parts.old.items ++ spec.list_begun list number is_tight []) }
{
    if let Some(list) = list {
        return Ok(list);
    }
    let begin = Tag::List {
        start: number,
        tight: is_tight,
    };
    push_part(parts, Part::Start(begin))?;
    Ok(OpenList {
        is_tight,
        is_numbered: number.is_some(),
    })
}

/// Ends a container, and the list whose last item it is.
fn end_box(last: Option<OpenBox>, parts: &mut Vec<Part>) -> Result<(), AllocError>
    ensures { OnOk result (all_parts_of parts.new.items
        ≡ all_parts_of parts.old.items ++ spec.box_ended last []) }
{
    match last {
        Some(OpenBox::Quote) => push_part(parts, Part::End(TagEnd::Quote)),
        Some(OpenBox::Item { list, goes_on }) => {
            push_part(parts, Part::End(TagEnd::Item))?;
            if goes_on {
                return Ok(());
            }
            let end = TagEnd::List {
                numbered: list.is_numbered,
            };
            push_part(parts, Part::End(end))
        }
        None => Ok(()),
    }
}

/// The list that a block goes on with behind this container.
fn list_behind(last: Option<OpenBox>) -> Option<OpenList>
    ensures { result ≡ spec.list_behind last }
{
    match last {
        Some(
            OpenBox::Item {
                list,
                goes_on: true,
            },
        ) => Some(list),
        _ => None,
    }
}

/// Appends the inlines of a paragraph, which an item may begin with.
fn push_text(
    alloc: Global,
    is_first: bool,
    text: &str,
    references: &References,
    parts: &mut Vec<Part>,
) -> Result<(), AllocError>
    ensures { OnOk result (all_parts_of parts.new.items ≡ all_parts_of parts.old.items
        ++ part.inlines_parts (text_of is_first (references_of references.now) text.now) []) }
{
    if is_first {
        item_text(alloc, text, references, parts)
    } else {
        inlines(alloc, text, references, parts)
    }
}

/// Appends a paragraph.
fn push_paragraph(
    alloc: Global,
    is_first: bool,
    is_tight: bool,
    text: &str,
    references: &References,
    parts: &mut Vec<Part>,
) -> Result<(), AllocError>
    ensures { OnOk result (all_parts_of parts.new.items ≡ all_parts_of parts.old.items
        ++ part.block_parts is_tight (paragraph (text_of is_first (references_of references.now) text.now)) []) }
{
    push_part(parts, Part::Start(Tag::Paragraph { tight: is_tight }))?;
    push_text(alloc, is_first, text, references, parts)?;
    push_part(parts, Part::End(TagEnd::Paragraph { tight: is_tight }))
}

/// Appends a heading.
fn push_heading(
    alloc: Global,
    level: u8,
    text: &str,
    references: &References,
    parts: &mut Vec<Part>,
) -> Result<(), AllocError>
    ensures { OnOk result (all_parts_of parts.new.items ≡ all_parts_of parts.old.items
        ++ part.block_parts false (heading level (brackets.inlines (references_of references.now) text.now)) []) }
{
    push_part(parts, Part::Start(Tag::Heading(level)))?;
    inlines(alloc, text, references, parts)?;
    push_part(parts, Part::End(TagEnd::Heading(level)))
}

/// Appends a leaf.
fn push_leaf(
    alloc: Global,
    is_first: bool,
    is_tight: bool,
    leaf: ClosedLeaf,
    references: &References,
    parts: &mut Vec<Part>,
) -> Result<(), AllocError>
    ensures { OnOk result (all_parts_of parts.new.items ≡ all_parts_of parts.old.items
        ++ leaf_parts (references_of references.now) is_first is_tight (closed.leaf_of leaf) []) }
{
    match leaf {
        ClosedLeaf::Text(text) => {
            push_paragraph(alloc, is_first, is_tight, text.as_str(), references, parts)
        }
        ClosedLeaf::Heading { level, text } => {
            push_heading(alloc, level, text.as_str(), references, parts)
        }
        ClosedLeaf::Code { language, text } => push_part(parts, Part::CodeBlock { language, text }),
        ClosedLeaf::Rule => push_part(parts, Part::ThematicBreak),
        ClosedLeaf::Html(text) => push_part(parts, Part::HtmlBlock(text)),
        ClosedLeaf::Table {
            alignments,
            header,
            rows,
        } => push_table(alloc, &alignments, &header, &rows, references, parts),
    }
}

impl Place {
    fn is_tight(&self) -> bool
        ensures { result ≡ is_tight_in (place_of self.now).boxes }
    {
        match self.boxes.last() {
            Some(OpenBox::Item { list, .. }) => list.is_tight,
            _ => false,
        }
    }

    fn pop_mark(&mut self) -> ItemMark
        ensures mark { result ≡ first_mark (reverse self.old.marks.items) }
        ensures marks { reverse self.new.marks.items ≡ drop 1 (reverse self.old.marks.items) }
        ensures boxes { self.new.boxes ≡ self.old.boxes }
        ensures list { self.new.list ≡ self.old.list }
    {
        self.marks.pop().unwrap_or(ItemMark {
            is_tight: false,
            goes_on: false,
        })
    }

    fn begin_item(&mut self, number: Option<u32>, parts: &mut Vec<Part>) -> Result<(), AllocError>
        ensures place { OnOk result (place_of self.new ≡ spec.in_item (place_of self.old) number) }
        ensures parts { OnOk result (all_parts_of parts.new.items
            ≡ all_parts_of parts.old.items ++ spec.item_begun (place_of self.old) number []) }
    {
        let mark = self.pop_mark();
        let list = begin_list(self.list, number, mark.is_tight, parts)?;
        push_part(parts, Part::Start(Tag::Item))?;
        self.boxes.push(OpenBox::Item {
            list,
            goes_on: mark.goes_on,
        })?;
        self.list = None;
        self.is_first = true;
        Ok(())
    }

    fn begin_quote(&mut self, parts: &mut Vec<Part>) -> Result<(), AllocError>
        ensures place { OnOk result (place_of self.new ≡ spec.in_quote (place_of self.old)) }
        ensures parts { OnOk result (all_parts_of parts.new.items
            ≡ all_parts_of parts.old.items ++ part.begun part.quote ∷ []) }
    {
        push_part(parts, Part::Start(Tag::Quote))?;
        self.boxes.push(OpenBox::Quote)?;
        self.list = None;
        self.is_first = false;
        Ok(())
    }

    fn end(&mut self, parts: &mut Vec<Part>) -> Result<(), AllocError>
        ensures place { OnOk result (place_of self.new ≡ spec.behind_box (place_of self.old)) }
        ensures parts { OnOk result (all_parts_of parts.new.items
            ≡ all_parts_of parts.old.items ++ spec.box_ended (spec.innermost (place_of self.old).boxes) []) }
    {
        let last = self.boxes.pop();
        end_box(last, parts)?;
        self.list = list_behind(last);
        self.is_first = false;
        Ok(())
    }

    fn push_leaf(
        &mut self,
        alloc: Global,
        leaf: ClosedLeaf,
        references: &References,
        parts: &mut Vec<Part>,
    ) -> Result<(), AllocError>
        ensures place { OnOk result (place_of self.new ≡ spec.behind_block (place_of self.old)) }
        ensures parts { OnOk result (all_parts_of parts.new.items ≡ all_parts_of parts.old.items
            ++ leaf_parts (references_of references.now) self.old.is_first (is_tight_in (place_of self.old).boxes)
            (closed.leaf_of leaf) []) }
    {
        push_leaf(
            alloc,
            self.is_first,
            self.is_tight(),
            leaf,
            references,
            parts,
        )?;
        self.list = None;
        self.is_first = false;
        Ok(())
    }

    /// Appends one more block, or what begins or ends.
    fn push_block(
        &mut self,
        alloc: Global,
        block: Closed,
        references: &References,
        parts: &mut Vec<Part>,
    ) -> Result<(), AllocError>
        ensures place { OnOk result (place_of self.new ≡ place_after (place_of self.old) (closed.part_of block)) }
        ensures parts { OnOk result (all_parts_of parts.new.items ≡ all_parts_of parts.old.items
            ++ step_parts (references_of references.now) (place_of self.old) (closed.part_of block) []) }
    {
        match block {
            Closed::Begin {
                kind: Container::Quote,
                ..
            } => self.begin_quote(parts),
            Closed::Begin {
                kind: Container::Item { number, .. },
                ..
            } => self.begin_item(number, parts),
            Closed::End => self.end(parts),
            Closed::Definition { .. } => {
                self.list = None;
                self.is_first = false;
                Ok(())
            }
            Closed::Leaf { leaf, .. } => self.push_leaf(alloc, leaf, references, parts),
        }
    }
}

/// The parts of closed blocks, with the definitions of the whole document. `Err` means out of memory.
pub(crate) fn block_parts(
    alloc: Global,
    mut blocks: Vec<Closed>,
    references: &References,
) -> Result<Vec<Part>, AllocError>
    ensures { IfOk result (λ parts. (ps : ClosedBlocks) → closed.parts_of blocks.items ≡ closed.closed_parts ps []
        → all_parts_of parts.items ≡ part.parts_of (plain (gapped (references_of references.now) ps))) }
{
    let marks = item_marks(alloc, &blocks)?;
    let mut place = Place {
        boxes: Vec::new(alloc),
        list: None,
        is_first: false,
        marks,
    };
    let mut parts = Vec::new(alloc);
    blocks.reverse();
    while let Some(block) = blocks.pop() {
        place.push_block(alloc, block, references, &mut parts)?;
    }
    Ok(parts)
}
