//! Which items are a list, and whether it is tight (CommonMark 0.31.2, 5.3): read from the last block to the first,
//! since a list is known once all its items are.
ghost use Rattle.std.specs.Prelude.{◌≡◌, OnOk, IfOk, reverse, drop};
ghost use Rattle.htmd_commonmark_reader.specs.ClosedParts.{part_of, parts_of};
ghost use Rattle.htmd_commonmark_reader.specs.ItemMarks as spec;
ghost use Rattle.htmd_commonmark_reader.specs.ItemMarks.{first_ahead, survey_of, surveyed, survey};

use crate::closed::{Closed, Container};
use std::alloc::{AllocError, Global};

/// The list that some blocks begin with.
#[derive(Clone, Copy, Drop)]
struct ListAhead {
    sign: u8,
    is_tight: bool,
}

/// What the block before some blocks has to know of them.
#[derive(Clone, Copy, Drop)]
struct Ahead {
    /// Whether a blank line stands before the first.
    gap: bool,
    /// Whether one stands before another; in the items of one list none counts.
    inner_gap: bool,
    list: Option<ListAhead>,
}

const NOTHING_AHEAD: Ahead = Ahead {
    gap: false,
    inner_gap: false,
    list: None,
};

/// What an item is in its list.
#[derive(Clone, Copy, Drop)]
pub(crate) struct ItemMark {
    /// Whether the list is tight, from this item on.
    pub(crate) is_tight: bool,
    /// Whether the next block is its next item.
    pub(crate) goes_on: bool,
}

fn any_gap(ahead: &Ahead) -> bool
    ensures { result ≡ spec.any_gap ahead.now }
{
    ahead.gap || ahead.inner_gap
}

/// A block before others that is no item.
fn before_block(gap: bool, after: &Ahead) -> Ahead
    ensures { result ≡ spec.before_block gap after.now }
{
    Ahead {
        gap,
        inner_gap: any_gap(after),
        list: None,
    }
}

/// An item with this content before other blocks.
fn item_mark(sign: u8, content: &Ahead, after: &Ahead) -> ItemMark
    ensures { result ≡ spec.item_mark sign content.now after.now }
{
    let is_tight = !content.inner_gap;
    match after.list {
        Some(list) if sign == list.sign => ItemMark {
            is_tight: is_tight && !after.gap && list.is_tight,
            goes_on: true,
        },
        _ => ItemMark {
            is_tight,
            goes_on: false,
        },
    }
}

fn before_item(gap: bool, sign: u8, mark: ItemMark, after: &Ahead) -> Ahead
    ensures { result ≡ spec.before_item gap sign mark after.now }
{
    let inner_gap = if mark.goes_on {
        after.inner_gap
    } else {
        any_gap(after)
    };
    let list = ListAhead {
        sign,
        is_tight: mark.is_tight,
    };
    Ahead {
        gap,
        inner_gap,
        list: Some(list),
    }
}

/// What is known of the blocks from one on.
#[derive(Drop)]
struct Survey {
    /// Of the innermost container that is still open there.
    ahead: Ahead,
    /// Of those around it; the innermost last.
    outer: Vec<Ahead>,
    /// Of all items, the last one first.
    marks: Vec<ItemMark>,
}

impl Survey {
    fn pop_outer(&mut self) -> Ahead
        ensures ahead { result ≡ first_ahead (reverse self.old.outer.items) }
        ensures outer { reverse self.new.outer.items ≡ drop 1 (reverse self.old.outer.items) }
        ensures now { self.new.ahead ≡ self.old.ahead }
        ensures marks { self.new.marks ≡ self.old.marks }
    {
        self.outer.pop().unwrap_or(NOTHING_AHEAD)
    }

    fn begin(&mut self, gap: bool, kind: Container) -> Result<(), AllocError>
        ensures { OnOk result (survey_of self.new ≡ surveyed (part_of (Closed.Begin gap kind)) (survey_of self.old)) }
    {
        let after = self.pop_outer();
        match kind {
            Container::Quote => self.ahead = before_block(gap, &after),
            Container::Item { sign, .. } => {
                let mark = item_mark(sign, &self.ahead, &after);
                self.ahead = before_item(gap, sign, mark, &after);
                self.marks.push(mark)?;
            }
        }
        Ok(())
    }

    /// Goes on to the block before.
    fn push(&mut self, block: &Closed) -> Result<(), AllocError>
        ensures { OnOk result (survey_of self.new ≡ surveyed (part_of block.now) (survey_of self.old)) }
    {
        match block {
            Closed::Begin { gap, kind } => self.begin(*gap, *kind)?,
            Closed::End => {
                self.outer.push(self.ahead)?;
                self.ahead = NOTHING_AHEAD;
            }
            Closed::Definition { gap } => self.ahead = before_block(*gap, &self.ahead),
            Closed::Leaf { gap, .. } => self.ahead = before_block(*gap, &self.ahead),
        }
        Ok(())
    }
}

/// What all items are in their lists, the last one first. `Err` means out of memory.
pub(crate) fn item_marks(alloc: Global, blocks: &[Closed]) -> Result<Vec<ItemMark>, AllocError>
    ensures { IfOk result (λ marks. reverse marks.items ≡ (survey (parts_of blocks.now)).marks) }
{
    let mut survey = Survey {
        ahead: NOTHING_AHEAD,
        outer: Vec::new(alloc),
        marks: Vec::new(alloc),
    };
    let mut count = blocks.len();
    while count > 0 {
        count -= 1;
        survey.push(&blocks[count])?;
    }
    Ok(survey.marks)
}
