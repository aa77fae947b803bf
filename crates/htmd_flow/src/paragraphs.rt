//! Parts one after another, as blocks or as one line of inlines.
ghost use Rattle.std.specs.Prelude.{◌≡◌, ◌≤◌, ◌&&◌, [], map, length, true, IfOk, string_bytes};
ghost use Rattle.htmd_document.specs.DocumentViews.{block_of, blocks_of, inlines_of, bytes_of_title};
ghost use Rattle.htmd_flow.specs.Nesting as nesting;
ghost use Rattle.htmd_flow.specs.Nesting.{text_or_code};
ghost use Rattle.htmd_flow.specs.NestViews.{wrappers_of};
ghost use Rattle.htmd_flow.specs.ParagraphViews.{writing_in, emptied, untasked, with_blocks};
ghost use Rattle.htmd_flow.specs.ParagraphViews.{IsReached, IsGapPut, IsLike, IsPut, with_latest};
ghost use Rattle.htmd_flow.specs.declared.paragraphs.Latest.TheVariants.{Nothing, Task};
ghost use Rattle.htmd_flow.specs.Paragraphs as spec;
ghost use Rattle.htmd_flow.specs.Parts.{run, picture, break, place, box, edge, whole};
ghost use Rattle.htmd_flow.specs.PartViews.{around_of};
ghost use Rattle.htmd_shown.specs.ShownTexts.{shown_text};
ghost use Rattle.htmd_text.specs.SqueezedTexts.{squeezed_text};

use crate::around::Around;
use crate::nest::Nest;
use htmd_document::{Block, Inline};
use htmd_shown::shown_text::{is_all_shown, shown_text};
use htmd_shown::spaces::{Gap, is_white, without_white_end};
use htmd_text::compress_whitespace;
use std::alloc::{AllocError, Global};
use std::mem;

/// What showed last in a paragraph: nothing yet, the box of a task, a text or an image, or code.
#[derive(Clone, Copy, PartialEq, Eq)]
pub enum Latest {
    Nothing,
    Task,
    Plain,
    Code,
}

/// What was met since the last edge: nothing, one box alone, or something else.
#[derive(Clone, Copy, PartialEq, Eq)]
pub enum Met {
    Nothing,
    Box,
    More,
}

/// Blocks, or one line, that are begun.
#[derive(Drop)]
pub(crate) struct Paragraphs {
    alloc: Global,
    /// Whether a task may come first.
    in_item: bool,
    /// Whether all is one line.
    is_flat: bool,
    done: Vec<Block>,
    /// The paragraph after the blocks so far.
    nest: Nest,
    latest: Latest,
    /// What was met since the last edge.
    met: Met,
    /// What came after what showed last.
    gap: Gap,
    /// The ids that stand before what shows next.
    anchors: Vec<String>,
    /// Whether there is nothing but spaces and breaks in this paragraph.
    is_blank: bool,
    /// The breaks since something showed, up to two.
    breaks: usize,
}

impl Latest {
    fn of(is_code: bool) -> Latest
        ensures { result ≡ spec.latest_of is_code }
    {
        if is_code { Latest::Code } else { Latest::Plain }
    }

    fn is_nothing(self) -> bool
        ensures { result ≡ true → self ≡ Nothing }
    {
        matches!(self, Latest::Nothing)
    }

    /// Whether it is a leaf that can be all of a paragraph.
    fn is_leaf(self) -> bool
        ensures { result ≡ spec.is_leaf self }
    {
        matches!(self, Latest::Plain | Latest::Code)
    }
}

impl Met {
    /// After one more box.
    fn with_box(self) -> Met
        ensures { result ≡ spec.with_box self }
    {
        match self {
            Met::Nothing => Met::Box,
            Met::Box => Met::More,
            Met::More => Met::More,
        }
    }

    fn is_box(self) -> bool
        ensures { result ≡ spec.is_box self }
    {
        matches!(self, Met::Box)
    }
}

impl Paragraphs {
    /// Nothing yet.
    pub(crate) fn new(alloc: Global, in_item: bool, is_flat: bool) -> Paragraphs
        ensures { writing_in result ≡ spec.begun in_item is_flat }
    {
        Paragraphs {
            alloc,
            in_item,
            is_flat,
            done: Vec::new(alloc),
            nest: Nest::new(alloc),
            latest: Latest::Nothing,
            met: Met::Nothing,
            gap: Gap::new(alloc),
            anchors: Vec::new(alloc),
            is_blank: true,
            breaks: 0,
        }
    }

    /// A text of the page, or code, without U+0000 and U+FEFF. `Err` means out of memory.
    pub(crate) fn text(
        &mut self,
        text: &str,
        around: &[Around],
        is_code: bool,
    ) -> Result<(), AllocError>
        ensures { IfOk result (λ _. writing_in self.new
            ≡ spec.fed (writing_in self.old) (run (shown_text text.now) (map around_of around.now) is_code)) }
    {
        if is_all_shown(text) {
            return self.run(text, around, is_code);
        }
        let shown = shown_text(self.alloc, text)?;
        self.run(&shown, around, is_code)
    }

    /// A text as it is. `Err` means out of memory.
    pub(crate) fn run(
        &mut self,
        text: &str,
        around: &[Around],
        is_code: bool,
    ) -> Result<(), AllocError>
        ensures { IfOk result (λ _. writing_in self.new
            ≡ spec.fed (writing_in self.old) (run text.now (map around_of around.now) is_code)) }
    {
        let mut rest = text;
        while let Some(c) = rest.chars().next() {
            if is_white(c) {
                self.push_white(c, is_code)?;
                rest = &rest[c.len_utf8()..];
            } else {
                let piece = without_white_end(rest);
                self.push_piece(piece, around, is_code)?;
                rest = &rest[piece.len()..];
            }
        }
        Ok(())
    }

    /// An image. `Err` means out of memory.
    pub(crate) fn image(
        &mut self,
        address: String,
        title: Option<String>,
        description: String,
        around: &[Around],
    ) -> Result<(), AllocError>
        ensures { IfOk result (λ _. writing_in self.new ≡ spec.fed (writing_in self.old)
            (picture (string_bytes address) (bytes_of_title title) (string_bytes description)
            (map around_of around.now))) }
    {
        let shared = self.reach(around, false)?;
        let image = Inline::Image {
            address,
            title,
            description,
        };
        self.nest.push_leaf(shared, around, image)?;
        self.settle(Latest::Plain);
        self.met = Met::More;
        Ok(())
    }

    /// A place that links lead to; it stands before what shows next, and in no link. `Err` means out of memory.
    pub(crate) fn anchor(&mut self, id: &str) -> Result<(), AllocError>
        ensures { IfOk result (λ _. writing_in self.new ≡ spec.fed (writing_in self.old) (place id.now)) }
    {
        self.part()?;
        self.breaks = 0;
        self.nest.close_link()?;
        self.anchors.push(String::from_str(self.alloc, id)?)?;
        Ok(())
    }

    /// A line break.
    pub(crate) fn line_break(&mut self)
        ensures { writing_in self.new ≡ spec.fed (writing_in self.old) break }
    {
        self.gap.push_break();
        self.breaks = self.breaks.saturating_add(1).min(2);
    }

    /// The box of a task; it counts before all else in an item's first paragraph. `Err` means out of memory.
    pub(crate) fn task(&mut self, is_checked: bool) -> Result<(), AllocError>
        ensures { IfOk result (λ _. writing_in self.new ≡ spec.fed (writing_in self.old) (box is_checked)) }
    {
        self.part()?;
        self.breaks = 0;
        self.met = self.met.with_box();
        if !self.is_task_here() {
            return Ok(());
        }
        self.push_task(is_checked)
    }

    /// The edge of a block; right after the task of an item there is none. `Err` means out of memory.
    pub(crate) fn edge(&mut self) -> Result<(), AllocError>
        ensures { IfOk result (λ _. writing_in self.new ≡ spec.fed (writing_in self.old) edge) }
    {
        if self.is_flat {
            self.line_break();
            return Ok(());
        }
        if self.is_boxed_item() {
            return Ok(());
        }
        self.met = Met::Nothing;
        self.end()
    }

    /// A block; in one line it is an edge. `Err` means out of memory.
    pub(crate) fn block(&mut self, block: Block) -> Result<(), AllocError>
        ensures { IfOk result (λ _. writing_in self.new ≡ spec.fed (writing_in self.old) (whole (block_of block))) }
    {
        if self.is_flat {
            self.line_break();
            return Ok(());
        }
        self.met = Met::Nothing;
        self.end()?;
        self.done.push(block)?;
        Ok(())
    }

    /// The blocks. `Err` means out of memory.
    pub(crate) fn finish(mut self) -> Result<Vec<Block>, AllocError>
        ensures { IfOk result (λ bs. blocks_of bs.items ≡ spec.blocks_in (writing_in self)) }
    {
        self.end()?;
        self.done.shrink_to_fit();
        Ok(self.done)
    }

    /// The one line. `Err` means out of memory.
    pub(crate) fn finish_line(mut self) -> Result<Vec<Inline>, AllocError>
        ensures { IfOk result (λ xs. inlines_of xs.items ≡ spec.line_in (writing_in self)) }
    {
        self.take()
    }

    /// What shows in the paragraph, with the anchors after it; a task alone is nothing.
    fn take(&mut self) -> Result<Vec<Inline>, AllocError>
        ensures content { IfOk result (λ xs. inlines_of xs.items ≡ spec.whole_content (writing_in self.old)) }
        ensures rest { IfOk result (λ _. writing_in self.new ≡ emptied (writing_in self.old)) }
    {
        self.forget_task();
        self.push_anchors(&[])?;
        self.nest.take()
    }

    /// A task alone is nothing.
    fn forget_task(&mut self)
        ensures { writing_in self.new ≡ untasked (writing_in self.old) }
    {
        if !self.latest.is_leaf() {
            self.nest.clear();
        }
    }

    /// Whether a task counts here.
    fn is_task_here(&self) -> bool
        ensures { result ≡ spec.is_task_here (writing_in self.now) }
    {
        self.in_item && self.done.is_empty() && self.is_blank
    }

    /// Whether the box of an item alone was met.
    fn is_boxed_item(&self) -> bool
        ensures { result ≡ spec.is_boxed_item (writing_in self.now) }
    {
        self.in_item && self.done.is_empty() && self.met.is_box()
    }

    /// Puts a task in place of what there is.
    fn push_task(&mut self, is_checked: bool) -> Result<(), AllocError>
        ensures { IfOk result (λ _. writing_in self.new
            ≡ with_latest (spec.with_task (writing_in self.old) is_checked) Task) }
    {
        self.nest = Nest::new(self.alloc);
        self.nest.push_leaf(0, &[], Inline::Task(is_checked))?;
        self.settle(Latest::Task);
        Ok(())
    }

    fn push_white(&mut self, c: char, is_code: bool) -> Result<(), AllocError>
        ensures { IfOk result (λ _. writing_in self.new ≡ spec.spaced_out (writing_in self.old) c is_code) }
    {
        self.gap.push_white(c, is_code)?;
        self.is_blank &= c.is_ascii_whitespace();
        Ok(())
    }

    /// A text with no white space at its ends; in it each run of ASCII white space is one space.
    fn push_piece(
        &mut self,
        piece: &str,
        around: &[Around],
        is_code: bool,
    ) -> Result<(), AllocError>
        ensures { IfOk result (λ _. writing_in self.new
            ≡ spec.after_leaf (writing_in self.old) (map around_of around.now) is_code
            (text_or_code is_code (squeezed_text piece.now))) }
    {
        let shared = self.reach(around, is_code)?;
        let squeezed = compress_whitespace(self.alloc, piece)?;
        self.nest
            .push_text(shared, around, squeezed.as_str(), is_code)?;
        self.settle(Latest::of(is_code));
        self.met = Met::More;
        Ok(())
    }

    /// Puts what comes before a leaf, and gives how many wrappers the leaf shares with what showed last.
    fn reach(&mut self, around: &[Around], is_code: bool) -> Result<usize, AllocError>
        ensures { IfOk result (λ n. IsReached (writing_in self.old) (writing_in self.new)
            (map around_of around.now) is_code n) }
    {
        self.part()?;
        let shared = self.push_shared_gap(around, is_code)?;
        self.push_anchors(&around[..shared])?;
        Ok(shared)
    }

    /// Puts the gap before a leaf, and gives how many wrappers the leaf shares with what showed last.
    fn push_shared_gap(&mut self, around: &[Around], is_code: bool) -> Result<usize, AllocError>
        ensures count { IfOk result (λ n. n ≡ spec.shared_wrappers (writing_in self.old) (wrappers_of around.now)) }
        ensures bound { IfOk result (λ n. n ≤ length around.now) }
        ensures put { IfOk result (λ n. IsGapPut (writing_in self.old) (writing_in self.new) n
            (spec.gap_behind (writing_in self.old).latest (writing_in self.old) (map around_of around.now) is_code)) }
    {
        match self.latest {
            Latest::Nothing => Ok(0),
            Latest::Task => {
                self.push_after_task()?;
                Ok(0)
            }
            Latest::Plain | Latest::Code => {
                let shared = self.nest.shared(around);
                self.push_gap(shared, around, is_code)?;
                Ok(shared)
            }
        }
    }

    /// A space after a task.
    fn push_after_task(&mut self) -> Result<(), AllocError>
        ensures { IfOk result (λ _. IsGapPut (writing_in self.old) (writing_in self.new) 0
            (spec.gap_after_task (writing_in self.old))) }
    {
        self.nest.push_text(0, &[], " ", false)
    }

    /// Puts the anchors, with what is around them, which is open.
    fn push_anchors(&mut self, around: &[Around]) -> Result<(), AllocError>
        requires { length around.now ≤ length (writing_in self.old).around }
        ensures put { IfOk result (λ _. IsPut (writing_in self.old) (writing_in self.new) (length around.now)
            (spec.anchored (length around.now) (writing_in self.old).content (map around_of around.now)
            (writing_in self.old).anchors)) }
        ensures anchors { IfOk result (λ _. (writing_in self.new).anchors ≡ []) }
        ensures rest { IfOk result (λ _. IsLike (writing_in self.old) (writing_in self.new)) }
    {
        if self.anchors.is_empty() {
            return Ok(());
        }
        self.push_all_anchors(around)
    }

    /// The same where some are due.
    fn push_all_anchors(&mut self, around: &[Around]) -> Result<(), AllocError>
        requires { length around.now ≤ length (writing_in self.old).around }
        ensures put { IfOk result (λ _. IsPut (writing_in self.old) (writing_in self.new) (length around.now)
            (spec.anchored (length around.now) (writing_in self.old).content (map around_of around.now)
            (writing_in self.old).anchors)) }
        ensures anchors { IfOk result (λ _. (writing_in self.new).anchors ≡ []) }
        ensures rest { IfOk result (λ _. IsLike (writing_in self.old) (writing_in self.new)) }
    {
        let anchors = mem::replace(&mut self.anchors, Vec::new(self.alloc));
        for id in anchors {
            self.nest
                .push_leaf(around.len(), around, Inline::Anchor(id))?;
        }
        Ok(())
    }

    /// The break or the white space before a leaf that isn't the first.
    fn push_gap(
        &mut self,
        shared: usize,
        around: &[Around],
        is_code: bool,
    ) -> Result<(), AllocError>
        requires value { shared ≡ nesting.shared (writing_in self.old).around (wrappers_of around.now) }
        requires bound { shared ≤ length (writing_in self.old).around }
        requires other { shared ≤ length around.now }
        ensures { IfOk result (λ _. IsGapPut (writing_in self.old) (writing_in self.new) shared
            (spec.gap_before (writing_in self.old) (map around_of around.now) is_code)) }
    {
        let between = &around[..shared];
        if self.gap.has_break {
            return self.nest.push_leaf(shared, between, Inline::LineBreak);
        }
        if self.gap.white.is_empty() {
            return Ok(());
        }
        let is_code = self.is_code_gap(shared, around, is_code);
        self.nest
            .push_text(shared, between, &self.gap.white, is_code)
    }

    /// Whether the gap is code.
    fn is_code_gap(&self, shared: usize, around: &[Around], is_code: bool) -> bool
        requires { shared ≡ nesting.shared (writing_in self.now).around (wrappers_of around.now) }
        ensures { result ≡ (is_code && spec.is_code_gap (writing_in self.now) (wrappers_of around.now)) }
    {
        is_code
            && self.anchors.is_empty()
            && self.latest == Latest::Code
            && self.gap.is_code
            && shared == self.nest.depth()
            && shared == around.len()
    }

    /// Something showed.
    fn settle(&mut self, latest: Latest)
        ensures { writing_in self.new ≡ with_latest (writing_in self.old) latest }
    {
        self.latest = latest;
        self.gap.clear();
        self.is_blank = false;
        self.breaks = 0;
    }

    /// Ends the paragraph where two breaks come before something that shows.
    fn part(&mut self) -> Result<(), AllocError>
        ensures { IfOk result (λ _. writing_in self.new ≡ spec.parted (writing_in self.old)) }
    {
        if !self.is_flat && self.breaks >= 2 {
            self.end()?;
        }
        Ok(())
    }

    /// Adds a paragraph, if something is in it.
    fn push_paragraph(&mut self, content: Vec<Inline>) -> Result<(), AllocError>
        ensures { IfOk result (λ _. writing_in self.new
            ≡ with_blocks (writing_in self.old) (spec.paragraph_of (inlines_of content.items))) }
    {
        if content.is_empty() {
            return Ok(());
        }
        self.done.push(Block::Paragraph(content))?;
        Ok(())
    }

    /// Whether nothing showed in the paragraph, and no anchors are due.
    fn is_idle(&self) -> bool
        ensures { result ≡ true
            → ((writing_in self.now).latest ≡ Nothing) × ((writing_in self.now).anchors ≡ []) }
    {
        if !self.latest.is_nothing() {
            return false;
        }
        self.anchors.is_empty()
    }

    /// Moves what is in the paragraph to the blocks, if something is.
    fn end_content(&mut self) -> Result<(), AllocError>
        ensures { IfOk result (λ _. writing_in self.new
            ≡ emptied (with_blocks (writing_in self.old) (spec.open_paragraph (writing_in self.old)))) }
    {
        if self.is_idle() {
            self.nest.clear();
            return Ok(());
        }
        let content = self.take()?;
        self.push_paragraph(content)
    }

    /// Ends the paragraph, if there is one, and begins another.
    fn end(&mut self) -> Result<(), AllocError>
        ensures { IfOk result (λ _. writing_in self.new ≡ spec.ended (writing_in self.old)) }
    {
        self.end_content()?;
        self.latest = Latest::Nothing;
        self.gap.clear();
        self.is_blank = true;
        self.breaks = 0;
        Ok(())
    }
}
