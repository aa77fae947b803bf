//! Open blocks, line by line (CommonMark 0.31.2, appendix, phase 1).
ghost use Rattle.std.specs.Prelude.{◌≡◌, ◌∷◌, ◌++◌, ◌*◌, ◌≤◌, ◌&&◌, ◌||◌, nat_le, ℕ, Bool, false, [], List, Some};
ghost use Rattle.std.specs.Prelude.{None, map, length, drop, option_map, replicate, IfOk, OnOk, MatchOption, IfSome};
ghost use Rattle.htmd_document.specs.declared.document.Alignment as alignment;
ghost use Rattle.htmd_lexical.specs.CharacterClasses.{is_empty};
ghost use Rattle.htmd_commonmark_reading.specs.BlockStarts as starts;
ghost use Rattle.htmd_commonmark_reading.specs.Boxes as boxes;
ghost use Rattle.htmd_commonmark_reading.specs.Boxes.{ClosedBlocks, no_closed_blocks, one_closed_block, Open, nothing};
ghost use Rattle.htmd_commonmark_reading.specs.Boxes.{Box, joined, joined_lines, was_blank};
ghost use Rattle.htmd_commonmark_reading.specs.Containers as containers;
ghost use Rattle.htmd_commonmark_reading.specs.LeafBlocks as leaves;
ghost use Rattle.htmd_commonmark_reading.specs.Lines as lines;
ghost use Rattle.htmd_commonmark_reading.specs.LinkDefinitions as links;
ghost use Rattle.htmd_commonmark_reading.specs.Tables.{cells};
ghost use Rattle.htmd_commonmark_reading.specs.Lists.{collected};
ghost use Rattle.htmd_commonmark_reader.specs.BulletRuns.{IsBehind};
ghost use Rattle.htmd_commonmark_reader.specs.ClosedParts.{end, closed_parts, kind_of, leaf_of, parts_of};
ghost use Rattle.htmd_commonmark_reader.specs.Definitions.{held_of, encoded};
ghost use Rattle.htmd_commonmark_reader.specs.HtmlBlocks.{ends_of, are_no_ends};
ghost use Rattle.htmd_commonmark_reader.specs.LineStarts.{start_of, is_nothing, IsHeld, StartsLeaf};
ghost use Rattle.htmd_commonmark_reader.specs.LineViews.{line_of, IsLine, widest};
ghost use Rattle.htmd_commonmark_reader.specs.OpenBlocks.{Before, nothing_before, deeper, Holds, HoldsBox, Closes};
ghost use Rattle.htmd_commonmark_reader.specs.OpenBlocks.{Ends, open_kinds, before_table, table_row, before_first};
ghost use Rattle.htmd_commonmark_reader.specs.OpenBlocks.{definition_marks, whole_of, no_quote};
ghost use Rattle.htmd_commonmark_reader.specs.OpenLeaves.{IsLeaf, IsRows, IsParagraph, IsIndented, IsFenced, IsRaw};
ghost use Rattle.htmd_commonmark_reader.specs.OpenLeaves.{IsGrid};

use crate::block_starts::{After, Heading, closes_fence};
use crate::bullet_runs::{bullets_left, nested_start};
use crate::closed::{Closed, ClosedLeaf, Container};
use crate::containers::take_line;
use crate::definitions::{Definition, definitions};
use crate::html_blocks::HtmlEnd;
use crate::leaf_blocks::{delimiter_row_of, underline_of};
use crate::leaf_rows::Rows;
use crate::leaves::{FencedCode, HtmlBlock, IndentedCode, Leaf, Paragraph, Table};
use crate::lines::{Line, split_line};
use crate::open_containers::OpenContainers;
use crate::starts::{LineStart, line_start};
use crate::tables::{cell_count, cells};
use htmd_document::Alignment;
use std::alloc::{AllocError, Global};
use std::mem;

/// What is closed, what is open, and the definitions.
#[derive(Drop)]
pub(crate) struct Blocks<'a> {
    closed: Vec<Closed>,
    definitions: Vec<Definition>,
    boxes: OpenContainers,
    /// Nothing is closed in the innermost container.
    is_empty: bool,
    /// A blank line stands before what is open in the innermost container, or comes next there.
    gap: bool,
    leaf: Leaf<'a>,
}

impl<'a> Blocks<'a> {
    fn new(alloc: Global) -> Blocks<'a>
        ensures { Holds nothing_before no_closed_blocks false nothing result }
    {
        Blocks {
            closed: Vec::new(alloc),
            definitions: Vec::new(alloc),
            boxes: OpenContainers::new(alloc),
            is_empty: true,
            gap: false,
            leaf: Leaf::Nothing,
        }
    }

    /// Appends a leaf to the innermost container.
    fn push_leaf(&mut self, leaf: ClosedLeaf) -> Result<(), AllocError>
        ensures { OnOk result (Closes (one_closed_block self.old.gap (leaf_of leaf)) false self.old self.new) }
    {
        self.closed.push(Closed::Leaf {
            gap: self.gap,
            leaf,
        })?;
        self.is_empty = false;
        self.gap = false;
        Ok(())
    }

    /// Begins a container in the innermost one.
    fn begin_box(&mut self, kind: Container) -> Result<(), AllocError>
        ensures { OnOk result ((p : Before) (done : ClosedBlocks) (g : Bool) → Holds p done g nothing self.old
            → Holds (deeper p done g (kind_of kind)) no_closed_blocks false nothing self.new) }
    {
        self.closed.push(Closed::Begin {
            gap: self.gap,
            kind,
        })?;
        self.boxes.push(kind)?;
        self.is_empty = true;
        self.gap = false;
        Ok(())
    }

    /// Appends what a paragraph's text or a heading's leaves: definitions, and the rest if there is any.
    fn push_text(&mut self, alloc: Global, text: &str, level: Option<u8>) -> Result<(), AllocError>
        ensures { OnOk result (Closes (boxes.parts_of self.old.gap (whole_of level) (links.definitions text.now)) false
            self.old self.new) }
    {
        let before = self.definitions.len();
        let rest = definitions(alloc, text, &mut self.definitions)?;
        let count = self.definitions.len() - before;
        push_marks(&mut self.closed, self.gap, count)?;
        self.gap = before_first(self.gap, count);
        self.is_empty = before_first(self.is_empty, count);
        if rest.is_empty() {
            self.gap = false;
            return Ok(());
        }
        let leaf = whole(alloc, rest, level)?;
        self.push_leaf(leaf)
    }

    /// Appends a leaf that ends.
    fn close(&mut self, alloc: Global, leaf: Leaf<'a>) -> Result<(), AllocError>
        ensures { OnOk result ((o : Open) → IsLeaf leaf.entry o
            → Closes (boxes.closed self.old.gap o) (was_blank self.old.gap o) self.old self.new) }
    {
        match leaf {
            Leaf::Nothing => Ok(()),
            Leaf::Paragraph(paragraph) => self.close_paragraph(alloc, paragraph),
            Leaf::Indented(code) => self.close_code(code),
            Leaf::Fenced(code) => self.push_leaf(ClosedLeaf::Code {
                language: code.language,
                text: code.rows.text,
            }),
            Leaf::Html(html) => self.push_leaf(ClosedLeaf::Html(html.rows.text)),
            Leaf::Table(table) => self.push_leaf(ClosedLeaf::Table {
                alignments: table.alignments,
                header: table.header,
                rows: table.rows,
            }),
        }
    }

    fn close_paragraph(&mut self, alloc: Global, paragraph: Paragraph<'a>) -> Result<(), AllocError>
        ensures { OnOk result ((ls : List (List ℕ)) (s : List ℕ) → IsParagraph ls s paragraph.entry
            → Closes (boxes.closed_leaf self.old.gap (boxes.paragraph ls s)) false self.old self.new) }
    {
        let text = paragraph.text(alloc)?;
        self.push_text(alloc, text.as_str(), None)
    }

    fn close_code(&mut self, code: IndentedCode) -> Result<(), AllocError>
        ensures { OnOk result ((ls : List (List ℕ)) → IsIndented ls code
            → Closes (boxes.closed_leaf self.old.gap (boxes.indented ls)) (boxes.ends_blank ls) self.old self.new) }
    {
        let gap = !code.blanks.is_empty;
        self.push_leaf(ClosedLeaf::Code {
            language: None,
            text: code.rows.text,
        })?;
        self.gap = gap;
        Ok(())
    }

    /// Ends containers until so many are left.
    fn end_boxes(&mut self, depth: usize) -> Result<(), AllocError>
        requires { depth ≤ length self.now.boxes.kinds.items }
        ensures { OnOk result (Ends depth self.old self.new) }
    {
        self.gap = end_all(&mut self.closed, &self.boxes.kinds[depth..], self.gap)?;
        self.boxes.truncate(depth);
        self.is_empty = false;
        Ok(())
    }

    /// Closes the leaf, and containers until so many are left.
    fn close_to(&mut self, alloc: Global, depth: usize) -> Result<(), AllocError>
        ensures { OnOk result ((p : Before) (done : ClosedBlocks) (g : Bool) (o : Open) → length p.kinds ≡ depth
            → Holds p done g o self.old
            → Holds p (joined done (boxes.closed g o)) (was_blank g o) nothing self.new) }
    {
        let leaf = mem::replace(&mut self.leaf, Leaf::Nothing);
        self.close(alloc, leaf)?;
        if depth < self.boxes.kinds.len() {
            return self.end_boxes(depth);
        }
        Ok(())
    }

    /// Begins the leaf that a line starts.
    fn begin_leaf(
        &mut self,
        alloc: Global,
        line: Line<'a>,
        start: LineStart<'a>,
    ) -> Result<(), AllocError>
        requires line { IsLine line }
        requires held { IsHeld start }
        requires leaf { StartsLeaf start }
        ensures { OnOk result ((p : Before) (done : ClosedBlocks) (g : Bool) → Holds p done g nothing self.old
            → HoldsBox p (starts.opened done g (line_of line.entry) (start_of (line_of line.entry) start.entry))
            self.new) }
    {
        match start {
            LineStart::Nothing => {
                self.leaf = Leaf::Paragraph(Paragraph::new(alloc, line));
                Ok(())
            }
            LineStart::Code(first) => self.begin_code(alloc, first),
            LineStart::Heading(heading) => self.push_heading(alloc, heading),
            LineStart::Fence(fence) => {
                self.leaf = Leaf::Fenced(FencedCode::new(alloc, fence)?);
                Ok(())
            }
            LineStart::Html { end, is_whole } => self.begin_html(alloc, end, is_whole, line),
            LineStart::Rule => self.push_leaf(ClosedLeaf::Rule),
            LineStart::Quote(_) | LineStart::Item { .. } => Ok(()),
        }
    }

    fn begin_code(&mut self, alloc: Global, first: Line<'a>) -> Result<(), AllocError>
        requires { IsLine first }
        ensures { OnOk result ((p : Before) (done : ClosedBlocks) (g : Bool) → Holds p done g nothing self.old
            → HoldsBox p (leaves.with_leaf done g (boxes.indented ((line_of first.entry).text ∷ []))) self.new) }
    {
        let mut code = IndentedCode::new(alloc);
        code.push(first)?;
        self.leaf = Leaf::Indented(code);
        Ok(())
    }

    fn push_heading(&mut self, alloc: Global, heading: Heading<'a>) -> Result<(), AllocError>
        ensures { OnOk result (Closes
            (one_closed_block self.old.gap (boxes.headed heading.entry.level heading.entry.text.now)) false
            self.old self.new) }
    {
        let text = String::from_str(alloc, heading.text)?;
        self.push_leaf(ClosedLeaf::Heading {
            level: heading.level,
            text,
        })
    }

    fn begin_html(
        &mut self,
        alloc: Global,
        end: HtmlEnd,
        is_whole: bool,
        line: Line<'a>,
    ) -> Result<(), AllocError>
        ensures { OnOk result ((p : Before) (done : ClosedBlocks) (g : Bool) → Holds p done g nothing self.old
            → HoldsBox p (starts.opened done g (line_of line.entry)
            (start_of (line_of line.entry) (LineStart.Html end is_whole))) self.new) }
    {
        let mut rows = Rows::new(alloc);
        rows.push(line)?;
        if is_whole {
            return self.push_leaf(ClosedLeaf::Html(rows.text));
        }
        self.leaf = Leaf::Html(HtmlBlock { end, rows });
        Ok(())
    }

    /// Begins what a line that isn't blank starts where nothing is open.
    fn open(
        &mut self,
        alloc: Global,
        line: Line<'a>,
        start: LineStart<'a>,
    ) -> Result<(), AllocError>
        requires line { IsLine line }
        requires held { IsHeld start }
        ensures { OnOk result ((p : Before) (done : ClosedBlocks) (g : Bool) → Holds p done g nothing self.old
            → HoldsBox p (starts.opened done g (line_of line.entry) (start_of (line_of line.entry) start.entry))
            self.new) }
    {
        let mut rest = line;
        let mut next = start;
        let mut bullets = 0;
        while let Some(inner) = contained(next) {
            self.begin_box(inner.kind)?;
            if inner.line.is_blank() {
                return Ok(());
            }
            rest = inner.line;
            bullets = bullets_left(bullets, rest);
            next = nested_start(bullets, rest);
        }
        self.begin_leaf(alloc, rest, next)
    }

    /// Begins what a line starts where nothing is open.
    fn begin(
        &mut self,
        alloc: Global,
        line: Line<'a>,
        start: LineStart<'a>,
    ) -> Result<(), AllocError>
        requires line { IsLine line }
        requires held { IsHeld start }
        ensures { OnOk result ((p : Before) (done : ClosedBlocks) (g : Bool) → Holds p done g nothing self.old
            → HoldsBox p (leaves.begun done g (line_of line.entry) (start_of (line_of line.entry) start.entry))
            self.new) }
    {
        if line.is_blank() {
            self.gap = true;
            return Ok(());
        }
        self.open(alloc, line, start)
    }

    fn on_fence(&mut self, code: FencedCode, line: Line<'a>) -> Result<(), AllocError>
        requires { IsLine line }
        ensures { OnOk result ((p : Before) (done : ClosedBlocks) (g : Bool) (columns sign count : ℕ)
            (info : List ℕ) (ls : List (List ℕ)) → Holds p done g nothing self.old
            → IsFenced columns sign count info ls code
            → HoldsBox p (leaves.on_fence done g columns sign count info ls (line_of line.entry)) self.new) }
    {
        if closes_fence(code.sign, code.count, line) {
            return self.push_leaf(ClosedLeaf::Code {
                language: code.language,
                text: code.rows.text,
            });
        }
        let mut code = code;
        code.rows.push(line.cut(code.columns))?;
        self.leaf = Leaf::Fenced(code);
        Ok(())
    }

    fn on_code(
        &mut self,
        alloc: Global,
        code: IndentedCode,
        line: Line<'a>,
    ) -> Result<(), AllocError>
        requires { IsLine line }
        ensures { OnOk result ((p : Before) (done : ClosedBlocks) (g : Bool) (ls : List (List ℕ))
            → Holds p done g nothing self.old → IsIndented ls code
            → HoldsBox p (leaves.on_code done g ls (line_of line.entry)) self.new) }
    {
        if is_code_row(line) {
            let mut code = code;
            code.push(line.cut(4))?;
            self.leaf = Leaf::Indented(code);
            return Ok(());
        }
        self.close_code(code)?;
        self.begin(alloc, line, line_start(After::Alone, line))
    }

    fn on_html(&mut self, html: HtmlBlock, line: Line<'a>) -> Result<(), AllocError>
        requires { IsLine line }
        ensures { OnOk result ((p : Before) (done : ClosedBlocks) (g : Bool) (ends ls : List (List ℕ))
            → Holds p done g nothing self.old → IsRaw ends ls html
            → HoldsBox p (leaves.on_html done g ends ls (line_of line.entry)) self.new) }
    {
        if ends_html(html.end, line) {
            self.push_leaf(ClosedLeaf::Html(html.rows.text))?;
            self.gap = true;
            return Ok(());
        }
        let mut html = html;
        html.rows.push(line)?;
        if html.end.is_in(line.text.as_bytes()) {
            return self.push_leaf(ClosedLeaf::Html(html.rows.text));
        }
        self.leaf = Leaf::Html(html);
        Ok(())
    }

    fn on_table(&mut self, alloc: Global, table: Table, line: Line<'a>) -> Result<(), AllocError>
        requires { IsLine line }
        ensures { let l = line_of line.entry in OnOk result ((p : Before) (done : ClosedBlocks) (g : Bool)
            (alignments : List alignment.Alignment) (header ls : List (List ℕ))
            → Holds p done g nothing self.old → IsGrid alignments header ls table
            → HoldsBox p (leaves.on_table done g alignments header ls l (starts.started starts.alone l)) self.new) }
    {
        let start = line_start(After::Alone, line);
        if is_table_row(line, start) {
            let mut table = table;
            table.push(alloc, line)?;
            self.leaf = Leaf::Table(table);
            return Ok(());
        }
        self.close(alloc, Leaf::Table(table))?;
        self.begin(alloc, line, start)
    }

    /// Closes the lines of a paragraph before the header of a table.
    fn close_earlier(&mut self, alloc: Global, rows: &Rows) -> Result<(), AllocError>
        ensures { OnOk result ((p : Before) (done : ClosedBlocks) (g : Bool) (ls : List (List ℕ))
            → Holds p done g nothing self.old → IsRows ls rows.now
            → HoldsBox p (before_table done g ls) self.new) }
    {
        if rows.is_empty {
            return Ok(());
        }
        self.push_text(alloc, rows.text.as_str(), None)
    }

    /// Begins the table whose header is the last line of a paragraph.
    fn begin_table(
        &mut self,
        alloc: Global,
        paragraph: Paragraph<'a>,
        alignments: Vec<Alignment>,
    ) -> Result<(), AllocError>
        ensures { OnOk result ((p : Before) (done : ClosedBlocks) (g : Bool) (ls : List (List ℕ)) (s : List ℕ)
            → Holds p done g nothing self.old → IsParagraph ls s paragraph.entry
            → HoldsBox p (leaves.table_after done g ls s alignments.items) self.new) }
    {
        let header = cells(alloc, paragraph.last)?;
        self.close_earlier(alloc, &paragraph.earlier)?;
        self.leaf = Leaf::Table(Table {
            alignments,
            header,
            rows: Vec::new(alloc),
        });
        Ok(())
    }

    /// Under a paragraph: a delimiter row below its header, or one more line.
    fn on_row(
        &mut self,
        alloc: Global,
        paragraph: Paragraph<'a>,
        line: Line<'a>,
    ) -> Result<(), AllocError>
        requires { IsLine line }
        ensures { let l = line_of line.entry in OnOk result ((p : Before) (done : ClosedBlocks) (g : Bool)
            (ls : List (List ℕ)) (s : List ℕ)
            → Holds p done g nothing self.old → IsParagraph ls s paragraph.entry
            → HoldsBox p (leaves.table_or_text done g ls s l (leaves.delimiter_row_of l)) self.new) }
    {
        let row = table_row(alloc, &paragraph, line)?;
        match row {
            Some(alignments) => self.begin_table(alloc, paragraph, alignments),
            None => self.lengthen(paragraph, line),
        }
    }

    /// One more line of a paragraph.
    fn lengthen(&mut self, paragraph: Paragraph<'a>, line: Line<'a>) -> Result<(), AllocError>
        requires { IsLine line }
        ensures { let l = line_of line.entry in OnOk result ((p : Before) (done : ClosedBlocks) (g : Bool)
            (ls : List (List ℕ)) (s : List ℕ)
            → Holds p done g nothing self.old → IsParagraph ls s paragraph.entry
            → HoldsBox p (leaves.with_leaf done g (leaves.longer ls s l)) self.new) }
    {
        let mut paragraph = paragraph;
        paragraph.push(line)?;
        self.leaf = Leaf::Paragraph(paragraph);
        Ok(())
    }

    /// Under a paragraph, a line that isn't blank and is no underline.
    fn on_text(
        &mut self,
        alloc: Global,
        paragraph: Paragraph<'a>,
        line: Line<'a>,
    ) -> Result<(), AllocError>
        requires { IsLine line }
        ensures { let l = line_of line.entry in OnOk result ((p : Before) (done : ClosedBlocks) (g : Bool)
            (ls : List (List ℕ)) (s : List ℕ)
            → Holds p done g nothing self.old → IsParagraph ls s paragraph.entry
            → HoldsBox p (leaves.on_text done g ls s l (starts.started starts.under l)) self.new) }
    {
        let start = line_start(After::Under, line);
        if start.is_nothing() {
            return self.on_row(alloc, paragraph, line);
        }
        self.close_paragraph(alloc, paragraph)?;
        self.open(alloc, line, start)
    }

    /// Under a paragraph, a line that underlines what its definitions leave, if there is any.
    fn on_underline(
        &mut self,
        alloc: Global,
        paragraph: Paragraph<'a>,
        level: u8,
        line: Line<'a>,
    ) -> Result<(), AllocError>
        requires { IsLine line }
        ensures { let l = line_of line.entry in OnOk result ((p : Before) (done : ClosedBlocks) (g : Bool)
            (ls : List (List ℕ)) (s : List ℕ)
            → Holds p done g nothing self.old → IsParagraph ls s paragraph.entry
            → HoldsBox p (leaves.on_underline done g (Some level)
            (links.definitions (joined_lines (ls ++ (s ∷ []))))
            (leaves.on_text done g ls s l (starts.started starts.under l))) self.new) }
    {
        let text = paragraph.text(alloc)?;
        let is_alone = is_defining_alone(alloc, text.as_str())?;
        if is_alone {
            return self.on_text(alloc, paragraph, line);
        }
        self.push_text(alloc, text.as_str(), Some(level))
    }

    fn on_paragraph(
        &mut self,
        alloc: Global,
        paragraph: Paragraph<'a>,
        line: Line<'a>,
    ) -> Result<(), AllocError>
        requires { IsLine line }
        ensures { let l = line_of line.entry in OnOk result ((p : Before) (done : ClosedBlocks) (g : Bool)
            (ls : List (List ℕ)) (s : List ℕ)
            → Holds p done g nothing self.old → IsParagraph ls s paragraph.entry
            → HoldsBox p (leaves.on_paragraph done g ls s l) self.new) }
    {
        if line.is_blank() {
            self.close_paragraph(alloc, paragraph)?;
            self.gap = true;
            return Ok(());
        }
        match underline_of(line) {
            Some(level) => self.on_underline(alloc, paragraph, level, line),
            None => self.on_text(alloc, paragraph, line),
        }
    }

    /// Reads what all open containers leave of a line.
    fn push_here(&mut self, alloc: Global, line: Line<'a>) -> Result<(), AllocError>
        requires { IsLine line }
        ensures { OnOk result ((p : Before) (done : ClosedBlocks) (g : Bool) (o : Open) → open_kinds o ≡ []
            → Holds p done g o self.old → HoldsBox p (containers.fed done g o (line_of line.entry)) self.new) }
    {
        match mem::replace(&mut self.leaf, Leaf::Nothing) {
            Leaf::Nothing => self.begin(alloc, line, line_start(After::Alone, line)),
            Leaf::Paragraph(paragraph) => self.on_paragraph(alloc, paragraph, line),
            Leaf::Indented(code) => self.on_code(alloc, code, line),
            Leaf::Fenced(code) => self.on_fence(code, line),
            Leaf::Html(html) => self.on_html(html, line),
            Leaf::Table(table) => self.on_table(alloc, table, line),
        }
    }

    /// The innermost paragraph takes a line.
    fn push_lazily(&mut self, line: Line<'a>) -> Result<(), AllocError>
        requires { IsLine line }
        ensures { OnOk result ((p : Before) (done : ClosedBlocks) (g : Bool) (o : Open) → Holds p done g o self.old
            → Holds p done g (containers.lazily o (line_of line.entry)) self.new) }
    {
        match mem::replace(&mut self.leaf, Leaf::Nothing) {
            Leaf::Paragraph(paragraph) => self.lengthen(paragraph, line),
            other => {
                self.leaf = other;
                Ok(())
            }
        }
    }

    /// Whether a line may go on with the innermost paragraph, whatever containers it is in.
    fn may_be_lazy(&self, line: Line<'a>) -> bool
        requires { IsLine line }
        ensures { (o : Open) → IsLeaf self.now.leaf o → result ≡ containers.may_be_lazy o (line_of line.entry) }
    {
        self.leaf.is_paragraph() && !line.is_blank()
    }

    /// Reads what so many containers leave of a line, with which the next one doesn't go on.
    fn push_left(&mut self, alloc: Global, depth: usize, line: Line<'a>) -> Result<(), AllocError>
        requires { IsLine line }
        ensures { let l = line_of line.entry in OnOk result ((p : Before) (done : ClosedBlocks) (g : Bool) (o : Open)
            → length p.kinds ≡ depth → Holds p done g o self.old
            → HoldsBox p (containers.left (containers.may_be_lazy o l) done g o l
            (starts.started (containers.after_container (containers.may_be_lazy o l)) l)) self.new) }
    {
        let is_lazy = self.may_be_lazy(line);
        let start = line_start(After::container(is_lazy), line);
        if is_lazy_row(is_lazy, start) {
            return self.push_lazily(line);
        }
        self.close_to(alloc, depth)?;
        self.begin(alloc, line, start)
    }

    /// Whether nothing is in the innermost container.
    fn holds_nothing(&self) -> bool
        ensures { (o : Open) → IsLeaf self.now.leaf o → result ≡ (self.now.is_empty && containers.is_nothing o) }
    {
        self.is_empty && self.leaf.is_nothing()
    }

    /// Reads a line.
    fn push_line(&mut self, alloc: Global, line: Line<'a>) -> Result<(), AllocError>
        requires { IsLine line }
        ensures { OnOk result ((b : Box) → HoldsBox nothing_before b self.old
            → HoldsBox nothing_before (containers.fed b.done b.gap b.inner (line_of line.entry)) self.new) }
    {
        let boxes = &self.boxes;
        let found = take_line(&boxes.kinds, boxes.quotes, self.holds_nothing(), line);
        if found.depth == self.boxes.kinds.len() {
            self.push_here(alloc, found.line)
        } else {
            self.push_left(alloc, found.depth, found.line)
        }
    }
}

/// Whether indented code goes on with a line.
fn is_code_row(line: Line<'_>) -> bool
    requires { IsLine line }
    ensures { result ≡ (lines.is_blank (line_of line.entry) || nat_le 4 (lines.indent (line_of line.entry))) }
{
    line.is_blank() || line.indent >= 4
}

/// Whether a blank line ends an HTML block.
fn ends_html(end: HtmlEnd, line: Line<'_>) -> bool
    requires { IsLine line }
    ensures { result ≡ (are_no_ends (ends_of end) && lines.is_blank (line_of line.entry)) }
{
    end.is_blank_line() && line.is_blank()
}

/// The alignments of the table that a line begins below its header. `Err` means out of memory.
fn table_row(
    alloc: Global,
    paragraph: &Paragraph<'_>,
    line: Line<'_>,
) -> Result<Option<Vec<Alignment>>, AllocError>
    requires { IsLine line }
    ensures { IfOk result (λ row. option_map (λ a. a.items) row
        ≡ table_row paragraph.now.last.now (leaves.delimiter_row_of (line_of line.entry))) }
{
    let Some(alignments) = delimiter_row_of(alloc, line)? else {
        return Ok(None);
    };
    if paragraph.is_header(&alignments) {
        return Ok(Some(alignments));
    }
    Ok(None)
}

/// Whether a line that may be lazy, and that starts this, is.
fn is_lazy_row(may_be: bool, start: LineStart<'_>) -> bool
    ensures { result ≡ (may_be && is_nothing start.entry) }
{
    may_be && start.is_nothing()
}

/// Whether a line that starts this is a row of a table.
fn is_table_row(line: Line<'_>, start: LineStart<'_>) -> bool
    ensures { result ≡ leaves.is_row (cells (line_of line.entry).text)
        (start_of (line_of line.entry) start.entry) }
{
    start.is_nothing() && cell_count(line.text) > 0
}

/// A container that a line begins, and the rest of the line.
#[derive(Clone, Copy, Drop)]
struct Inner<'a> {
    kind: Container,
    line: Line<'a>,
}

/// The container that a line starts, if it does.
fn contained(start: LineStart<'_>) -> Option<Inner<'_>>
    requires { IsHeld start }
    ensures start { MatchOption result (StartsLeaf start.entry) (λ i. (l : lines.Line) → start_of l start.entry
        ≡ starts.first_line (starts.fresh (kind_of i.kind) (line_of i.line)
        (starts.started starts.alone (line_of i.line)))) }
    ensures held { IfSome result (λ i. IsLine i.line) }
    ensures behind { IfSome result (λ i. (m : List ℕ) → IsBehind m start.entry
        → lines.marks (line_of i.line).text ≡ drop 1 m) }
{
    match start {
        LineStart::Quote(line) => Some(Inner {
            kind: Container::Quote,
            line,
        }),
        LineStart::Item { sign, number, item } => Some(Inner {
            kind: Container::Item {
                sign,
                number,
                columns: item.columns,
            },
            line: item.content,
        }),
        _ => None,
    }
}

/// A text or a heading.
fn whole(alloc: Global, text: &str, level: Option<u8>) -> Result<ClosedLeaf, AllocError>
    ensures { IfOk result (λ leaf. leaf_of leaf ≡ whole_of level text.now) }
{
    let text = String::from_str(alloc, text)?;
    match level {
        Some(level) => Ok(ClosedLeaf::Heading { level, text }),
        None => Ok(ClosedLeaf::Text(text)),
    }
}

/// Whether a text is nothing but definitions.
fn is_defining_alone(alloc: Global, text: &str) -> Result<bool, AllocError>
    ensures { IfOk result (λ is_alone. is_alone ≡ is_empty (links.definitions text.now).rest) }
{
    let mut found = Vec::new(alloc);
    let rest = definitions(alloc, text, &mut found)?;
    Ok(rest.is_empty())
}

/// The flag, if nothing comes before.
fn before_first(flag: bool, count: usize) -> bool
    ensures { result ≡ before_first flag count }
{
    flag && count == 0
}

/// Appends so many definitions, of which a blank line may stand before the first.
fn push_marks(closed: &mut Vec<Closed>, gap: bool, count: usize) -> Result<(), AllocError>
    ensures { OnOk result (parts_of closed.new.items ≡ parts_of closed.old.items ++ definition_marks gap count) }
{
    for at in 0..count {
        closed.push(Closed::Definition {
            gap: before_first(gap, at),
        })?;
    }
    Ok(())
}

/// Ends containers; whether a blank line stands before what follows.
fn end_all(closed: &mut Vec<Closed>, boxes: &[Container], gap: bool) -> Result<bool, AllocError>
    ensures parts { OnOk result (parts_of closed.new.items
        ≡ parts_of closed.old.items ++ replicate (length boxes.now) end) }
    ensures gap { IfOk result (λ after. after ≡ (gap && no_quote (map kind_of boxes.now))) }
{
    let mut after = gap;
    for kind in boxes {
        closed.push(Closed::End)?;
        after = after && !kind.is_quote();
    }
    Ok(after)
}

/// What a text is: closed blocks, and its definitions in order.
#[derive(Drop)]
pub(crate) struct ClosedText {
    pub(crate) closed: Vec<Closed>,
    pub(crate) definitions: Vec<Definition>,
}

/// The closed blocks of a text that has no U+0000. `Err` means out of memory.
pub(crate) fn closed_text(alloc: Global, text: &str) -> Result<ClosedText, AllocError>
    requires { 4 * length text.now ≤ widest }
    ensures parts { IfOk result (λ t. parts_of t.closed.items
        ≡ closed_parts (containers.parsed (lines.placed (lines.split_lines text.now))) []) }
    ensures found { IfOk result (λ t. map held_of t.definitions.items
        ≡ map encoded (collected (containers.parsed (lines.placed (lines.split_lines text.now))))) }
{
    let mut blocks = Blocks::new(alloc);
    let mut rest = text;
    while !rest.is_empty() {
        let (line, after) = split_line(rest);
        blocks.push_line(alloc, Line::at(0, line))?;
        rest = after;
    }
    blocks.close_to(alloc, 0)?;
    Ok(ClosedText {
        closed: blocks.closed,
        definitions: blocks.definitions,
    })
}
