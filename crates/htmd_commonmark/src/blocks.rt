//! Blocks as Markdown (CommonMark 0.31.2, 4 and 5).
ghost use Rattle.std.specs.Prelude.{◌≡◌, ◌<◌, ◌^◌, ◌++◌, IfOk, OnOk, length, string_bytes};
ghost use Rattle.std.specs.Option.{option_copied};
ghost use Rattle.htmd_document.specs.DocumentViews.{block_of, blocks_of, document_of, inline_of, inlines_of};
ghost use Rattle.htmd_document.specs.FlatDocuments as flat;
ghost use Rattle.htmd_document.specs.FlatViews.{flat_of, flat_blocks_of};
ghost use Rattle.htmd_markdown.specs.Headings as headings;
ghost use Rattle.htmd_markdown.specs.Tables.{texts};
ghost use Rattle.htmd_commonmark.specs.BlockMarkdown as spec;
ghost use Rattle.htmd_commonmark.specs.BlockViews.{output_of, put, put_text, all_items_of, cells_of, rows_of};
ghost use Rattle.htmd_commonmark.specs.DocumentMarkdown.{markdown_of, written_definitions};
ghost use Rattle.htmd_commonmark.specs.Fences.{fence};
ghost use Rattle.htmd_commonmark.specs.InlineMarkdown.{written_line};
ghost use Rattle.htmd_commonmark.specs.Pages as page;
ghost use Rattle.htmd_commonmark.specs.declared.line.LineKind.TheVariants.{Paragraph, Heading};

use crate::character_kind::character_count;
use crate::fence::push_fence;
use crate::inlines::InlineWriter;
use crate::line::{Line, LineKind};
use crate::lines::Lines;
use crate::markers::{Markers, Sign, list_sign};
use crate::options::DocumentOptions;
use crate::table::TableTexts;
use htmd_document::{
    Alignment, Block, CellContent, Document, FlatBlock, Inline, RowContent, flattened,
};
use htmd_markdown::{HeadingStyle, HrStyle};
use htmd_text::push_repeated;
use std::alloc::{AllocError, Global};

/// The document as Markdown. `Err` means out of memory.
pub fn to_markdown(
    alloc: Global,
    document: &Document,
    options: &DocumentOptions,
) -> Result<String, AllocError>
    ensures ok { IfOk result
        (λ s. string_bytes s ≡ markdown_of options.now (document_of document.now)) }
{
    blocks_to_markdown(alloc, &document.blocks, options)
}

/// Blocks as the Markdown of a document of them. `Err` means out of memory.
pub fn blocks_to_markdown(
    alloc: Global,
    blocks: &[Block],
    options: &DocumentOptions,
) -> Result<String, AllocError>
    ensures ok { IfOk result
        (λ s. string_bytes s ≡ markdown_of options.now (blocks_of blocks.now)) }
{
    let mut writer = BlockWriter {
        lines: Lines::new(alloc),
        inlines: InlineWriter::new(alloc),
        alloc,
    };
    let place = Place {
        outer: None,
        in_item: false,
        tight: false,
    };
    writer.write_blocks(blocks, options, place)?;
    push_definitions(&mut writer.lines, &writer.inlines.definitions)?;
    Ok(writer.lines.into_text())
}

/// Where blocks are.
#[derive(Clone, Copy)]
pub struct Place {
    /// The bullet of the item that begins with them.
    pub outer: Option<Sign>,
    pub in_item: bool,
    /// Whether they are tight.
    pub tight: bool,
}

impl Place {
    /// Where the block at this place of others is.
    fn at(self, i: usize) -> Place
        ensures { result ≡ spec.place_at self i }
    {
        if i == 0 {
            self
        } else {
            Place {
                outer: None,
                ..self
            }
        }
    }
}

/// What was written so far.
#[derive(Drop)]
struct BlockWriter {
    lines: Lines,
    inlines: InlineWriter,
    alloc: Global,
}

impl BlockWriter {
    /// Writes blocks one below the other.
    #[cycle(blocks)]
    fn write_blocks(
        &mut self,
        blocks: &[Block],
        options: &DocumentOptions,
        place: Place,
    ) -> Result<(), AllocError>
        ensures { OnOk result (output_of self.new ≡ put (output_of self.old)
            (spec.written_blocks options.now place (output_of self.old).definitions
            (flat.flattened (blocks_of blocks.now)))) }
    {
        let blocks = flattened(self.alloc, blocks)?;
        self.write_flat_blocks(&blocks, options, place)
    }

    /// Writes flat blocks one below the other.
    #[cycle(blocks)]
    fn write_flat_blocks(
        &mut self,
        blocks: &[FlatBlock],
        options: &DocumentOptions,
        place: Place,
    ) -> Result<(), AllocError>
        ensures { OnOk result (output_of self.new ≡ put (output_of self.old)
            (spec.written_blocks options.now place (output_of self.old).definitions
            (flat_blocks_of blocks.now))) }
    {
        let mut before = None;
        for (i, block) in blocks.iter().enumerate() {
            if i > 0 {
                self.lines.push_separator(place.tight)?;
            }
            let here = place.at(i);
            self.write_flat(block, options, here, before)?;
            before = sign_of(block, options, before, here.outer);
        }
        Ok(())
    }

    /// Writes lines of tags, or a block after a list with this sign or another block.
    #[cycle(blocks)]
    fn write_flat(
        &mut self,
        block: &FlatBlock,
        options: &DocumentOptions,
        place: Place,
        before: Option<Sign>,
    ) -> Result<(), AllocError>
        ensures { OnOk result (output_of self.new ≡ put (output_of self.old)
            (spec.written_block options.now place before (output_of self.old).definitions
            (flat_of block.now))) }
    {
        match block {
            FlatBlock::Tags(text) => self.lines.push(text),
            FlatBlock::Block(block) => self.write_block(block, options, place, before),
        }
    }

    /// Writes a block that is no element.
    #[cycle(blocks)]
    fn write_block(
        &mut self,
        block: &Block,
        options: &DocumentOptions,
        place: Place,
        before: Option<Sign>,
    ) -> Result<(), AllocError>
        ensures { OnOk result (output_of self.new ≡ put (output_of self.old)
            (spec.written_block options.now place before (output_of self.old).definitions
            (flat.flat_block (block_of block.now)))) }
    {
        match block {
            Block::Paragraph(content) => self.write_paragraph(content, options),
            Block::Heading { level, content } => self.write_heading(*level, content, options),
            Block::CodeBlock { language, text } => {
                self.write_code_block(text, language.as_deref(), options)
            }
            Block::Quote(content) => self.write_quote(content, options, place.in_item),
            Block::ThematicBreak => self
                .lines
                .push(thematic_break(options.hr_style, place.in_item)),
            Block::List {
                start,
                tight,
                items,
            } => {
                let markers = Markers::of(options, *start, items.len(), before, place.outer);
                self.write_list(items, *tight, markers, options)
            }
            Block::Table {
                alignments,
                header,
                rows,
            } => self.write_table(alignments, header, rows, options),
            Block::Element { .. } => Ok(()),
        }
    }

    /// Writes a paragraph.
    fn write_paragraph(
        &mut self,
        content: &[Inline],
        options: &DocumentOptions,
    ) -> Result<(), AllocError>
        ensures { OnOk result (output_of self.new ≡ put (output_of self.old)
            (written_line (spec.line_of options.now Paragraph) (output_of self.old).definitions
            (inlines_of content.now))) }
    {
        let line = Line::new(options, LineKind::Paragraph);
        self.inlines.write_line(content, line)?;
        self.lines.push(&self.inlines.text)
    }

    /// Writes a heading; with a break in it, it is one line after number signs.
    fn write_heading(
        &mut self,
        level: u8,
        content: &[Inline],
        options: &DocumentOptions,
    ) -> Result<(), AllocError>
        ensures { OnOk result (output_of self.new ≡ put (output_of self.old)
            (spec.written_heading options.now (output_of self.old).definitions level
            (inlines_of content.now))) }
    {
        if is_underlined(options, level, content) {
            self.write_underlined(level, content, options)
        } else {
            self.write_after_signs(level, content, options)
        }
    }

    /// Writes a heading after number signs.
    fn write_after_signs(
        &mut self,
        level: u8,
        content: &[Inline],
        options: &DocumentOptions,
    ) -> Result<(), AllocError>
        ensures { let w = written_line (spec.line_of options.now Heading)
            (output_of self.old).definitions (inlines_of content.now) in
            OnOk result (output_of self.new ≡ put_text (output_of self.old)
            (spec.number_signs level ++ w.text) w.definitions) }
    {
        let line = Line::new(options, LineKind::Heading);
        self.inlines.write_line(content, line)?;
        self.lines.push_signs(level)?;
        self.lines.push_in_line(" ")?;
        self.lines.push(&self.inlines.text)
    }

    /// Writes a heading with a line under it.
    fn write_underlined(
        &mut self,
        level: u8,
        content: &[Inline],
        options: &DocumentOptions,
    ) -> Result<(), AllocError>
        ensures { let w = written_line (spec.line_of options.now Paragraph)
            (output_of self.old).definitions (inlines_of content.now) in
            OnOk result (output_of self.new ≡ put_text (output_of self.old)
            (spec.underlined level w.text) w.definitions) }
    {
        let line = Line::new(options, LineKind::Paragraph);
        self.inlines.write_line(content, line)?;
        push_underline(&mut self.inlines.text, level)?;
        self.lines.push(&self.inlines.text)
    }

    /// Writes a fenced code block.
    fn write_code_block(
        &mut self,
        code: &str,
        language: Option<&str>,
        options: &DocumentOptions,
    ) -> Result<(), AllocError>
        ensures { OnOk result (output_of self.new ≡ put_text (output_of self.old)
            (fence code.now (option_copied language.entry) options.now.code_block_fence)
            (output_of self.old).definitions) }
    {
        self.inlines.text.clear();
        push_fence(
            &mut self.inlines.text,
            code,
            language,
            options.code_block_fence,
        )?;
        self.lines.push(&self.inlines.text)
    }

    /// Writes a quote.
    #[cycle(blocks)]
    fn write_quote(
        &mut self,
        content: &[Block],
        options: &DocumentOptions,
        in_item: bool,
    ) -> Result<(), AllocError>
        ensures { let w = spec.written_blocks options.now (spec.place_in_quote in_item)
            (output_of self.old).definitions (flat.flattened (blocks_of content.now)) in
            OnOk result (output_of self.new ≡ put_text (output_of self.old)
            (page.quoted w.text) w.definitions) }
    {
        let place = Place {
            outer: None,
            in_item,
            tight: false,
        };
        let outside = self.lines.open_quote()?;
        self.write_blocks(content, options, place)?;
        self.lines.close_quote(outside)
    }

    /// Writes a list whose items have these markers.
    #[cycle(blocks)]
    fn write_list(
        &mut self,
        items: &[Vec<Block>],
        tight: bool,
        markers: Markers,
        options: &DocumentOptions,
    ) -> Result<(), AllocError>
        requires { length items.now < 2 ^ 63 }
        ensures { OnOk result (output_of self.new ≡ put (output_of self.old)
            (spec.written_items options.now markers tight (output_of self.old).definitions
            (flat.flat_items (all_items_of items.now)))) }
    {
        for (i, item) in items.iter().enumerate() {
            if i > 0 {
                self.lines.push_separator(tight)?;
            }
            self.write_item(item, tight, markers, i, options)?;
        }
        Ok(())
    }

    /// Writes the item at this place of a list.
    #[cycle(blocks)]
    fn write_item(
        &mut self,
        blocks: &[Block],
        tight: bool,
        markers: Markers,
        i: usize,
        options: &DocumentOptions,
    ) -> Result<(), AllocError>
        requires { i < 2 ^ 63 }
        ensures { let w = spec.written_blocks options.now (spec.place_in_item markers tight)
            (output_of self.old).definitions (flat.flattened (blocks_of blocks.now)) in
            OnOk result (output_of self.new ≡ put_text (output_of self.old)
            (page.indented (spec.marker markers i) (spec.spaces markers i) w.text) w.definitions) }
    {
        let place = Place {
            outer: markers.outer(),
            in_item: true,
            tight,
        };
        markers.write(i, &mut self.inlines.text)?;
        let outside = self.lines.open_item(&self.inlines.text, markers.spaces(i))?;
        self.write_blocks(blocks, options, place)?;
        self.lines.close_item(outside);
        Ok(())
    }

    /// Writes a table.
    fn write_table(
        &mut self,
        alignments: &[Alignment],
        header: &[CellContent],
        rows: &[RowContent],
        options: &DocumentOptions,
    ) -> Result<(), AllocError>
        ensures { OnOk result (output_of self.new ≡ put (output_of self.old)
            (spec.written_table options.now (output_of self.old).definitions alignments.now
            (cells_of header.now) (rows_of rows.now))) }
    {
        let line = Line::new(options, LineKind::Cell);
        let texts = TableTexts::of(self.alloc, &mut self.inlines, header, rows, line)?;
        self.inlines.text.clear();
        texts.push(self.alloc, &mut self.inlines.text, alignments)?;
        self.lines.push(&self.inlines.text)
    }
}

/// Appends the definitions of the links, if there are any.
fn push_definitions(lines: &mut Lines, definitions: &[String]) -> Result<(), AllocError>
    ensures { OnOk result
        (lines.new ≡ page.wrote lines.old (written_definitions (texts definitions.now))) }
{
    for (i, definition) in definitions.iter().enumerate() {
        lines.push(if i == 0 { "\n\n" } else { "\n" })?;
        lines.push(definition)?;
    }
    Ok(())
}

/// The sign of the block if it is a list.
fn sign_of(
    block: &FlatBlock,
    options: &DocumentOptions,
    before: Option<Sign>,
    outer: Option<Sign>,
) -> Option<Sign>
    ensures { result ≡ spec.sign_of options.now before outer (flat_of block.now) }
{
    match block {
        FlatBlock::Tags(_) => None,
        FlatBlock::Block(block) => sign_of_block(block, options, before, outer),
    }
}

fn sign_of_block(
    block: &Block,
    options: &DocumentOptions,
    before: Option<Sign>,
    outer: Option<Sign>,
) -> Option<Sign>
    ensures { result ≡ spec.sign_of options.now before outer (flat.flat_block (block_of block.now)) }
{
    match block {
        Block::List { start, .. } => Some(list_sign(options, *start, before, outer)),
        _ => None,
    }
}

/// A thematic break; in an item one that begins no item.
fn thematic_break(style: HrStyle, in_item: bool) -> &'static str
    ensures { result.now ≡ spec.rule style in_item }
{
    if in_item {
        return "_ _ _";
    }
    match style {
        HrStyle::Asterisks => "* * *",
        HrStyle::Dashes => "- - -",
        HrStyle::Underscores => "_ _ _",
    }
}

/// Whether there is a line under the heading.
fn is_underlined(options: &DocumentOptions, level: u8, content: &[Inline]) -> bool
    ensures { result ≡ spec.is_underlined options.now level (inlines_of content.now) }
{
    options.heading_style == HeadingStyle::Setex && level < 3 && !has_break(content)
}

/// Appends a line feed and a line as long as the text.
fn push_underline(text: &mut String, level: u8) -> Result<(), AllocError>
    ensures { OnOk result (string_bytes text.new ≡ spec.underlined level (string_bytes text.old)) }
{
    let width = character_count(text);
    text.push('\n')?;
    push_repeated(text, underline(level), width.max(1))
}

/// The character of the line under a heading.
fn underline(level: u8) -> char
    ensures { result ≡ headings.underline level }
{
    if level == 1 { '=' } else { '-' }
}

/// Whether a break is among the inlines, at any depth.
#[cycle(breaks)]
fn has_break(inlines: &[Inline]) -> bool
    ensures { result ≡ spec.has_break (inlines_of inlines.now) }
{
    for inline in inlines {
        if is_or_has_break(inline) {
            return true;
        }
    }
    false
}

#[cycle(breaks)]
fn is_or_has_break(inline: &Inline) -> bool
    ensures { result ≡ spec.is_or_has_break (inline_of inline.now) }
{
    match inline {
        Inline::LineBreak => true,
        Inline::Formatted(_, content)
        | Inline::Element(_, content)
        | Inline::Abbreviation { content, .. }
        | Inline::Link { content, .. } => has_break(content),
        Inline::Text(_)
        | Inline::Code(_)
        | Inline::Anchor(_)
        | Inline::Image { .. }
        | Inline::Task(_) => false,
    }
}
