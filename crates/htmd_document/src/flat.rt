//! Documents as they are written: elements are tags in lines around what is in them.
ghost use Rattle.std.specs.Prelude.{◌≡◌, true, IfOk, OnOk, map, string_bytes};
ghost use Rattle.std.specs.Option.{option_copied};
ghost use Rattle.htmd_document.specs.Documents as value;
ghost use Rattle.htmd_document.specs.DocumentViews.{attribute_of, block_of, blocks_of, inline_of, inlines_of};
ghost use Rattle.htmd_document.specs.FlatDocuments as spec;
ghost use Rattle.htmd_document.specs.FlatViews as flat;
ghost use Rattle.htmd_document.specs.Tags as tag;

use crate::document::{Block, BlockAttribute, BlockElement, Inline};
use crate::tags::{push_element_line, push_element_tag, push_end_of_element};
use std::alloc::{AllocError, Global};
use std::mem;

/// A block as it is written.
#[derive(Drop)]
pub enum FlatBlock<'d> {
    /// Lines of tags.
    Tags(String),
    /// A block that is no element; what is in it may have some.
    Block(&'d Block),
}

/// Blocks, with tags in place of elements.
pub fn flattened<'d>(alloc: Global, blocks: &'d [Block]) -> Result<Vec<FlatBlock<'d>>, AllocError>
    ensures { IfOk result (λ bs. flat.flat_blocks_of bs.items ≡ spec.flattened (blocks_of blocks.now)) }
{
    let mut flattener = Flattener {
        blocks: Vec::with_capacity(alloc, blocks.len())?,
        lines: String::new(alloc),
        alloc,
    };
    flattener.push_all(blocks)?;
    flattener.end_lines()?;
    Ok(flattener.blocks)
}

/// Flat blocks, and the lines of tags behind them.
#[derive(Drop)]
struct Flattener<'d> {
    blocks: Vec<FlatBlock<'d>>,
    lines: String,
    alloc: Global,
}

impl<'d> Flattener<'d> {
    /// Makes a block of the lines of tags, if there are some.
    fn end_lines(&mut self) -> Result<(), AllocError>
        ensures { OnOk result (flat.flat_in self.new ≡ flat.with_lines_ended (flat.flat_in self.old)) }
    {
        if self.lines.is_empty() {
            return Ok(());
        }
        let lines = mem::replace(&mut self.lines, String::new(self.alloc));
        self.blocks.push(FlatBlock::Tags(lines))?;
        Ok(())
    }

    /// Appends a block that is no element.
    fn push_block(&mut self, block: &'d Block) -> Result<(), AllocError>
        requires { spec.is_plain (block_of block.now) ≡ true }
        ensures { OnOk result ((rest : value.Blocks) → flat.before (flat.flat_in self.new) rest
            ≡ flat.before (flat.flat_in self.old) (spec.flat_before (block_of block.now) rest)) }
    {
        self.end_lines()?;
        self.blocks.push(FlatBlock::Block(block))?;
        Ok(())
    }

    /// Appends an element with nothing but a text in it.
    fn push_line(
        &mut self,
        name: BlockElement,
        attributes: &[BlockAttribute],
        text: &str,
    ) -> Result<(), AllocError>
        ensures { OnOk result (flat.flat_in self.new ≡ flat.with_line (flat.flat_in self.old)
            (tag.element_line name (map attribute_of attributes.now) text.now)) }
    {
        begin_line(&mut self.lines)?;
        push_element_line(&mut self.lines, name, attributes, text)
    }

    /// Appends the tag that begins an element.
    fn push_tag(
        &mut self,
        name: BlockElement,
        attributes: &[BlockAttribute],
    ) -> Result<(), AllocError>
        ensures { OnOk result (flat.flat_in self.new ≡ flat.with_line (flat.flat_in self.old)
            (tag.element_tag name (map attribute_of attributes.now))) }
    {
        begin_line(&mut self.lines)?;
        push_element_tag(&mut self.lines, name, attributes)
    }

    /// Appends the tag that ends an element.
    fn push_end(&mut self, name: BlockElement) -> Result<(), AllocError>
        ensures { OnOk result (flat.flat_in self.new
            ≡ flat.with_line (flat.flat_in self.old) (tag.end_of_element name)) }
    {
        begin_line(&mut self.lines)?;
        push_end_of_element(&mut self.lines, name)
    }

    /// Appends an element.
    #[cycle(flat)]
    fn push_element(
        &mut self,
        name: BlockElement,
        attributes: &[BlockAttribute],
        content: &'d [Block],
    ) -> Result<(), AllocError>
        ensures { OnOk result ((rest : value.Blocks) → flat.before (flat.flat_in self.new) rest
            ≡ flat.before (flat.flat_in self.old)
            (spec.flat_before (value.element name (map attribute_of attributes.now) (blocks_of content.now)) rest)) }
    {
        match text_in_line(content) {
            Some(text) => self.push_line(name, attributes, text),
            None => self.push_around(name, attributes, content),
        }
    }

    /// Appends the tags of an element around what is in it.
    #[cycle(flat)]
    fn push_around(
        &mut self,
        name: BlockElement,
        attributes: &[BlockAttribute],
        content: &'d [Block],
    ) -> Result<(), AllocError>
        ensures { OnOk result ((rest : value.Blocks) → flat.before (flat.flat_in self.new) rest
            ≡ flat.before (flat.flat_in self.old)
            (spec.line_before (tag.element_tag name (map attribute_of attributes.now))
            (spec.flat_all (blocks_of content.now) (spec.line_before (tag.end_of_element name) rest)))) }
    {
        self.push_tag(name, attributes)?;
        self.push_all(content)?;
        self.push_end(name)
    }

    #[cycle(flat)]
    fn push(&mut self, block: &'d Block) -> Result<(), AllocError>
        ensures { OnOk result ((rest : value.Blocks) → flat.before (flat.flat_in self.new) rest
            ≡ flat.before (flat.flat_in self.old) (spec.flat_before (block_of block.now) rest)) }
    {
        match block {
            Block::Element {
                name,
                attributes,
                content,
            } => self.push_element(*name, attributes, content),
            _ => self.push_block(block),
        }
    }

    #[cycle(flat)]
    fn push_all(&mut self, blocks: &'d [Block]) -> Result<(), AllocError>
        ensures { OnOk result ((rest : value.Blocks) → flat.before (flat.flat_in self.new) rest
            ≡ flat.before (flat.flat_in self.old) (spec.flat_all (blocks_of blocks.now) rest)) }
    {
        for block in blocks {
            self.push(block)?;
        }
        Ok(())
    }
}

/// Ends the last line of tags, if there is one, before another.
fn begin_line(lines: &mut String) -> Result<(), AllocError>
    ensures { OnOk result (string_bytes lines.new ≡ flat.line_begun (string_bytes lines.old)) }
{
    if lines.is_empty() {
        return Ok(());
    }
    lines.push('\n')
}

/// The text of content that is written in one line with its tags: of none, or of a paragraph of one text.
pub fn text_in_line(content: &[Block]) -> Option<&str>
    ensures { option_copied result ≡ spec.text_in_line (blocks_of content.now) }
{
    match content {
        [] => Some(""),
        [block] => paragraph_text(block),
        _ => None,
    }
}

/// The text that a paragraph is, if it is one.
fn paragraph_text(block: &Block) -> Option<&str>
    ensures { option_copied result ≡ spec.paragraph_text (block_of block.now) }
{
    match block {
        Block::Paragraph(content) => text_alone(content),
        _ => None,
    }
}

fn text_alone(content: &[Inline]) -> Option<&str>
    ensures { option_copied result ≡ spec.text_alone (inlines_of content.now) }
{
    match content {
        [] => None,
        [inline] => text_of(inline),
        _ => None,
    }
}

fn text_of(inline: &Inline) -> Option<&str>
    ensures { option_copied result ≡ spec.text_of (inline_of inline.now) }
{
    match inline {
        Inline::Text(text) => Some(text),
        _ => None,
    }
}
