//! The pieces of a document.
ghost use Rattle.std.specs.Prelude.{◌≡◌, ◌++◌, [], IfOk, OnOk, drop, map, string_bytes, take};
ghost use Rattle.std.specs.Vec.Iter.{into_iter_items};
ghost use Rattle.htmd_document.specs.DocumentViews.{block_of, document_of, inline_of, inlines_of};
ghost use Rattle.htmd_chunks.specs.ChunkViews.{heading_of, part_of, piece_of};
ghost use Rattle.htmd_chunks.specs.Pieces as spec;
ghost use Rattle.htmd_chunks.specs.Sections as spec_sections;

use crate::bounds::Bounds;
use crate::cut::split;
use crate::filling::Part;
use crate::joint::Joint;
use crate::numbers::sum;
use crate::sections::{Section, sections};
use crate::size::Margin;
use htmd_commonmark::DocumentOptions;
use htmd_document::{Block, Document, Inline};
use htmd_markdown::LinkStyle;
use std::alloc::{AllocError, Global};
use std::vec::IntoIter;

/// A piece of a document.
#[derive(Drop)]
pub struct Piece {
    /// What the headings say that it is under, from the outermost; those in it aren't among them.
    pub path: Vec<String>,
    /// The place of its first block in the document.
    pub start: usize,
    /// How it goes on with the piece before it: how two blocks are one, from the outermost. It is empty if the piece
    /// begins with a block of its own.
    pub continues: Vec<Joint>,
    pub document: Document,
}

/// The document in pieces of at most so many bytes of Markdown, where it can be cut. The options say how pieces are
/// written; links are inline. `Err` means out of memory.
pub fn chunks(
    alloc: Global,
    document: Document,
    most: usize,
    options: &DocumentOptions,
) -> Result<Vec<Piece>, AllocError>
    ensures { IfOk result (λ pieces. map piece_of pieces.items
        ≡ spec.chunks_of options.now most (document_of document)) }
{
    let bounds = Bounds {
        most,
        options: piece_options(options),
    };
    let parts = document_parts(alloc, &bounds, document.blocks)?;
    pieces_of(alloc, parts)
}

/// The options, with links inline.
pub(crate) fn piece_options(options: &DocumentOptions) -> DocumentOptions
    ensures { result ≡ spec.piece_options options.now }
{
    DocumentOptions {
        heading_style: options.heading_style,
        hr_style: options.hr_style,
        br_style: options.br_style,
        link_style: LinkStyle::Inlined,
        code_block_fence: options.code_block_fence,
        bullet_list_marker: options.bullet_list_marker,
        ul_bullet_spacing: options.ul_bullet_spacing,
        ol_number_spacing: options.ol_number_spacing,
    }
}

// ---- parts

/// The parts of a document: its sections, or what they are cut into.
fn document_parts(
    alloc: Global,
    bounds: &Bounds,
    blocks: Vec<Block>,
) -> Result<Vec<Part>, AllocError>
    ensures { IfOk result (λ parts. map part_of parts.items
        ≡ spec_sections.document_parts bounds.now (map block_of blocks.items)) }
{
    let mut parts = Vec::new(alloc);
    if blocks.is_empty() {
        return Ok(parts);
    }
    let found = sections(alloc, bounds, &blocks)?;
    let mut rest = blocks.into_iter();
    for section in found {
        let blocks = next_blocks(alloc, &mut rest, section.count)?;
        push_section(alloc, bounds, &mut parts, section, blocks)?;
    }
    Ok(parts)
}

/// The next blocks, so many.
fn next_blocks(
    alloc: Global,
    rest: &mut IntoIter<Block>,
    count: usize,
) -> Result<Vec<Block>, AllocError>
    ensures taken { IfOk result (λ blocks. blocks.items ≡ take count (into_iter_items rest.old)) }
    ensures rest { OnOk result (into_iter_items rest.new ≡ drop count (into_iter_items rest.old)) }
{
    let mut blocks = Vec::with_capacity(alloc, count)?;
    for _i in 0..count {
        if let Some(block) = rest.next() {
            blocks.push(block)?;
        }
    }
    Ok(blocks)
}

/// Appends the parts of a section.
fn push_section(
    alloc: Global,
    bounds: &Bounds,
    parts: &mut Vec<Part>,
    section: Section,
    blocks: Vec<Block>,
) -> Result<(), AllocError>
    ensures { OnOk result (map part_of parts.new.items ≡ map part_of parts.old.items
        ++ spec_sections.section_parts bounds.now section.fits (map block_of blocks.items)) }
{
    if section.fits {
        parts.push(Part {
            blocks,
            continues: Vec::new(alloc),
        })?;
        return Ok(());
    }
    for part in split(alloc, bounds, Margin::NONE, false, bounds.most, blocks)? {
        parts.push(part)?;
    }
    Ok(())
}

// ---- pieces

/// A heading: its level, and what it says.
#[derive(Drop)]
struct Heading {
    level: u8,
    text: String,
}

/// Appends what inlines say.
#[cycle(said)]
fn push_said_in(out: &mut String, xs: &[Inline]) -> Result<(), AllocError>
    ensures { OnOk result (string_bytes out.new ≡ string_bytes out.old ++ spec.said_in (inlines_of xs.now)) }
{
    for x in xs {
        push_said(out, x)?;
    }
    Ok(())
}

/// Appends what an inline says.
#[cycle(said)]
fn push_said(out: &mut String, x: &Inline) -> Result<(), AllocError>
    ensures { OnOk result (string_bytes out.new ≡ string_bytes out.old ++ spec.said (inline_of x.now)) }
{
    match x {
        Inline::Text(text) => out.push_str(text),
        Inline::Code(code) => out.push_str(code),
        Inline::Formatted(_, content) => push_said_in(out, content),
        Inline::Element(_, content) => push_said_in(out, content),
        Inline::Abbreviation { content, .. } => push_said_in(out, content),
        Inline::Link { content, .. } => push_said_in(out, content),
        Inline::Image { description, .. } => out.push_str(description),
        Inline::LineBreak => out.push(' '),
        Inline::Anchor(_) | Inline::Task(_) => Ok(()),
    }
}

/// Leaves of a path the headings of a higher level than this.
fn keep_above(path: &mut Vec<Heading>, level: u8)
    ensures { map heading_of path.new.items ≡ spec.above level (map heading_of path.old.items) }
{
    path.retain(|heading| heading.level < level);
}

/// The path after a block.
fn go_on(alloc: Global, path: &mut Vec<Heading>, block: &Block) -> Result<(), AllocError>
    ensures { OnOk result (map heading_of path.new.items
        ≡ spec.path_behind (map heading_of path.old.items) (block_of block.now)) }
{
    if let Block::Heading { level, content } = block {
        keep_above(path, *level);
        let mut text = String::new(alloc);
        push_said_in(&mut text, content)?;
        path.push(Heading {
            level: *level,
            text,
        })?;
    }
    Ok(())
}

/// The path after blocks.
fn go_on_all(alloc: Global, path: &mut Vec<Heading>, blocks: &[Block]) -> Result<(), AllocError>
    ensures { OnOk result (map heading_of path.new.items
        ≡ spec.path_behind_all (map heading_of path.old.items) (map block_of blocks.now)) }
{
    for block in blocks {
        go_on(alloc, path, block)?;
    }
    Ok(())
}

/// The level of a heading that comes first.
fn first_level(blocks: &[Block]) -> Option<u8>
    ensures { result ≡ spec.first_level (map block_of blocks.now) }
{
    match blocks {
        [Block::Heading { level, .. }, ..] => Some(*level),
        _ => None,
    }
}

/// Whether blocks that begin with a heading of this level, or with none, are under a heading.
fn is_under(heading: &Heading, level: Option<u8>) -> bool
    ensures { result ≡ spec.is_under level (heading_of heading.now) }
{
    match level {
        Some(level) => heading.level < level,
        None => true,
    }
}

/// What the headings say that blocks are under.
fn texts_above(alloc: Global, path: &[Heading], blocks: &[Block]) -> Result<Vec<String>, AllocError>
    ensures { IfOk result (λ texts. map string_bytes texts.items
        ≡ map (λ h. h.text) (spec.path_above (map heading_of path.now) (map block_of blocks.now))) }
{
    let level = first_level(blocks);
    let mut texts = Vec::with_capacity(alloc, path.len())?;
    for heading in path {
        if is_under(heading, level) {
            texts.push(String::from_str(alloc, &heading.text)?)?;
        }
    }
    Ok(texts)
}

/// The pieces of a document's parts.
fn pieces_of(alloc: Global, parts: Vec<Part>) -> Result<Vec<Piece>, AllocError>
    ensures { IfOk result (λ pieces. map piece_of pieces.items
        ≡ spec.pieces_from [] 0 (map part_of parts.items)) }
{
    let mut pieces = Vec::with_capacity(alloc, parts.len())?;
    let mut path = Vec::new(alloc);
    let mut next: usize = 0;
    for part in parts {
        let start = if part.continues.is_empty() {
            next
        } else {
            next.saturating_sub(1)
        };
        let texts = texts_above(alloc, &path, &part.blocks)?;
        go_on_all(alloc, &mut path, &part.blocks)?;
        next = sum(start, part.blocks.len())?;
        pieces.push(Piece {
            path: texts,
            start,
            continues: part.continues,
            document: Document {
                blocks: part.blocks,
            },
        })?;
    }
    Ok(pieces)
}
