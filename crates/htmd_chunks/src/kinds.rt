//! Kinds of blocks, as far as a cut asks.
ghost use Rattle.std.specs.Prelude.{◌≡◌};
ghost use Rattle.htmd_document.specs.DocumentViews.{block_of, inline_of, inlines_of};
ghost use Rattle.htmd_document.specs.NormalInlines as inlines;
ghost use Rattle.htmd_chunks.specs.Least as spec;

use htmd_document::{Block, Inline};

/// Whether the inline is an anchor.
fn is_anchor(x: &Inline) -> bool
    ensures { result ≡ inlines.is_anchor (inline_of x.now) }
{
    matches!(x, Inline::Anchor(_))
}

/// Whether there are anchors and nothing else.
fn are_anchors(content: &[Inline]) -> bool
    ensures { result ≡ inlines.are_anchors (inlines_of content.now) }
{
    content.iter().all(|x| is_anchor(x))
}

/// Whether the block is a heading, or anchors alone: both stay with the block after it.
pub(crate) fn is_heading(block: &Block) -> bool
    ensures { result ≡ spec.is_heading (block_of block.now) }
{
    match block {
        Block::Heading { .. } => true,
        Block::Paragraph(content) => are_anchors(content),
        _ => false,
    }
}

/// Whether the block is a thematic break, which is never cut.
pub(crate) fn is_rule(block: &Block) -> bool
    ensures { result ≡ spec.is_rule (block_of block.now) }
{
    matches!(block, Block::ThematicBreak)
}
