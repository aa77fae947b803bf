//! Terms and what they mean in rich documents.
ghost use Rattle.std.specs.Prelude.{◌≡◌, ◌++◌, ◌∷◌, [], false, List, IfOk, OnOk, map};
ghost use Rattle.std.specs.List.{list_any};
ghost use Rattle.htmd_document.specs.DocumentViews.{block_of};
ghost use Rattle.htmd_flow.specs.DescriptionViews as views;
ghost use Rattle.htmd_flow.specs.Flows as spec;
ghost use Rattle.htmd_flow.specs.ParagraphViews.{writing_in};
ghost use Rattle.htmd_flow.specs.Paragraphs.{fed_all};
ghost use Rattle.htmd_flow.specs.Parts.{Part};
ghost use Rattle.htmd_shown.specs.Showings.{shows};
ghost use Rattle.htmd_shown.specs.SimpleViews.{simple_of};

use crate::list::is_filled;
use crate::paragraphs::Paragraphs;
use htmd_document::{Block, BlockElement};
use htmd_shown::Simple;
use htmd_shown::showing::shows;
use std::alloc::{AllocError, Global};

/// A term, or what one means, that is begun.
#[derive(Drop)]
pub(crate) struct Description {
    pub(crate) is_term: bool,
    pub(crate) content: Paragraphs,
}

/// Terms and what they mean that are begun.
#[derive(Drop)]
pub(crate) struct Descriptions {
    alloc: Global,
    begun: Vec<Description>,
}

impl Descriptions {
    /// None yet.
    pub(crate) fn new(alloc: Global) -> Descriptions
        ensures { views.begun_in result ≡ [] }
    {
        Descriptions {
            alloc,
            begun: Vec::new(alloc),
        }
    }

    /// One more. `Err` means out of memory.
    pub(crate) fn push(&mut self, next: Description) -> Result<(), AllocError>
        ensures { OnOk result (views.begun_in self.new
            ≡ views.begun_in self.old ++ views.description_of next ∷ []) }
    {
        self.begun.push(next)?;
        Ok(())
    }

    /// Takes the last one, to which a node belongs that is neither; what shows behind a term is what it means.
    pub(crate) fn take_for(&mut self, node: &Simple) -> Result<Option<Description>, AllocError>
        ensures { IfOk result (λ last. views.AreTaken (shows false (simple_of node.now)) (views.begun_in self.old)
            (views.begun_in self.new) last) }
    {
        let Some(last) = self.begun.pop() else {
            return Ok(None);
        };
        if !(shows(node) && last.is_term) {
            return Ok(Some(last));
        }
        self.begun.push(last)?;
        Ok(Some(Description {
            is_term: false,
            content: Paragraphs::new(self.alloc, false, false),
        }))
    }

    /// Adds the element of all, if something shows in it. `Err` means out of memory.
    pub(crate) fn finish(self, out: &mut Paragraphs) -> Result<(), AllocError>
        ensures { OnOk result (writing_in out.new
            ≡ fed_all (writing_in out.old) (spec.element_of_descriptions (views.begun_in self))) }
    {
        let content = elements_of(self.alloc, self.begun)?;
        if !are_filled(content.as_slice()) {
            return Ok(());
        }
        out.block(Block::Element {
            name: BlockElement::Terms,
            attributes: Vec::new(self.alloc),
            content,
        })
    }
}

/// The element of a term, or of what one means. `Err` means out of memory.
fn element_of(alloc: Global, description: Description) -> Result<Block, AllocError>
    ensures { IfOk result (λ b. block_of b ≡ spec.description_element (views.description_of description)) }
{
    let name = if description.is_term {
        BlockElement::Term
    } else {
        BlockElement::Meaning
    };
    Ok(Block::Element {
        name,
        attributes: Vec::new(alloc),
        content: description.content.finish()?,
    })
}

/// The elements of terms and what they mean. `Err` means out of memory.
fn elements_of(alloc: Global, begun: Vec<Description>) -> Result<Vec<Block>, AllocError>
    ensures { IfOk result (λ bs. map block_of bs.items
        ≡ map spec.description_element (map views.description_of begun.items)) }
{
    let mut elements = Vec::with_capacity(alloc, begun.len())?;
    for description in begun {
        elements.push(element_of(alloc, description)?)?;
    }
    Ok(elements)
}

/// Whether something is in an element.
fn is_filled_element(block: &Block) -> bool
    ensures { result ≡ views.is_filled_element (block_of block.now) }
{
    match block {
        Block::Element { content, .. } => is_filled(content.as_slice()),
        _ => false,
    }
}

/// Whether something is in one of these elements.
fn are_filled(blocks: &[Block]) -> bool
    ensures { result ≡ list_any views.is_filled_element (map block_of blocks.now) }
{
    for block in blocks {
        if is_filled_element(block) {
            return true;
        }
    }
    false
}
