//! Copies of inlines.
ghost use Rattle.std.specs.Prelude.{◌≡◌, IfOk, map, string_bytes};
ghost use Rattle.htmd_document.specs.DocumentViews.{bytes_of_title, inline_of};
ghost use Rattle.htmd_commonmark.specs.BlockViews.{cells_of};

use htmd_document::{CellContent, Inline, RowContent};
use std::alloc::{AllocError, Global};

/// The same inlines. `Err` means out of memory.
#[cycle(copies)]
pub(crate) fn copied(alloc: Global, xs: &[Inline]) -> Result<Vec<Inline>, AllocError>
    ensures { IfOk result (λ copy. map inline_of copy.items ≡ map inline_of xs.now) }
{
    let mut copy = Vec::with_capacity(alloc, xs.len())?;
    for x in xs {
        copy.push(copied_inline(alloc, x)?)?;
    }
    Ok(copy)
}

/// The same inline. `Err` means out of memory.
#[cycle(copies)]
pub(crate) fn copied_inline(alloc: Global, x: &Inline) -> Result<Inline, AllocError>
    ensures { IfOk result (λ copy. inline_of copy ≡ inline_of x.now) }
{
    match x {
        Inline::Text(text) => Ok(Inline::Text(String::from_str(alloc, text)?)),
        Inline::Code(code) => Ok(Inline::Code(String::from_str(alloc, code)?)),
        Inline::Formatted(format, content) => {
            Ok(Inline::Formatted(*format, copied(alloc, content)?))
        }
        Inline::Element(element, content) => Ok(Inline::Element(*element, copied(alloc, content)?)),
        Inline::Abbreviation { title, content } => Ok(Inline::Abbreviation {
            title: String::from_str(alloc, title)?,
            content: copied(alloc, content)?,
        }),
        Inline::Anchor(id) => Ok(Inline::Anchor(String::from_str(alloc, id)?)),
        Inline::Link {
            address,
            title,
            content,
        } => Ok(Inline::Link {
            address: String::from_str(alloc, address)?,
            title: copied_text(alloc, title)?,
            content: copied(alloc, content)?,
        }),
        Inline::Image {
            address,
            title,
            description,
        } => Ok(Inline::Image {
            address: String::from_str(alloc, address)?,
            title: copied_text(alloc, title)?,
            description: String::from_str(alloc, description)?,
        }),
        Inline::LineBreak => Ok(Inline::LineBreak),
        Inline::Task(is_checked) => Ok(Inline::Task(*is_checked)),
    }
}

/// The same text, if there is one.
pub(crate) fn copied_text(
    alloc: Global,
    text: &Option<String>,
) -> Result<Option<String>, AllocError>
    ensures { IfOk result (λ copy. bytes_of_title copy ≡ bytes_of_title text.now) }
{
    match text {
        Some(text) => Ok(Some(String::from_str(alloc, text)?)),
        None => Ok(None),
    }
}

/// The same cells.
pub(crate) fn copied_cells(alloc: Global, cells: &[CellContent]) -> Result<RowContent, AllocError>
    ensures { IfOk result (λ copy. cells_of copy.items ≡ cells_of cells.now) }
{
    let mut copy = Vec::with_capacity(alloc, cells.len())?;
    for cell in cells {
        copy.push(copied(alloc, cell)?)?;
    }
    Ok(copy)
}
