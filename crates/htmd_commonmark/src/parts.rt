//! Parts of blocks as Markdown, each as if it were alone.
ghost use Rattle.std.specs.Prelude.{◌≡◌, [], IfOk, string_bytes};
ghost use Rattle.htmd_document.specs.DocumentViews.{inlines_of};
ghost use Rattle.htmd_commonmark.specs.BlockMarkdown.{line_of};
ghost use Rattle.htmd_commonmark.specs.InlineMarkdown.{written_line};
ghost use Rattle.htmd_commonmark.specs.TableLines as tables;
ghost use Rattle.htmd_commonmark.specs.declared.line.LineKind.TheVariants.{Paragraph, Cell};

use crate::inlines::InlineWriter;
use crate::line::{Line, LineKind};
use crate::options::DocumentOptions;
use crate::table::with_escaped_bars;
use htmd_document::Inline;
use std::alloc::{AllocError, Global};

/// The text of a paragraph, without the definitions of its links. `Err` means out of memory.
pub fn paragraph_text(
    alloc: Global,
    content: &[Inline],
    options: &DocumentOptions,
) -> Result<String, AllocError>
    ensures { IfOk result (λ s. string_bytes s
        ≡ (written_line (line_of options.now Paragraph) [] (inlines_of content.now)).text) }
{
    let mut writer = InlineWriter::new(alloc);
    writer.write_line(content, Line::new(options, LineKind::Paragraph))?;
    Ok(writer.text)
}

/// The text of a cell in a table, without the definitions of its links. `Err` means out of memory.
pub fn cell_text(
    alloc: Global,
    content: &[Inline],
    options: &DocumentOptions,
) -> Result<String, AllocError>
    ensures { IfOk result (λ s. string_bytes s ≡ tables.with_escaped_bars
        (written_line (line_of options.now Cell) [] (inlines_of content.now)).text) }
{
    let mut writer = InlineWriter::new(alloc);
    writer.write_line(content, Line::new(options, LineKind::Cell))?;
    with_escaped_bars(alloc, &writer.text)
}
