//! What a reader sees of a page: it is written as it is, and with one more paragraph.
ghost use Rattle.std.specs.Prelude.{◌≡◌, [], IfOk, false, true, string_bytes};
ghost use Rattle.htmd.specs.DocumentAnchors.TheVariants.{Linked};
ghost use Rattle.htmd.specs.Defaults.{default_options};
ghost use Rattle.htmd.specs.DocumentMarkdown.{markdown_of};
ghost use Rattle.htmd.specs.PageDocuments as spec;

use htmd::{Block, HtmlToMarkdown, Inline, to_markdown};
use std::alloc::{AllocError, Global};

/// What a reader sees of any page.
pub(crate) fn what_shows(alloc: Global, html: &str) -> Result<String, AllocError>
    ensures { IfOk result (λ text. string_bytes text
        ≡ markdown_of (spec.document_options default_options)
        (spec.html5_page_document true [] Linked false html.now)) }
{
    let converter = HtmlToMarkdown::new(alloc)?;
    let document = converter.document(alloc, html)?;
    to_markdown(alloc, &document, &converter.document_options())
}

/// The same, and a note at the end.
pub(crate) fn with_note(alloc: Global, html: &str, note: &str) -> Result<String, AllocError> {
    let converter = HtmlToMarkdown::new(alloc)?;
    let mut document = converter.document(alloc, html)?;
    let note = Inline::Text(String::from_str(alloc, note)?);
    document
        .blocks
        .push(Block::Paragraph(vec![in alloc; note]?))?;
    to_markdown(alloc, &document, &converter.document_options())
}
