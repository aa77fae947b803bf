//! The document of a text of Markdown.

ghost use Rattle.std.specs.Prelude.{◌≡◌, IfOk};
ghost use Rattle.htmd_document.specs.DocumentViews.{document_of};
ghost use Rattle.htmd.specs.PageDocuments.{document_of_markdown};

use htmd_commonmark_reader::markdown_to_html;
use htmd_document::Document;
use htmd_document_of_tree::{Anchors, OfTree};
use htmd_html5::parse_html5;
use std::alloc::{AllocError, Global};

/// What is made of a text of Markdown.
pub trait OfMarkdown: Sized {
    /// What a reader sees of a text of Markdown, which is UTF-8: of its HTML, read as browsers do, with each place that
    /// a link can lead to and all that only rich documents keep. No text is refused; `Err` means out of memory.
    fn of_markdown(alloc: Global, text: &str) -> Result<Self, AllocError>;
}

impl OfMarkdown for Document {
    /// What a reader sees of a text of Markdown, which is UTF-8: of its HTML, read as browsers do, with each place that
    /// a link can lead to and all that only rich documents keep. No text is refused; `Err` means out of memory.
    fn of_markdown(alloc: Global, text: &str) -> Result<Document, AllocError>
        ensures ok { IfOk result (λ document. document_of document ≡ document_of_markdown text.now) }
    {
        let html = markdown_to_html(alloc, text)?;
        let page = parse_html5(alloc, html.as_str(), true)?;
        Document::of_tree(alloc, &page, true, &[], Anchors::All, true)
    }
}
