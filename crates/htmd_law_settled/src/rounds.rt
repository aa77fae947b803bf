//! A page's Markdown, and the Markdown of the HTML of that.
ghost use Rattle.std.specs.Prelude.{◌≡◌, IfOk, string_bytes, true};
ghost use Rattle.htmd_document.specs.DocumentViews.{document_of};
ghost use Rattle.htmd_commonmark.specs.DocumentMarkdown.{markdown_of};
ghost use Rattle.htmd_law_documents.specs.TreeForms.{is_text_tree};
ghost use Rattle.htmd_law_returning.specs.EncodedDocuments.{encoded};
ghost use Rattle.htmd_law_settled.specs.CommonDocuments.{is_common};
ghost use Rattle.htmd_law_settled.specs.Rounds.{page_document, page_tree};

use htmd_commonmark::{DocumentOptions, to_markdown};
use htmd_commonmark_reader::markdown_to_html;
use htmd_document::Document;
use htmd_document_of_tree::{Anchors, OfTree};
use htmd_html5::parse_html5;
use std::alloc::{AllocError, Global};

/// The Markdown of a page, and the Markdown of the HTML of that.
#[derive(Drop)]
pub struct Round {
    pub markdown: String,
    pub again: String,
}

/// The document of any page, as browsers read it.
fn document_of_page(
    alloc: Global,
    page: &str,
    scripting: bool,
    anchors: Anchors,
    is_rich: bool,
) -> Result<Document, AllocError>
    ensures ok { IfOk result (λ d. document_of d ≡ page_document anchors scripting is_rich page.now) }
    ensures texts { IfOk result (λ d. is_text_tree (page_tree scripting page.now) ≡ true) }
{
    let tree = parse_html5(alloc, page, scripting)?;
    // The tree's texts are UTF-8.
    let _root = tree.root();
    Document::of_tree(alloc, &tree, scripting, &[], anchors, is_rich)
}

/// The Markdown of any page, as browsers read it, and the Markdown of the HTML of that: if the page's document is
/// common with its addresses encoded, the second is the Markdown of it with these, and so the same bytes as the first
/// if HTML encodes none of them. `Err` means out of memory.
pub fn markdown_twice(
    alloc: Global,
    page: &str,
    options: &DocumentOptions,
    scripting: bool,
    anchors: Anchors,
    is_rich: bool,
) -> Result<Round, AllocError>
    ensures first { IfOk result (λ round. string_bytes round.markdown
        ≡ markdown_of options.now (page_document anchors scripting is_rich page.now)) }
    ensures again { is_common anchors (encoded (page_document anchors scripting is_rich page.now)) ≡ true
        → IfOk result (λ round. string_bytes round.again
        ≡ markdown_of options.now (encoded (page_document anchors scripting is_rich page.now))) }
    ensures same { is_common anchors (page_document anchors scripting is_rich page.now) ≡ true
        → encoded (page_document anchors scripting is_rich page.now)
        ≡ page_document anchors scripting is_rich page.now
        → IfOk result (λ round. string_bytes round.again ≡ string_bytes round.markdown) }
{
    let document = document_of_page(alloc, page, scripting, anchors, is_rich)?;
    let markdown = to_markdown(alloc, &document, options)?;
    // It fits a text, so few links in it are defined below.
    let _size = markdown.len();
    let html = markdown_to_html(alloc, markdown.as_str())?;
    let document = document_of_page(alloc, html.as_str(), scripting, anchors, is_rich)?;
    let again = to_markdown(alloc, &document, options)?;
    Ok(Round { markdown, again })
}
