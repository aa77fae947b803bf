//! Markdown is read: its HTML, that without the HTML that stands in the Markdown, and its document.
ghost use Rattle.std.specs.Prelude.{◌≡◌, ◌++◌, IfOk, codes, string_bytes};
ghost use Rattle.htmd_commonmark_reading.specs.Reading.{read};
ghost use Rattle.htmd_commonmark_reading.specs.Rendering.{html_of};
ghost use Rattle.htmd.specs.Defaults.{default_options};
ghost use Rattle.htmd.specs.DocumentMarkdown.{markdown_of};
ghost use Rattle.htmd.specs.PageDocuments as spec;

use htmd::options::Options;
use htmd::parts::{Part, read_markdown, to_html};
use htmd::{Document, OfMarkdown, document_options, markdown_to_html, to_markdown};
use std::alloc::{AllocError, Global};

/// The HTML of Markdown, after a heading.
pub(crate) fn answered(alloc: Global, markdown: &str) -> Result<String, AllocError>
    ensures { IfOk result (λ page. string_bytes page
        ≡ codes "<h1>Answer</h1>\n" ++ html_of (read markdown.now)) }
{
    let mut page = String::from_str(alloc, "<h1>Answer</h1>\n")?;
    page.push_str(&markdown_to_html(alloc, markdown)?)?;
    Ok(page)
}

/// Whether a part is HTML that stands in the Markdown.
fn is_raw(part: &Part) -> bool {
    matches!(part, Part::Html(_) | Part::HtmlBlock(_))
}

/// The HTML of Markdown without the HTML that stands in it.
pub(crate) fn without_raw_html(alloc: Global, markdown: &str) -> Result<String, AllocError> {
    let mut parts = read_markdown(alloc, markdown)?;
    parts.retain(|part| !is_raw(part));
    to_html(alloc, &parts)
}

/// Markdown in the form that htmd writes.
pub(crate) fn in_one_form(alloc: Global, markdown: &str) -> Result<String, AllocError>
    ensures { IfOk result (λ text. string_bytes text
        ≡ markdown_of (spec.document_options default_options)
        (spec.document_of_markdown markdown.now)) }
{
    let document = Document::of_markdown(alloc, markdown)?;
    to_markdown(alloc, &document, &document_options(&Options::default()))
}
