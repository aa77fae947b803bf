//! Tags that are skipped.
use htmd::{ConvertError, HtmlToMarkdown};
use std::alloc::Global;

/// The Markdown of a page without what is in `aside` and `nav`.
pub(crate) fn without_asides(alloc: Global) -> Result<String, ConvertError> {
    let Ok(builder) = HtmlToMarkdown::builder(alloc)?.skip_tags(&["aside", "nav"]) else {
        return Err(ConvertError::Memory);
    };
    builder
        .build()
        .convert(alloc, "<p>Kept</p><aside>left out</aside>")
}
