//! Many pages by one converter. The function that makes the converter uses it, and lends it to others.
use htmd::options::{BulletListMarker, Options};
use htmd::{ConvertError, HtmlToMarkdown};
use std::alloc::Global;

/// The Markdown of a page, by the caller's converter.
fn page_by(converter: &HtmlToMarkdown, alloc: Global, page: &str) -> Result<String, ConvertError> {
    converter.convert_page(alloc, page)
}

/// The Markdown of three pages, each with a line feed.
pub(crate) fn three_pages(alloc: Global) -> Result<String, ConvertError> {
    let options = Options {
        bullet_list_marker: BulletListMarker::Dash,
        ..Options::default()
    };
    let converter = HtmlToMarkdown::builder(alloc)?.options(options).build();
    let mut all = String::new(alloc);
    for page in [
        "<html><body><ul><li>one</li></ul></body></html>",
        "<body><p>two</p></body>",
        "<b>three</b>",
    ] {
        all.push_str(page_by(&converter, alloc, page)?.as_str())?;
        all.push('\n')?;
    }
    Ok(all)
}
