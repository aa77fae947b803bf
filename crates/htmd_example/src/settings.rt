//! Options and modes.
use htmd::options::{HeadingStyle, Options, TranslationMode};
use htmd::{ConvertError, HtmlToMarkdown};
use std::alloc::Global;

/// A heading that is underlined.
pub(crate) fn underlined(alloc: Global) -> Result<String, ConvertError> {
    let options = Options {
        heading_style: HeadingStyle::Setex,
        ..Options::default()
    };
    let converter = HtmlToMarkdown::builder(alloc)?.options(options).build();
    converter.convert(alloc, "<h1>Heading</h1>")
}

/// What Markdown has no form for stays HTML in Faithful.
pub(crate) fn faithful(alloc: Global) -> Result<String, ConvertError> {
    let options = Options {
        translation_mode: TranslationMode::Faithful,
        ..Options::default()
    };
    let converter = HtmlToMarkdown::builder(alloc)?.options(options).build();
    converter.convert(alloc, "<p>The <span>second</span> word</p>")
}
