//! Options and builders of converters.
use htmd::HtmlToMarkdownBuilder;
use htmd::element_handler::ElementHandler;
use htmd::options::{LinkStyle, Options, TranslationMode};
use std::test::Fail;

/// The default options, but Faithful.
pub(crate) fn faithful() -> Options {
    Options {
        translation_mode: TranslationMode::Faithful,
        ..Options::default()
    }
}

/// The default options, but links are references.
pub(crate) fn referenced() -> Options {
    Options {
        link_style: LinkStyle::Referenced,
        ..Options::default()
    }
}

/// The builder, with this handler for these tags.
pub(crate) fn with_handler(
    builder: HtmlToMarkdownBuilder,
    tags: &[&str],
    handler: Box<dyn ElementHandler>,
) -> Result<HtmlToMarkdownBuilder, Fail> {
    if tags.is_empty() {
        return Err(Fail::from("there is a tag"));
    }
    match builder.add_handler(tags, handler) {
        Ok(builder) => Ok(builder),
        Err(_) => Err(Fail::from("there is memory")),
    }
}
