//! A function that takes a converter of either kind, with handlers of closures or without.
ghost use Rattle.htmd.specs.Converters.{handlers_of};

use htmd::element_handler::Registry;
use htmd::{ConvertError, HtmlToMarkdown};
use std::alloc::Global;

/// The Markdown of a heading, by any converter.
fn heading<R: Registry>(
    alloc: Global,
    converter: &HtmlToMarkdown<R>,
) -> Result<String, ConvertError>
    requires { R.ready (handlers_of converter.now) }
{
    converter.convert(alloc, "<h1>Hi, <b>you</b></h1>")
}

/// A converter kept with a name, of whichever kind it is.
#[derive(Drop)]
struct Site<R> {
    name: &'static str,
    converter: HtmlToMarkdown<R>,
}

/// The Markdown of a heading, after the name of a site.
pub(crate) fn site_heading(alloc: Global) -> Result<String, ConvertError> {
    let site = Site {
        name: "tea",
        converter: HtmlToMarkdown::new(alloc)?,
    };
    let markdown = heading(alloc, &site.converter)?;
    Ok(format!(in alloc; "{}: {markdown}", site.name)?)
}
