//! The handler of `h1` to `h6`.

ghost use Rattle.std.specs.Prelude.{◌≡◌, IfOk};
ghost use Rattle.htmd_walk.specs.Headings.{level_of, heading_result};
ghost use Rattle.htmd_walk.specs.Views.{element_view, result_view, optional_result};

use super::{Element, HandlerResult};
use htmd_markdown::write_heading;
use std::alloc::{AllocError, Global};

/// The level that a tag names.
fn level_of(tag: &str) -> u8
    ensures { result ≡ level_of tag.now }
{
    match tag {
        "h1" => 1,
        "h2" => 2,
        "h3" => 3,
        "h4" => 4,
        "h5" => 5,
        _ => 6,
    }
}

/// The content as a heading of the level that the tag names.
pub(crate) fn finish(
    alloc: Global,
    element: &Element,
    content: HandlerResult,
) -> Result<Option<HandlerResult>, AllocError>
    ensures { IfOk result
        (λ r. optional_result r ≡ heading_result (element_view element.now) (result_view content)) }
{
    let style = element.options.heading_style;
    let level = level_of(element.tag);
    let content = content.content.as_str();
    let text = write_heading(alloc, style, level, content)?;
    Ok(Some(HandlerResult::from_string(text)))
}
