//! The handler of `img`.

ghost use Rattle.std.specs.Prelude.{◌≡◌, IfOk};
ghost use Rattle.htmd_walk.specs.Images.{images};
ghost use Rattle.htmd_walk.specs.Views.{plan_view, element_view};

use super::link_attributes::{is_raw_unless_among, last_value};
use super::{Element, HandlerResult, Plan};
use htmd_markdown::write_image;
use std::alloc::{AllocError, Global};

/// An image, or nothing if there is no address, unless the element has attributes that Markdown has no form for.
pub(crate) fn plan(alloc: Global, element: &Element) -> Result<Plan, AllocError>
    ensures { IfOk result (λ p. plan_view p ≡ images.plan (element_view element.now)) }
{
    if is_raw_unless_among(element, &["href", "src", "alt", "title"]) {
        return Ok(Plan::RawHtml);
    }
    let Some(address) = last_value(element.attrs, &["href", "src"]) else {
        return Ok(Plan::Skip);
    };
    let alt = last_value(element.attrs, &["alt"]);
    let title = last_value(element.attrs, &["title"]);
    let image = write_image(alloc, address, alt, title)?;
    Ok(Plan::Text(HandlerResult::from_string(image)))
}
