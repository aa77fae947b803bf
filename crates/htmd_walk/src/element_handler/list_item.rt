//! The handler of `li`.

ghost use Rattle.std.specs.Prelude.{◌≡◌, IfOk};
ghost use Rattle.htmd_walk.specs.ListItems.{item_result};
ghost use Rattle.htmd_walk.specs.Views.{element_view, result_view, optional_result};

use super::plans::parent_tag;
use super::{Element, HandlerResult};
use htmd_markdown::{write_bullet_item, write_unnumbered_item};
use std::alloc::{AllocError, Global};

/// The content after a bullet; under `ol` the list puts a number before it.
pub(crate) fn finish(
    alloc: Global,
    element: &Element,
    content: HandlerResult,
) -> Result<Option<HandlerResult>, AllocError>
    ensures { IfOk result
        (λ r. optional_result r ≡ item_result (element_view element.now) (result_view content)) }
{
    let content = content.content.as_str();
    let text = if parent_tag(element) == Some("ol") {
        write_unnumbered_item(alloc, content)?
    } else {
        let marker = element.options.bullet_list_marker;
        write_bullet_item(alloc, marker, element.options.ul_bullet_spacing, content)?
    };
    Ok(Some(HandlerResult::from_string(text)))
}
