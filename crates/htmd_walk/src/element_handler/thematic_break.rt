//! The handler of `hr`.

ghost use Rattle.std.specs.Prelude.{◌≡◌, IfOk};
ghost use Rattle.htmd_walk.specs.ThematicBreaks.{thematic_breaks};
ghost use Rattle.htmd_walk.specs.Views.{plan_view, element_view};

use super::plans::is_written_as_markdown;
use super::{Element, HandlerResult, Plan};
use htmd_markdown::write_thematic_break;
use std::alloc::{AllocError, Global};

/// A thematic break, unless the element has attributes that Markdown has no form for.
pub(crate) fn plan(alloc: Global, element: &Element) -> Result<Plan, AllocError>
    ensures { IfOk result (λ p. plan_view p ≡ thematic_breaks.plan (element_view element.now)) }
{
    if !is_written_as_markdown(element) {
        return Ok(Plan::RawHtml);
    }
    let text = write_thematic_break(alloc, element.options.hr_style)?;
    Ok(Plan::Text(HandlerResult::from_string(text)))
}
