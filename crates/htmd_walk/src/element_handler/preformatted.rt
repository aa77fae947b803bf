//! The handler of `pre`.

ghost use Rattle.std.specs.Prelude.{◌≡◌, IfOk};
ghost use Rattle.htmd_nodes.specs.Items.{children_of};
ghost use Rattle.htmd_walk.specs.Preformatted as spec;
ghost use Rattle.htmd_walk.specs.Views.{plan_view, element_view, result_view, optional_result};

use super::plans::{is_markdown_alone, is_written_as_markdown, plan_if, raw_block_result, wrap};
use super::{Element, HandlerResult, Plan};
use std::alloc::{AllocError, Global};

/// Whether the only child is `code`.
fn is_code_alone(element: &Element) -> bool
    ensures { result ≡ spec.is_code_alone element.now.tree.now
        (children_of element.now.tree.now element.now.node) }
{
    let [child] = element.tree.children(element.node) else {
        return false;
    };
    element.tree.tag_name(*child) == Some("code")
}

/// The children's content, unless the element holds or says more than one code block.
pub(crate) fn plan(element: &Element) -> Plan
    ensures { plan_view result ≡ spec.preformatted_texts.plan (element_view element.now) }
{
    if !is_written_as_markdown(element) {
        return Plan::RawHtml;
    }
    plan_if(
        element.markdown_translated && is_code_alone(element),
        element,
    )
}

/// The content with blank lines around; in Faithful the element's raw HTML if not all is Markdown.
pub(crate) fn finish(
    alloc: Global,
    element: &Element,
    content: HandlerResult,
) -> Result<Option<HandlerResult>, AllocError>
    ensures { IfOk result
        (λ r. optional_result r ≡ spec.preformatted_result (element_view element.now) (result_view content)) }
{
    if is_markdown_alone(element.options) || content.markdown_translated {
        return wrap(alloc, element, content);
    }
    Ok(Some(raw_block_result(alloc, element)?))
}
