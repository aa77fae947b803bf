//! The handler of `span`.

ghost use Rattle.std.specs.Prelude.{◌≡◌, IfOk};
ghost use Rattle.std.specs.Option.{option_copied};
ghost use Rattle.htmd_lexical.specs.Attributes.{pairs_of};
ghost use Rattle.htmd_walk.specs.Spans.{spans, formula_mark, mark_of_class, span_result};
ghost use Rattle.htmd_walk.specs.Views.{plan_view, element_view, result_view, optional_result};

use super::plans::unless_faithful;
use super::{Element, HandlerResult, Plan};
use crate::node_util::is_in_pre_or_code;
use htmd_nodes::Attribute;
use htmd_text::trim_newlines;
use std::alloc::{AllocError, Global};

/// The mark on both sides of a formula of this class.
fn mark_of_class(class: &str) -> Option<&'static str>
    ensures value { option_copied result ≡ mark_of_class class.now }
{
    match class {
        "math math-inline" => Some("$"),
        "math math-display" => Some("$$"),
        _ => None,
    }
}

/// The mark on both sides of a formula, if its class is the only attribute.
pub(crate) fn formula_mark(attrs: &[Attribute]) -> Option<&'static str>
    ensures { option_copied result ≡ formula_mark (pairs_of attrs.now) }
{
    if attrs.len() != 1 || attrs[0].name.as_str() != "class" {
        return None;
    }
    mark_of_class(attrs[0].value.as_str())
}

/// A formula between its marks, else the children's content, unless the mode is Faithful.
pub(crate) fn plan(alloc: Global, element: &Element) -> Result<Plan, AllocError>
    ensures { IfOk result (λ p. plan_view p ≡ spans.plan (element_view element.now)) }
{
    let Some(text) = element.text else {
        return Ok(unless_faithful(element));
    };
    let Some(mark) = formula_mark(element.attrs) else {
        return Ok(unless_faithful(element));
    };
    let mut formula = String::with_capacity(alloc, text.len().saturating_add(2 * mark.len()))?;
    formula.push_str(mark)?;
    formula.push_str(text)?;
    formula.push_str(mark)?;
    Ok(Plan::Text(HandlerResult::from_string(formula)))
}

/// The content, without line feeds at its ends unless it is preformatted.
pub(crate) fn finish(
    _alloc: Global,
    element: &Element,
    mut content: HandlerResult,
) -> Result<Option<HandlerResult>, AllocError>
    ensures { IfOk result
        (λ r. optional_result r ≡ span_result (element_view element.now) (result_view content)) }
{
    if !is_in_pre_or_code(element.tree, element.node) {
        trim_newlines(&mut content.content);
    }
    Ok(Some(content))
}
