//! The handlers of `tr`, `tbody`, `thead` and `caption`.

ghost use Rattle.std.specs.Prelude.{◌≡◌, [], ◌∷◌, codes, IfOk};
ghost use Rattle.htmd_walk.specs.ElementPlans as spec;
ghost use Rattle.htmd_walk.specs.ElementPlans.{parent_tag, is_tag_among, unless_attributes};
ghost use Rattle.htmd_walk.specs.TableParts.{table_rows, table_parts, part_result};
ghost use Rattle.htmd_walk.specs.Views.{plan_view, element_view, result_view, optional_result};

use super::plans::{has_attributes_beyond, parent_tag, plan_if};
use super::{Element, HandlerResult, Plan};
use htmd_text::{surround_with_blank_lines, trim_newlines};
use std::alloc::{AllocError, Global};

/// Whether the parent is `tbody` or `thead`.
fn is_in_section(element: &Element) -> bool
    ensures { let view = element_view element.now in
        result ≡ is_tag_among (codes "tbody" ∷ codes "thead" ∷ []) (parent_tag view) }
{
    matches!(parent_tag(element), Some("tbody" | "thead"))
}

/// Whether the parent is `table`.
fn is_in_table(element: &Element) -> bool
    ensures { let view = element_view element.now in
        result ≡ is_tag_among (codes "table" ∷ []) (parent_tag view) }
{
    parent_tag(element) == Some("table")
}

/// In Faithful, the element without attributes, if this holds.
fn children_plan_if(holds: bool, element: &Element) -> Plan
    ensures { let view = element_view element.now in
        plan_view result ≡ unless_attributes view (spec.plan_if holds view) }
{
    if has_attributes_beyond(element, 0) {
        return Plan::RawHtml;
    }
    plan_if(holds, element)
}

/// In Faithful, `tr` without attributes, under `tbody` or `thead`.
pub(crate) fn plan_of_row(element: &Element) -> Plan
    ensures { plan_view result ≡ table_rows.plan (element_view element.now) }
{
    children_plan_if(is_in_section(element), element)
}

/// In Faithful, `tbody`, `thead` or `caption` without attributes, under `table`.
pub(crate) fn plan_of_part(element: &Element) -> Plan
    ensures { plan_view result ≡ table_parts.plan (element_view element.now) }
{
    children_plan_if(is_in_table(element), element)
}

/// The content without line feeds at its ends, with blank lines around.
pub(crate) fn finish(
    _alloc: Global,
    element: &Element,
    content: HandlerResult,
) -> Result<Option<HandlerResult>, AllocError>
    ensures { IfOk result
        (λ r. optional_result r ≡ part_result (element_view element.now) (result_view content)) }
{
    let mut text = content.content;
    trim_newlines(&mut text);
    surround_with_blank_lines(&mut text)?;
    Ok(Some(HandlerResult {
        content: text,
        markdown_translated: element.markdown_translated,
    }))
}
