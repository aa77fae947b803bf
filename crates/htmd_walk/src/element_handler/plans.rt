//! The plans that many handlers have, and a content with blank lines around.

ghost use Rattle.std.specs.Prelude.{◌≡◌, ◌&&◌, ◌||◌, not, IfOk, length};
ghost use Rattle.std.specs.Option.{option_copied};
ghost use Rattle.htmd_walk.specs.ElementPlans as spec;
ghost use Rattle.htmd_walk.specs.Outputs.{is_markdown_alone};
ghost use Rattle.htmd_walk.specs.ElementPlans.{wrapped_result};
ghost use Rattle.htmd_walk.specs.Views.{plan_view, element_view, result_view, results_view, optional_result};

use super::{Element, HandlerResult, Plan};
use crate::options::{Options, TranslationMode};
use htmd_nodes::raw_block;
use htmd_text::{surround_with_blank_lines, trim_newlines};
use std::alloc::{AllocError, Global};

/// Whether only Markdown is written.
pub(crate) fn is_markdown_alone(options: &Options) -> bool
    ensures { result ≡ is_markdown_alone options.now }
{
    match options.translation_mode {
        TranslationMode::Pure => true,
        TranslationMode::Faithful => false,
    }
}

/// Whether raw HTML is due: in Faithful, if the element has more attributes than these, which say more than its
/// Markdown would.
pub fn is_raw_html_due(options: &Options, element: &Element, allowed: i64) -> bool
    ensures { let attributes = spec.attributes_of (element_view element.now) in
        result ≡ (not (is_markdown_alone options.now) && spec.is_more_than allowed (length attributes)) }
{
    if is_markdown_alone(options) {
        return false;
    }
    allowed < 0 || element.attrs.len() > allowed as usize
}

/// Whether the element is written as Markdown, as far as its attributes decide.
pub(crate) fn is_written_as_markdown(element: &Element) -> bool
    ensures { result ≡ not (spec.is_raw_html_due (element_view element.now) 0) }
{
    is_markdown_alone(element.options) || element.attrs.is_empty()
}

/// Whether the element has more attributes than Markdown has a form for, if that matters.
pub(crate) fn has_attributes_beyond(element: &Element, allowed: usize) -> bool
    ensures { result ≡ spec.is_raw_html_due (element_view element.now) allowed }
{
    !is_markdown_alone(element.options) && element.attrs.len() > allowed
}

/// The children's content, unless the element has attributes that Markdown has no form for.
pub(crate) fn children_plan(element: &Element) -> Plan
    ensures { plan_view result ≡ spec.children_plan (element_view element.now) }
{
    if is_written_as_markdown(element) {
        Plan::Children
    } else {
        Plan::RawHtml
    }
}

/// The children's content, unless the mode is Faithful and this doesn't hold.
pub(crate) fn plan_if(holds: bool, element: &Element) -> Plan
    ensures { plan_view result ≡ spec.plan_if holds (element_view element.now) }
{
    if is_markdown_alone(element.options) || holds {
        Plan::Children
    } else {
        Plan::RawHtml
    }
}

/// The children's content, unless the mode is Faithful.
pub(crate) fn unless_faithful(element: &Element) -> Plan
    ensures { plan_view result ≡ spec.unless_faithful (element_view element.now) }
{
    plan_if(false, element)
}

/// The tag of the parent.
pub(crate) fn parent_tag<'e>(element: &'e Element) -> Option<&'e str>
    ensures { option_copied result ≡ spec.parent_tag (element_view element.now) }
{
    match element.tree.parent(element.node) {
        Some(parent) => element.tree.tag_name(parent),
        None => None,
    }
}

/// The content without line feeds at its ends, with blank lines around.
pub(crate) fn wrap(
    _alloc: Global,
    _element: &Element,
    content: HandlerResult,
) -> Result<Option<HandlerResult>, AllocError>
    ensures { IfOk result
        (λ r. optional_result r ≡ wrapped_result (element_view _element.now) (result_view content)) }
{
    let mut text = content.content;
    trim_newlines(&mut text);
    surround_with_blank_lines(&mut text)?;
    Ok(Some(HandlerResult::from_string(text)))
}

/// Whether all of these are Markdown.
pub(crate) fn are_markdown(contents: &[HandlerResult]) -> bool
    ensures { result ≡ spec.are_markdown (results_view contents.now) }
{
    for content in contents {
        if !content.markdown_translated {
            return false;
        }
    }
    true
}

/// The raw HTML of a block element, for a handler that finds that its content isn't Markdown.
pub(crate) fn raw_block_result(
    alloc: Global,
    element: &Element,
) -> Result<HandlerResult, AllocError>
    ensures { IfOk result (λ r. result_view r ≡ spec.raw_block_result (element_view element.now)) }
{
    let content = raw_block(alloc, element.tree, element.node)?;
    Ok(HandlerResult {
        content,
        markdown_translated: false,
    })
}
