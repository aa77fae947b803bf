//! The handler of `code`.

ghost use Rattle.std.specs.Prelude.{◌≡◌, ◌<◌, Some, IfOk, true, length};
ghost use Rattle.std.specs.Option.{option_copied};
ghost use Rattle.htmd_nodes.specs.Items.{parent_at};
ghost use Rattle.htmd_lexical.specs.Attributes.{pairs_of};
ghost use Rattle.htmd_walk.specs.Code as spec;
ghost use Rattle.htmd_walk.specs.Views.{plan_view, element_view, result_view, optional_result};

use super::plans::{has_attributes_beyond, is_markdown_alone, parent_tag};
use super::{Element, HandlerResult, Plan};
use crate::node_util::is_text;
use crate::options::CodeBlockStyle;
use htmd_markdown::{write_fence, write_indented_code, write_span};
use htmd_nodes::{Attribute, NodeData, NodeId, Tree, value_of};
use std::alloc::{AllocError, Global};

/// The language that a class names.
fn language_of_class(class: &str) -> Option<&str>
    ensures { option_copied result ≡ spec.language_of_class class.now }
{
    class.strip_prefix("language-")
}

/// The language that the first class attribute names.
fn language_of(attrs: &[Attribute]) -> Option<&str>
    ensures { option_copied result ≡ spec.language_of (pairs_of attrs.now) }
{
    first_language(value_of(attrs, "class")?)
}

/// The language of the first of these classes that names one.
fn first_language(classes: &str) -> Option<&str>
    ensures { option_copied result ≡ spec.first_language (spec.classes_of classes.now) }
{
    for class in classes.split(' ') {
        if let Some(language) = language_of_class(class) {
            return Some(language);
        }
    }
    None
}

/// The language that a node names, if it is `pre`.
#[tactic(auto, using(crate::proofs::CodeLemmas::pre_language))]
pub(crate) fn language_inside(tree: &Tree, node: NodeId) -> Option<&str>
    requires { node < length tree.now }
    ensures { option_copied result ≡ spec.language_of_pre tree.now (Some node) }
{
    match tree.data(node) {
        NodeData::Element { name, attrs } => {
            if name.as_str() == "pre" {
                language_of(attrs.as_slice())
            } else {
                None
            }
        }
        _ => None,
    }
}

/// The language that the parent of a node names, if it is `pre`.
#[tactic(auto, using(crate::proofs::CodeLemmas::pre_language))]
pub(crate) fn language_above(tree: &Tree, node: NodeId) -> Option<&str>
    requires { node < length tree.now }
    ensures { option_copied result ≡ spec.language_of_pre tree.now (parent_at tree.now node) }
{
    match tree.parent(node) {
        Some(parent) => language_inside(tree, parent),
        None => None,
    }
}

/// The language that a code block names, else its `pre`.
#[tactic(auto, using(crate::proofs::CodeLemmas::pre_language))]
fn language<'e>(element: &'e Element) -> Option<&'e str>
    requires block { spec.is_code_block (element_view element.now) ≡ true }
    ensures { option_copied result ≡ spec.language (element_view element.now) }
{
    match language_of(element.attrs) {
        Some(language) => Some(language),
        None => element.pre_language,
    }
}

/// Whether the element is a block: it is right under `pre`.
fn is_code_block(element: &Element) -> bool
    ensures { result ≡ spec.is_code_block (element_view element.now) }
{
    parent_tag(element) == Some("pre")
}

/// Whether all children are texts.
fn holds_texts_alone(element: &Element) -> bool
    ensures { result ≡ spec.holds_texts_alone (element_view element.now) }
{
    for child in element.tree.children(element.node) {
        if !is_text(element.tree, *child) {
            return false;
        }
    }
    true
}

/// Whether code blocks are written between fences.
fn is_fenced(style: CodeBlockStyle) -> bool
    ensures { result ≡ spec.is_fenced style }
{
    match style {
        CodeBlockStyle::Indented => false,
        CodeBlockStyle::Fenced => true,
    }
}

/// Whether a fence shows the language.
fn shows_language(element: &Element) -> bool
    ensures { result ≡ spec.shows_language (element_view element.now) }
{
    is_code_block(element)
        && is_fenced(element.options.code_block_style)
        && language(element).is_some()
}

/// The children's content, unless the element holds or says more than code.
pub(crate) fn plan(element: &Element) -> Plan
    ensures { plan_view result ≡ spec.code.plan (element_view element.now) }
{
    if is_markdown_alone(element.options) {
        return Plan::Children;
    }
    if !holds_texts_alone(element) {
        return Plan::RawHtml;
    }
    let allowed = if shows_language(element) { 1 } else { 0 };
    if has_attributes_beyond(element, allowed) {
        return Plan::RawHtml;
    }
    Plan::Children
}

/// The content as a code block or a code span.
pub(crate) fn finish(
    alloc: Global,
    element: &Element,
    content: HandlerResult,
) -> Result<Option<HandlerResult>, AllocError>
    ensures { IfOk result
        (λ r. optional_result r ≡ spec.code_result (element_view element.now) (result_view content)) }
{
    let options = element.options;
    let code = content.content.as_str();
    let text = if !is_code_block(element) {
        write_span(alloc, code, options.preformatted_code)?
    } else {
        match options.code_block_style {
            CodeBlockStyle::Indented => write_indented_code(alloc, code)?,
            CodeBlockStyle::Fenced => {
                write_fence(alloc, code, language(element), options.code_block_fence)?
            }
        }
    };
    Ok(Some(HandlerResult::from_string(text)))
}
