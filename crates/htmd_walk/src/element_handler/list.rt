//! The handler of `ol` and `ul`.

ghost use Rattle.std.specs.Prelude.{◌≡◌, ◌<◌, IfOk, All, length, map, string_bytes};
ghost use Rattle.std.specs.List.{list_any};
ghost use Rattle.htmd_markdown.specs.Lists.{block_of};
ghost use Rattle.htmd_nodes.specs.Items.{children_of, data_at, tag_of};
ghost use Rattle.htmd_lexical.specs.Attributes.{pairs_of};
ghost use Rattle.htmd_walk.specs.Handling.{IsProper};
ghost use Rattle.htmd_walk.specs.Lists as spec;
ghost use Rattle.htmd_walk.specs.Views.{element_view, result_view, results_view, optional_result};
ghost use Rattle.htmd_walk.specs.Walking.{request_view};

use super::plans::{are_markdown, is_markdown_alone, parent_tag, raw_block_result};
use super::registry::{Descendants, Request};
use super::{Element, HandlerResult, Plan};
use htmd_markdown::{ListBlock, first_number, write_list_block, write_ordered_list};
use htmd_nodes::{Attribute, NodeId, Tree, value_of};
use std::alloc::{AllocError, Global};

/// How many attributes a list may have: `start`, if it comes first.
fn allowed_attributes(attrs: &[Attribute]) -> usize
    ensures { result ≡ spec.allowed_attributes (pairs_of attrs.now) }
{
    if !attrs.is_empty() && attrs[0].name.as_str() == "start" {
        1
    } else {
        0
    }
}

/// Whether a node is an element, but not an item.
fn is_other_element(tree: &Tree, node: NodeId) -> bool
    requires { node < length tree.now }
    ensures { result ≡ spec.is_other_element tree.now node }
{
    match tree.tag_name(node) {
        Some(tag) => tag != "li",
        None => false,
    }
}

/// Whether a child element isn't an item.
fn has_other_elements(element: &Element) -> bool
    ensures { let view = element_view element.now in
        result ≡ list_any (spec.is_other_element view.items) (children_of view.items view.node) }
{
    for child in element.tree.children(element.node) {
        if is_other_element(element.tree, *child) {
            return true;
        }
    }
    false
}

/// Whether the list is raw HTML, as known before anything is converted.
fn is_raw_list(element: &Element) -> bool
    ensures { result ≡ spec.is_raw_list (element_view element.now) }
{
    if is_markdown_alone(element.options) {
        return false;
    }
    if element.attrs.len() > allowed_attributes(element.attrs) || !element.markdown_translated {
        return true;
    }
    has_other_elements(element)
}

/// Each child of an ordered list by itself; of another list, its content.
pub(crate) fn plan(alloc: Global, element: &Element) -> Result<Request, AllocError>
    ensures plan { IfOk result (λ p. request_view p ≡ spec.list_plan (element_view element.now)) }
    ensures proper { IfOk result (λ p. IsProper element.now.tree.now element.now.node (request_view p)) }
{
    if is_raw_list(element) {
        return Ok(Request::OfPlan(Plan::RawHtml));
    }
    if element.tag != "ol" {
        return Ok(Request::OfPlan(Plan::Children));
    }
    let nodes = Vec::from_slice(alloc, element.tree.children(element.node))?;
    Ok(Request::Each(Descendants {
        nodes,
        may_ask_children: false,
    }))
}

/// A list among the blocks around it, or its raw HTML if not all of it is Markdown.
pub(crate) fn finish(
    alloc: Global,
    element: &Element,
    list: HandlerResult,
) -> Result<Option<HandlerResult>, AllocError>
    ensures { IfOk result
        (λ r. optional_result r ≡ spec.list_result (element_view element.now) (result_view list)) }
{
    if !is_markdown_alone(element.options) && !list.markdown_translated {
        return Ok(Some(raw_block_result(alloc, element)?));
    }
    let is_in_item = parent_tag(element) == Some("li");
    match write_list_block(list.content, is_in_item)? {
        Some(text) => Ok(Some(HandlerResult::from_string(text))),
        None => Ok(None),
    }
}

/// What a child of an ordered list gives: its content for an item, a text for another child.
fn list_block(tree: &Tree, child: NodeId, content: String) -> ListBlock
    requires { child < length tree.now }
    ensures { block_of result ≡ spec.block_of_child (tag_of (data_at tree.now child)) (string_bytes content) }
{
    if tree.tag_name(child) == Some("li") {
        ListBlock::Item(content)
    } else {
        ListBlock::Other(content)
    }
}

/// What the children of an ordered list give.
fn list_blocks(
    alloc: Global,
    tree: &Tree,
    children: &[NodeId],
    contents: Vec<HandlerResult>,
) -> Result<Vec<ListBlock>, AllocError>
    requires { All (λ child. child < length tree.now) children.now }
    ensures { IfOk result (λ blocks. map block_of blocks.items
        ≡ spec.blocks_of_list tree.now children.now (results_view contents.items)) }
{
    let mut blocks = Vec::with_capacity(alloc, contents.len())?;
    for (child, content) in children.iter().zip(contents) {
        blocks.push(list_block(tree, *child, content.content))?;
    }
    Ok(blocks)
}

/// The number of the first item.
fn number_of_first(element: &Element) -> u32
    ensures { result ≡ spec.first_number_of (element_view element.now) }
{
    first_number(value_of(element.attrs, "start"))
}

/// The items after their numbers, and the other children's contents.
fn write_numbered(
    alloc: Global,
    element: &Element,
    blocks: Vec<ListBlock>,
) -> Result<String, AllocError>
    ensures { IfOk result (λ text. string_bytes text
        ≡ spec.ordered_text (element_view element.now) (map block_of blocks.items)) }
{
    let spacing = element.options.ol_number_spacing;
    let first = number_of_first(element);
    write_ordered_list(alloc, first, spacing, blocks)
}

/// The list from the contents of an ordered list's children.
fn numbered_list(
    alloc: Global,
    element: &Element,
    contents: Vec<HandlerResult>,
) -> Result<HandlerResult, AllocError>
    ensures { IfOk result (λ list. result_view list
        ≡ spec.numbered_list (element_view element.now) (results_view contents.items)) }
{
    let markdown_translated = are_markdown(&contents);
    let children = element.tree.children(element.node);
    let blocks = list_blocks(alloc, element.tree, children, contents)?;
    let content = write_numbered(alloc, element, blocks)?;
    Ok(HandlerResult {
        content,
        markdown_translated,
    })
}

/// An ordered list, from its children's contents.
pub(crate) fn finish_ordered(
    alloc: Global,
    element: &Element,
    contents: Vec<HandlerResult>,
) -> Result<Option<HandlerResult>, AllocError>
    ensures { IfOk result (λ r. optional_result r
        ≡ spec.ordered_result (element_view element.now) (results_view contents.items)) }
{
    let list = numbered_list(alloc, element, contents)?;
    finish(alloc, element, list)
}
