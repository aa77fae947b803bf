//! Parts of a page, written as a tree of their own.
ghost use Rattle.std.specs.Prelude.{◌≡◌, ◌+◌, ◌<◌, ◌++◌, length, IsTrue, Ok, IfOk, OnOk};
ghost use Rattle.htmd_lexical.specs.Attributes.{pairs_of};
ghost use Rattle.htmd_values.specs.ValueTrees.{none};
ghost use Rattle.htmd_nodes.specs.Items.{data_at, depth_at, holds_children};
ghost use Rattle.htmd_nodes.specs.Layout.{forest_items};
ghost use Rattle.htmd_nodes.specs.Views.{data_of};
ghost use Rattle.htmd_article.specs.Outermost.{outermost};
ghost use Rattle.htmd_article.specs.PartViews.{part_of, parts_of};
ghost use Rattle.htmd_article.specs.TopLinks.{without_links, linkless};
ghost use Rattle.htmd_article.specs.Writing as spec;

use crate::facts::Facts;
use crate::names::is_title;
use crate::outermost::{Landmark, is_landmark};
use crate::parts::{Part, is_entered};
use crate::top_links::{Place, place_of};
use htmd_nodes::{Attribute, NodeData, NodeId, Tree, TreeError};
use std::alloc::{AllocError, Global};

/// Whether the node is a link of a heading to itself: an `a` that shows a sign and nothing else.
fn is_permalink(node: &NodeData, facts: Facts) -> bool
    ensures { result ≡ spec.is_permalink (data_of node.now) facts }
{
    match node {
        NodeData::Element { name, .. } => {
            name.as_str() == "a" && facts.counts.characters == 1 && facts.counts.signs == 1
        }
        NodeData::Document | NodeData::Doctype | NodeData::Text(_) | NodeData::Comment(_) => false,
    }
}

/// Whether the node is such a link in a heading or a term.
fn goes(node: &NodeData, facts: Facts, in_title: bool) -> bool
    ensures { result ≡ spec.goes (data_of node.now) facts in_title }
{
    in_title && is_permalink(node, facts)
}

/// Whether the nodes below this one are in a heading or a term, if it is in one or not.
fn in_title_below(node: &NodeData, in_title: bool) -> bool
    ensures { result ≡ spec.in_title_below (data_of node.now) in_title }
{
    match node {
        NodeData::Element { name, .. } => in_title || is_title(name),
        NodeData::Document | NodeData::Doctype | NodeData::Text(_) | NodeData::Comment(_) => {
            in_title
        }
    }
}

fn attributes_of(alloc: Global, attrs: &[Attribute]) -> Result<Vec<Attribute>, AllocError>
    ensures { IfOk result (λ copies. pairs_of copies.items ≡ pairs_of attrs.now) }
{
    let mut copies = Vec::with_capacity(alloc, attrs.len())?;
    for attribute in attrs {
        let name = String::from_str(alloc, attribute.name.as_str())?;
        let value = String::from_str(alloc, attribute.value.as_str())?;
        copies.push(Attribute { name, value })?;
    }
    Ok(copies)
}

/// The node that was added.
fn added(outcome: Result<NodeId, TreeError>) -> Result<NodeId, AllocError>
    ensures { IfOk result (λ id. outcome ≡ Ok id) }
{
    match outcome {
        Ok(id) => Ok(id),
        Err(_) => Err(AllocError),
    }
}

/// Adds a node without what is below it; an element's number is returned.
fn add_node(
    out: &mut Tree,
    under: NodeId,
    node: &NodeData,
    alloc: Global,
) -> Result<Option<NodeId>, AllocError>
    requires under { under < length out.old }
    requires holds { IsTrue (holds_children (data_at out.old under)) }
    ensures out { OnOk result (out.new ≡ out.old ++ forest_items (depth_at out.old under + 1) under (length out.old)
        (spec.node_before (data_of node.now) none none)) }
    ensures id { IfOk result (λ id. id ≡ spec.number_below (data_of node.now) (length out.old)) }
{
    match node {
        NodeData::Document => {}
        NodeData::Doctype => {
            added(out.add_doctype(under))?;
        }
        NodeData::Text(text) => {
            added(out.add_text(under, text.as_str()))?;
        }
        NodeData::Comment(text) => {
            added(out.add_comment(under, text.as_str()))?;
        }
        NodeData::Element { name, attrs } => {
            let attrs = attributes_of(alloc, attrs.as_slice())?;
            return Ok(Some(added(out.add_element(under, name.as_str(), attrs))?));
        }
    }
    Ok(None)
}

/// Appends parts to a node of a tree.
#[cycle(written)]
pub(crate) fn push_parts(
    out: &mut Tree,
    under: NodeId,
    parts: &[Part],
    in_title: bool,
    alloc: Global,
) -> Result<(), AllocError>
    requires under { under < length out.old }
    requires holds { IsTrue (holds_children (data_at out.old under)) }
    ensures { OnOk result (out.new ≡ out.old ++ forest_items (depth_at out.old under + 1) under (length out.old)
        (spec.written in_title (parts_of parts.now))) }
{
    for part in parts {
        push_part(out, under, part, in_title, alloc)?;
    }
    Ok(())
}

/// Appends a part to a node of a tree; in a heading or a term its links to itself go.
#[tactic(auto, using(crate::proofs::WritingLemmas::part_steps))]
#[cycle(written)]
pub(crate) fn push_part(
    out: &mut Tree,
    under: NodeId,
    part: &Part,
    in_title: bool,
    alloc: Global,
) -> Result<(), AllocError>
    requires under { under < length out.old }
    requires holds { IsTrue (holds_children (data_at out.old under)) }
    ensures { OnOk result (out.new ≡ out.old ++ forest_items (depth_at out.old under + 1) under (length out.old)
        (spec.written_part in_title (part_of part.now))) }
{
    if goes(part.node, part.facts, in_title) {
        return Ok(());
    }
    if let Some(id) = add_node(out, under, part.node, alloc)? {
        let in_title = in_title_below(part.node, in_title);
        push_parts(out, id, part.parts.as_slice(), in_title, alloc)?;
    }
    Ok(())
}

/// Appends parts to a node of a tree, without the links above the content.
#[cycle(below_links)]
pub(crate) fn push_below_links(
    out: &mut Tree,
    under: NodeId,
    parts: &[Part],
    in_title: bool,
    alloc: Global,
) -> Result<(), AllocError>
    requires under { under < length out.old }
    requires holds { IsTrue (holds_children (data_at out.old under)) }
    ensures { OnOk result (out.new ≡ out.old ++ forest_items (depth_at out.old under + 1) under (length out.old)
        (spec.written in_title (without_links (parts_of parts.now)))) }
{
    for (i, part) in parts.iter().enumerate() {
        match place_of(part.node, part.facts) {
            Place::Links => {}
            Place::Nothing => push_part(out, under, part, in_title, alloc)?,
            Place::Content => return push_parts(out, under, &parts[i..], in_title, alloc),
            Place::Block => {
                push_block(out, under, part, in_title, alloc)?;
                return push_parts(out, under, &parts[i + 1..], in_title, alloc);
            }
        }
    }
    Ok(())
}

/// Appends a part to a node of a tree, without the links above the content in it.
#[tactic(auto, using(crate::proofs::WritingLemmas::linkless_steps))]
#[cycle(below_links)]
pub(crate) fn push_block(
    out: &mut Tree,
    under: NodeId,
    part: &Part,
    in_title: bool,
    alloc: Global,
) -> Result<(), AllocError>
    requires under { under < length out.old }
    requires holds { IsTrue (holds_children (data_at out.old under)) }
    ensures { OnOk result (out.new ≡ out.old ++ forest_items (depth_at out.old under + 1) under (length out.old)
        (spec.written_part in_title (linkless (part_of part.now)))) }
{
    if goes(part.node, part.facts, in_title) {
        return Ok(());
    }
    if let Some(id) = add_node(out, under, part.node, alloc)? {
        let in_title = in_title_below(part.node, in_title);
        push_below_links(out, id, part.parts.as_slice(), in_title, alloc)?;
    }
    Ok(())
}

/// Appends the outermost elements in a part that say that they are something, the part with them, to a node of a tree.
#[tactic(auto, using(crate::proofs::OutermostLemmas::outermost_steps))]
pub(crate) fn push_outermost(
    out: &mut Tree,
    under: NodeId,
    mark: Landmark,
    part: &Part,
    alloc: Global,
) -> Result<(), AllocError>
    requires under { under < length out.old }
    requires holds { IsTrue (holds_children (data_at out.old under)) }
    ensures { OnOk result (out.new ≡ out.old ++ forest_items (depth_at out.old under + 1) under (length out.old)
        (spec.all_written (outermost mark (part_of part.now)))) }
{
    if is_landmark(mark, part.node, part.facts) {
        return push_part(out, under, part, false, alloc);
    }
    if !is_entered(part.node) {
        return Ok(());
    }
    for inner in &part.parts {
        push_outermost(out, under, mark, inner, alloc)?;
    }
    Ok(())
}
