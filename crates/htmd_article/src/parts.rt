//! The page as nodes with what is known of each.
ghost use Rattle.std.specs.Prelude.{◌≡◌, ◌<◌, length, IfOk, IfSome};
ghost use Rattle.std.specs.Option.{option_map};
ghost use Rattle.htmd_nodes.specs.Items.{children_of};
ghost use Rattle.htmd_nodes.specs.NumberedTrees.{tree_of, forest_of, value_forest, value_at};
ghost use Rattle.htmd_nodes.specs.Views.{data_of};
ghost use Rattle.htmd_article.specs.Facts.{no_facts};
ghost use Rattle.htmd_article.specs.Parts as spec;
ghost use Rattle.htmd_article.specs.PartViews.{part_of, parts_of};

use crate::facts::{Facts, facts_over, facts_sum, text_facts};
use crate::names::{is_body, is_unseen};
use crate::sayings::is_link;
use htmd_nodes::{NodeData, NodeId, Tree};
use std::alloc::{AllocError, Global};

/// A node of the page, with what is known of it.
#[derive(Drop)]
pub(crate) struct Part<'t> {
    pub(crate) node: &'t NodeData,
    pub(crate) facts: Facts,
    pub(crate) parts: Vec<Part<'t>>,
}

/// What is known of nodes beside each other.
pub(crate) fn facts_of_all(parts: &[Part]) -> Result<Facts, AllocError>
    ensures { IfOk result (λ facts. facts ≡ spec.facts_after no_facts (parts_of parts.now)) }
{
    let mut facts = Facts::NONE;
    for part in parts {
        facts = facts_sum(facts, part.facts)?;
    }
    Ok(facts)
}

/// Whether the nodes below this one are in a link, if it is in one or not.
fn is_link_below(node: &NodeData, is_linked: bool) -> bool
    ensures { result ≡ spec.linked_below (data_of node.now) is_linked }
{
    match node {
        NodeData::Element { name, attrs } => is_linked || is_link(name, attrs.as_slice()),
        NodeData::Document | NodeData::Doctype | NodeData::Text(_) | NodeData::Comment(_) => {
            is_linked
        }
    }
}

/// What is known of a node, in a link or not, by the nodes below it.
fn facts_of(node: &NodeData, is_linked: bool, parts: &[Part]) -> Result<Facts, AllocError>
    ensures { IfOk result (λ facts. facts ≡ spec.facts_of (data_of node.now) is_linked (parts_of parts.now)) }
{
    if let NodeData::Text(text) = node {
        return Ok(text_facts(is_linked, text.as_str()));
    }
    facts_over(node, facts_of_all(parts)?)
}

/// A node and those below it, with what is known of each, in a link or not.
#[tactic(auto, using(crate::proofs::MadeLemmas::known_made))]
pub(crate) fn known<'t>(
    alloc: Global,
    tree: &'t Tree,
    id: NodeId,
    is_linked: bool,
) -> Result<Part<'t>, AllocError>
    requires { id < length tree.now }
    ensures { IfOk result (λ part. part_of part ≡ spec.known is_linked (value_at tree.now id)) }
{
    let node = tree.data(id);
    let is_link = is_link_below(node, is_linked);
    let children = tree.children(id);
    let mut parts = Vec::with_capacity(alloc, children.len())?;
    for child in children {
        parts.push(known(alloc, tree, *child, is_link)?)?;
    }
    let facts = facts_of(node, is_linked, parts.as_slice())?;
    Ok(Part { node, facts, parts })
}

/// The first `body` or `frameset` below a node, in document order.
#[cycle(body)]
pub(crate) fn first_body(tree: &Tree, id: NodeId) -> Option<NodeId>
    requires { id < length tree.now }
    ensures within { IfSome result (λ id. id < length tree.now) }
    ensures value { option_map (value_at tree.now) result
        ≡ spec.first_body (value_forest (forest_of (tree_of tree.now) (children_of tree.now id))) }
{
    for child in tree.children(id) {
        let body = body_in(tree, *child);
        if body.is_some() {
            return body;
        }
    }
    None
}

/// The node, if it is one, or the first below it.
#[cycle(body)]
fn body_in(tree: &Tree, id: NodeId) -> Option<NodeId>
    requires { id < length tree.now }
    ensures within { IfSome result (λ id. id < length tree.now) }
    ensures value { option_map (value_at tree.now) result ≡ spec.body_in (value_at tree.now id) }
{
    let NodeData::Element { name, .. } = tree.data(id) else {
        return None;
    };
    if is_body(name) {
        return Some(id);
    }
    if is_unseen(name) {
        return None;
    }
    first_body(tree, id)
}

/// Whether the node is the Document, or an element of which something may show.
pub(crate) fn is_entered(node: &NodeData) -> bool
    ensures { result ≡ spec.is_entered (data_of node.now) }
{
    match node {
        NodeData::Document => true,
        NodeData::Element { name, .. } => !is_unseen(name),
        NodeData::Doctype | NodeData::Text(_) | NodeData::Comment(_) => false,
    }
}
