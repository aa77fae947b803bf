//! The page without its frame: navigation, header, footer and the like.
ghost use Rattle.std.specs.Prelude.{◌≡◌, IfOk};
ghost use Rattle.htmd_lexical.specs.Attributes.{pairs_of};
ghost use Rattle.htmd_nodes.specs.Items as items;
ghost use Rattle.htmd_nodes.specs.Views.{data_of};
ghost use Rattle.htmd_article.specs.Frames as spec;
ghost use Rattle.htmd_article.specs.PartViews.{part_of, parts_of};

use crate::facts::{Facts, facts_over};
use crate::names::{is_block, is_frame_name, is_unseen};
use crate::parts::{Part, facts_of_all, is_entered};
use crate::sayings::{has_frame_class, has_frame_id, has_frame_role, has_role};
use htmd_nodes::{Attribute, Name, NodeData};
use std::alloc::{AllocError, Global};

/// Whether the element's class or id says that it is part of the frame.
fn is_called_frame(attrs: &[Attribute], facts: Facts) -> bool
    ensures { result ≡ spec.is_called_frame (pairs_of attrs.now) facts }
{
    (has_frame_class(attrs) && !facts.has_h1) || (has_frame_id(attrs) && !facts.has_heading)
}

/// Whether so many letters of prose are less than half of a body's.
fn is_small(prose: usize, total: usize) -> bool
    ensures { result ≡ spec.is_small prose total }
{
    prose < total.saturating_sub(prose)
}

/// Whether the node may have others below it.
fn holds_children(node: &NodeData) -> bool
    ensures { result ≡ items.holds_children (data_of node.now) }
{
    matches!(node, NodeData::Document | NodeData::Element { .. })
}

/// Whether the element is part of the frame of a body with so many letters of prose.
fn is_frame_element(total: usize, name: &Name, attrs: &[Attribute], facts: Facts) -> bool
    ensures { result ≡ spec.is_frame_element total name.now (pairs_of attrs.now) facts }
{
    if facts.has_main {
        return false;
    }
    if is_frame_name(name) || has_frame_role(attrs) {
        return true;
    }
    if name.as_str() == "header" || has_role(attrs, "banner") {
        return !facts.has_heading;
    }
    if name.as_str() == "aside" || has_role(attrs, "complementary") {
        return facts.is_linked();
    }
    is_block(name)
        && is_called_frame(attrs, facts)
        && (facts.is_linked() || is_small(facts.prose, total))
}

/// Whether the node is part of the frame; in what never shows nothing is.
fn is_frame(total: Option<usize>, node: &NodeData, facts: Facts) -> bool
    ensures { result ≡ spec.is_frame total (data_of node.now) facts }
{
    let Some(total) = total else {
        return false;
    };
    match node {
        NodeData::Element { name, attrs } => {
            !is_unseen(name) && is_frame_element(total, name, attrs.as_slice(), facts)
        }
        NodeData::Document | NodeData::Doctype | NodeData::Text(_) | NodeData::Comment(_) => false,
    }
}

fn total_below(total: Option<usize>, node: &NodeData) -> Option<usize>
    ensures { result ≡ spec.total_below total (data_of node.now) }
{
    if is_entered(node) { total } else { None }
}

/// What is known of a node over other nodes than before.
fn facts_again(node: &NodeData, facts: Facts, parts: &[Part]) -> Result<Facts, AllocError>
    ensures { IfOk result (λ f. f ≡ spec.facts_again (data_of node.now) facts (parts_of parts.now)) }
{
    if !holds_children(node) {
        return Ok(facts);
    }
    let over = facts_over(node, facts_of_all(parts)?)?;
    Ok(Facts {
        counts: facts.counts,
        ..over
    })
}

/// The node without what is part of the frame in it, by the letters of prose in the body.
#[tactic(auto, using(crate::proofs::MadeLemmas::framed_made))]
pub(crate) fn without_frame<'t>(
    alloc: Global,
    total: Option<usize>,
    part: &Part<'t>,
) -> Result<Part<'t>, AllocError>
    ensures { IfOk result (λ p. part_of p ≡ spec.without_frame_in total (part_of part.now)) }
{
    let below = total_below(total, part.node);
    let mut parts = Vec::with_capacity(alloc, part.parts.len())?;
    for inner in &part.parts {
        if !is_frame(below, inner.node, inner.facts) {
            parts.push(without_frame(alloc, below, inner)?)?;
        }
    }
    let facts = facts_again(part.node, part.facts, parts.as_slice())?;
    Ok(Part {
        node: part.node,
        facts,
        parts,
    })
}
