//! What stands above the content.
ghost use Rattle.std.specs.Prelude.{◌≡◌};
ghost use Rattle.htmd_nodes.specs.Views.{data_of};
ghost use Rattle.htmd_article.specs.TopLinks as spec;

use crate::facts::Facts;
use crate::names::{is_block, is_unseen};
use htmd_nodes::NodeData;

/// What a node is to those after it.
#[derive(Clone, Copy, Drop)]
pub(crate) enum Place {
    /// Links that go.
    Links,
    /// The first block that stays.
    Block,
    /// Other content.
    Content,
    /// Nothing that shows.
    Nothing,
}

/// What a block is to those after it.
fn block_place(facts: Facts) -> Place
    ensures { result ≡ spec.block_place facts }
{
    if facts.is_linked() && !facts.has_heading {
        return Place::Links;
    }
    if facts.shows() || facts.has_heading {
        return Place::Block;
    }
    Place::Nothing
}

/// What a node that is no block is to those after it.
fn inline_place(is_unseen: bool, facts: Facts) -> Place
    ensures { result ≡ spec.inline_place is_unseen facts }
{
    if !is_unseen && facts.counts.letters > 0 {
        return Place::Content;
    }
    Place::Nothing
}

/// What a node is to those after it.
pub(crate) fn place_of(node: &NodeData, facts: Facts) -> Place
    ensures { result ≡ spec.place_of (data_of node.now) facts }
{
    match node {
        NodeData::Element { name, .. } => {
            if is_block(name) {
                block_place(facts)
            } else {
                inline_place(is_unseen(name), facts)
            }
        }
        NodeData::Document | NodeData::Doctype | NodeData::Text(_) | NodeData::Comment(_) => {
            inline_place(false, facts)
        }
    }
}
