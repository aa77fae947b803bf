//! Elements that hold a formula and nothing else.
ghost use Rattle.std.specs.Prelude.{◌≡◌, ◌<◌, All, length};
ghost use Rattle.htmd_nodes.specs.NumberedTrees.{tree_of, forest_of};
ghost use Rattle.htmd_nodes.specs.Views.{data_of};
ghost use Rattle.htmd_trimming.specs.FateViews as views;
ghost use Rattle.htmd_trimming.specs.Formulas as spec;

use htmd_nodes::{NodeData, NodeId, Tag, Tree};
use htmd_shown::spaces::is_blank_text;

/// Whether a node is a blank text or a comment.
fn is_blank(node: &NodeData) -> bool
    ensures { result ≡ views.is_blank (data_of node.now) }
{
    match node {
        NodeData::Text(text) => is_blank_text(text.as_str()),
        NodeData::Comment(_) => true,
        NodeData::Document | NodeData::Doctype | NodeData::Element { .. } => false,
    }
}

/// Whether a node is a `math`.
fn is_math(node: &NodeData) -> bool
    ensures { result ≡ views.is_math (data_of node.now) }
{
    match node {
        NodeData::Element { name, .. } => name.is(Tag::Math),
        NodeData::Document | NodeData::Doctype | NodeData::Text(_) | NodeData::Comment(_) => false,
    }
}

/// Whether nodes beside each other are a `math` among blank texts and comments.
pub(crate) fn is_formula(tree: &Tree, nodes: &[NodeId]) -> bool
    requires { All (λ node. node < length tree.now) nodes.now }
    ensures { result ≡ spec.is_formula (forest_of (tree_of tree.now) nodes.now) }
{
    let mut found = false;
    for node in nodes {
        let data = tree.data(*node);
        if !is_blank(data) {
            if found || !is_math(data) {
                return false;
            }
            found = true;
        }
    }
    found
}
