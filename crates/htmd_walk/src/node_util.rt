//! Queries about a node of a tree.

ghost use Rattle.std.specs.Prelude.{◌≡◌, ◌<◌, ◌||◌, true, false, Some, [], ◌∷◌, length};
ghost use Rattle.std.specs.List.{list_any};
ghost use Rattle.std.specs.Option.{option_copied};
ghost use Rattle.htmd_nodes.specs.Items.{data_at, tag_of, IsTree};
ghost use Rattle.htmd_nodes.specs.NumberedTrees.{tree_of};
ghost use Rattle.htmd_nodes.specs.Ancestors.{ancestor_of, ancestors_of};
ghost use Rattle.htmd_walk.specs.OrdinaryText.{is_pre_or_code, in_pre_or_code, parent_is_pre};
ghost use Rattle.htmd_walk.specs.ElementPlans.{is_tag_among};
ghost use Rattle.htmd_walk.specs.Groups.{only_text, children_at};
ghost use Rattle.htmd_walk.specs.Children.{is_block_tree, trims_first};
ghost use Rattle.htmd_walk.specs.Rendering.{is_text, inside_of};

use crate::block_tags::is_block_name;
use htmd_nodes::{NodeData, NodeId, Tree};

/// Whether a node is `pre` or `code`.
pub(crate) fn is_pre_or_code(tree: &Tree, node: NodeId) -> bool
    requires { node < length tree.now }
    ensures { result ≡ is_pre_or_code (ancestor_of (data_at tree.now node)) }
{
    match tree.data(node) {
        NodeData::Element { name, .. } => name.as_str() == "pre" || name.as_str() == "code",
        _ => false,
    }
}

/// Whether a node has one of two tags.
fn has_either_tag(tree: &Tree, node: NodeId, first: &str, second: &str) -> bool
    requires { node < length tree.now }
    ensures { result ≡ is_tag_among (first.now ∷ second.now ∷ []) (tag_of (data_at tree.now node)) }
{
    match tree.tag_name(node) {
        Some(tag) => first == tag || second == tag,
        None => false,
    }
}

/// Whether an ancestor has one of two tags.
pub(crate) fn has_ancestor_of(tree: &Tree, node: NodeId, first: &str, second: &str) -> bool
    requires { node < length tree.now }
    ensures { let tags = first.now ∷ second.now ∷ [] in
        result ≡ list_any (λ a. is_tag_among tags (Some a.tag)) (ancestors_of tree.now node) }
{
    let mut at = node;
    while let Some(parent) = tree.parent(at) {
        if has_either_tag(tree, parent, first, second) {
            return true;
        }
        at = parent;
    }
    false
}

/// Whether an ancestor is `pre` or `code`.
pub(crate) fn is_in_pre_or_code(tree: &Tree, node: NodeId) -> bool
    requires { node < length tree.now }
    ensures { result ≡ in_pre_or_code (ancestors_of tree.now node) }
{
    has_ancestor_of(tree, node, "pre", "code")
}

/// Whether what is in an element is preformatted, if this says whether the element itself is.
pub(crate) fn preformatted_inside(tree: &Tree, node: NodeId, preformatted: bool) -> bool
    requires within { node < length tree.now }
    requires context { preformatted ≡ in_pre_or_code (ancestors_of tree.now node) }
    ensures { result ≡ in_pre_or_code (inside_of tree.now node) }
{
    preformatted || is_pre_or_code(tree, node)
}

/// Whether a node that is converted by itself is preformatted. A text is then ordinary.
pub(crate) fn is_preformatted_alone(tree: &Tree, node: NodeId) -> bool
    requires { node < length tree.now }
    ensures text { is_text (data_at tree.now node) ≡ true → result ≡ false }
    ensures other { is_text (data_at tree.now node) ≡ false
        → result ≡ in_pre_or_code (ancestors_of tree.now node) }
{
    !is_text(tree, node) && is_in_pre_or_code(tree, node)
}

/// Whether the parent is `pre`.
pub(crate) fn is_parent_pre(tree: &Tree, node: NodeId) -> bool
    requires { node < length tree.now }
    ensures { result ≡ parent_is_pre (ancestors_of tree.now node) }
{
    let Some(parent) = tree.parent(node) else {
        return false;
    };
    match tree.data(parent) {
        NodeData::Element { name, .. } => name.as_str() == "pre",
        _ => false,
    }
}

/// Whether a node is a block element.
pub(crate) fn is_block(tree: &Tree, node: NodeId) -> bool
    requires { node < length tree.now }
    ensures { result ≡ is_block_tree (tree_of tree.now node) }
{
    match tree.data(node) {
        NodeData::Element { name, .. } => is_block_name(name),
        _ => false,
    }
}

/// Whether the space at the start of a node's content is dropped.
pub(crate) fn trims_first(tree: &Tree, node: NodeId, preformatted: bool) -> bool
    requires within { node < length tree.now }
    requires inside { preformatted ≡ in_pre_or_code (inside_of tree.now node) }
    ensures { result ≡ trims_first (inside_of tree.now node) }
{
    if preformatted {
        return false;
    }
    match tree.data(node) {
        // its tag is html
        NodeData::Document => true,
        NodeData::Element { name, .. } => is_block_name(name),
        _ => false,
    }
}

/// Whether a node is a text.
pub(crate) fn is_text(tree: &Tree, node: NodeId) -> bool
    requires { node < length tree.now }
    ensures value { result ≡ is_text (data_at tree.now node) }
    ensures tree { IsTree tree.now }
{
    matches!(tree.data(node), NodeData::Text(_))
}

/// The text of the only child.
pub(crate) fn only_text(tree: &Tree, node: NodeId) -> Option<&str>
    requires { node < length tree.now }
    ensures value { option_copied result ≡ only_text (children_at tree.now node) }
    ensures tree { IsTree tree.now }
{
    let children = tree.children(node);
    if children.len() != 1 {
        return None;
    }
    let child = children[0];
    match tree.data(child) {
        NodeData::Text(text) => Some(text.as_str()),
        _ => None,
    }
}
