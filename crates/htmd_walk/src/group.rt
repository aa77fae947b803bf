//! Neighbours that join.

ghost use Rattle.std.specs.Prelude.{◌≡◌, ◌<◌, ◌≤◌, All, IfOk, length};
ghost use Rattle.htmd_nodes.specs.NumberedTrees.{tree_of};
ghost use Rattle.htmd_lexical.specs.Attributes.{pairs_of};
ghost use Rattle.htmd_walk.specs.Groups as spec;
ghost use Rattle.htmd_walk.specs.Joints.{joint_view, optional_joint};
ghost use Rattle.htmd_walk.specs.Views.{optional_text};

use crate::block_tags::is_block_name;
use crate::node_util::only_text;
use htmd_nodes::{Attribute, Name, NodeData, NodeId, Tree};
use std::alloc::{AllocError, Global};

/// Whether the name is one of emphasis. It is only compared with a name of its own length.
fn is_em(name: &str) -> bool
    ensures { result ≡ spec.is_em name.now }
{
    match name.len() {
        1 => name == "i",
        2 => name == "em",
        _ => false,
    }
}

/// Whether the name is one of strong emphasis. It is only compared with a name of its own length.
fn is_strong(name: &str) -> bool
    ensures { result ≡ spec.is_strong name.now }
{
    match name.len() {
        1 => name == "b",
        6 => name == "strong",
        _ => false,
    }
}

/// What counts of an element when it is joined.
#[derive(Drop)]
pub(crate) struct Joint<'t> {
    name: &'t Name,
    attrs: &'t [Attribute],
    text: &'t str,
}

/// What counts of a node that may be joined: an element that holds one text and nothing else.
fn find_joint(tree: &Tree, node: NodeId) -> Option<Joint<'_>>
    requires { node < length tree.now }
    ensures { optional_joint result ≡ spec.joint_of (tree_of tree.now node) }
{
    let NodeData::Element { name, attrs } = tree.data(node) else {
        return None;
    };
    let text = only_text(tree, node)?;
    Some(Joint {
        name,
        attrs: attrs.as_slice(),
        text,
    })
}

/// Whether two lists of attributes are equal, in order.
fn same_attributes(left: &[Attribute], right: &[Attribute]) -> bool
    ensures { result ≡ spec.same_attributes (pairs_of left.now) (pairs_of right.now) }
{
    left == right
}

/// Whether an element with this name joins with what follows.
fn may_join(name: &Name) -> bool
    ensures { result ≡ spec.may_join name.now }
{
    !is_block_name(name) && name.as_str() != "a"
}

/// Whether these names count as one.
fn alike(left: &str, right: &str) -> bool
    ensures { result ≡ spec.alike left.now right.now }
{
    left == right || (is_em(left) && is_em(right)) || (is_strong(left) && is_strong(right))
}

/// Whether elements join.
fn joins(left: &Joint, right: &Joint) -> bool
    ensures { result ≡ spec.joins (joint_view left.now) (joint_view right.now) }
{
    may_join(left.name)
        && alike(left.name.as_str(), right.name.as_str())
        && same_attributes(left.attrs, right.attrs)
}

/// Whether nodes with these joints join.
fn both_join(left: &Option<Joint>, right: &Option<Joint>) -> bool
    ensures { result ≡ spec.both_join (optional_joint left.now) (optional_joint right.now) }
{
    match (left, right) {
        (Some(left), Some(right)) => joins(left, right),
        _ => false,
    }
}

/// How many of these nodes the first group has.
pub(crate) fn group_length(tree: &Tree, ids: &[NodeId]) -> usize
    requires some { 0 < length ids.now }
    requires within { All (λ id. id < length tree.now) ids.now }
    ensures value { result ≡ spec.group_length (tree_of tree.now) ids.now }
    ensures within { result ≤ length ids.now }
    ensures some { 0 < result }
{
    let mut last = 0;
    let mut joint = find_joint(tree, ids[0]);
    while last + 1 < ids.len() {
        let next = find_joint(tree, ids[last + 1]);
        if !both_join(&joint, &next) {
            return last + 1;
        }
        joint = next;
        last += 1;
    }
    last + 1
}

/// The text that a node joins with.
fn text_of(tree: &Tree, node: NodeId) -> &str
    requires { node < length tree.now }
    ensures { result.now ≡ spec.text_of (tree_of tree.now node) }
{
    match find_joint(tree, node) {
        Some(joint) => joint.text,
        None => "",
    }
}

/// The text of a group of two or more.
pub(crate) fn joined_text(
    alloc: Global,
    tree: &Tree,
    ids: &[NodeId],
) -> Result<Option<String>, AllocError>
    requires within { All (λ id. id < length tree.now) ids.now }
    ensures { IfOk result (λ r. optional_text r ≡ spec.group_text (tree_of tree.now) ids.now) }
{
    if ids.len() == 1 {
        return Ok(None);
    }
    let mut joined = String::new(alloc);
    for id in ids {
        joined.push_str(text_of(tree, *id))?;
    }
    Ok(Some(joined))
}
