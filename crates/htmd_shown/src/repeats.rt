//! What shows a formula again, beside the formula.
ghost use Rattle.std.specs.Prelude.{◌≡◌, ◌<◌, All, IfOk, length, map};
ghost use Rattle.htmd_nodes.specs.NumberedTrees.{tree_of, forest_of};
ghost use Rattle.htmd_shown.specs.Repeats as spec;

use crate::classes::is_of_mathjax;
use crate::formula::{is_tex_type, tex_of_script};
use crate::page::{element_at, tag_at, text_at};
use crate::role::is_among;
use crate::spaces::is_blank_text;
use htmd_nodes::{NodeId, Tag, Tree};
use std::alloc::{AllocError, Global};

/// Whether a node says nothing of whether a script with TeX follows what is before it: a blank text, a comment, or what
/// MathJax puts before its script.
pub(crate) fn is_passed(tree: &Tree, node: NodeId) -> bool
    requires { node < length tree.now }
    ensures { result ≡ spec.is_passed (tree_of tree.now node) }
{
    match element_at(tree, node) {
        Some(found) => !found.name.is(Tag::Script) && is_of_mathjax(found.attrs),
        None => match text_at(tree, node) {
            Some(text) => is_blank_text(text),
            None => true,
        },
    }
}

/// Whether a node is a script with TeX that isn't skipped.
fn is_tex_script(
    alloc: Global,
    tree: &Tree,
    skip: &[&str],
    node: NodeId,
) -> Result<bool, AllocError>
    requires { node < length tree.now }
    ensures { IfOk result (λ b. b ≡ spec.is_tex_script (map (λ n. n.now) skip.now) (tree_of tree.now node)) }
{
    let Some(found) = element_at(tree, node) else {
        return Ok(false);
    };
    if !found.name.is(Tag::Script) || is_among("script", skip) {
        return Ok(false);
    }
    let tex = tex_of_script(alloc, tree, found.attrs, found.children)?;
    Ok(tex.is_some())
}

/// Whether a node is a script whose type says that it has TeX.
fn is_script(tree: &Tree, node: NodeId) -> bool
    requires { node < length tree.now }
    ensures { result ≡ spec.is_script_element (tree_of tree.now node) }
{
    match tag_at(tree, node) {
        Some((name, attrs)) => name.is(Tag::Script) && is_tex_type(attrs),
        None => false,
    }
}

/// Whether a script whose type says that it has TeX is among nodes: few nodes have one beside them, and only there it
/// counts what follows.
pub(crate) fn has_script(tree: &Tree, nodes: &[NodeId]) -> bool
    requires { All (λ node. node < length tree.now) nodes.now }
    ensures { result ≡ spec.has_script (forest_of (tree_of tree.now) nodes.now) }
{
    for node in nodes {
        if is_script(tree, *node) {
            return true;
        }
    }
    false
}

/// Whether a script with TeX comes, after nothing but what is passed.
pub(crate) fn leads_to_script(
    alloc: Global,
    tree: &Tree,
    skip: &[&str],
    nodes: &[NodeId],
) -> Result<bool, AllocError>
    requires { All (λ node. node < length tree.now) nodes.now }
    ensures { IfOk result (λ b. b
        ≡ spec.leads_to_script (map (λ n. n.now) skip.now) (forest_of (tree_of tree.now) nodes.now)) }
{
    for node in nodes {
        if !is_passed(tree, *node) {
            return is_tex_script(alloc, tree, skip, *node);
        }
    }
    Ok(false)
}
