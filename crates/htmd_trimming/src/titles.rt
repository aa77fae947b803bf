//! A page that says its title.
ghost use Rattle.std.specs.Prelude.{◌≡◌, ◌+◌, ◌<◌, ◌++◌, length, IsTrue, IfOk, OnOk};
ghost use Rattle.htmd_values.specs.ValueTrees.{none, more};
ghost use Rattle.htmd_nodes.specs.Items.{children_of, data_at, depth_at, holds_children};
ghost use Rattle.htmd_nodes.specs.Layout.{forest_items};
ghost use Rattle.htmd_nodes.specs.NumberedTrees.{tree_of, forest_of};
ghost use Rattle.htmd_trimming.specs.Titles as spec;

use crate::asked::{Asked, Page};
use crate::copying::{added, new_tree};
use crate::trimming::push_below;
use htmd_nodes::{NodeData, NodeId, Tag, Tree};
use htmd_shown::image_source::is_image;
use htmd_shown::spaces::is_blank_text;
use std::alloc::{AllocError, Global};

/// Whether a node shows something, as a heading may: a text that isn't blank, or an image.
#[cycle(shows)]
fn shows(tree: &Tree, node: NodeId) -> bool
    requires { node < length tree.now }
    ensures { result ≡ spec.shows (tree_of tree.now node) }
{
    match tree.data(node) {
        NodeData::Text(text) => !is_blank_text(text.as_str()),
        NodeData::Element { name, attrs } => {
            is_image(name, attrs.as_slice()) || some_shows(tree, node)
        }
        _ => false,
    }
}

/// Whether something shows below a node.
#[cycle(shows)]
fn some_shows(tree: &Tree, node: NodeId) -> bool
    requires { node < length tree.now }
    ensures { result ≡ spec.some_shows (forest_of (tree_of tree.now) (children_of tree.now node)) }
{
    for child in tree.children(node) {
        if shows(tree, *child) {
            return true;
        }
    }
    false
}

/// Whether a node is an `h1` that shows something, or has one below it.
#[cycle(titles)]
fn holds_h1(tree: &Tree, node: NodeId) -> bool
    requires { node < length tree.now }
    ensures { result ≡ spec.holds_h1 (tree_of tree.now node) }
{
    match tree.data(node) {
        NodeData::Document => hold_h1(tree, node),
        NodeData::Element { name, .. } => {
            if name.is(Tag::H1) {
                some_shows(tree, node)
            } else {
                hold_h1(tree, node)
            }
        }
        _ => false,
    }
}

/// Whether an `h1` that shows something is below a node.
#[cycle(titles)]
fn hold_h1(tree: &Tree, node: NodeId) -> bool
    requires { node < length tree.now }
    ensures { result ≡ spec.hold_h1 (forest_of (tree_of tree.now) (children_of tree.now node)) }
{
    for child in tree.children(node) {
        if holds_h1(tree, *child) {
            return true;
        }
    }
    false
}

/// Adds a heading with this title.
fn push_heading(alloc: Global, out: &mut Tree, under: NodeId, title: &str) -> Result<(), AllocError>
    requires under { under < length out.old }
    requires holds { IsTrue (holds_children (data_at out.old under)) }
    ensures { OnOk result (out.new ≡ out.old ++ forest_items (depth_at out.old under + 1) under (length out.old)
        (more (spec.heading title.now) none)) }
{
    let heading = added(out.add_element(under, "h1", Vec::new(alloc)))?;
    added(out.add_text(heading, title))?;
    Ok(())
}

/// The page; where it has no `h1` that shows something, after a heading with its title, and then without elements
/// `title`. `Err` means out of memory.
pub fn titled_page(alloc: Global, page: Tree, title: &str) -> Result<Tree, AllocError>
    ensures { IfOk result (λ tree. tree ≡ spec.titled_page title.now page) }
{
    let root = page.root();
    if holds_h1(&page, root) {
        return Ok(page);
    }
    let mut out = new_tree(alloc)?;
    let under = out.root();
    push_heading(alloc, &mut out, under, title)?;
    let page = Page {
        tree: &page,
        asked: Asked {
            untitled: true,
            ..Asked::NOTHING
        },
        alloc,
    };
    push_below(&mut out, under, &page, None, root)?;
    Ok(out)
}
