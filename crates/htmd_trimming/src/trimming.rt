//! A copy of a page, of which what was asked for is left.
ghost use Rattle.std.specs.Prelude.{◌≡◌, ◌+◌, ◌<◌, ◌++◌, All, length, IsTrue, IfOk, OnOk};
ghost use Rattle.std.specs.Option.{option_copied};
ghost use Rattle.htmd_lexical.specs.Attributes.{pairs_of};
ghost use Rattle.htmd_values.specs.ValueTrees.{none};
ghost use Rattle.htmd_nodes.specs.Items.{children_of, data_at, depth_at, holds_children};
ghost use Rattle.htmd_nodes.specs.Layout.{forest_items};
ghost use Rattle.htmd_nodes.specs.NumberedTrees.{tree_of, forest_of};
ghost use Rattle.htmd_nodes.specs.Views.{data_of};
ghost use Rattle.htmd_trimming.specs.FateViews as views;
ghost use Rattle.htmd_trimming.specs.Trimming as spec;

use crate::asked::{Asked, Images, Page};
use crate::copying::{added, attributes_without, new_tree, sign_attributes};
use crate::fates::{Fate, fate_for};
use htmd_nodes::{Attribute, Name, NodeData, NodeId, Tag, Tree};
use htmd_shown::image_source::picture_source;
use std::alloc::{AllocError, Global};

/// Whether a node is an `img`.
fn is_img(node: &NodeData) -> bool
    ensures { result ≡ views.is_img (data_of node.now) }
{
    match node {
        NodeData::Element { name, .. } => name.is(Tag::Img),
        NodeData::Document | NodeData::Doctype | NodeData::Text(_) | NodeData::Comment(_) => false,
    }
}

/// What a picture gives a node, if it has something for an `img`.
fn source_for<'t>(source: Option<&'t str>, node: &NodeData) -> Option<&'t str>
    ensures { option_copied result ≡ views.source_for (option_copied source.entry) (data_of node.now) }
{
    if source.is_some() && is_img(node) {
        source
    } else {
        None
    }
}

/// What it has for an `img` after that.
fn source_after<'t>(source: Option<&'t str>, node: &NodeData) -> Option<&'t str>
    ensures { option_copied result ≡ views.source_after (option_copied source.entry) (data_of node.now) }
{
    if source.is_some() && is_img(node) {
        None
    } else {
        source
    }
}

/// What a node gives those below it, if it is a picture.
fn source_below<'t>(tree: &'t Tree, node: &NodeData, children: &[NodeId]) -> Option<&'t str>
    requires { All (λ node. node < length tree.now) children.now }
    ensures { option_copied result
        ≡ views.source_below (data_of node.now) (forest_of (tree_of tree.now) children.now) }
{
    match node {
        NodeData::Element { name, .. } => picture_source(tree, name, children),
        NodeData::Document | NodeData::Doctype | NodeData::Text(_) | NodeData::Comment(_) => None,
    }
}

/// Adds what is left of an element, without what is below it; its number, if it is kept.
fn add_element(
    alloc: Global,
    out: &mut Tree,
    under: NodeId,
    name: &Name,
    attrs: &[Attribute],
    fate: Fate<'_>,
) -> Result<Option<NodeId>, AllocError>
    requires under { under < length out.old }
    requires holds { IsTrue (holds_children (data_at out.old under)) }
    ensures out { OnOk result (out.new ≡ out.old ++ forest_items (depth_at out.old under + 1) under (length out.old)
        (spec.with_one (spec.over name.now (views.fate_of (pairs_of attrs.now) fate.entry) none) none)) }
    ensures id { IfOk result (λ id. id
        ≡ views.number_of_kept (views.fate_of (pairs_of attrs.now) fate.entry) (length out.old)) }
{
    match fate {
        Fate::Gone => Ok(None),
        Fate::Text(text) => {
            if !text.is_empty() {
                added(out.add_text(under, text))?;
            }
            Ok(None)
        }
        Fate::Kept(lost) => {
            let attrs = attributes_without(alloc, lost, attrs)?;
            Ok(Some(added(out.add_element(under, name.as_str(), attrs))?))
        }
        Fate::Sign => {
            let attrs = sign_attributes(alloc, attrs)?;
            Ok(Some(added(out.add_element(under, name.as_str(), attrs))?))
        }
    }
}

/// Adds what is left of a node with these children, without what is below it; its number, if others can be.
fn add_node<'t>(
    out: &mut Tree,
    under: NodeId,
    page: &Page<'t>,
    source: Option<&'t str>,
    node: &'t NodeData,
    children: &[NodeId],
) -> Result<Option<NodeId>, AllocError>
    requires under { under < length out.old }
    requires holds { IsTrue (holds_children (data_at out.old under)) }
    requires children { All (λ node. node < length page.now.tree.now) children.now }
    ensures out { OnOk result (out.new ≡ out.old ++ forest_items (depth_at out.old under + 1) under (length out.old)
        (spec.with_one (views.node_over page.now.asked (option_copied source.entry) (data_of node.now)
        (forest_of (tree_of page.now.tree.now) children.now) none) none)) }
    ensures id { IfOk result (λ id. id ≡ views.number_below page.now.asked (option_copied source.entry)
        (data_of node.now) (forest_of (tree_of page.now.tree.now) children.now) (length out.old)) }
{
    match node {
        NodeData::Document => {}
        NodeData::Doctype => {
            added(out.add_doctype(under))?;
        }
        NodeData::Text(text) => {
            added(out.add_text(under, text.as_str()))?;
        }
        NodeData::Comment(text) => {
            added(out.add_comment(under, text.as_str()))?;
        }
        NodeData::Element { name, attrs } => {
            let attrs = attrs.as_slice();
            let fate = fate_for(page, source, name, attrs, children)?;
            return add_element(page.alloc, out, under, name, attrs, fate);
        }
    }
    Ok(None)
}

/// Adds what is left of a node and of what is below it.
#[cycle(trimmed)]
fn push_node<'t>(
    out: &mut Tree,
    under: NodeId,
    page: &Page<'t>,
    source: Option<&'t str>,
    node: NodeId,
) -> Result<(), AllocError>
    requires node { node < length page.now.tree.now }
    requires under { under < length out.old }
    requires holds { IsTrue (holds_children (data_at out.old under)) }
    ensures { OnOk result (out.new ≡ out.old ++ forest_items (depth_at out.old under + 1) under (length out.old)
        (spec.with_one (spec.trimmed_tree page.now.asked (option_copied source.entry)
        (tree_of page.now.tree.now node)) none)) }
{
    let data = page.tree.data(node);
    let children = page.tree.children(node);
    if let Some(id) = add_node(out, under, page, source, data, children)? {
        push_below(out, id, page, source_below(page.tree, data, children), node)?;
    }
    Ok(())
}

/// Adds what is left of the nodes below a node.
#[cycle(trimmed)]
pub(crate) fn push_below<'t>(
    out: &mut Tree,
    under: NodeId,
    page: &Page<'t>,
    source: Option<&'t str>,
    node: NodeId,
) -> Result<(), AllocError>
    requires node { node < length page.now.tree.now }
    requires under { under < length out.old }
    requires holds { IsTrue (holds_children (data_at out.old under)) }
    ensures { OnOk result (out.new ≡ out.old ++ forest_items (depth_at out.old under + 1) under (length out.old)
        (spec.trimmed page.now.asked (option_copied source.entry)
        (forest_of (tree_of page.now.tree.now) (children_of page.now.tree.now node)))) }
{
    let mut source = source;
    for child in page.tree.children(node) {
        let data = page.tree.data(*child);
        push_node(out, under, page, source_for(source, data), *child)?;
        source = source_after(source, data);
    }
    Ok(())
}

fn trimmed_page(alloc: Global, page: &Tree, asked: Asked) -> Result<Tree, AllocError>
    ensures { IfOk result (λ tree. tree ≡ spec.trimmed_page asked page.now) }
{
    let mut out = new_tree(alloc)?;
    let under = out.root();
    let page = Page {
        tree: page,
        asked,
        alloc,
    };
    push_below(&mut out, under, &page, None, page.tree.root())?;
    Ok(out)
}

/// The page without its hidden elements; one that holds a formula and nothing else stays. `Err` means out of memory.
pub fn visible_page(alloc: Global, page: &Tree) -> Result<Tree, AllocError>
    ensures { IfOk result (λ tree. tree ≡ spec.visible_page page.now) }
{
    let asked = Asked {
        visible: true,
        ..Asked::NOTHING
    };
    trimmed_page(alloc, page, asked)
}

/// The page with images as they are asked for, and with links or only their text. `Err` means out of memory.
pub fn plainer_page(
    alloc: Global,
    page: &Tree,
    images: Images,
    links_as_text: bool,
) -> Result<Tree, AllocError>
    ensures { IfOk result (λ tree. tree ≡ spec.plainer_page images links_as_text page.now) }
{
    let asked = Asked {
        images,
        links_as_text,
        ..Asked::NOTHING
    };
    trimmed_page(alloc, page, asked)
}
