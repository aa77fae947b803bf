//! Parts of a page, as trees of their own.
ghost use Rattle.std.specs.Prelude.{◌≡◌, ◌+◌, ◌-◌, ◌^◌, ◌<◌, ◌==◌, ◌++◌, [], length, vec_len, IfOk, OnOk, IsTrue};
ghost use Rattle.std.specs.Prelude.{is_some};
ghost use Rattle.std.specs.Option.{option_copied};
ghost use Rattle.htmd_lexical.specs.Attributes.{pairs_of};
ghost use Rattle.htmd_nodes.specs.Items.{children_of, data_at, depth_at, holds_children};
ghost use Rattle.htmd_nodes.specs.Layout.{forest_items};
ghost use Rattle.htmd_nodes.specs.NumberedTrees.{tree_of, forest_of, value_forest};
ghost use Rattle.htmd_nodes.specs.NumberedTrees.{value_at};
ghost use Rattle.htmd_selectors.specs.Rewriting.{joined, unchanged};
ghost use Rattle.htmd_selectors.specs.SelectorStates.{kept_tree, nothing_known, outermost, outermost_tree};
ghost use Rattle.htmd_selectors.specs.SelectorStates as states;
ghost use Rattle.htmd_selectors.specs.ElementViews.{known_of};
ghost use Rattle.htmd_selectors.specs.SelectedParts.{count};
ghost use Rattle.htmd_selectors.specs.SelectedParts as parts;
ghost use Rattle.htmd_selectors.specs.Views.{pre_of, steps_of, steps_in};

use crate::copying::{
    Page, Rewrite, Unchanged, added, known_below, name_element, new_tree, push_kept,
    push_kept_child,
};
use crate::matching::{Known, NO_MARK, StepState, is_named, with_element};
use crate::selectors::Selectors;
use htmd_nodes::{Attribute, Name, NodeData, NodeId, Tag, Tree};
use std::alloc::{AllocError, Global};

/// Appends the outermost elements below a node that are named to the Document of another tree, where a `pre` with these
/// attributes is around them.
#[cycle(outermost)]
fn push_outermost(
    out: &mut Tree,
    page: &Page<'_, Unchanged>,
    node: NodeId,
    pre: Option<&[Attribute]>,
    parent: &[StepState],
) -> Result<(), AllocError>
    requires node { node < length page.now.tree.now }
    requires pre { IsTrue (is_some pre) → 0 < depth_at page.now.tree.now node }
    requires parent { length parent.now ≡ length page.now.steps.now }
    ensures { OnOk result (out.new ≡ out.old ++ forest_items 1 0 (length out.old)
        (outermost (steps_of page.now.steps.now) (pre_of (option_copied pre.entry))
        (states.first_known (steps_of page.now.steps.now) parent.now (depth_at page.now.tree.now node == 0)
        (value_forest (forest_of (tree_of page.now.tree.now) (children_of page.now.tree.now node))))
        (value_forest (forest_of (tree_of page.now.tree.now) (children_of page.now.tree.now node))))) }
{
    let mut known = known_below(page, node, parent)?;
    for child in page.tree.children(node) {
        push_outermost_child(out, page, *child, pre, &mut known)?;
    }
    Ok(())
}

#[cycle(outermost)]
fn push_outermost_child(
    out: &mut Tree,
    page: &Page<'_, Unchanged>,
    node: NodeId,
    pre: Option<&[Attribute]>,
    known: &mut Known<'_>,
) -> Result<(), AllocError>
    requires node { node < length page.now.tree.now }
    requires below { 0 < depth_at page.now.tree.now node }
    requires pre { IsTrue (is_some pre) → 1 < depth_at page.now.tree.now node }
    requires parent { length known.old.parent.now ≡ length page.now.steps.now }
    requires beside { vec_len known.old.beside ≡ length page.now.steps.now }
    requires before { known.old.before + 1 < 2 ^ 64 }
    ensures items { OnOk result (out.new ≡ out.old ++ forest_items 1 0 (length out.old)
        (outermost_tree (steps_of page.now.steps.now) (pre_of (option_copied pre.entry)) (known_of known.old)
        (known.old.left - count (value_at page.now.tree.now node)) (value_at page.now.tree.now node))) }
    ensures known { OnOk result (known_of known.new ≡ states.next_known (steps_of page.now.steps.now)
        (known_of known.old) (known.old.left - count (value_at page.now.tree.now node))
        (value_at page.now.tree.now node)) }
    ensures left { OnOk result (known.new.left ≡ known.old.left - count (value_at page.now.tree.now node)) }
{
    let NodeData::Element { name, attrs } = page.tree.data(node) else {
        return Ok(());
    };
    let attrs = attrs.as_slice();
    let named = name_element(page, node, name.as_str(), attrs, known)?;
    if is_named(page.steps, named.as_slice()) {
        return push_match(out, page, node, pre, name);
    }
    let states = with_element(page.alloc, named.as_slice(), known.parent)?;
    push_outermost(
        out,
        page,
        node,
        pre_below(name, attrs, pre),
        states.as_slice(),
    )
}

/// The attributes of the nearest `pre`, after an element more.
fn pre_below<'t>(
    name: &Name,
    attrs: &'t [Attribute],
    pre: Option<&'t [Attribute]>,
) -> Option<&'t [Attribute]>
    ensures { pre_of (option_copied result)
        ≡ parts.pre_below name.now (pairs_of attrs.now) (pre_of (option_copied pre.entry)) }
{
    if name.is(Tag::Pre) { Some(attrs) } else { pre }
}

/// Appends a node that is named, which has this name, to the Document of another tree, in a `pre` if one is around it,
/// and keeps what follows apart.
fn push_match(
    out: &mut Tree,
    page: &Page<'_, Unchanged>,
    node: NodeId,
    pre: Option<&[Attribute]>,
    name: &Name,
) -> Result<(), AllocError>
    requires node { node < length page.now.tree.now }
    requires below { 0 < depth_at page.now.tree.now node }
    requires pre { IsTrue (is_some pre) → 1 < depth_at page.now.tree.now node }
    ensures { OnOk result (out.new ≡ out.old ++ forest_items 1 0 (length out.old)
        (joined (parts.in_pre (pre_of (option_copied pre.entry))
        (kept_tree unchanged [] nothing_known 0 (value_at page.now.tree.now node))) (parts.end_of name.now))) }
{
    push_in_pre(out, page, node, pre)?;
    push_end(out, page.alloc, name)
}

/// Appends a node to the Document of another tree, in a `pre` with these attributes, if there are any.
fn push_in_pre(
    out: &mut Tree,
    page: &Page<'_, Unchanged>,
    node: NodeId,
    pre: Option<&[Attribute]>,
) -> Result<(), AllocError>
    requires node { node < length page.now.tree.now }
    requires below { 0 < depth_at page.now.tree.now node }
    requires pre { IsTrue (is_some pre) → 1 < depth_at page.now.tree.now node }
    ensures { OnOk result (out.new ≡ out.old ++ forest_items 1 0 (length out.old)
        (parts.in_pre (pre_of (option_copied pre.entry))
        (kept_tree unchanged [] nothing_known 0 (value_at page.now.tree.now node)))) }
{
    let root = out.root();
    let Some(attrs) = pre else {
        return push_whole(out, root, page, node);
    };
    let attrs = page.rewrite.attributes(page.alloc, "pre", attrs)?;
    let id = added(out.add_element(root, "pre", attrs))?;
    push_whole(out, id, page, node)
}

/// Appends an empty paragraph to the Document of a tree, unless this is the name of an item of a list.
fn push_end(out: &mut Tree, alloc: Global, name: &Name) -> Result<(), AllocError>
    ensures { OnOk result (out.new ≡ out.old ++ forest_items 1 0 (length out.old) (parts.end_of name.now)) }
{
    if name.is(Tag::Li) {
        return Ok(());
    }
    added(out.add_element(out.root(), "p", Vec::new(alloc)))?;
    Ok(())
}

/// Appends a node and all that is below it to a node of another tree.
fn push_whole(
    out: &mut Tree,
    under: NodeId,
    page: &Page<'_, Unchanged>,
    node: NodeId,
) -> Result<(), AllocError>
    requires node { node < length page.now.tree.now }
    requires under { under < length out.old }
    requires holds { IsTrue (holds_children (data_at out.old under)) }
    requires depth { depth_at out.old under < depth_at page.now.tree.now node }
    ensures { OnOk result (out.new ≡ out.old ++ forest_items (depth_at out.old under + 1) under (length out.old)
        (kept_tree unchanged [] nothing_known 0 (value_at page.now.tree.now node))) }
{
    let whole = Page {
        tree: page.tree,
        steps: &[],
        rewrite: page.rewrite,
        alloc: page.alloc,
    };
    let mut known = Known {
        parent: &[],
        beside: Vec::new(page.alloc),
        before: 0,
        left: 1,
        types: Vec::new(page.alloc),
        has_no_parent: true,
    };
    push_kept_child(out, under, &whole, node, &mut known)
}

/// The page without all elements that are named, and without what is below them. `Err` means out of memory.
pub fn drop_elements(alloc: Global, tree: &Tree, selectors: &Selectors) -> Result<Tree, AllocError>
    ensures ok { IfOk result (λ page. page ≡ parts.dropped (steps_in selectors.now) tree.now) }
{
    let steps = selectors.steps.as_slice();
    let states = vec![in alloc; NO_MARK; steps.len()]?;
    let mut out = new_tree(alloc)?;
    let under = out.root();
    let page = Page {
        tree,
        steps,
        rewrite: &Unchanged,
        alloc,
    };
    push_kept(&mut out, under, &page, tree.root(), states.as_slice())?;
    Ok(out)
}

/// The outermost elements that are named, in document order, each with what is below it, as the children of a new
/// Document; none where no element is. `Err` means out of memory.
pub fn select_elements(
    alloc: Global,
    tree: &Tree,
    selectors: &Selectors,
) -> Result<Option<Tree>, AllocError>
    ensures ok { IfOk result (λ page. page ≡ parts.selected (steps_in selectors.now) tree.now) }
{
    let steps = selectors.steps.as_slice();
    let states = vec![in alloc; NO_MARK; steps.len()]?;
    let mut out = new_tree(alloc)?;
    let page = Page {
        tree,
        steps,
        rewrite: &Unchanged,
        alloc,
    };
    push_outermost(&mut out, &page, tree.root(), None, states.as_slice())?;
    if out.children(out.root()).is_empty() {
        return Ok(None);
    }
    Ok(Some(out))
}
