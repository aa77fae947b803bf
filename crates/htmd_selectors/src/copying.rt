//! A copy of a page, without some elements and with other attributes.
ghost use Rattle.std.specs.Prelude.{◌≡◌, ◌+◌, ◌-◌, ◌^◌, ◌<◌, ◌≤◌, ◌==◌, ◌++◌, ◌∷◌, [], length, drop, vec_len};
ghost use Rattle.std.specs.Prelude.{if◌then◌else◌, IsTrue, Ok, IfOk, OnOk, IsErrOf};
ghost use Rattle.htmd_lexical.specs.Attributes.{pairs_of};
ghost use Rattle.htmd_nodes.specs.Items.{children_of, data_at, depth_at, document_item, holds_children};
ghost use Rattle.htmd_nodes.specs.Layout.{forest_items};
ghost use Rattle.htmd_nodes.specs.NumberedTrees.{tree_of, forest_of, value_forest};
ghost use Rattle.htmd_nodes.specs.NumberedTrees.{value_at};
ghost use Rattle.htmd_nodes.specs.declared.tree.TreeError.TheVariants.{TooDeep};
ghost use Rattle.htmd_selectors.specs.Rewriting as spec;
ghost use Rattle.htmd_selectors.specs.ElementViews.{known_of};
ghost use Rattle.htmd_selectors.specs.SelectedParts.{count};
ghost use Rattle.htmd_selectors.specs.SelectedParts as parts;
ghost use Rattle.htmd_selectors.specs.SelectorStates.{kept, kept_tree};
ghost use Rattle.htmd_selectors.specs.SelectorStates as states;
ghost use Rattle.htmd_selectors.specs.Views.{steps_of};

use crate::matching::{
    Counts, Element, Known, NO_MARK, Place, StepState, is_named, named_steps, with_element,
};
use crate::selectors::Step;
use crate::types::{asks_types, element_names, type_at, type_counts};
use htmd_nodes::{Attribute, NodeData, NodeId, Tree, TreeError};
use std::alloc::{AllocError, Global};

/// What attributes the elements of a copy get.
pub trait Rewrite: Drop {
    /// The attributes of an element, by its name and those that it had.
    ghost rule: { Self → spec.Rule };

    /// `Err` means out of memory, or a text of 4 GB.
    fn attributes(
        &self,
        alloc: Global,
        name: &str,
        attrs: &[Attribute],
    ) -> Result<Vec<Attribute>, AllocError>
        ensures { IfOk result (λ copies. pairs_of copies.items ≡ rule self.now name.now (pairs_of attrs.now)) };
}

/// Attributes stay as they are.
#[derive(Drop)]
pub(crate) struct Unchanged;

impl Rewrite for Unchanged {
    ghost use Rattle.htmd_selectors.specs.Rewriting.{unchanged};

    ghost rule = { λ _. unchanged };

    fn attributes(
        &self,
        alloc: Global,
        _name: &str,
        attrs: &[Attribute],
    ) -> Result<Vec<Attribute>, AllocError> {
        let mut copies = Vec::with_capacity(alloc, attrs.len())?;
        for attribute in attrs {
            let name = String::from_str(alloc, attribute.name.as_str())?;
            let value = String::from_str(alloc, attribute.value.as_str())?;
            copies.push(Attribute { name, value })?;
        }
        Ok(copies)
    }
}

/// The page that is copied, the steps of the selectors of what is left out, and what attributes the others get.
#[derive(Drop)]
pub(crate) struct Page<'a, R: Rewrite> {
    pub(crate) tree: &'a Tree,
    pub(crate) steps: &'a [Step],
    pub(crate) rewrite: &'a R,
    pub(crate) alloc: Global,
}

pub(crate) fn new_tree(alloc: Global) -> Result<Tree, AllocError>
    ensures { IfOk result (λ tree. tree ≡ document_item ∷ []) }
{
    match Tree::new(alloc) {
        Ok(tree) => Ok(tree),
        Err(_) => Err(AllocError),
    }
}

/// The node that was added, unless it is too deep.
pub(crate) fn added(outcome: Result<NodeId, TreeError>) -> Result<NodeId, AllocError>
    requires { IsErrOf outcome TooDeep → ⊥ }
    ensures { IfOk result (λ id. outcome ≡ Ok id) }
{
    match outcome {
        Ok(id) => Ok(id),
        Err(TreeError::Memory) => Err(AllocError),
        Err(TreeError::TooDeep) => unreachable!(),
    }
}

/// Whether a node is an element.
fn is_element(tree: &Tree, node: NodeId) -> bool
    requires { node < length tree.now }
    ensures { (if result then 1 else 0) ≡ count (value_at tree.now node) }
{
    matches!(tree.data(node), NodeData::Element { .. })
}

/// How many children of a node are elements.
fn elements_in(tree: &Tree, node: NodeId) -> usize
    requires { node < length tree.now }
    ensures { result ≡ parts.elements_in (value_forest (forest_of (tree_of tree.now) (children_of tree.now node))) }
{
    let mut count: usize = 0;
    for child in tree.children(node) {
        if is_element(tree, *child) {
            count = count.saturating_add(1);
        }
    }
    count
}

/// Whether a node is neither an element nor a text, unless that is empty.
fn is_nothing(tree: &Tree, node: NodeId) -> bool
    requires { node < length tree.now }
    ensures { result ≡ parts.is_nothing (value_at tree.now node) }
{
    match tree.data(node) {
        NodeData::Element { .. } => false,
        NodeData::Text(text) => text.is_empty(),
        _ => true,
    }
}

fn holds_nothing(tree: &Tree, node: NodeId) -> bool
    requires { node < length tree.now }
    ensures { result ≡ parts.are_nothing (value_forest (forest_of (tree_of tree.now) (children_of tree.now node))) }
{
    for child in tree.children(node) {
        if !is_nothing(tree, *child) {
            return false;
        }
    }
    true
}

/// How many elements of its name each element among the children of a node has beside it, where a step asks for that.
fn types_below<R: Rewrite>(page: &Page<'_, R>, node: NodeId) -> Result<Vec<Counts>, AllocError>
    requires { node < length page.now.tree.now }
    ensures { IfOk result (λ types. types.items ≡ states.types_in (steps_of page.now.steps.now)
        (value_forest (forest_of (tree_of page.now.tree.now) (children_of page.now.tree.now node)))) }
{
    if !asks_types(page.steps) {
        return Ok(Vec::new(page.alloc));
    }
    let names = element_names(page.alloc, page.tree, node)?;
    type_counts(page.alloc, names.as_slice())
}

/// What is known before the first child of a node, by the states of the elements around that.
pub(crate) fn known_below<'a, R: Rewrite>(
    page: &Page<'_, R>,
    node: NodeId,
    parent: &'a [StepState],
) -> Result<Known<'a>, AllocError>
    requires { node < length page.now.tree.now }
    ensures known { IfOk result (λ known. known_of known ≡ states.first_known (steps_of page.now.steps.now)
        parent.now (depth_at page.now.tree.now node == 0)
        (value_forest (forest_of (tree_of page.now.tree.now) (children_of page.now.tree.now node)))) }
    ensures left { IfOk result (λ known. known.left ≡ parts.elements_in
        (value_forest (forest_of (tree_of page.now.tree.now) (children_of page.now.tree.now node)))) }
{
    Ok(Known {
        parent,
        beside: vec![in page.alloc; NO_MARK; page.steps.len()]?,
        before: 0,
        left: elements_in(page.tree, node),
        types: types_below(page, node)?,
        has_no_parent: page.tree.depth(node) == 0,
    })
}

/// Which steps name an element, which is then one of those before the next node.
pub(crate) fn name_element<R: Rewrite>(
    page: &Page<'_, R>,
    node: NodeId,
    name: &str,
    attrs: &[Attribute],
    known: &mut Known<'_>,
) -> Result<Vec<bool>, AllocError>
    requires node { node < length page.now.tree.now }
    requires parent { length known.old.parent.now ≡ length page.now.steps.now }
    requires beside { vec_len known.old.beside ≡ length page.now.steps.now }
    requires before { known.old.before + 1 < 2 ^ 64 }
    ensures value { IfOk result (λ named. named.items ≡ states.named_at (steps_of page.now.steps.now)
        (known_of known.old) (states.known_element (known_of known.old) (known.old.left - 1) name.now
        (pairs_of attrs.now) (value_forest (forest_of (tree_of page.now.tree.now)
        (children_of page.now.tree.now node))))) }
    ensures known { IfOk result (λ named. known_of known.new ≡ record (known_of known.old) {
      beside = states.with_element named.items known.old.beside.items;
      before = known.old.before + 1;
      types = drop 1 (known_of known.old).types;
    }) }
    ensures left { OnOk result (known.new.left ≡ known.old.left - 1) }
    ensures count { IfOk result (λ named. vec_len named ≡ length page.now.steps.now) }
{
    known.left = known.left.saturating_sub(1);
    let place = Place {
        among_all: Counts {
            before: known.before,
            after: known.left,
        },
        of_type: type_at(known.types.as_slice(), known.before),
        holds_nothing: holds_nothing(page.tree, node),
        has_no_parent: known.has_no_parent,
    };
    let e = Element { name, attrs, place };
    let named = named_steps(page.alloc, page.steps, known, &e)?;
    known.beside = with_element(page.alloc, named.as_slice(), known.beside.as_slice())?;
    known.before = known.before.saturating_add(1);
    Ok(named)
}

/// Appends what is below a node to a node of another tree, without the elements that are named.
#[cycle(kept)]
pub(crate) fn push_kept<R: Rewrite>(
    out: &mut Tree,
    under: NodeId,
    page: &Page<'_, R>,
    node: NodeId,
    parent: &[StepState],
) -> Result<(), AllocError>
    requires node { node < length page.now.tree.now }
    requires under { under < length out.old }
    requires holds { IsTrue (holds_children (data_at out.old under)) }
    requires depth { depth_at out.old under ≤ depth_at page.now.tree.now node }
    requires parent { length parent.now ≡ length page.now.steps.now }
    ensures { OnOk result (out.new ≡ out.old ++ forest_items (depth_at out.old under + 1) under (length out.old)
        (kept (R.rule page.now.rewrite.now) (steps_of page.now.steps.now)
        (states.first_known (steps_of page.now.steps.now) parent.now (depth_at page.now.tree.now node == 0)
        (value_forest (forest_of (tree_of page.now.tree.now) (children_of page.now.tree.now node))))
        (value_forest (forest_of (tree_of page.now.tree.now) (children_of page.now.tree.now node))))) }
{
    let mut known = known_below(page, node, parent)?;
    for child in page.tree.children(node) {
        push_kept_child(out, under, page, *child, &mut known)?;
    }
    Ok(())
}

/// Appends a node and what is below it, unless it is named, to a node of another tree. A Document is the root of a tree
/// alone.
#[cycle(kept)]
pub(crate) fn push_kept_child<R: Rewrite>(
    out: &mut Tree,
    under: NodeId,
    page: &Page<'_, R>,
    node: NodeId,
    known: &mut Known<'_>,
) -> Result<(), AllocError>
    requires node { node < length page.now.tree.now }
    requires under { under < length out.old }
    requires holds { IsTrue (holds_children (data_at out.old under)) }
    requires depth { depth_at out.old under < depth_at page.now.tree.now node }
    requires parent { length known.old.parent.now ≡ length page.now.steps.now }
    requires beside { vec_len known.old.beside ≡ length page.now.steps.now }
    requires before { known.old.before + 1 < 2 ^ 64 }
    ensures items { OnOk result (out.new ≡ out.old ++ forest_items (depth_at out.old under + 1) under (length out.old)
        (kept_tree (R.rule page.now.rewrite.now) (steps_of page.now.steps.now) (known_of known.old)
        (known.old.left - count (value_at page.now.tree.now node)) (value_at page.now.tree.now node))) }
    ensures known { OnOk result (known_of known.new ≡ states.next_known (steps_of page.now.steps.now)
        (known_of known.old) (known.old.left - count (value_at page.now.tree.now node))
        (value_at page.now.tree.now node)) }
    ensures left { OnOk result (known.new.left ≡ known.old.left - count (value_at page.now.tree.now node)) }
{
    match page.tree.data(node) {
        NodeData::Document => {}
        NodeData::Doctype => {
            added(out.add_doctype(under))?;
        }
        NodeData::Text(text) => {
            added(out.add_text(under, text.as_str()))?;
        }
        NodeData::Comment(text) => {
            added(out.add_comment(under, text.as_str()))?;
        }
        NodeData::Element { name, attrs } => {
            let (name, attrs) = (name.as_str(), attrs.as_slice());
            let named = name_element(page, node, name, attrs, known)?;
            if is_named(page.steps, named.as_slice()) {
                return Ok(());
            }
            let states = with_element(page.alloc, named.as_slice(), known.parent)?;
            let attrs = page.rewrite.attributes(page.alloc, name, attrs)?;
            let id = added(out.add_element(under, name, attrs))?;
            push_kept(out, id, page, node, states.as_slice())?;
        }
    }
    Ok(())
}

/// The page with the attributes that `rewrite` gives. `Err` is the one that `rewrite` gives, or means out of memory.
pub fn rewritten<R: Rewrite>(alloc: Global, tree: &Tree, rewrite: &R) -> Result<Tree, AllocError>
    ensures ok { IfOk result (λ page. page ≡ spec.rewritten_page (R.rule rewrite.now) tree.now) }
{
    let mut out = new_tree(alloc)?;
    let under = out.root();
    let page = Page {
        tree,
        steps: &[],
        rewrite,
        alloc,
    };
    push_kept(&mut out, under, &page, tree.root(), &[])?;
    Ok(out)
}
