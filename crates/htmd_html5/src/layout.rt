//! The tree of a document: its nodes in document order, to the greatest depth.
ghost use Rattle.std.specs.Prelude.{◌≡◌, ◌++◌, map, reverse, option_map, string_bytes, IfOk, IsErrOf, OnOk, Ok};
ghost use Rattle.htmd_html5_state.specs.Nodes.{children_at, kind_at};
ghost use Rattle.htmd_html5_state.specs.Views.{kind_of, nodes_of};
ghost use Rattle.htmd_html5.specs.Layout as spec;
ghost use Rattle.htmd_html5.specs.LayoutViews.{coming_of, coming_under, layout_of, work_of, AllMayHold, MayHold};
ghost use Rattle.htmd_nodes.specs.Items.{comment_node, doctype_node, element_node, text_node, greatest_depth};
ghost use Rattle.htmd_lexical.specs.Attributes.{pairs_of};
ghost use Rattle.htmd_nodes.specs.declared.tree.TreeError.TheVariants.{TooDeep};

use htmd_html5_state::{Node, NodeKind, OtherElement};
use htmd_nodes::{Attribute, NodeId, Tree, TreeError};
use std::alloc::{AllocError, Global};
use std::mem;

/// The depth at which an element keeps no children.
const MAX_DEPTH: usize = 1024;

/// A node that is to come, and its parent in the tree.
#[derive(Clone, Copy)]
pub(crate) struct Coming {
    node: usize,
    under: NodeId,
}

/// The nodes that are left, the tree so far, and what comes next, the next last.
#[derive(Drop)]
pub(crate) struct Layout {
    nodes: Vec<Node>,
    tree: Tree,
    coming: Vec<Coming>,
}

/// The item that was added, unless it is too deep.
fn item_of(added: Result<NodeId, TreeError>) -> Result<NodeId, AllocError>
    requires { IsErrOf added TooDeep → ⊥ }
    ensures { IfOk result (λ id. added ≡ Ok id) }
{
    match added {
        Ok(id) => Ok(id),
        Err(TreeError::Memory) => Err(AllocError),
        Err(TreeError::TooDeep) => unreachable!(),
    }
}

/// The children of a node; none if there is no such node.
fn children_of(nodes: &[Node], node: usize) -> &[u32]
    ensures { result.now ≡ children_at (nodes_of nodes.now) node }
{
    match nodes.get(node) {
        Some(node) => node.children.as_slice(),
        None => &[],
    }
}

/// Nodes come next under an item, the first of them first.
fn push_all(coming: &mut Vec<Coming>, nodes: &[u32], under: NodeId) -> Result<(), AllocError>
    ensures { OnOk result (coming.new.items
        ≡ coming.old.items ++ map (coming_under under) (reverse nodes.now)) }
{
    for node in nodes.iter().rev() {
        let node = *node as usize;
        coming.push(Coming { node, under })?;
    }
    Ok(())
}

impl Layout {
    /// Takes what a node is; no node is laid out twice.
    fn take_kind(&mut self, node: usize) -> NodeKind
        ensures kind { kind_of result ≡ kind_at (nodes_of self.old.nodes.items) node }
        ensures value { layout_of self.new ≡ spec.without_node node (layout_of self.old) }
        ensures tree { self.new.tree ≡ self.old.tree }
        ensures coming { self.new.coming.items ≡ self.old.coming.items }
    {
        if node >= self.nodes.len() {
            return NodeKind::Document;
        }
        let node = &mut self.nodes[node];
        mem::replace(&mut node.kind, NodeKind::Document)
    }

    /// The children of a node come next.
    fn push_children(&mut self, node: usize, under: NodeId) -> Result<(), AllocError>
        requires may_hold { MayHold self.old.tree under }
        requires holds { AllMayHold self.old.tree self.old.coming.items }
        ensures value { OnOk result (layout_of self.new
            ≡ spec.with_children_under under node (layout_of self.old)) }
        ensures holds { OnOk result (AllMayHold self.new.tree self.new.coming.items) }
    {
        let children = children_of(self.nodes.as_slice(), node);
        push_all(&mut self.coming, children, under)
    }

    /// Whether a child of this item is at the greatest depth.
    fn is_deepest(&self, under: NodeId) -> bool
        requires { MayHold self.now.tree under }
        ensures { result ≡ spec.is_deepest greatest_depth self.now.tree under }
    {
        self.tree.depth(under) + 1 == MAX_DEPTH
    }

    /// The text that comes next, if it is under this item.
    fn next_text(&self, under: NodeId) -> Option<&str>
        ensures { option_map (λ t. t.now) result
            ≡ spec.next_text (nodes_of self.now.nodes.items) under (work_of self.now.coming.items) }
    {
        let next = self.coming.last()?;
        if next.under != under {
            return None;
        }
        match &self.nodes.get(next.node)?.kind {
            NodeKind::Text(text) => Some(text.as_str()),
            _ => None,
        }
    }

    /// Appends the texts that come next under this item to a text.
    fn join_texts(&mut self, under: NodeId, text: &mut String) -> Result<(), AllocError>
        requires holds { AllMayHold self.old.tree self.old.coming.items }
        ensures text { OnOk result (string_bytes text.new
            ≡ spec.joined (string_bytes text.old) under (layout_of self.old)) }
        ensures value { OnOk result (layout_of self.new
            ≡ spec.after_joined under (layout_of self.old)) }
        ensures holds { AllMayHold self.new.tree self.new.coming.items }
    {
        while let Some(next) = self.next_text(under) {
            text.push_str(next)?;
            self.coming.pop();
        }
        Ok(())
    }

    fn put_text(&mut self, under: NodeId, text: String) -> Result<(), AllocError>
        requires may_hold { MayHold self.old.tree under }
        requires holds { AllMayHold self.old.tree self.old.coming.items }
        ensures value { OnOk result (layout_of self.new
            ≡ spec.with_text (spec.is_deepest greatest_depth self.old.tree under) (string_bytes text) under
            (layout_of self.old)) }
        ensures holds { OnOk result (AllMayHold self.new.tree self.new.coming.items) }
    {
        let mut text = text;
        if self.is_deepest(under) {
            self.join_texts(under, &mut text)?;
        }
        item_of(self.tree.add_owned_text(under, text))?;
        Ok(())
    }

    fn put_element(
        &mut self,
        coming: Coming,
        name: &str,
        attributes: Vec<Attribute>,
    ) -> Result<(), AllocError>
        requires may_hold { MayHold self.old.tree coming.under }
        requires holds { AllMayHold self.old.tree self.old.coming.items }
        ensures value { OnOk result (layout_of self.new
            ≡ spec.with_element (spec.is_deepest greatest_depth self.old.tree coming.under)
            (element_node name.now (pairs_of attributes.items))
            (coming_of coming) (layout_of self.old)) }
        ensures holds { OnOk result (AllMayHold self.new.tree self.new.coming.items) }
    {
        let deepest = self.is_deepest(coming.under);
        let item = item_of(self.tree.add_element(coming.under, name, attributes))?;
        let under = if deepest { coming.under } else { item };
        self.push_children(coming.node, under)
    }

    fn put(&mut self, coming: Coming) -> Result<(), AllocError>
        requires may_hold { MayHold self.old.tree coming.under }
        requires holds { AllMayHold self.old.tree self.old.coming.items }
        ensures value { OnOk result (layout_of self.new
            ≡ spec.put_node greatest_depth (coming_of coming) (layout_of self.old)) }
        ensures holds { OnOk result (AllMayHold self.new.tree self.new.coming.items) }
    {
        let under = coming.under;
        match self.take_kind(coming.node) {
            NodeKind::Document => {}
            NodeKind::Doctype => {
                item_of(self.tree.add_doctype(under))?;
            }
            NodeKind::Text(text) => self.put_text(under, text)?,
            NodeKind::Comment(text) => {
                item_of(self.tree.add_comment(under, text.as_str()))?;
            }
            NodeKind::Known { name, attributes } => {
                self.put_element(coming, name.text(), attributes)?;
            }
            NodeKind::Other(element) => {
                let OtherElement { name, attributes } = Box::into_inner(element);
                self.put_element(coming, name.text(), attributes)?;
            }
        }
        Ok(())
    }
}

/// A tree that holds only the Document, whose children come next.
fn first_layout(alloc: Global, nodes: Vec<Node>) -> Result<Layout, AllocError>
    ensures value { IfOk result (λ l. layout_of l ≡ spec.first_layout (nodes_of nodes.items)) }
    ensures holds { IfOk result (λ l. AllMayHold l.tree l.coming.items) }
{
    let Ok(tree) = Tree::with_capacity(alloc, nodes.len()) else {
        return Err(AllocError);
    };
    let root = tree.root();
    let mut layout = Layout {
        nodes,
        tree,
        coming: Vec::new(alloc),
    };
    layout.push_children(0, root)?;
    Ok(layout)
}

/// The tree of the nodes of a document; each is laid out once.
pub(crate) fn lay_out(alloc: Global, nodes: Vec<Node>) -> Result<Tree, AllocError>
    ensures { IfOk result (λ tree. tree ≡ spec.document_of greatest_depth (nodes_of nodes.items)) }
{
    let count = nodes.len();
    let mut layout = first_layout(alloc, nodes)?;
    for _node in 0..count {
        let Some(coming) = layout.coming.pop() else {
            return Ok(layout.tree);
        };
        layout.put(coming)?;
    }
    Ok(layout.tree)
}
