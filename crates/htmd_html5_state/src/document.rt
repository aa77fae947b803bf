//! Documents while they are made: nodes by number, each with its parent and its children.
ghost use Rattle.std.specs.Prelude.{◌≡◌, ◌∷◌, ◌++◌, ◌≤◌, [], insert, length, string_bytes, IfOk, OnOk, MatchBool};
ghost use Rattle.std.specs.Prelude.{MatchOption, Some, None, false};
ghost use Rattle.htmd_html5_state.specs.Nodes as spec;
ghost use Rattle.htmd_html5_state.specs.Names.{element_name_of};
ghost use Rattle.htmd_html5_state.specs.Views.{is_element, kind_of, kind_seen, nodes_of, numbers_of};
ghost use Rattle.htmd_lexical.specs.Attributes.{pairs_of};

use crate::attributes::{add_missing, copy_all};
use crate::children::Children;
use crate::names::{ElementName, HtmlName, TagName};
use htmd_lexical::Attribute;
use std::alloc::{AllocError, Global};
use std::marker::Model;
use std::mem;

/// What a node is.
#[derive(Drop)]
pub enum NodeKind {
    Document,
    Doctype,
    Text(String),
    Comment(String),
    /// An element of HTML with a name that a rule mentions, as most are: it needs little room.
    Known {
        name: TagName,
        attributes: Vec<Attribute>,
    },
    Other(Box<OtherElement>),
}

/// An element with another name, or in foreign content.
#[derive(Drop)]
pub struct OtherElement {
    pub name: ElementName,
    pub attributes: Vec<Attribute>,
}

/// A node, with the numbers of its parent and its children, which are kept in little room.
#[derive(Drop)]
pub struct Node {
    pub kind: NodeKind,
    pub parent: Option<u32>,
    pub children: Children,
}

/// A place for a node: in its parent before a child, or as the last.
#[derive(Clone, Copy)]
pub(crate) struct Place {
    pub(crate) parent: usize,
    pub(crate) next: Option<usize>,
}

/// Nodes by number; 0 is the Document.
#[derive(Drop)]
pub(crate) struct Document {
    alloc: Global,
    nodes: Vec<Node>,
}

impl Model for Document {
    ghost use Rattle.std.specs.Prelude.{List};
    ghost use Rattle.htmd_html5_state.specs.Nodes.{NodeValue};

    ghost Value = { List NodeValue };

    ghost use Rattle.htmd_html5_state.specs.Views.{nodes_of};

    ghost view = { λ d. nodes_of d.nodes.items };
}

/// As the last child of a node.
pub(crate) fn last_in(parent: usize) -> Place
    ensures { result ≡ spec.last_in parent }
{
    Place { parent, next: None }
}

/// A node's number as it is kept. `Err` means that it is too great: so many nodes are more than memory holds.
fn kept(node: usize) -> Result<u32, AllocError>
    ensures { IfOk result (λ number. number ≡ node) }
{
    u32::try_from(node).map_err(|_| AllocError)
}

/// A number that is kept, as a node's number.
fn widened(kept: Option<u32>) -> Option<usize>
    ensures { result ≡ kept }
{
    match kept {
        Some(number) => Some(number as usize),
        None => None,
    }
}

/// How many children are before this one; all of them if it isn't a child.
fn index_of(children: &[u32], child: usize) -> usize
    ensures place { result ≡ spec.index_of child children.now }
    ensures within { result ≤ length children.now }
{
    let mut rest = children;
    while let [before @ .., last] = rest {
        if *last as usize == child {
            return before.len();
        }
        rest = before;
    }
    children.len()
}

fn place_index(children: &[u32], next: Option<usize>) -> usize
    ensures place { result ≡ spec.place_index next children.now }
    ensures within { result ≤ length children.now }
{
    match next {
        Some(next) => index_of(children, next),
        None => children.len(),
    }
}

/// Puts a child before another one, or as the last.
#[tactic(auto, using(crate::proofs::DocumentLemmas::insert_last))]
fn insert_child(
    alloc: Global,
    children: &mut Children,
    child: u32,
    next: Option<usize>,
) -> Result<(), AllocError>
    ensures { OnOk result (numbers_of children.new
        ≡ insert (numbers_of children.old) (spec.place_index next (numbers_of children.old)) child) }
{
    match next {
        Some(next) => {
            let index = index_of(children.as_slice(), next);
            children.insert(alloc, index, child)
        }
        None => children.push(alloc, child),
    }
}

impl NodeKind {
    /// An element. `Err` means out of memory.
    pub(crate) fn element(
        alloc: Global,
        name: ElementName,
        attributes: Vec<Attribute>,
    ) -> Result<NodeKind, AllocError>
        ensures { IfOk result (λ kind. kind_of kind
            ≡ spec.element (element_name_of name) (pairs_of attributes.items)) }
    {
        if let ElementName::Html(HtmlName::Known(name)) = name {
            return Ok(NodeKind::Known { name, attributes });
        }
        let element = OtherElement { name, attributes };
        Ok(NodeKind::Other(Box::new(alloc, element)?))
    }

    pub(crate) fn attributes(&self) -> &[Attribute]
        ensures { pairs_of result.now ≡ spec.attributes_of (kind_of self.now) }
    {
        match self {
            NodeKind::Known { attributes, .. } => attributes.as_slice(),
            NodeKind::Other(element) => element.attributes.as_slice(),
            _ => &[],
        }
    }

    /// Gives an element the attributes that it doesn't have yet.
    fn add_missing(&mut self, more: Vec<Attribute>) -> Result<(), AllocError>
        ensures { OnOk result (kind_of self.new
            ≡ spec.kind_with_missing (pairs_of more.items) (kind_of self.old)) }
    {
        match self {
            NodeKind::Known { attributes, .. } => add_missing(attributes, more),
            NodeKind::Other(element) => add_missing(&mut element.attributes, more),
            _ => Ok(()),
        }
    }

    /// A copy of the element, if it is one.
    fn element_copy(&self, alloc: Global) -> Result<Option<OtherElement>, AllocError>
        ensures { IfOk result (λ copy. MatchOption copy (is_element (kind_of self.now) ≡ false)
            (λ e. kind_of self.now ≡ spec.element (element_name_of e.name) (pairs_of e.attributes.items))) }
    {
        match self {
            NodeKind::Known { name, attributes } => Ok(Some(OtherElement {
                name: ElementName::Html(HtmlName::Known(*name)),
                attributes: copy_all(alloc, attributes)?,
            })),
            NodeKind::Other(element) => Ok(Some(element.copy(alloc)?)),
            _ => Ok(None),
        }
    }

    /// A copy of what is no element.
    fn plain_copy(&self) -> Result<NodeKind, AllocError>
        requires { is_element (kind_of self.now) ≡ false }
        ensures { IfOk result (λ copy. kind_of copy ≡ kind_of self.now) }
    {
        match self {
            NodeKind::Document => Ok(NodeKind::Document),
            NodeKind::Doctype => Ok(NodeKind::Doctype),
            NodeKind::Text(text) => Ok(NodeKind::Text(text.clone()?)),
            NodeKind::Comment(text) => Ok(NodeKind::Comment(text.clone()?)),
            _ => unreachable!(),
        }
    }

    fn copy(&self, alloc: Global) -> Result<NodeKind, AllocError>
        ensures { IfOk result (λ copy. kind_of copy ≡ kind_of self.now) }
    {
        match self.element_copy(alloc)? {
            Some(copy) => NodeKind::element(alloc, copy.name, copy.attributes),
            None => self.plain_copy(),
        }
    }
}

impl OtherElement {
    fn copy(&self, alloc: Global) -> Result<OtherElement, AllocError>
        ensures name { IfOk result (λ copy. element_name_of copy.name ≡ element_name_of self.now.name) }
        ensures attributes { IfOk result (λ copy. pairs_of copy.attributes.items
            ≡ pairs_of self.now.attributes.items) }
    {
        Ok(OtherElement {
            name: self.name.copy()?,
            attributes: copy_all(alloc, &self.attributes)?,
        })
    }
}

impl Document {
    /// Only the Document, with memory for this many nodes.
    pub(crate) fn with_capacity(alloc: Global, nodes: usize) -> Result<Document, AllocError>
        ensures { IfOk result (λ d. d ≡ spec.new_node spec.document ∷ []) }
    {
        let mut nodes = Vec::with_capacity(alloc, nodes)?;
        nodes.push(Node {
            kind: NodeKind::Document,
            parent: None,
            children: Children::None,
        })?;
        Ok(Document { alloc, nodes })
    }

    pub(crate) fn into_nodes(self) -> Vec<Node>
        ensures { nodes_of result.items ≡ self }
    {
        self.nodes
    }

    /// How many nodes there are: the number of the next.
    pub(crate) fn len(&self) -> usize
        ensures { result ≡ length self.now }
    {
        self.nodes.len()
    }

    /// What a node is; None if there is no such node.
    pub(crate) fn kind(&self, node: usize) -> Option<&NodeKind>
        ensures { kind_seen result ≡ spec.kind_at self.now node }
    {
        match self.nodes.get(node) {
            Some(node) => Some(&node.kind),
            None => None,
        }
    }

    /// A copy of a node, if it is an element.
    pub(crate) fn element_copy(&self, node: usize) -> Result<Option<OtherElement>, AllocError>
        ensures { IfOk result (λ copy. MatchOption copy (is_element (spec.kind_at self.now node) ≡ false)
            (λ e. spec.kind_at self.now node
            ≡ spec.element (element_name_of e.name) (pairs_of e.attributes.items))) }
    {
        match self.kind(node) {
            Some(kind) => kind.element_copy(self.alloc),
            None => Ok(None),
        }
    }

    pub(crate) fn parent(&self, node: usize) -> Option<usize>
        ensures { result ≡ spec.parent_at self.now node }
    {
        match self.nodes.get(node) {
            Some(node) => widened(node.parent),
            None => None,
        }
    }

    fn children(&self, node: usize) -> &[u32]
        ensures { result.now ≡ spec.children_at self.now node }
    {
        match self.nodes.get(node) {
            Some(node) => node.children.as_slice(),
            None => &[],
        }
    }

    fn set_parent(&mut self, node: usize, parent: Option<u32>)
        ensures { self.new ≡ spec.with_parent node parent self.old }
    {
        if node < self.nodes.len() {
            let node = &mut self.nodes[node];
            node.parent = parent;
        }
    }

    fn remove_child(&mut self, parent: usize, child: usize)
        ensures { self.new ≡ spec.remove_child parent child self.old }
    {
        if parent < self.nodes.len() {
            let node = &mut self.nodes[parent];
            let children = node.children.as_slice();
            let index = index_of(children, child);
            if index < children.len() {
                node.children.remove(index);
            }
        }
    }

    fn put_child(&mut self, child: usize, place: Place) -> Result<(), AllocError>
        ensures { OnOk result (self.new ≡ spec.put_child child place self.old) }
    {
        if place.parent < self.nodes.len() {
            let child = kept(child)?;
            let node = &mut self.nodes[place.parent];
            insert_child(self.alloc, &mut node.children, child, place.next)?;
        }
        Ok(())
    }

    /// Takes a node out of its parent.
    pub(crate) fn detach(&mut self, node: usize)
        ensures { self.new ≡ spec.detach node self.old }
    {
        if let Some(parent) = self.parent(node) {
            self.remove_child(parent, node);
            self.set_parent(node, None);
        }
    }

    /// Puts a node without a parent at a place. After an `Err` it is unknown what is where, here and below.
    #[inline(always)]
    pub(crate) fn put(&mut self, node: usize, place: Place) -> Result<(), AllocError>
        ensures { OnOk result (self.new ≡ spec.put node place self.old) }
    {
        self.put_child(node, place)?;
        let parent = kept(place.parent)?;
        self.set_parent(node, Some(parent));
        Ok(())
    }

    /// Moves a node to a place.
    pub(crate) fn attach(&mut self, node: usize, place: Place) -> Result<(), AllocError>
        ensures { OnOk result (self.new ≡ spec.attach node place self.old) }
    {
        self.detach(node);
        self.put(node, place)
    }

    /// A new node with this parent, which doesn't have it as a child. Gives its number.
    #[inline(always)]
    fn push_under(&mut self, kind: NodeKind, parent: u32) -> Result<usize, AllocError>
        ensures number { IfOk result (λ n. n ≡ length self.old) }
        ensures ok { OnOk result (self.new
            ≡ self.old ++ record (spec.new_node (kind_of kind)) { parent = Some parent } ∷ []) }
    {
        let number = self.nodes.len();
        self.nodes.reserve(1)?;
        self.nodes.push_reserved(Node {
            kind,
            parent: Some(parent),
            children: Children::None,
        });
        Ok(number)
    }

    /// A new node that is at no place yet. Gives its number.
    #[inline(always)]
    pub(crate) fn push(&mut self, kind: NodeKind) -> Result<usize, AllocError>
        ensures number { IfOk result (λ n. n ≡ length self.old) }
        ensures ok { OnOk result (self.new ≡ self.old ++ spec.new_node (kind_of kind) ∷ []) }
    {
        let number = self.nodes.len();
        self.nodes.reserve(1)?;
        self.nodes.push_reserved(Node {
            kind,
            parent: None,
            children: Children::None,
        });
        Ok(number)
    }

    /// A new node that is like another one and is at no place yet. Gives its number.
    pub(crate) fn push_copy(&mut self, node: usize) -> Result<usize, AllocError>
        ensures number { IfOk result (λ n. n ≡ length self.old) }
        ensures ok { OnOk result (self.new
            ≡ self.old ++ spec.new_node (spec.kind_at self.old node) ∷ []) }
    {
        let kind = match self.kind(node) {
            Some(kind) => kind.copy(self.alloc)?,
            None => NodeKind::Document,
        };
        self.push(kind)
    }

    /// A new node at a place. Gives its number.
    #[tactic(auto, using(crate::proofs::DocumentLemmas::put_child_length))]
    #[inline(always)]
    pub(crate) fn add(&mut self, kind: NodeKind, place: Place) -> Result<usize, AllocError>
        ensures number { IfOk result (λ n. n ≡ length self.old) }
        ensures ok { OnOk result (self.new ≡ spec.add (kind_of kind) place self.old) }
    {
        let number = self.nodes.len();
        if place.parent >= number {
            let number = self.push(kind)?;
            self.put(number, place)?;
            return Ok(number);
        }
        let parent = kept(place.parent)?;
        self.put_child(number, place)?;
        self.push_under(kind, parent)
    }

    /// Makes a node the parent of all children of another one.
    fn set_parents(&mut self, children: &[u32], parent: u32)
        ensures { self.new ≡ spec.with_parents parent children.now self.old }
    {
        for child in children {
            self.set_parent(*child as usize, Some(parent));
        }
    }

    fn take_children(&mut self, node: usize) -> Children
        ensures taken { numbers_of result ≡ spec.children_at self.old node }
        ensures rest { self.new ≡ spec.with_children node [] self.old }
    {
        if node >= self.nodes.len() {
            return Children::None;
        }
        let node = &mut self.nodes[node];
        mem::replace(&mut node.children, Children::None)
    }

    fn append_children(&mut self, node: usize, children: &[u32]) -> Result<(), AllocError>
        ensures { OnOk result (self.new ≡ spec.append_children node children.now self.old) }
    {
        if node < self.nodes.len() {
            let node = &mut self.nodes[node];
            node.children.extend(self.alloc, children)?;
        }
        Ok(())
    }

    /// Moves all children of a node to the end of another one.
    pub(crate) fn move_children(&mut self, from: usize, to: usize) -> Result<(), AllocError>
        ensures { OnOk result (self.new ≡ spec.move_children from to self.old) }
    {
        let parent = kept(to)?;
        let children = self.take_children(from);
        self.set_parents(children.as_slice(), parent);
        self.append_children(to, children.as_slice())
    }

    /// The child right before a place.
    fn preceding(&self, place: Place) -> Option<usize>
        ensures { result ≡ spec.preceding place self.now }
    {
        let children = self.children(place.parent);
        let index = place_index(children, place.next);
        if index == 0 {
            return None;
        }
        widened(children.get(index - 1).copied())
    }

    /// Appends text to a text node. Gives false if the node isn't one.
    fn push_text(&mut self, node: usize, text: &str) -> Result<bool, AllocError>
        ensures { IfOk result (λ joins. MatchBool joins (spec.joined text.now node self.old ≡ Some self.new)
            ((spec.joined text.now node self.old ≡ None) × (self.new ≡ self.old))) }
    {
        if node >= self.nodes.len() {
            return Ok(false);
        }
        let node = &mut self.nodes[node];
        if let NodeKind::Text(before) = &mut node.kind {
            before.push_str(text)?;
            return Ok(true);
        }
        Ok(false)
    }

    /// Appends text to the text node right before a place. Gives false if there is none.
    fn join_text(&mut self, text: &str, place: Place) -> Result<bool, AllocError>
        ensures { IfOk result (λ joins. MatchBool joins
            (spec.joined_to text.now (spec.preceding place self.old) self.old ≡ Some self.new)
            ((spec.joined_to text.now (spec.preceding place self.old) self.old ≡ None)
            × (self.new ≡ self.old))) }
    {
        match self.preceding(place) {
            Some(node) => self.push_text(node, text),
            None => Ok(false),
        }
    }

    /// Appends text to the text node right before a place if there is one, else adds a new text node.
    pub(crate) fn add_text(&mut self, text: &str, place: Place) -> Result<(), AllocError>
        ensures { OnOk result (self.new ≡ spec.add_text text.now place self.old) }
    {
        if self.join_text(text, place)? {
            return Ok(());
        }
        let kind = NodeKind::Text(String::from_str(self.alloc, text)?);
        self.add(kind, place)?;
        Ok(())
    }

    /// Adds text that is handed over.
    pub(crate) fn add_owned_text(&mut self, text: String, place: Place) -> Result<(), AllocError>
        ensures { OnOk result (self.new ≡ spec.add_text (string_bytes text) place self.old) }
    {
        if self.join_text(text.as_str(), place)? {
            return Ok(());
        }
        self.add(NodeKind::Text(text), place)?;
        Ok(())
    }

    /// Gives an element the attributes that it doesn't have yet. `Err` means out of memory.
    pub(crate) fn add_missing(
        &mut self,
        node: usize,
        attributes: Vec<Attribute>,
    ) -> Result<(), AllocError>
        ensures { OnOk result (self.new
            ≡ spec.add_missing node (pairs_of attributes.items) self.old) }
    {
        if node < self.nodes.len() {
            let node = &mut self.nodes[node];
            node.kind.add_missing(attributes)?;
        }
        Ok(())
    }
}
