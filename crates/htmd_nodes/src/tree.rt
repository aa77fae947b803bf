//! A tree of nodes, to which nodes are only added.
ghost use Rattle.std.specs.Prelude.{◌≡◌, ◌+◌, ◌<◌, ◌≤◌, ◌↔◌, [], ◌∷◌, ◌++◌, nat_lt, length, IsTrue, IfOk, OnOk, OnErr};
ghost use Rattle.std.specs.Prelude.{IsErrOf, IsOkUnless, MatchResult, string_bytes};
ghost use Rattle.std.specs.Option.{option_copied};
ghost use Rattle.htmd_nodes.specs.Items.{IsTree, data_at, parent_at, depth_at, children_of, holds_children, tag_of};
ghost use Rattle.htmd_nodes.specs.Items.{new_item, document_item, doctype_node, text_node, comment_node, element_node};
ghost use Rattle.htmd_nodes.specs.Items.{greatest_depth, HoldTexts};
ghost use Rattle.htmd_lexical.specs.Attributes.{pairs_of};
ghost use Rattle.htmd_nodes.specs.Views.{data_of};
ghost use Rattle.htmd_nodes.specs.declared.tree.TreeError.TheVariants.{Memory};

use crate::levels::Level;
use crate::names::Name;
use htmd_lexical::Attribute;
use std::alloc::{AllocError, AllocFailed, Global};
use std::marker::Model;
use thiserror::Error;

/// The greatest depth of a node; the Document is at depth 0.
pub const MAX_DEPTH: usize = 1024;

/// A node of a tree, by its number in order of addition.
#[derive(Debug, Clone, Copy, PartialEq, Eq)]
pub struct NodeId {
    index: usize,
}

impl Model for NodeId {
    ghost use Rattle.std.specs.Prelude.{ℕ};

    ghost Value = { ℕ };

    ghost view = { λ id. id.index };

    ghost inverse = { λ n. record { index = n } };
}

/// The number of a node, in order of addition.
pub fn number_of(id: NodeId) -> usize
    ensures { result ≡ id }
{
    id.index
}

/// What a node is.
#[derive(Drop)]
pub enum NodeData {
    Document,
    Doctype,
    Text(String),
    Comment(String),
    Element { name: Name, attrs: Vec<Attribute> },
}

/// Why a node was not added. The tree is then as it was.
#[derive(Debug, PartialEq, Eq, Drop, Error)]
pub enum TreeError {
    /// Out of memory.
    #[error("out of memory")]
    Memory = 1,
    /// The node would be deeper than level 1,024.
    #[error("too deep")]
    TooDeep = 2,
}

impl From<AllocError> for TreeError {
    ghost from_gives = { λ _ e. e ≡ Memory };

    fn from(_e: AllocError) -> TreeError {
        TreeError::Memory
    }
}

impl<T: Drop> From<AllocFailed<T>> for TreeError {
    ghost from_gives = { λ _ e. e ≡ Memory };

    fn from(_e: AllocFailed<T>) -> TreeError {
        TreeError::Memory
    }
}

/// A node as it is kept, in 64 bytes. The Document, the only node at depth 0, is its own parent here.
#[derive(Drop)]
struct Entry {
    data: NodeData,
    level: Level,
}

/// A Document and the nodes below it.
#[derive(Drop)]
pub struct Tree {
    entries: Vec<Entry>,
    alloc: Global,
}

impl Model for Tree {
    ghost use Rattle.std.specs.Prelude.{List};
    ghost use Rattle.htmd_nodes.specs.Items.{Item};

    ghost Value = { List Item };

    ghost use Rattle.htmd_nodes.specs.Entries.{items_of, IsStored};

    ghost view = { λ t. items_of t.entries.items };

    ghost invariant = { λ t. IsStored t.entries.items };
}

impl Tree {
    /// A tree that holds only the Document. `Memory` when out of memory; there is no other error.
    pub fn new(alloc: Global) -> Result<Tree, TreeError>
        ensures ok { IfOk result (λ tree. tree ≡ document_item ∷ []) }
        ensures memory { IsOkUnless result TreeError.Memory }
    {
        Tree::with_capacity(alloc, 0)
    }

    /// As `new`, with memory for this many nodes at once: adding as many takes less time. Their texts and attributes
    /// have an allocation of their own. `Memory` when out of memory; there is no other error.
    pub fn with_capacity(alloc: Global, nodes: usize) -> Result<Tree, TreeError>
        ensures ok { IfOk result (λ tree. tree ≡ document_item ∷ []) }
        ensures memory { IsOkUnless result TreeError.Memory }
    {
        let mut entries = Vec::with_capacity(alloc, nodes)?;
        entries.push(Entry {
            data: NodeData::Document,
            level: Level::new(0, 0),
        })?;
        Ok(Tree { entries, alloc })
    }

    /// Whether the tree has a node with this number.
    pub fn contains(&self, id: NodeId) -> bool
        ensures value { result ≡ nat_lt id (length self.now) }
        ensures tree { IsTree self.now }
    {
        id.index < self.entries.len()
    }

    /// The Document. All texts and values of the tree are UTF-8.
    pub fn root(&self) -> NodeId
        ensures value { result ≡ 0 }
        ensures tree { IsTree self.now }
        ensures texts { HoldTexts self.now }
    {
        let _entries = &self.entries;
        NodeId { index: 0 }
    }

    /// What a node of the tree is.
    pub fn data(&self, id: NodeId) -> &NodeData
        requires { id < length self.now }
        ensures value { data_of result.now ≡ data_at self.now id }
        ensures tree { IsTree self.now }
    {
        &self.entries[id.index].data
    }

    /// The parent of a node of the tree; the Document has none.
    pub fn parent(&self, id: NodeId) -> Option<NodeId>
        requires { id < length self.now }
        ensures value { result ≡ parent_at self.now id }
        ensures tree { IsTree self.now }
    {
        let level = &self.entries[id.index].level;
        if level.depth() == 0 {
            None
        } else {
            Some(NodeId {
                index: level.parent(),
            })
        }
    }

    /// The children of a node of the tree, in order.
    pub fn children(&self, id: NodeId) -> &[NodeId]
        requires { id < length self.now }
        ensures value { result.now ≡ children_of self.now id }
        ensures tree { IsTree self.now }
    {
        self.entries[id.index].level.children()
    }

    /// The name of an element of the tree, and `html` for the Document; no other node has one.
    pub fn tag_name(&self, id: NodeId) -> Option<&str>
        requires { id < length self.now }
        ensures value { option_copied result ≡ tag_of (data_at self.now id) }
        ensures tree { IsTree self.now }
    {
        match self.data(id) {
            NodeData::Document => Some("html"),
            NodeData::Element { name, .. } => Some(name.as_str()),
            _ => None,
        }
    }

    /// How many ancestors a node of the tree has.
    pub fn depth(&self, id: NodeId) -> usize
        requires { id < length self.now }
        ensures value { result ≡ depth_at self.now id }
        ensures tree { IsTree self.now }
    {
        self.entries[id.index].level.depth() as usize
    }

    /// The depth of a child of this parent, if it is within the greatest depth.
    #[inline(always)]
    fn child_depth(&self, parent: NodeId) -> Result<u16, TreeError>
        requires { parent < length self.now }
        ensures depth { IfOk result (λ depth. depth ≡ depth_at self.now parent + 1) }
        ensures within { MatchResult result (λ _. depth_at self.now parent < greatest_depth)
            (λ e. (e ≡ TreeError.TooDeep) × (greatest_depth ≤ depth_at self.now parent)) }
    {
        let depth = self.entries[parent.index].level.depth();
        if depth as usize >= MAX_DEPTH {
            return Err(TreeError::TooDeep);
        }
        Ok(depth + 1)
    }

    /// A new last child. All growths come before the change.
    #[inline(always)]
    fn add(&mut self, parent: NodeId, depth: u16, node_data: NodeData) -> Result<NodeId, TreeError>
        requires within { parent < length self.old }
        requires holds { IsTrue (holds_children (data_at self.old parent)) }
        requires depth { depth ≡ depth_at self.old parent + 1 }
        requires shallow { depth_at self.old parent < greatest_depth }
        ensures id { IfOk result (λ id. id ≡ length self.old) }
        ensures ok { OnOk result (self.new ≡ self.old ++ new_item self.old parent (data_of node_data) ∷ []) }
        ensures memory { IsOkUnless result TreeError.Memory }
        ensures err { OnErr result (self.new ≡ self.old) }
    {
        let id = NodeId {
            index: self.entries.len(),
        };
        let entry = Entry {
            data: node_data,
            level: Level::new(depth, parent.index),
        };
        self.entries.reserve(1)?;
        self.entries[parent.index].level.push_child(self.alloc, id)?;
        self.entries.push_reserved(entry);
        Ok(id)
    }

    /// A new last child of a node: an element with a name and attributes. The tree must contain the parent, a Document
    /// or an element. `TooDeep` if the child would be below level 1,024, `Memory` when out of memory; the tree is then
    /// as it was, and the attributes are dropped.
    pub fn add_element(
        &mut self,
        parent: NodeId,
        name: &str,
        attrs: Vec<Attribute>,
    ) -> Result<NodeId, TreeError>
        requires within { parent < length self.old }
        requires holds { IsTrue (holds_children (data_at self.old parent)) }
        ensures id { IfOk result (λ id. id ≡ length self.old) }
        ensures ok { OnOk result (self.new
            ≡ self.old
            ++ new_item self.old parent (element_node name.now (pairs_of attrs.items)) ∷ []) }
        ensures too_deep { IsErrOf result TreeError.TooDeep
            ↔ (greatest_depth ≤ depth_at self.old parent) }
        ensures err { OnErr result (self.new ≡ self.old) }
    {
        let depth = self.child_depth(parent)?;
        let name = Name::new(self.alloc, name)?;
        self.add(parent, depth, NodeData::Element { name, attrs })
    }

    /// A new last child of a node: a text. The tree must contain the parent, a Document or an element. `TooDeep` if the
    /// child would be below level 1,024, `Memory` when out of memory; the tree is then as it was.
    pub fn add_text(&mut self, parent: NodeId, text: &str) -> Result<NodeId, TreeError>
        requires within { parent < length self.old }
        requires holds { IsTrue (holds_children (data_at self.old parent)) }
        ensures id { IfOk result (λ id. id ≡ length self.old) }
        ensures ok { OnOk result (self.new
            ≡ self.old ++ new_item self.old parent (text_node text.now) ∷ []) }
        ensures too_deep { IsErrOf result TreeError.TooDeep
            ↔ (greatest_depth ≤ depth_at self.old parent) }
        ensures err { OnErr result (self.new ≡ self.old) }
    {
        let depth = self.child_depth(parent)?;
        let text = String::from_str(self.alloc, text)?;
        self.add(parent, depth, NodeData::Text(text))
    }

    /// A new last child of a node: a text that is handed over. The tree must contain the parent, a Document or an
    /// element. `TooDeep` if the child would be below level 1,024, `Memory` when out of memory; the tree is then as it
    /// was, and the text is dropped.
    pub fn add_owned_text(&mut self, parent: NodeId, text: String) -> Result<NodeId, TreeError>
        requires within { parent < length self.old }
        requires holds { IsTrue (holds_children (data_at self.old parent)) }
        ensures id { IfOk result (λ id. id ≡ length self.old) }
        ensures ok { OnOk result (self.new
            ≡ self.old ++ new_item self.old parent (text_node (string_bytes text)) ∷ []) }
        ensures too_deep { IsErrOf result TreeError.TooDeep
            ↔ (greatest_depth ≤ depth_at self.old parent) }
        ensures err { OnErr result (self.new ≡ self.old) }
    {
        let depth = self.child_depth(parent)?;
        self.add(parent, depth, NodeData::Text(text))
    }

    /// A new last child of a node: a comment. The tree must contain the parent, a Document or an element. `TooDeep` if
    /// the child would be below level 1,024, `Memory` when out of memory; the tree is then as it was.
    pub fn add_comment(&mut self, parent: NodeId, text: &str) -> Result<NodeId, TreeError>
        requires within { parent < length self.old }
        requires holds { IsTrue (holds_children (data_at self.old parent)) }
        ensures id { IfOk result (λ id. id ≡ length self.old) }
        ensures ok { OnOk result (self.new
            ≡ self.old ++ new_item self.old parent (comment_node text.now) ∷ []) }
        ensures too_deep { IsErrOf result TreeError.TooDeep
            ↔ (greatest_depth ≤ depth_at self.old parent) }
        ensures err { OnErr result (self.new ≡ self.old) }
    {
        let depth = self.child_depth(parent)?;
        let text = String::from_str(self.alloc, text)?;
        self.add(parent, depth, NodeData::Comment(text))
    }

    /// A new last child of a node: a Doctype. The tree must contain the parent, a Document or an element. `TooDeep` if
    /// the child would be below level 1,024, `Memory` when out of memory; the tree is then as it was.
    pub fn add_doctype(&mut self, parent: NodeId) -> Result<NodeId, TreeError>
        requires within { parent < length self.old }
        requires holds { IsTrue (holds_children (data_at self.old parent)) }
        ensures id { IfOk result (λ id. id ≡ length self.old) }
        ensures ok { OnOk result (self.new
            ≡ self.old ++ new_item self.old parent doctype_node ∷ []) }
        ensures too_deep { IsErrOf result TreeError.TooDeep
            ↔ (greatest_depth ≤ depth_at self.old parent) }
        ensures err { OnErr result (self.new ≡ self.old) }
    {
        let depth = self.child_depth(parent)?;
        self.add(parent, depth, NodeData::Doctype)
    }
}
