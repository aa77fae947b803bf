//! The reader of HTML: a tree from a text of the strict grammar, or the first fault of any other text.
ghost use Rattle.std.specs.Prelude.{◌≡◌, ◌∷◌, ◌<◌, ℕ, Bool, true, false, List, [], length};
ghost use Rattle.std.specs.Prelude.{◌==◌, ◌++◌, ◌≤◌, ◌↔◌, OnOk, IfOk, IfErr, IsErrOf, IsTrue, Ok, Err, if◌then◌else◌};
ghost use Rattle.std.specs.Prelude.{codes};
ghost use Rattle.htmd_grammar.specs.HtmlDocuments.{above_body};
ghost use Rattle.htmd_grammar.specs.Nesting.{is_table};
ghost use Rattle.htmd_grammar.specs.ReaderSteps.{OpenElement, is_too_deep, add, fault, between};
ghost use Rattle.htmd_grammar.specs.ReaderSteps.{fresh, closed, with_tree};
ghost use Rattle.htmd_grammar.specs.HtmlDocuments.{ReadsDocument};
ghost use Rattle.htmd_grammar.specs.Faults.{IsFault};
ghost use Rattle.htmd_grammar.specs.Rules.{project};
ghost use Rattle.htmd_values.specs.ValueTrees.{ValueTree, ValueForest, document};
ghost use Rattle.htmd_grammar.specs.declared.fault.FaultKind.{FaultKind};
ghost use Rattle.htmd_grammar.specs.declared.fault.FaultKind.TheVariants.{TooDeep};
ghost use Rattle.htmd_lexical.specs.Characters.{null};
ghost use Rattle.htmd_nodes.specs.Layout.{document_items};
ghost use Rattle.std.specs.List.{list_any, position};
ghost use Rattle.htmd_lexical.specs.Attributes.{pairs_of};
ghost use Rattle.htmd_nodes.specs.Items.{holds_children, data_at, new_item, greatest_depth, depth_at};
ghost use Rattle.htmd_tree.specs.OpenNodes.{Holds, IsReading, MayOpen, innermost_name, open_node, WhateverIsOpen};
ghost use Rattle.htmd_tree.specs.NewNodes.{data_of_new};
ghost use Rattle.htmd_tree.specs.Advances.{HasAdded, StopsDeep, IsLeaf, leaf, rules_of, Steps};
ghost use Rattle.htmd_tree.specs.declared.reader.Stop.TheVariants.{Memory, Refused};
ghost use Rattle.htmd_tree.specs.KnownNames.{known_name};

mod attributes;
mod beginning;
mod body;
mod comments;
mod names;
mod pieces;
mod raw_text;
mod references;
mod scan;
mod surroundings;
mod tags;
mod texts;

use crate::reader::names::{KnownName, known_name};
use crate::reader::surroundings::Surroundings;
pub use body::body_of;
use htmd_grammar::FaultKind;
use htmd_grammar::laws::{faults_are_right, steps_read_the_grammar};
use htmd_lexical::Attribute;
use htmd_nodes::{MAX_DEPTH, NodeData, NodeId, Tree, TreeError};
use std::alloc::{AllocError, AllocFailed, Global};
use thiserror::Error;

/// Why a text was not read.
#[derive(Debug, PartialEq, Eq, Drop, Error)]
pub enum ReadError {
    /// The text is outside the grammar: the byte place of its first fault, and the fault's kind.
    #[error("refused at byte {place}: {kind}")]
    Refused { place: usize, kind: FaultKind },
    /// Out of memory.
    #[error("out of memory")]
    Memory,
}

/// What is kept of an open element: its node, whether no tag opened it, and what is allowed in it.
#[derive(Clone, Copy, Drop)]
pub(crate) struct OpenNode {
    id: NodeId,
    implied: bool,
    surroundings: Surroundings,
}

/// Why the reader stops. The place of a fault is given by how many bytes are left from there on.
#[derive(Drop)]
pub(crate) enum Stop {
    Memory,
    Refused { left: usize, kind: FaultKind },
}

impl From<AllocError> for Stop {
    ghost from_gives = { λ _ e. e ≡ Memory };

    fn from(_e: AllocError) -> Stop {
        Stop::Memory
    }
}

impl<T: Drop> From<AllocFailed<T>> for Stop {
    ghost from_gives = { λ _ e. e ≡ Memory };

    fn from(_e: AllocFailed<T>) -> Stop {
        Stop::Memory
    }
}

/// What a node is that the reader adds.
#[derive(Drop)]
pub(crate) enum NewNode<'a> {
    Text(&'a str),
    OwnedText(String),
    Comment(&'a str),
    Element {
        name: &'a str,
        attrs: Vec<Attribute>,
    },
}

/// A new last child of a node of the tree, a Document or an element.
fn add_new(tree: &mut Tree, parent: NodeId, node: NewNode<'_>) -> Result<NodeId, TreeError>
    requires within { parent < length tree.old }
    requires holds { IsTrue (holds_children (data_at tree.old parent)) }
    ensures id { IfOk result (λ id. id ≡ length tree.old) }
    ensures ok { OnOk result (tree.new ≡ tree.old ++ new_item tree.old parent (data_of_new node.entry) ∷ []) }
    ensures too_deep { IsErrOf result TreeError.TooDeep
        ↔ (greatest_depth ≤ depth_at tree.old parent) }
{
    match node {
        NewNode::Text(text) => tree.add_text(parent, text),
        NewNode::OwnedText(text) => tree.add_owned_text(parent, text),
        NewNode::Comment(text) => tree.add_comment(parent, text),
        NewNode::Element { name, attrs } => tree.add_element(parent, name, attrs),
    }
}

/// The tree so far, the open elements, outermost first, and the text that is left.
#[derive(Drop)]
pub(crate) struct Reader<'a> {
    alloc: Global,
    tree: Tree,
    stack: Vec<OpenNode>,
    rest: &'a str,
    scripting: bool,
}

impl<'a> Reader<'a> {
    /// What is kept of the innermost open element.
    fn top(&self) -> OpenNode
        requires reading { IsReading self.now }
        ensures top { (has_doctype : Bool) (f : OpenElement) (fs : List OpenElement)
            → Holds self.now has_doctype (f ∷ fs)
            → result ≡ open_node self.now.scripting has_doctype f fs }
        ensures within { result.id < length self.now.tree }
        ensures element { IsTrue (holds_children (data_at self.now.tree result.id)) }
    {
        self.stack[self.stack.len() - 1]
    }

    /// The name of the innermost open element.
    fn innermost_name(&self) -> &str
        requires reading { IsReading self.now }
        ensures { WhateverIsOpen self.now (λ has_doctype fs. result.now ≡ innermost_name fs) }
    {
        match self.tree.data(self.top().id) {
            NodeData::Element { name, .. } => name.as_str(),
            _ => "",
        }
    }

    /// Whether a node in the innermost open element would be too deep.
    fn is_too_deep(&self) -> bool
        requires reading { IsReading self.now }
        ensures { WhateverIsOpen self.now (λ has_doctype fs.
            result ≡ is_too_deep (rules_of self.now) above_body fs) }
    {
        self.tree.depth(self.top().id) >= MAX_DEPTH
    }

    /// The stop for a fault where the text that is left begins.
    fn refused(&self, kind: FaultKind) -> Stop
        ensures { result ≡ Refused (length self.now.rest.now) kind }
    {
        Stop::Refused {
            left: self.rest.len(),
            kind,
        }
    }

    /// A new node in the innermost open element.
    fn add_node(&mut self, node: NewNode<'_>) -> Result<NodeId, Stop>
        requires reading { IsReading self.old }
        ensures ok { IfOk result (λ id. WhateverIsOpen self.old (λ has_doctype fs.
            HasAdded self.old self.new has_doctype fs (data_of_new node.entry) id)) }
        ensures err { IfErr result (λ stop. WhateverIsOpen self.old (λ has_doctype fs.
            StopsDeep self.old fs stop)) }
        ensures stack { self.new.stack.items ≡ self.old.stack.items }
        ensures rest { self.new.rest.now ≡ self.old.rest.now }
        ensures scripting { self.new.scripting ≡ self.old.scripting }
    {
        let parent = self.top().id;
        match add_new(&mut self.tree, parent, node) {
            Ok(id) => Ok(id),
            Err(TreeError::TooDeep) => Err(self.refused(FaultKind::TooDeep)),
            Err(TreeError::Memory) => Err(Stop::Memory),
        }
    }

    /// A new node without children in the innermost open element; `rest` is what is left then.
    fn add_leaf(&mut self, node: NewNode<'_>, rest: &'a str) -> Result<(), Stop>
        requires reading { IsReading self.old }
        requires leaf { IsLeaf (data_of_new node) }
        ensures follows { Steps self.old self.new result
            (λ fs. add (rules_of self.old) above_body fs (leaf (data_of_new node.entry)) rest.now) }
        ensures reading { OnOk result (IsReading self.new) }
    {
        self.add_node(node)?;
        self.rest = rest;
        Ok(())
    }

    /// A new element in the innermost open element; it is then the innermost one.
    fn open_node(
        &mut self,
        name: &str,
        known: KnownName,
        attrs: Vec<Attribute>,
        implied: bool,
    ) -> Result<(), Stop>
        requires reading { IsReading self.old }
        requires known { known ≡ known_name name.now }
        requires may_open { WhateverIsOpen self.old (λ has_doctype fs.
            MayOpen name.now implied fs) }
        ensures follows { Steps self.old self.new result
            (λ fs. if is_too_deep (rules_of self.old) above_body fs then fault TooDeep
            else between (fresh name.now (pairs_of attrs.items) implied ∷ fs) self.old.rest.now) }
        ensures rest { self.new.rest.now ≡ self.old.rest.now }
    {
        let surroundings = self.top().surroundings.inner(known, self.scripting);
        let id = self.add_node(NewNode::Element { name, attrs })?;
        self.stack.push(OpenNode {
            id,
            implied,
            surroundings,
        })?;
        Ok(())
    }

    /// A new element in the innermost open element; it is then the innermost one, and `rest` is what is left.
    fn open_element(
        &mut self,
        name: &str,
        known: KnownName,
        attrs: Vec<Attribute>,
        rest: &'a str,
    ) -> Result<(), Stop>
        requires reading { IsReading self.old }
        requires known { known ≡ known_name name.now }
        ensures follows { Steps self.old self.new result
            (λ fs. if is_too_deep (rules_of self.old) above_body fs then fault TooDeep
            else between (fresh name.now (pairs_of attrs.items) false ∷ fs) rest.now) }
        ensures reading { OnOk result (IsReading self.new) }
    {
        self.open_node(name, known, attrs, false)?;
        self.rest = rest;
        Ok(())
    }

    /// An implied `tbody` in the innermost open element, a `table`.
    fn open_implied_body(&mut self) -> Result<(), Stop>
        requires reading { IsReading self.old }
        requires table { WhateverIsOpen self.old (λ has_doctype fs. is_table (innermost_name fs) ≡ true) }
        ensures follows { Steps self.old self.new result
            (λ fs. if is_too_deep (rules_of self.old) above_body fs then fault TooDeep
            else between (fresh (codes "tbody") [] true ∷ fs) self.old.rest.now) }
        ensures reading { OnOk result (IsReading self.new) }
    {
        let name = "tbody";
        self.open_node(name, known_name(name), Vec::new(self.alloc), true)
    }

    /// Closes the innermost open element, which isn't the outermost; `rest` is what is left then.
    fn close_element(&mut self, rest: &'a str)
        requires reading { IsReading self.old }
        requires inner { 1 < length self.old.stack.items }
        ensures holds { (has_doctype : Bool) (f g : OpenElement) (fs : List OpenElement)
            → Holds self.old has_doctype (f ∷ g ∷ fs)
            → Holds self.new has_doctype (with_tree (g ∷ fs) (closed f)) }
        ensures rest { self.new.rest.now ≡ rest.now }
        ensures scripting { self.new.scripting ≡ self.old.scripting }
        ensures reading { IsReading self.new }
    {
        let _ = self.stack.pop();
        self.rest = rest;
    }
}

/// Whether U+0000 is among the bytes. All are looked at, so that a processor can compare many at once.
fn holds_null(bytes: &[u8]) -> bool
    ensures { result ≡ list_any (λ b. b == null) bytes.now }
{
    let mut holds = false;
    for byte in bytes {
        holds |= *byte == 0;
    }
    holds
}

#[tactic(auto, using(crate::proofs::DocumentsLemmas::null_nowhere))]
/// Where the first U+0000 is.
fn first_null(text: &str) -> Option<usize>
    ensures { result ≡ position (λ b. b == null) text.now }
{
    if !holds_null(text.as_bytes()) {
        return None;
    }
    text.as_bytes().iter().position(|b| *b == 0)
}

/// The tree that a text denotes by the strict grammar, with scripting on or off: the Document, a Doctype if the text
/// begins with one, `html` with an empty `head`, and `body` with the content. `Refused` for each text that denotes no
/// tree, with the byte place and the kind of its first fault; `Memory` when out of memory.
pub fn read_html(alloc: Global, text: &str, scripting: bool) -> Result<Tree, ReadError>
    ensures ok { IfOk result (λ tree. (children : ValueForest) × (tree ≡ document_items children)
        × ReadsDocument (project scripting) text.now (document children)) }
    ensures refused { (place : ℕ) (kind : FaultKind) → result ≡ Err (ReadError.Refused place kind)
        → (t : ValueTree) → ReadsDocument (project scripting) text.now t → ⊥ }
    ensures right { (place : ℕ) (kind : FaultKind) → result ≡ Err (ReadError.Refused place kind)
        → IsFault (project scripting) text.now place kind }
{
    steps_read_the_grammar();
    faults_are_right();
    if let Some(place) = first_null(text) {
        return Err(ReadError::Refused {
            place,
            kind: FaultKind::Nul,
        });
    }
    let mut reader = match Reader::new(alloc, text, scripting) {
        Ok(reader) => reader,
        Err(TreeError::Memory) => return Err(ReadError::Memory),
        Err(TreeError::TooDeep) => unreachable!(),
    };
    match reader.read_content() {
        Ok(()) => Ok(reader.tree),
        Err(Stop::Memory) => Err(ReadError::Memory),
        Err(Stop::Refused { left, kind }) => Err(ReadError::Refused {
            place: text.len() - left,
            kind,
        }),
    }
}
