//! The parts of a list of terms and what they mean.
ghost use Rattle.std.specs.Prelude.{◌≡◌, ◌&&◌, ◌++◌, ◌∷◌, [], List, false, not, map, IfNone, IfOk, OnOk};
ghost use Rattle.std.specs.List.{list_any};
ghost use Rattle.std.specs.Option.{option_to_list};
ghost use Rattle.htmd_shown.specs.Kinds.{has};
ghost use Rattle.htmd_shown.specs.Roles as roles;
ghost use Rattle.htmd_shown.specs.SimpleViews.{simple_of, simples_of};
ghost use Rattle.htmd_flow.specs.Flows as flow;
ghost use Rattle.htmd_flow.specs.FlowViews.{node_at, nodes_at};
ghost use Rattle.htmd_flow.specs.ListViews as lists;
ghost use Rattle.htmd_flow.specs.ParagraphViews.{writing_in};
ghost use Rattle.htmd_flow.specs.Paragraphs.{fed_all};
ghost use Rattle.htmd_flow.specs.Parts.{Part};
ghost use Rattle.htmd_flow.specs.Terms as spec;
ghost use Rattle.htmd_flow.specs.TermViews as views;

use crate::list::ListItem;
use crate::node::is_division;
use crate::paragraphs::Paragraphs;
use htmd_shown::{Simple, content_of, is_meaning, is_term};
use std::alloc::{AllocError, Global};

/// Whether a node is a term or says what one means.
pub(crate) fn is_term_or_meaning(node: &Simple) -> bool
    ensures { result ≡ spec.is_term_or_meaning (simple_of node.now) }
{
    is_term(node) || is_meaning(node)
}

/// Whether a term or a meaning is among these.
fn holds_terms(content: &[Simple]) -> bool
    ensures { result ≡ list_any spec.is_term_or_meaning (map simple_of content.now) }
{
    for node in content {
        if is_term_or_meaning(node) {
            return true;
        }
    }
    false
}

/// Whether a node is a `div` that holds terms or meanings.
pub(crate) fn is_group(node: &Simple) -> bool
    ensures { result ≡ spec.is_group (simple_of node.now) }
{
    is_division(node) && holds_terms(content_of(node))
}

/// Whether a term still belongs to the last item after a node.
fn goes_on_after(goes_on: bool, node: &Simple) -> bool
    ensures { result ≡ (goes_on && not (has roles.is_meaning (simple_of node.now))) }
{
    goes_on && !is_meaning(node)
}

/// What is among the parts of a list of terms.
#[derive(Clone, Copy)]
pub(crate) struct TermKinds {
    pub(crate) has_terms: bool,
    pub(crate) has_meanings: bool,
}

impl TermKinds {
    const NONE: TermKinds = TermKinds {
        has_terms: false,
        has_meanings: false,
    };

    /// With one more node.
    fn with_node(self, node: &Simple) -> TermKinds
        ensures { result ≡ views.with_parts self (flow.of_node (node_at node.now) ∷ []) }
    {
        TermKinds {
            has_terms: self.has_terms | is_term(node),
            has_meanings: self.has_meanings | is_meaning(node),
        }
    }

    /// With these nodes.
    fn with_nodes(self, nodes: &[Simple]) -> TermKinds
        ensures { result ≡ views.with_parts self (map flow.of_node (nodes_at nodes.now)) }
    {
        let mut kinds = self;
        for node in nodes {
            kinds = kinds.with_node(node);
        }
        kinds
    }

    /// With the parts that a child of a `dl` is: of a group what is in it.
    fn with_part(self, node: &Simple) -> TermKinds
        ensures { result ≡ views.with_parts self (views.parts_at (simple_of node.now)) }
    {
        if is_group(node) {
            self.with_nodes(content_of(node))
        } else {
            self.with_node(node)
        }
    }

    /// Of the parts of a `dl`.
    pub(crate) fn of(content: &[Simple]) -> TermKinds
        ensures { result ≡ views.kinds_of (flow.terms_of (simples_of content.now)) }
    {
        let mut kinds = TermKinds::NONE;
        for node in content {
            kinds = kinds.with_part(node);
        }
        kinds
    }
}

/// An item of a list of terms. `Err` means out of memory.
fn item_of(item: Paragraphs) -> Result<ListItem, AllocError>
    ensures { IfOk result (λ made. lists.item_of made ≡ flow.term_item (writing_in item)) }
{
    let blocks = item.finish()?;
    Ok(ListItem {
        value: None,
        has_paragraph: false,
        blocks,
    })
}

/// Items of a list of terms that are begun.
#[derive(Drop)]
pub(crate) struct TermItems {
    pub(crate) open: Vec<Paragraphs>,
    /// Whether a term now belongs to the last item.
    pub(crate) goes_on: bool,
    /// Whether terms that follow each other share an item: where there are meanings.
    pub(crate) has_meanings: bool,
}

impl TermItems {
    /// None yet.
    pub(crate) fn new(alloc: Global, has_meanings: bool) -> TermItems
        ensures open { result.open.items ≡ [] }
        ensures goes_on { result.goes_on ≡ false }
        ensures has_meanings { result.has_meanings ≡ has_meanings }
    {
        TermItems {
            open: Vec::new(alloc),
            goes_on: false,
            has_meanings,
        }
    }

    /// The item that a term belongs to: the last one, or a new one.
    pub(crate) fn take_for_term(&mut self, alloc: Global) -> Paragraphs
        ensures items { (parts : List Part) → map writing_in self.new.open.items
            ++ fed_all (writing_in result) parts ∷ []
            ≡ views.with_term self.old.goes_on (map writing_in self.old.open.items) parts }
        ensures goes_on { self.new.goes_on ≡ self.old.has_meanings }
        ensures has_meanings { self.new.has_meanings ≡ self.old.has_meanings }
    {
        let goes_on = self.goes_on;
        self.goes_on = self.has_meanings;
        if goes_on {
            if let Some(item) = self.open.pop() {
                return item;
            }
        }
        Paragraphs::new(alloc, true, false)
    }

    /// The item that a node belongs to that is no term: the last one, if there is one.
    pub(crate) fn take_for_node(&mut self, node: &Simple) -> Option<Paragraphs>
        ensures items { self.old.open.items ≡ self.new.open.items ++ option_to_list result }
        ensures empty { IfNone result (self.new.open.items ≡ []) }
        ensures goes_on { self.new.goes_on ≡ (self.old.goes_on && not (has roles.is_meaning (simple_of node.now))) }
        ensures has_meanings { self.new.has_meanings ≡ self.old.has_meanings }
    {
        self.goes_on = goes_on_after(self.goes_on, node);
        self.open.pop()
    }

    /// One more item, at the end. `Err` means out of memory.
    pub(crate) fn put(&mut self, item: Paragraphs) -> Result<(), AllocError>
        ensures open { OnOk result (self.new.open.items ≡ self.old.open.items ++ item ∷ []) }
        ensures goes_on { OnOk result (self.new.goes_on ≡ self.old.goes_on) }
        ensures has_meanings { OnOk result (self.new.has_meanings ≡ self.old.has_meanings) }
    {
        self.open.push(item)?;
        Ok(())
    }

    /// The items. `Err` means out of memory.
    pub(crate) fn finish(self, alloc: Global) -> Result<Vec<ListItem>, AllocError>
        ensures { IfOk result (λ made. map lists.item_of made.items
            ≡ map flow.term_item (map writing_in self.open.items)) }
    {
        let mut items = Vec::with_capacity(alloc, self.open.len())?;
        for item in self.open {
            let made = item_of(item)?;
            items.push(made)?;
        }
        Ok(items)
    }
}
