//! The state of tree construction, and the steps that change one part of it.
ghost use Rattle.std.specs.Prelude.{◌≡◌, ◌<◌, ◌^◌, IfOk, OnOk, length};
ghost use Rattle.htmd_html5_state.specs.Nodes as documents;
ghost use Rattle.htmd_html5_state.specs.Formatting as list;
ghost use Rattle.htmd_html5_state.specs.Insertion as insertion;
ghost use Rattle.htmd_html5_state.specs.Names.{name_of};
ghost use Rattle.htmd_html5_state.specs.OpenElements as elements;
ghost use Rattle.htmd_html5_state.specs.Resetting as resetting;
ghost use Rattle.htmd_html5_state.specs.AppendedTexts as appends;
ghost use Rattle.htmd_html5_state.specs.State as spec;
ghost use Rattle.htmd_html5_state.specs.Views.{nodes_of};
ghost use Rattle.htmd_lexical.specs.Attributes.{pairs_of};

use crate::document::{Document, Node};
use crate::formatting_list::FormattingList;
use crate::modes::InsertionMode;
use crate::names::{ElementName, HtmlName};
use crate::open_elements::OpenElements;
use crate::sets::{NameSet, Scope};
use htmd_lexical::{Attribute, ContentModel};
use std::alloc::{AllocError, Global};
use std::marker::Model;

/// The state of tree construction. An `Err` of a method means out of memory; the state is then unknown.
#[derive(Drop)]
pub struct HtmlState {
    pub(crate) alloc: Global,
    pub(crate) document: Document,
    pub(crate) stack: OpenElements,
    pub(crate) formatting: FormattingList,
    mode: InsertionMode,
    /// Outermost first.
    template_modes: Vec<InsertionMode>,
    head: Option<usize>,
    form: Option<usize>,
    frameset_ok: bool,
    pub(crate) foster_parenting: bool,
    quirks: bool,
    scripting: bool,
    content: ContentModel,
    skips_line_feed: bool,
}

impl Model for HtmlState {
    ghost use Rattle.htmd_html5_state.specs.State.{StateValue};

    ghost Value = { StateValue };

    ghost use Rattle.htmd_html5_state.specs.StateViews.{state_of};

    ghost view = { state_of };
}

impl HtmlState {
    /// The state before the first token, with memory for this many nodes. `Err` means out of memory.
    pub fn with_capacity(
        alloc: Global,
        scripting: bool,
        nodes: usize,
    ) -> Result<HtmlState, AllocError>
        ensures { IfOk result (λ s. s ≡ spec.initial_state scripting) }
    {
        Ok(HtmlState {
            alloc,
            document: Document::with_capacity(alloc, nodes)?,
            stack: OpenElements::new(alloc),
            formatting: FormattingList::new(alloc),
            mode: InsertionMode::Initial,
            template_modes: Vec::new(alloc),
            head: None,
            form: None,
            frameset_ok: true,
            foster_parenting: false,
            quirks: false,
            scripting,
            content: ContentModel::Normal,
            skips_line_feed: false,
        })
    }

    /// The nodes by number; 0 is the Document.
    pub fn into_nodes(self) -> Vec<Node>
        ensures { nodes_of result.items ≡ self.nodes }
    {
        self.document.into_nodes()
    }

    /// The insertion mode.
    pub fn mode(&self) -> InsertionMode
        ensures { result ≡ self.now.mode }
    {
        self.mode
    }

    /// Whether scripting is on.
    pub fn scripting(&self) -> bool
        ensures { result ≡ self.now.scripting }
    {
        self.scripting
    }

    /// Whether a `frameset` may still take the place of the body.
    pub fn frameset_ok(&self) -> bool
        ensures { result ≡ self.now.frameset_ok }
    {
        self.frameset_ok
    }

    /// Whether the page is in quirks mode.
    pub fn quirks(&self) -> bool
        ensures { result ≡ self.now.quirks }
    {
        self.quirks
    }

    /// How the tokenizer reads on.
    pub fn content(&self) -> ContentModel
        ensures { result ≡ self.now.content }
    {
        self.content
    }

    /// Whether a line feed that comes next is dropped.
    pub fn skips_line_feed(&self) -> bool
        ensures { result ≡ self.now.skips_line_feed }
    {
        self.skips_line_feed
    }

    /// The node of `head`.
    pub fn head(&self) -> Option<usize>
        ensures { result ≡ self.now.head }
    {
        self.head
    }

    /// The node of the form that is open.
    pub fn form(&self) -> Option<usize>
        ensures { result ≡ self.now.form }
    {
        self.form
    }

    pub fn set_mode(&mut self, value: InsertionMode)
        ensures { self.new ≡ record self.old { mode = value } }
    {
        self.mode = value;
    }

    pub fn set_frameset_ok(&mut self, value: bool)
        ensures { self.new ≡ record self.old { frameset_ok = value } }
    {
        self.frameset_ok = value;
    }

    pub fn set_foster_parenting(&mut self, value: bool)
        ensures { self.new ≡ record self.old { foster_parenting = value } }
    {
        self.foster_parenting = value;
    }

    pub fn set_quirks(&mut self, value: bool)
        ensures { self.new ≡ record self.old { quirks = value } }
    {
        self.quirks = value;
    }

    pub fn set_content(&mut self, value: ContentModel)
        ensures { self.new ≡ record self.old { content = value } }
    {
        self.content = value;
    }

    pub fn set_skips_line_feed(&mut self, value: bool)
        ensures { self.new ≡ record self.old { skips_line_feed = value } }
    {
        self.skips_line_feed = value;
    }

    pub fn set_head(&mut self, value: Option<usize>)
        ensures { self.new ≡ record self.old { head = value } }
    {
        self.head = value;
    }

    pub fn set_form(&mut self, value: Option<usize>)
        ensures { self.new ≡ record self.old { form = value } }
    {
        self.form = value;
    }

    /// Whether a `template` is being read.
    pub fn has_template_modes(&self) -> bool
        ensures { result ≡ resetting.has_modes self.now.template_modes }
    {
        !self.template_modes.is_empty()
    }

    /// The innermost template insertion mode.
    pub fn template_mode(&self) -> InsertionMode
        ensures { result ≡ resetting.template_mode self.now.template_modes }
    {
        match self.template_modes.last() {
            Some(mode) => *mode,
            None => InsertionMode::InBody,
        }
    }

    /// Puts a template insertion mode on its stack. An `Err` means out of memory.
    pub fn push_template_mode(&mut self, mode: InsertionMode) -> Result<(), AllocError>
        ensures { OnOk result (self.new ≡ resetting.push_template_mode mode self.old) }
    {
        self.template_modes.push(mode)?;
        Ok(())
    }

    pub fn pop_template_mode(&mut self)
        ensures { self.new ≡ resetting.pop_template_mode self.old }
    {
        self.template_modes.pop();
    }

    /// The allocator for new texts and attributes.
    pub fn alloc(&self) -> Global {
        self.alloc
    }

    // ---- what is open

    /// How many elements are open.
    pub fn open_count(&self) -> usize
        ensures value { result ≡ length self.now.stack }
        ensures small { result < 2 ^ 63 }
    {
        self.stack.len()
    }

    /// Whether nothing is open.
    pub fn is_empty(&self) -> bool
        ensures { result ≡ elements.is_empty self.now.stack }
    {
        self.stack.is_empty()
    }

    /// Whether the current node is one of these.
    pub fn current_is(&self, set: NameSet) -> bool
        ensures { result ≡ elements.current_is set self.now.stack }
    {
        self.stack.current_is(set)
    }

    /// Whether the element around the current node is one of these.
    pub fn second_current_is(&self, set: NameSet) -> bool
        ensures { result ≡ elements.current_is set (elements.pop self.now.stack) }
    {
        self.stack.second_current_is(set)
    }

    /// Whether one of these is open.
    pub fn is_open(&self, set: NameSet) -> bool
        ensures { result ≡ elements.is_open set self.now.stack }
    {
        self.stack.is_open(set)
    }

    pub fn is_open_node(&self, node: usize) -> bool
        ensures { result ≡ elements.is_open_node node self.now.stack }
    {
        self.stack.is_open_node(node)
    }

    pub fn is_in_scope(&self, set: NameSet, scope: Scope) -> bool
        ensures { result ≡ elements.is_in_scope set scope self.now.stack }
    {
        self.stack.is_in_scope(set, scope)
    }

    /// Whether the node is open, and neither it nor what is open inside it bounds a scope.
    pub fn is_node_in_scope(&self, node: usize) -> bool
        ensures { result ≡ elements.is_node_in_scope node self.now.stack }
    {
        self.stack.is_node_in_scope(node)
    }

    /// The current node; the Document if nothing is open.
    pub fn current_node(&self) -> usize
        ensures { result ≡ (insertion.current self.now.stack).node }
    {
        self.stack.current_node()
    }

    /// The outermost open element.
    pub fn first_open(&self) -> Option<usize>
        ensures { result ≡ elements.first_open self.now.stack }
    {
        self.stack.first_open()
    }

    /// The element that is open right inside the outermost one, if it is one of these.
    pub fn second_open(&self, set: NameSet) -> Option<usize>
        ensures { result ≡ elements.second_open set self.now.stack }
    {
        self.stack.second_open(set)
    }

    /// Whether more than one element is open.
    pub fn has_second(&self) -> bool
        ensures { result ≡ elements.has_second self.now.stack }
    {
        self.stack.has_second()
    }

    // ---- elements are opened and closed

    /// Opens an element once more. `Err` means out of memory.
    pub fn reopen_node(&mut self, node: usize, name: HtmlName) -> Result<(), AllocError>
        ensures { OnOk result (self.new ≡ insertion.open_again node (name_of name) self.old) }
    {
        self.stack.push(node, ElementName::Html(name))
    }

    pub fn pop(&mut self)
        ensures { self.new ≡ spec.on_stack elements.pop self.old }
    {
        self.stack.pop();
    }

    /// Pops until one of these has been popped.
    pub fn pop_until(&mut self, set: NameSet)
        ensures { self.new ≡ spec.on_stack (elements.pop_until set) self.old }
    {
        self.stack.pop_until(set);
    }

    /// Clears the stack back to one of these.
    pub fn clear_to(&mut self, set: NameSet)
        ensures { self.new ≡ spec.on_stack (elements.clear_to set) self.old }
    {
        self.stack.clear_to(set);
    }

    /// Pops as long as the current node is one of these.
    pub fn pop_while(&mut self, set: NameSet)
        ensures { self.new ≡ spec.on_stack (elements.pop_while set) self.old }
    {
        self.stack.pop_while(set);
    }

    /// If one of these is in scope, pops until one has been popped. Gives whether one is.
    pub fn close(&mut self, set: NameSet, scope: Scope) -> bool
        ensures found { result ≡ elements.is_in_scope set scope self.old.stack }
        ensures closed { self.new ≡ spec.on_stack (elements.close set scope) self.old }
    {
        self.stack.close(set, scope)
    }

    /// What any other end tag closes.
    pub fn close_name(&mut self, name: &HtmlName)
        ensures { self.new ≡ spec.on_stack (elements.close_name (name_of name.now)) self.old }
    {
        self.stack.close_name(name);
    }

    /// Takes the element of a node off the stack.
    pub fn remove_open(&mut self, node: usize)
        ensures { self.new ≡ spec.on_stack (elements.without node) self.old }
    {
        self.stack.remove(node);
    }

    /// Pops all but the outermost.
    pub fn keep_outermost(&mut self)
        ensures { self.new ≡ spec.on_stack elements.outermost self.old }
    {
        self.stack.keep_outermost();
    }

    // ---- nodes are changed

    /// Takes a node out of its parent.
    pub fn detach(&mut self, node: usize)
        ensures { self.new ≡ spec.on_nodes (documents.detach node) self.old }
    {
        self.document.detach(node);
    }

    /// Gives an element the attributes that it doesn't have yet. `Err` means out of memory.
    pub fn add_missing(&mut self, node: usize, attributes: Vec<Attribute>) -> Result<(), AllocError>
        ensures { OnOk result (self.new
            ≡ spec.on_nodes (documents.add_missing node (pairs_of attributes.items)) self.old) }
    {
        self.document.add_missing(node, attributes)
    }

    // ---- the list of active formatting elements

    /// Puts a marker on the list of active formatting elements. An `Err` means out of memory.
    pub fn push_marker(&mut self) -> Result<(), AllocError>
        ensures { OnOk result (self.new ≡ list.push_marker self.old) }
    {
        self.formatting.push_marker()
    }

    /// Removes everything up to the last marker, and the marker too.
    pub fn clear_to_marker(&mut self)
        ensures { self.new ≡ list.clear_to_marker self.old }
    {
        self.formatting.clear_to_marker();
    }

    /// Whether nothing is to be reconstructed, and text goes to the end of the current node.
    pub fn appends_text(&self) -> bool
        ensures { result ≡ appends.appends_text self.now }
    {
        !self.foster_parenting
            && self.formatting.is_reconstructed(&self.stack)
            && self.stack.current_node() < self.document.len()
    }

    pub fn is_listed(&self, node: usize) -> bool
        ensures { result ≡ list.is_listed node self.now.formatting }
    {
        self.formatting.is_listed(node)
    }

    pub fn remove_formatting(&mut self, node: usize)
        ensures { self.new ≡ spec.on_formatting (list.without_entry node) self.old }
    {
        self.formatting.remove(node);
    }
}
