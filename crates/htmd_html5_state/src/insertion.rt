//! How nodes are inserted.
ghost use Rattle.std.specs.Prelude.{◌≡◌, IfOk, OnOk, length, string_bytes};
ghost use Rattle.htmd_html5_state.specs.Nodes.{parent_at};
ghost use Rattle.htmd_html5_state.specs.Foreign as foreign;
ghost use Rattle.htmd_html5_state.specs.Insertion as spec;
ghost use Rattle.htmd_html5_state.specs.Names.{name_of, element_name_of, html, known};
ghost use Rattle.htmd_html5_state.specs.OpenViews.{stack_of};
ghost use Rattle.htmd_lexical.specs.Attributes.{pairs_of};

use crate::document::{Document, NodeKind, Place, last_in};
use crate::foreign::{foreign_attributes, foreign_name};
use crate::names::{ElementName, HtmlName, Namespace, TagName};
use crate::open_elements::{OpenElement, split_innermost};
use crate::sets::NameSet;
use crate::state::HtmlState;
use htmd_lexical::{Attribute, ContentModel, RawElement};
use std::alloc::AllocError;

/// The place by a table: before it in its parent, or else in the element that is open around it.
fn place_by_table(document: &Document, table: usize, around: usize) -> Place
    ensures { result ≡ spec.place_by_table table around (parent_at document.now table) }
{
    match document.parent(table) {
        Some(parent) => Place {
            parent,
            next: Some(table),
        },
        None => last_in(around),
    }
}

/// The place for a node that a table doesn't hold: by the innermost `template` or table.
fn foster_place(document: &Document, elements: &[OpenElement]) -> Place
    ensures { result ≡ spec.foster_place document.now (stack_of elements.now) }
{
    let mut rest = elements;
    while let Some((outer, element)) = split_innermost(rest) {
        let Some((_, around)) = split_innermost(outer) else {
            return last_in(element.node);
        };
        if element.name.is_tag(TagName::Template) {
            return last_in(element.node);
        }
        if element.name.is_tag(TagName::Table) {
            return place_by_table(document, element.node, around.node);
        }
        rest = outer;
    }
    last_in(0)
}

impl HtmlState {
    /// The appropriate place for a node.
    pub(crate) fn place(&self) -> Place
        ensures { result ≡ spec.place self.now }
    {
        if self.foster_parenting && self.stack.current_is(NameSet::Fostering) {
            return foster_place(&self.document, self.stack.as_slice());
        }
        last_in(self.stack.current_node())
    }

    /// Inserts text, at the end of the text before it if there is one. `Err` means out of memory.
    pub fn insert_text(&mut self, text: &str) -> Result<(), AllocError>
        ensures { OnOk result (self.new ≡ spec.insert_text text.now self.old) }
    {
        let place = self.place();
        self.document.add_text(text, place)
    }

    /// Inserts text that is handed over. `Err` means out of memory.
    pub fn insert_owned_text(&mut self, text: String) -> Result<(), AllocError>
        ensures { OnOk result (self.new ≡ spec.insert_text (string_bytes text) self.old) }
    {
        let place = self.place();
        self.document.add_owned_text(text, place)
    }

    /// Inserts a comment as the last child of a node. `Err` means out of memory.
    pub fn insert_comment_in(&mut self, parent: usize, text: String) -> Result<(), AllocError>
        ensures { OnOk result (self.new
            ≡ spec.insert_comment_in parent (string_bytes text) self.old) }
    {
        self.document.add(NodeKind::Comment(text), last_in(parent))?;
        Ok(())
    }

    /// Inserts a comment in the current node. `Err` means out of memory.
    pub fn insert_comment(&mut self, text: String) -> Result<(), AllocError>
        ensures { OnOk result (self.new ≡ spec.insert_comment (string_bytes text) self.old) }
    {
        let parent = self.stack.current_node();
        self.insert_comment_in(parent, text)
    }

    /// Inserts a doctype in the Document. `Err` means out of memory.
    pub fn insert_doctype(&mut self) -> Result<(), AllocError>
        ensures { OnOk result (self.new ≡ spec.insert_doctype self.old) }
    {
        self.document.add(NodeKind::Doctype, last_in(0))?;
        Ok(())
    }

    /// Inserts an element with a name of HTML that a rule mentions, which is then open. Gives its node.
    fn insert_known(
        &mut self,
        place: Place,
        tag: TagName,
        attributes: Vec<Attribute>,
    ) -> Result<usize, AllocError>
        ensures number { IfOk result (λ n. n ≡ length self.old.nodes) }
        ensures ok { OnOk result (self.new
            ≡ spec.insert_at place (html (known tag)) (pairs_of attributes.items) self.old) }
    {
        let kind = NodeKind::Known {
            name: tag,
            attributes,
        };
        let node = self.document.add(kind, place)?;
        self.stack
            .push(node, ElementName::Html(HtmlName::Known(tag)))?;
        Ok(node)
    }

    /// Inserts an element at a place, which is then open. Gives its node.
    #[inline(always)]
    fn insert_at(
        &mut self,
        place: Place,
        name: ElementName,
        attributes: Vec<Attribute>,
    ) -> Result<usize, AllocError>
        ensures number { IfOk result (λ n. n ≡ length self.old.nodes) }
        ensures ok { OnOk result (self.new
            ≡ spec.insert_at place (element_name_of name) (pairs_of attributes.items) self.old) }
    {
        if let ElementName::Html(HtmlName::Known(tag)) = name {
            return self.insert_known(place, tag, attributes);
        }
        let open_name = name.copy()?;
        let kind = NodeKind::element(self.alloc, name, attributes)?;
        let node = self.document.add(kind, place)?;
        self.stack.push(node, open_name)?;
        Ok(node)
    }

    /// Inserts an element of any namespace, which is then open. Gives its node.
    #[inline(always)]
    pub(crate) fn insert_named(
        &mut self,
        name: ElementName,
        attributes: Vec<Attribute>,
    ) -> Result<usize, AllocError>
        ensures number { IfOk result (λ n. n ≡ length self.old.nodes) }
        ensures ok { OnOk result (self.new
            ≡ spec.insert_named (element_name_of name) (pairs_of attributes.items) self.old) }
    {
        let place = self.place();
        self.insert_at(place, name, attributes)
    }

    /// Inserts an element of HTML, which is then open. Gives its node. `Err` means out of memory.
    pub fn insert_element(
        &mut self,
        name: HtmlName,
        attributes: Vec<Attribute>,
    ) -> Result<usize, AllocError>
        ensures number { IfOk result (λ n. n ≡ length self.old.nodes) }
        ensures ok { OnOk result (self.new
            ≡ spec.insert_element (name_of name) (pairs_of attributes.items) self.old) }
    {
        self.insert_named(ElementName::Html(name), attributes)
    }

    /// Inserts the element `html` in the Document; it is then open. `Err` means out of memory.
    pub fn insert_root(
        &mut self,
        name: HtmlName,
        attributes: Vec<Attribute>,
    ) -> Result<(), AllocError>
        ensures { OnOk result (self.new
            ≡ spec.insert_root (name_of name) (pairs_of attributes.items) self.old) }
    {
        self.insert_at(last_in(0), ElementName::Html(name), attributes)?;
        Ok(())
    }

    /// Inserts an element of HTML that is closed at once. `Err` means out of memory.
    pub fn insert_void(
        &mut self,
        name: HtmlName,
        attributes: Vec<Attribute>,
    ) -> Result<(), AllocError>
        ensures { OnOk result (self.new
            ≡ spec.insert_void (name_of name) (pairs_of attributes.items) self.old) }
    {
        self.insert_element(name, attributes)?;
        self.stack.pop();
        Ok(())
    }

    /// Inserts an element of only text. `Err` means out of memory.
    pub fn insert_raw(
        &mut self,
        name: HtmlName,
        element: RawElement,
        attributes: Vec<Attribute>,
    ) -> Result<(), AllocError>
        ensures { OnOk result (self.new
            ≡ spec.insert_raw (name_of name) element (pairs_of attributes.items) self.old) }
    {
        self.insert_element(name, attributes)?;
        self.set_content(ContentModel::Raw(element));
        Ok(())
    }

    /// Inserts a foreign element with this tag name, closed at once if the tag ends in `/>`. `Err` means out of memory.
    pub fn insert_foreign(
        &mut self,
        namespace: Namespace,
        name: &str,
        attributes: Vec<Attribute>,
        self_closing: bool,
    ) -> Result<(), AllocError>
        ensures { OnOk result (self.new
            ≡ foreign.insert_foreign namespace name.now (pairs_of attributes.items) self_closing self.old) }
    {
        let name = foreign_name(self.alloc, namespace, name)?;
        let attributes = foreign_attributes(self.alloc, namespace, attributes)?;
        self.insert_named(name, attributes)?;
        if self_closing {
            self.stack.pop();
        }
        Ok(())
    }
}
