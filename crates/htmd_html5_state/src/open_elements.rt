//! The stack of open elements.
ghost use Rattle.std.specs.Prelude.{◌≡◌, ◌-◌, ◌<◌, ◌≤◌, ◌^◌, ◌∷◌, ◌++◌, [], length, drop, take, remove, vec_len};
ghost use Rattle.std.specs.Prelude.{false, IfOk, OnOk, IfSome, MatchOption, option_map};
ghost use Rattle.std.specs.List.{list_any};
ghost use Rattle.htmd_html5_state.specs.Foreign.{is_html};
ghost use Rattle.htmd_html5_state.specs.ForeignPlaces.{is_spelled};
ghost use Rattle.htmd_html5_state.specs.Names.{element_name_of, name_of, html};
ghost use Rattle.htmd_html5_state.specs.OpenElements as spec;
ghost use Rattle.htmd_html5_state.specs.Insertion as insertion;
ghost use Rattle.htmd_html5_state.specs.Adoption as adoption;
ghost use Rattle.htmd_html5_state.specs.Places.{IsPlaced, AllHaveRoom, innermost, back_to, bounds_in, has_one};
ghost use Rattle.htmd_html5_state.specs.OpenViews.{open_of, all_open_of, stack_of, furthest_of, is_special};
ghost use Rattle.htmd_html5_state.specs.OpenViews.{IsInnermost, IsFirstSpecial};

use crate::names::{ElementName, HtmlName, TagName};
use crate::places::{Places, is_from};
use crate::sets::{NameSet, Scope};
use std::alloc::{AllocError, Global};
use std::marker::Model;

/// An open element: its node and its name.
#[derive(Drop)]
pub(crate) struct OpenElement {
    pub(crate) node: usize,
    pub(crate) name: ElementName,
}

/// The open elements, outermost first, and their places.
#[derive(Drop)]
pub(crate) struct OpenElements {
    elements: Vec<OpenElement>,
    places: Places,
}

impl Model for OpenElements {
    ghost use Rattle.std.specs.Prelude.{List};
    ghost use Rattle.htmd_html5_state.specs.OpenElements.{OpenValue};

    ghost Value = { List OpenValue };

    ghost use Rattle.htmd_html5_state.specs.OpenViews.{stack_of};

    ghost view = { λ o. stack_of o.elements.items };

    ghost use Rattle.htmd_html5_state.specs.Places.{IsPlaced};

    ghost invariant = { λ o. IsPlaced o.places (stack_of o.elements.items) };
}

/// The furthest block, what is open inside it, and what is open around it, each outermost first.
#[derive(Drop)]
pub(crate) struct Furthest {
    pub(crate) inner: Vec<OpenElement>,
    pub(crate) block: OpenElement,
    pub(crate) between: Vec<OpenElement>,
}

/// The innermost element, and those around it.
pub(crate) fn split_innermost(elements: &[OpenElement]) -> Option<(&[OpenElement], &OpenElement)>
    ensures stack { MatchOption result (stack_of elements.now ≡ [])
        (λ p. stack_of elements.now ≡ open_of p.1.now ∷ stack_of p.0.now) }
    ensures parts { MatchOption result (elements.now ≡ [])
        (λ p. elements.now ≡ p.0.now ++ p.1.now ∷ []) }
    ensures shorter { IfSome result (λ p. length p.0.now < length elements.now) }
{
    match elements {
        [outer @ .., element] => Some((outer, element)),
        [] => None,
    }
}

/// The place of the innermost element with this node.
fn position(elements: &[OpenElement], node: usize) -> Option<usize>
    ensures { MatchOption result (spec.is_open_node node (stack_of elements.now) ≡ false)
        (λ i. IsInnermost node elements.now i) }
{
    let mut rest = elements;
    while let Some((outer, element)) = split_innermost(rest) {
        if element.node == node {
            return Some(outer.len());
        }
        rest = outer;
    }
    None
}

/// The place of the outermost special element.
fn first_special(elements: &[OpenElement]) -> Option<usize>
    ensures { MatchOption result (list_any is_special elements.now ≡ false)
        (λ i. IsFirstSpecial elements.now i) }
{
    for (i, element) in elements.iter().enumerate() {
        if Scope::Special.is_bound(&element.name) {
            return Some(i);
        }
    }
    None
}

/// The furthest block among what is open inside a formatting element.
pub(crate) fn furthest_block(mut inside: Vec<OpenElement>) -> Result<Option<Furthest>, AllocError>
    ensures { IfOk result (λ f. option_map furthest_of f
        ≡ adoption.furthest_block (stack_of inside.items)) }
{
    let Some(index) = first_special(&inside) else {
        return Ok(None);
    };
    let inner = inside.split_off(index + 1)?;
    match inside.pop() {
        Some(block) => Ok(Some(Furthest {
            inner,
            block,
            between: inside,
        })),
        None => Ok(None),
    }
}

/// All but the outermost this many leave their places.
fn leave_all(places: &mut Places, elements: &[OpenElement], len: usize)
    requires within { len ≤ length elements.now }
    requires placed { IsPlaced places.old (stack_of elements.now) }
    ensures placed { IsPlaced places.new (stack_of (take len elements.now)) }
    ensures room { AllHaveRoom places.new (stack_of elements.now) }
    ensures around { vec_len places.new.around ≡ vec_len places.old.around }
{
    let mut left = elements.len();
    while left > len {
        left -= 1;
        places.leave(left, &elements[left]);
    }
}

/// All but the outermost this many take their places.
fn enter_all(places: &mut Places, elements: &[OpenElement], len: usize)
    requires within { len ≤ length elements.now }
    requires placed { IsPlaced places.old (stack_of (take len elements.now)) }
    requires room { AllHaveRoom places.old (stack_of elements.now) }
    requires around { length elements.now ≤ vec_len places.old.around }
    ensures { IsPlaced places.new (stack_of elements.now) }
{
    for i in len..elements.len() {
        places.enter(i, &elements[i]);
    }
}

/// Takes out an element.
fn take_out(places: &mut Places, elements: &mut Vec<OpenElement>, index: usize)
    requires within { index < length elements.old.items }
    requires placed { IsPlaced places.old (stack_of elements.old.items) }
    ensures items { elements.new.items ≡ remove elements.old.items index }
    ensures placed { IsPlaced places.new (stack_of elements.new.items) }
{
    leave_all(places, elements, index);
    elements.remove(index);
    enter_all(places, elements, index);
}

fn reversed(mut elements: Vec<OpenElement>) -> Vec<OpenElement>
    ensures turned { all_open_of result.items ≡ stack_of elements.items }
    ensures back { stack_of result.items ≡ all_open_of elements.items }
{
    elements.reverse();
    elements
}

impl OpenElements {
    /// Without elements.
    pub(crate) fn new(alloc: Global) -> OpenElements
        ensures { result ≡ [] }
    {
        OpenElements {
            elements: Vec::new(alloc),
            places: Places::new(alloc),
        }
    }

    /// The node of the current node; the Document if nothing is open.
    pub(crate) fn current_node(&self) -> usize
        ensures { result ≡ (insertion.current self.now).node }
    {
        match self.elements.last() {
            Some(element) => element.node,
            None => 0,
        }
    }

    /// The name of the current node.
    pub(crate) fn current_name(&self) -> Option<&ElementName>
        ensures { option_map (λ n. element_name_of n.now) result ≡ spec.current_name self.now }
    {
        match self.elements.last() {
            Some(element) => Some(&element.name),
            None => None,
        }
    }

    /// The open elements, outermost first.
    pub(crate) fn as_slice(&self) -> &[OpenElement]
        ensures { stack_of result.now ≡ self.now }
    {
        self.elements.as_slice()
    }

    /// Whether the current node is one of these.
    pub(crate) fn current_is(&self, set: NameSet) -> bool
        ensures { result ≡ spec.current_is set self.now }
    {
        match self.elements.last() {
            Some(element) => set.holds(&element.name),
            None => false,
        }
    }

    /// Whether the element around the current node is one of these.
    pub(crate) fn second_current_is(&self, set: NameSet) -> bool
        ensures { result ≡ spec.current_is set (spec.pop self.now) }
    {
        let Some((outer, _)) = split_innermost(&self.elements) else {
            return false;
        };
        match split_innermost(outer) {
            Some((_, second)) => set.holds(&second.name),
            None => false,
        }
    }

    pub(crate) fn len(&self) -> usize
        ensures value { result ≡ length self.now }
        ensures small { result < 2 ^ 63 }
    {
        self.elements.len()
    }

    pub(crate) fn is_empty(&self) -> bool
        ensures { result ≡ spec.is_empty self.now }
    {
        self.elements.is_empty()
    }

    /// Whether more than one element is open.
    pub(crate) fn has_second(&self) -> bool
        ensures { result ≡ spec.has_second self.now }
    {
        self.elements.len() > 1
    }

    /// The outermost element.
    pub(crate) fn first_open(&self) -> Option<usize>
        ensures { result ≡ spec.first_open self.now }
    {
        match self.elements.as_slice() {
            [first, ..] => Some(first.node),
            [] => None,
        }
    }

    /// The element right inside the outermost one, if it is one of these.
    pub(crate) fn second_open(&self, set: NameSet) -> Option<usize>
        ensures { result ≡ spec.second_open set self.now }
    {
        match self.elements.as_slice() {
            [_, second, ..] if set.holds(&second.name) => Some(second.node),
            _ => None,
        }
    }

    /// The place of the innermost bound of a scope.
    fn bound(&self, scope: Scope) -> usize
        ensures { result ≡ innermost (bounds_in scope) self.now }
    {
        self.places.bound(self.elements.len(), scope)
    }

    /// The place of the innermost element of HTML.
    pub(crate) fn html_place(&self) -> usize
        ensures { result ≡ innermost is_html self.now }
    {
        self.places.html_place(self.elements.len())
    }

    /// The place of the innermost foreign element that is spelled so in any case, where that is known.
    pub(crate) fn find_foreign(&self, text: &str) -> Option<usize>
        ensures { IfSome result (λ place. place ≡ innermost (is_spelled text.now) self.now) }
    {
        self.places.find_foreign(text)
    }

    /// The elements from the outermost to the innermost that has one of these names.
    pub(crate) fn up_to_any(&self, tags: &[TagName]) -> &[OpenElement]
        ensures { stack_of result.now ≡ back_to (has_one tags.now) self.now }
    {
        &self.elements[..self.places.place_of_any(tags)]
    }

    /// Whether one of these is open.
    pub(crate) fn is_open(&self, set: NameSet) -> bool
        ensures { result ≡ spec.is_open set self.now }
    {
        self.places.has_from(set, 0)
    }

    pub(crate) fn is_open_node(&self, node: usize) -> bool
        ensures { result ≡ spec.is_open_node node self.now }
    {
        self.places.node_place(node) > 0
    }

    pub(crate) fn is_in_scope(&self, set: NameSet, scope: Scope) -> bool
        ensures { result ≡ spec.is_in_scope set scope self.now }
    {
        self.places.has_from(set, self.bound(scope))
    }

    /// Whether the node is open, and neither it nor what is open inside it bounds a scope.
    pub(crate) fn is_node_in_scope(&self, node: usize) -> bool
        ensures { result ≡ spec.is_node_in_scope node self.now }
    {
        self.bound(Scope::Default) < self.places.node_place(node)
    }

    /// Whether an element that is open inside this node bounds a scope.
    pub(crate) fn is_bounded_inside(&self, node: usize) -> bool
        ensures { result ≡ list_any adoption.bounds_any (spec.inside node self.now) }
    {
        self.places.node_place(node) < self.bound(Scope::Default)
    }

    pub(crate) fn push(&mut self, node: usize, name: ElementName) -> Result<(), AllocError>
        ensures { OnOk result (self.new ≡ insertion.opened node (element_name_of name) ∷ self.old) }
    {
        self.push_element(OpenElement { node, name })
    }

    /// Pushes an element that was open before.
    #[inline(always)]
    pub(crate) fn push_element(&mut self, element: OpenElement) -> Result<(), AllocError>
        ensures { OnOk result (self.new ≡ open_of element ∷ self.old) }
    {
        let depth = self.elements.len();
        self.places.make_room(depth, &element)?;
        self.elements.reserve(1)?;
        self.places.enter(depth, &element);
        self.elements.push_reserved(element);
        Ok(())
    }

    /// Pushes elements; the first becomes the innermost.
    pub(crate) fn push_inside_out(
        &mut self,
        mut elements: Vec<OpenElement>,
    ) -> Result<(), AllocError>
        ensures { OnOk result (self.new ≡ all_open_of elements.items ++ self.old) }
    {
        while let Some(element) = elements.pop() {
            self.push_element(element)?;
        }
        Ok(())
    }

    /// Pushes elements; the last becomes the innermost.
    pub(crate) fn append(&mut self, elements: Vec<OpenElement>) -> Result<(), AllocError>
        ensures { OnOk result (self.new ≡ stack_of elements.items ++ self.old) }
    {
        self.push_inside_out(reversed(elements))
    }

    /// Pops the innermost element.
    fn pop_element(&mut self) -> Option<OpenElement>
        ensures { MatchOption result ((self.old ≡ []) × (self.new ≡ []))
            (λ e. self.old ≡ open_of e ∷ self.new) }
    {
        let element = self.elements.pop()?;
        self.places.leave(self.elements.len(), &element);
        Some(element)
    }

    pub(crate) fn pop(&mut self)
        ensures { self.new ≡ spec.pop self.old }
    {
        self.pop_element();
    }

    /// Pops until one of these has been popped.
    pub(crate) fn pop_until(&mut self, set: NameSet)
        ensures { self.new ≡ spec.pop_until set self.old }
    {
        while let Some(element) = self.pop_element() {
            if set.holds(&element.name) {
                return;
            }
        }
    }

    /// Pops until an element with this name has been popped.
    fn pop_through(&mut self, name: &HtmlName)
        ensures { self.new ≡ spec.pop_through (spec.has_name (html (name_of name.now))) self.old }
    {
        while let Some(element) = self.pop_element() {
            if element.name.is_html(name) {
                return;
            }
        }
    }

    /// Pops until the current node is one of these.
    pub(crate) fn clear_to(&mut self, set: NameSet)
        ensures { self.new ≡ spec.clear_to set self.old }
    {
        while !self.is_empty() && !self.current_is(set) {
            self.pop();
        }
    }

    /// Pops as long as the current node is one of these.
    pub(crate) fn pop_while(&mut self, set: NameSet)
        ensures { self.new ≡ spec.pop_while set self.old }
    {
        while self.current_is(set) {
            self.pop();
        }
    }

    /// Pops until one of these has been popped, if one is in scope. Gives whether one is.
    pub(crate) fn close(&mut self, set: NameSet, scope: Scope) -> bool
        ensures found { result ≡ spec.is_in_scope set scope self.old }
        ensures closed { self.new ≡ spec.close set scope self.old }
    {
        let found = self.is_in_scope(set, scope);
        if found {
            self.pop_until(set);
        }
        found
    }

    /// Whether any other end tag with this name closes an element.
    fn is_closable(&self, name: &HtmlName) -> bool
        ensures { result ≡ spec.is_closable (name_of name.now) self.now }
    {
        is_from(self.bound(Scope::Special), self.places.name_place(name))
    }

    /// What any other end tag closes.
    pub(crate) fn close_name(&mut self, name: &HtmlName)
        ensures { self.new ≡ spec.close_name (name_of name.now) self.old }
    {
        if self.is_closable(name) {
            self.pop_through(name);
        }
    }

    /// Pops all but the outermost this many.
    pub(crate) fn truncate(&mut self, len: usize)
        ensures { self.new ≡ drop (length self.old - len) self.old }
    {
        while self.len() > len {
            self.pop();
        }
    }

    /// Pops all but the outermost.
    pub(crate) fn keep_outermost(&mut self)
        ensures { self.new ≡ spec.outermost self.old }
    {
        self.truncate(1);
    }

    /// Takes out the element of a node.
    pub(crate) fn remove(&mut self, node: usize)
        ensures { self.new ≡ spec.without node self.old }
    {
        if !self.is_open_node(node) {
            return;
        }
        if let Some(index) = position(&self.elements, node) {
            take_out(&mut self.places, &mut self.elements, index);
        }
    }

    /// Pops the element of a node and all inside it. Gives them, outermost first.
    pub(crate) fn take_inside(
        &mut self,
        alloc: Global,
        node: usize,
    ) -> Result<Vec<OpenElement>, AllocError>
        ensures inside { IfOk result (λ v. stack_of v.items ≡ spec.inside node self.old) }
        ensures around { OnOk result (self.new ≡ spec.around node self.old) }
    {
        let mut inside = Vec::new(alloc);
        while let Some(element) = self.pop_element() {
            if element.node == node {
                return Ok(reversed(inside));
            }
            inside.push(element)?;
        }
        Ok(reversed(inside))
    }
}
