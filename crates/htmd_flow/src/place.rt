//! What is around a node.
ghost use Rattle.std.specs.Prelude.{◌≡◌, ◌<◌, ◌≤◌, ◌+◌, ◌&&◌, ◌||◌, ◌∷◌, [], List, not, true, nat_le, length, map};
ghost use Rattle.std.specs.Prelude.{take};
ghost use Rattle.std.specs.Prelude.{IfSome, OnOk, IfOk};
ghost use Rattle.std.specs.List.{list_any, prefix_len};
ghost use Rattle.htmd_document.specs.DocumentLimits as limits;
ghost use Rattle.htmd_document.specs.Formats as formats;
ghost use Rattle.htmd_document.specs.Formats.{of_format, of_element};
ghost use Rattle.htmd_lexical.specs.Attributes.{pairs_of};
ghost use Rattle.htmd_shown.specs.Attributes as attributes;
ghost use Rattle.htmd_shown.specs.Showings.{show_usual_sign};
ghost use Rattle.htmd_shown.specs.SimpleViews.{simple_of, simples_of};
ghost use Rattle.htmd_flow.specs.Contexts as contexts;
ghost use Rattle.htmd_flow.specs.Flows as flow;
ghost use Rattle.htmd_flow.specs.FlowViews as views;
ghost use Rattle.htmd_flow.specs.PartViews.{around_of};

use crate::around::Around;
use htmd_document::{Format, InlineElement};
use htmd_nodes::{Attribute, NodeId};
use htmd_shown::attributes::{address, text_of, title_of};
use htmd_shown::showing::show_usual_sign;
use htmd_shown::{Facts, Role, Simple};
use std::alloc::{AllocError, Global};

/// Lists and quotes in each other.
const MOST_NESTED: usize = 32;

/// Elements of raised and lowered text in each other.
const MOST_RAISED: usize = 8;

/// The attributes of the nearest elements around a node that can name the language of the code in them, from the inside
/// out: those that hold no other `pre`.
#[derive(Clone, Copy)]
pub(crate) enum Near<'t> {
    None,
    One(&'t [Attribute]),
    Two(&'t [Attribute], &'t [Attribute]),
    Three(&'t [Attribute], &'t [Attribute], &'t [Attribute]),
}

impl<'t> Near<'t> {
    /// Inside one more element.
    fn inside(self, attrs: &'t [Attribute]) -> Near<'t>
        ensures { views.near_in result ≡ pairs_of attrs.now ∷ take 2 (views.near_in self.entry) }
    {
        match self {
            Near::None => Near::One(attrs),
            Near::One(first) => Near::Two(attrs, first),
            Near::Two(first, second) => Near::Three(attrs, first, second),
            Near::Three(first, second, _) => Near::Three(attrs, first, second),
        }
    }
}

/// What is around a node, but for formats and links.
#[derive(Clone, Copy)]
pub(crate) struct Place<'t> {
    pub(crate) is_code: bool,
    /// Whether all is one line.
    pub(crate) is_flat: bool,
    /// Whether the document is rich.
    pub(crate) is_rich: bool,
    /// How many lists and quotes.
    pub(crate) nested: usize,
    pub(crate) near: Near<'t>,
}

impl<'t> Place<'t> {
    /// Nothing is around, in a document that is rich or not.
    pub(crate) fn bare(is_rich: bool) -> Place<'t>
        ensures { views.context_in result [] ≡ contexts.bare_in is_rich }
    {
        Place {
            is_code: false,
            is_flat: false,
            is_rich,
            nested: 0,
            near: Near::None,
        }
    }

    /// Whether blocks can be elements here.
    pub(crate) fn has_elements(&self) -> bool
        ensures { result ≡ (self.now.is_rich && not self.now.is_flat) }
    {
        self.is_rich && !self.is_flat
    }

    /// Inside a block that can be near to code, with so many `pre` in it.
    pub(crate) fn beside_code(&self, pres: u8, attrs: &'t [Attribute]) -> Place<'t>
        ensures { (around : List Around) → views.context_in result around
            ≡ contexts.beside_code pres (pairs_of attrs.now) (views.context_in self.now around) }
    {
        let near = match pres {
            0 => self.near,
            1 => self.near.inside(attrs),
            _ => Near::None,
        };
        Place { near, ..*self }
    }

    /// Whether no list and no quote is allowed here.
    pub(crate) fn is_lined(&self) -> bool
        ensures { result ≡ (self.now.is_flat || nat_le limits.most_nested self.now.nested) }
    {
        self.is_flat || self.nested >= MOST_NESTED
    }

    pub(crate) fn in_code(&self) -> Place<'t>
        ensures { result ≡ record self.now { is_code = true } }
    {
        Place {
            is_code: true,
            ..*self
        }
    }

    /// Inside a cell: a `td` can say the language of the code in it.
    pub(crate) fn in_cell(&self, cell: &Simple<'t>) -> Place<'t>
        ensures { (around : List Around) → views.context_in result around
            ≡ flow.in_cell (simple_of cell.now) (views.context_in self.now around) }
    {
        match cell {
            Simple::Element {
                role: Role::Cell,
                facts,
                attrs,
                ..
            } => self.beside_code(facts.pres, *attrs),
            _ => *self,
        }
    }

    pub(crate) fn in_one_line(&self) -> Place<'t>
        ensures { result ≡ record self.now { is_flat = true } }
    {
        Place {
            is_flat: true,
            ..*self
        }
    }

    pub(crate) fn deeper(&self) -> Place<'t>
        requires { self.now.nested < limits.most_nested }
        ensures { result ≡ record self.now { nested = self.now.nested + 1 } }
    {
        Place {
            nested: self.nested + 1,
            ..*self
        }
    }
}

// ---- formats

/// Whether it is this format.
fn is_format(around: &Around, format: Format) -> bool
    ensures { result ≡ contexts.is_format (of_format format) (around_of around.now) }
{
    match around {
        Around::Format(f) => *f == format,
        _ => false,
    }
}

/// Whether an element stands above or below the line.
fn is_raised(element: InlineElement) -> bool
    ensures { result ≡ formats.is_raised (of_element element) }
{
    matches!(
        element,
        InlineElement::Superscript | InlineElement::Subscript
    )
}

/// Whether it is an element that stands above or below the line.
fn is_raised_around(around: &Around) -> bool
    ensures { result ≡ contexts.is_raised_around (around_of around.now) }
{
    match around {
        Around::Element(element) => is_raised(*element),
        _ => false,
    }
}

/// Whether it is this element.
fn is_element(around: &Around, element: InlineElement) -> bool
    ensures { result ≡ contexts.is_format (of_element element) (around_of around.now) }
{
    match around {
        Around::Element(e) => *e == element,
        _ => false,
    }
}

/// Whether it is an abbreviation, whatever its title.
fn is_abbreviation(around: &Around) -> bool
    ensures { result ≡ contexts.is_format (formats.Abbreviation []) (around_of around.now) }
{
    matches!(around, Around::Abbreviation(_))
}

/// Whether this format is around.
fn holds_format(around: &[Around], format: Format) -> bool
    ensures { result ≡ list_any (contexts.is_format (of_format format)) (map around_of around.now) }
{
    around.iter().any(|a| is_format(a, format))
}

/// This format, if it isn't around yet.
pub(crate) fn new_format(around: &[Around], format: Format) -> Option<Around>
    ensures { (place : Place) → views.with_option (views.context_in place around.now) result
        ≡ contexts.inside_format (of_format format) (views.context_in place around.now) }
{
    if holds_format(around, format) {
        return None;
    }
    Some(Around::Format(format))
}

/// How many elements around stand above or below the line.
fn raised_len(around: &[Around]) -> usize
    ensures value { result ≡ contexts.raised_around (map around_of around.now) }
    ensures bound { result ≤ length around.now }
{
    let mut count = 0;
    for a in around {
        if is_raised_around(a) {
            count += 1;
        }
    }
    count
}

/// Whether this element is around.
fn holds_element(around: &[Around], element: InlineElement) -> bool
    ensures { result ≡ list_any (contexts.is_format (of_element element)) (map around_of around.now) }
{
    around.iter().any(|a| is_element(a, element))
}

/// Whether an element isn't put around once more: those that stand above or below the line stand in each other.
fn is_enough(around: &[Around], element: InlineElement) -> bool
    ensures { result ≡ contexts.is_enough (of_element element) (map around_of around.now) }
{
    if is_raised(element) {
        return raised_len(around) >= MOST_RAISED;
    }
    holds_element(around, element)
}

/// This element, unless as many are around as there may be in each other.
pub(crate) fn new_element(around: &[Around], element: InlineElement) -> Option<Around>
    ensures { (place : Place) → views.with_option (views.context_in place around.now) result
        ≡ contexts.inside_format (of_element element) (views.context_in place around.now) }
{
    if is_enough(around, element) {
        return None;
    }
    Some(Around::Element(element))
}

/// Whether an abbreviation is around.
fn holds_abbreviation(around: &[Around]) -> bool
    ensures { result ≡ list_any (contexts.is_format (formats.Abbreviation [])) (map around_of around.now) }
{
    around.iter().any(|a| is_abbreviation(a))
}

/// The abbreviation of an `abbr` with a title, if none is around yet.
pub(crate) fn new_abbreviation(
    alloc: Global,
    attrs: &[Attribute],
    around: &[Around],
) -> Result<Option<Around>, AllocError>
    ensures { (place : Place) → IfOk result (λ a. views.with_option (views.context_in place around.now) a
        ≡ contexts.inside_title (attributes.title_of (pairs_of attrs.now)) (views.context_in place around.now)) }
{
    if holds_abbreviation(around) {
        return Ok(None);
    }
    match title_of(alloc, attrs)? {
        Some(title) => Ok(Some(Around::Abbreviation(title))),
        None => Ok(None),
    }
}

// ---- links

/// Whether it is a link.
pub(crate) fn is_link(around: &Around) -> bool
    ensures { result ≡ contexts.is_link (around_of around.now) }
{
    matches!(around, Around::Link { .. })
}

/// Whether a link is around.
pub(crate) fn holds_link(around: &[Around]) -> bool
    ensures { result ≡ list_any contexts.is_link (map around_of around.now) }
{
    around.iter().any(|a| is_link(a))
}

/// The link of an `a`, if none is around it.
pub(crate) fn new_link(
    alloc: Global,
    node: NodeId,
    attrs: &[Attribute],
    around: &[Around],
) -> Result<Option<Around>, AllocError>
    ensures { (place : Place) → IfOk result (λ a. views.with_option (views.context_in place around.now) a
        ≡ flow.linked_by node (pairs_of attrs.now) (views.context_in place around.now)) }
{
    if holds_link(around) {
        return Ok(None);
    }
    Ok(Some(Around::Link {
        node,
        address: address(alloc, text_of(attrs, "href"))?,
        title: title_of(alloc, attrs)?,
    }))
}

/// Whether it is a link to a part of the page.
fn leads_to_part(around: &Around) -> bool
    ensures { result ≡ contexts.leads_to_part (around_of around.now) }
{
    match around {
        Around::Link { address, .. } => address.starts_with('#'),
        _ => false,
    }
}

/// Whether a link to a part of the page is around.
fn is_linked_to_part(around: &[Around]) -> bool
    ensures { result ≡ list_any contexts.leads_to_part (map around_of around.now) }
{
    around.iter().any(|a| leads_to_part(a))
}

/// Whether a heading of this content isn't linked by the link around it.
pub(crate) fn is_unlinked(facts: Facts, around: &[Around]) -> bool
    ensures { result ≡ (facts.shows_sign && list_any contexts.leads_to_part (map around_of around.now)) }
{
    facts.shows_sign && is_linked_to_part(around)
}

/// Whether nodes of a title aren't linked by the link around it, in a document with elements here or not.
pub(crate) fn is_title_unlinked(nodes: &[Simple], place: &Place, around: &[Around]) -> bool
    ensures { result ≡ ((place.now.is_rich && not place.now.is_flat)
        && list_any contexts.leads_to_part (map around_of around.now) && show_usual_sign (simples_of nodes.now)) }
{
    place.has_elements() && is_linked_to_part(around) && show_usual_sign(nodes)
}

/// A link that was taken out of what is around, and how much was around it.
#[derive(Drop)]
pub(crate) struct Taken {
    pub(crate) len: usize,
    pub(crate) link: Around,
}

/// How many formats come before the first link.
fn before_link_len(around: &[Around]) -> usize
    ensures bound { result ≤ length around.now }
    ensures value { result ≡ prefix_len views.is_no_link around.now }
{
    for (len, a) in around.iter().enumerate() {
        if is_link(a) {
            return len;
        }
    }
    around.len()
}

/// Takes the link out, if there is one.
pub(crate) fn take_link(around: &mut Vec<Around>) -> Option<Taken>
    ensures without { map around_of around.new.items ≡ contexts.without_link (map around_of around.old.items) }
    ensures back { views.with_taken around.new.items result ≡ around.old.items }
    ensures bound { IfSome result (λ t. t.len ≤ length around.new.items) }
{
    let len = before_link_len(around);
    if len == around.len() {
        return None;
    }
    let link = around.remove(len);
    Some(Taken { len, link })
}

/// Puts back what was taken out.
pub(crate) fn put_back(around: &mut Vec<Around>, taken: Option<Taken>) -> Result<(), AllocError>
    requires { IfSome taken (λ t. t.len ≤ length around.old.items) }
    ensures { OnOk result (around.new.items ≡ views.with_taken around.old.items taken) }
{
    let Some(taken) = taken else {
        return Ok(());
    };
    around.insert(taken.len, taken.link)?;
    Ok(())
}
