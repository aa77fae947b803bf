//! To which parts of the page its links lead.
ghost use Rattle.std.specs.Prelude.{◌≡◌, ℕ, ◌+◌, true, not, ◌&&◌, ◌||◌, ◌==◌, if◌then◌else◌, IfOk, OnOk, List, []};
ghost use Rattle.std.specs.Prelude.{drop, Some, None};
ghost use Rattle.std.specs.Prelude.{is_some, string_bytes};
ghost use Rattle.std.specs.List.{list_any};
ghost use Rattle.percent_encoding.specs.Percent.{percent_sign};
ghost use Rattle.htmd_lexical.specs.Attributes.{pairs_of};
ghost use Rattle.htmd_shown.specs.Attributes as at;
ghost use Rattle.htmd_shown.specs.Kinds.{content_of};
ghost use Rattle.htmd_shown.specs.Roles as roles;
ghost use Rattle.htmd_shown.specs.SimpleViews.{simple_of, simples_of};
ghost use Rattle.htmd_document_of_tree.specs.LeadingViews as views;
ghost use Rattle.htmd_document_of_tree.specs.Leadings as spec;
ghost use Rattle.htmd_document_of_tree.specs.Limits.{address_of};
ghost use Rattle.htmd_shown.specs.Showings.{code_shows};
ghost use Rattle.htmd_document_of_tree.specs.Seen.{seen, all_seen};

use crate::seen::{all_seen, leaf_shows, one_more};
use htmd_flow::is_grid;
use htmd_nodes::{Attribute, value_of};
use htmd_shown::attributes::{address, in_line, leads_to_part, text_of, whole_address};
use htmd_shown::showing::{code_shows, image_shows, show_usual_sign};
use htmd_shown::shown_text::is_blank_when_shown;
use htmd_shown::simple::is_caption;
use htmd_shown::{Facts, Role, Simple};
use percent_encoding::percent_decode;
use std::alloc::{AllocError, Global};
use std::collections::HashMap;

/// Things to see from one on, up to another.
#[derive(Clone, Copy)]
pub struct Span {
    pub from: usize,
    pub until: usize,
}

/// Whether nodes beside each other are blocks, stand in one line, or stand in one line each but for captions.
#[derive(Clone, Copy)]
pub enum Layout {
    Blocks,
    OneLine,
    Cells,
}

/// What stands around a node.
#[derive(Clone, Copy)]
pub struct Around {
    /// How much was to see before.
    pub seen: usize,
    /// What there is to see in the outermost heading.
    pub heading: Option<Span>,
    pub is_linked: bool,
    /// Whether the document is rich.
    pub is_rich: bool,
}

/// The values that links lead to, each with what there is to see in all headings around those links.
#[derive(Drop)]
pub(crate) struct Leadings {
    alloc: Global,
    spans: HashMap<String, Span>,
}

impl Span {
    /// Nothing.
    const NONE: Span = Span { from: 0, until: 0 };

    /// What both have.
    fn and(self, other: Span) -> Span
        ensures { result ≡ views.in_both (Some self) other }
    {
        Span {
            from: self.from.max(other.from),
            until: self.until.min(other.until),
        }
    }
}

impl Around {
    /// Whether an element is a link in no other.
    fn may_lead(self, role: Role) -> bool
        ensures { result ≡ (roles.is_link role && not self.is_linked) }
    {
        role.is_link() && !self.is_linked
    }

    /// What of it stands around what is in an element: no link, if that is a title with a usual sign.
    fn around_content(self, is_flat: bool, role: Role, content: &[Simple]) -> Around
        ensures { result ≡ record {
          seen = self.seen;
          heading = self.heading;
          is_linked = spec.is_linked_in self is_flat role (simples_of content.now);
          is_rich = self.is_rich;
        } }
    {
        Around {
            seen: self.seen,
            heading: self.heading,
            is_linked: self.is_linked && (is_flat || !is_signed_title(self.is_rich, role, content)),
            is_rich: self.is_rich,
        }
    }

    /// What stands around what is in an element, which is a link that is written or not.
    fn inside(self, heading: Option<Span>, is_written: bool) -> Around
        ensures { result ≡ record {
          seen = self.seen;
          heading = heading;
          is_linked = self.is_linked || is_written;
          is_rich = self.is_rich;
        } }
    {
        Around {
            seen: self.seen,
            heading,
            is_linked: self.is_linked || is_written,
            is_rich: self.is_rich,
        }
    }
}

impl Layout {
    /// Whether a node among these stands in one line.
    fn is_flat(self, tree: &Simple) -> bool
        ensures { result ≡ spec.is_flat self (simple_of tree.now) }
    {
        match self {
            Layout::Blocks => false,
            Layout::OneLine => true,
            Layout::Cells => !is_caption(tree),
        }
    }

    /// How what is in an element stands, which stands in one line itself or not.
    fn within(
        alloc: Global,
        is_rich: bool,
        is_flat: bool,
        role: Role,
        content: &[Simple],
    ) -> Result<Layout, AllocError>
        ensures { IfOk result (λ layout. layout ≡ spec.layout_in is_rich is_flat role (simples_of content.now)) }
    {
        if is_flat || role.is_heading() {
            return Ok(Layout::OneLine);
        }
        if !is_rich && is_grid_at(alloc, role, content)? {
            return Ok(Layout::Cells);
        }
        Ok(Layout::Blocks)
    }
}

/// Whether an element is a table whose cells stand in one line each.
fn is_grid_at(alloc: Global, role: Role, content: &[Simple]) -> Result<bool, AllocError>
    ensures { IfOk result (λ b. b ≡ spec.is_grid_at role (simples_of content.now)) }
{
    match role {
        Role::Table => is_grid(alloc, content),
        _ => Ok(false),
    }
}

// ---- what a link shows

/// Whether something of nodes stands in a line, and in the link around it, which leads to a part of the page or not.
#[cycle(leaves)]
fn have_leaf(
    alloc: Global,
    is_rich: bool,
    to_part: bool,
    layout: Layout,
    trees: &[Simple],
) -> Result<bool, AllocError>
    ensures { IfOk result (λ b. b ≡ spec.have_leaf is_rich to_part layout (simples_of trees.now)) }
{
    for tree in trees {
        if has_leaf(alloc, is_rich, to_part, layout.is_flat(tree), tree)? {
            return Ok(true);
        }
    }
    Ok(false)
}

/// The same of a node, which stands in one line or not.
#[cycle(leaves)]
fn has_leaf(
    alloc: Global,
    is_rich: bool,
    to_part: bool,
    is_flat: bool,
    tree: &Simple,
) -> Result<bool, AllocError>
    ensures { IfOk result (λ b. b ≡ spec.has_leaf is_rich to_part is_flat (simple_of tree.now)) }
{
    match tree {
        Simple::Formula { is_alone, .. } => Ok(is_flat || !*is_alone),
        Simple::Element {
            role,
            facts,
            content,
            ..
        } => {
            if role.is_verbatim() {
                return Ok(code_has_leaf(is_flat, content));
            }
            if !is_flat && to_part && is_signed(is_rich, *role, *facts, content) {
                return Ok(false);
            }
            let layout = Layout::within(alloc, is_rich, is_flat, *role, content)?;
            have_leaf(alloc, is_rich, to_part, layout, content)
        },
        Simple::Text(text) => Ok(!is_blank_when_shown(text)),
        Simple::Image { address, attrs } => Ok(image_shows(*address, attrs)),
        Simple::Embedded(_) => Ok(true),
        Simple::Anchor(_) => Ok(false),
    }
}

/// Whether something of a code block stands in one line.
fn code_has_leaf(is_flat: bool, content: &[Simple]) -> bool
    ensures { result ≡ (is_flat && code_shows (simples_of content.now)) }
{
    is_flat && code_shows(content)
}

/// Whether an element is a heading of one usual sign, or a title of a rich document with one in it.
fn is_signed(is_rich: bool, role: Role, facts: Facts, content: &[Simple]) -> bool
    ensures { result ≡ spec.is_signed is_rich role facts (simples_of content.now) }
{
    role.is_heading() && facts.shows_sign || is_signed_title(is_rich, role, content)
}

/// Whether an element is a title of a rich document with a usual sign in it.
fn is_signed_title(is_rich: bool, role: Role, content: &[Simple]) -> bool
    ensures { result ≡ spec.is_signed_title is_rich role (simples_of content.now) }
{
    role.is_title() && is_rich && show_usual_sign(content)
}

// ---- where links lead

impl Leadings {
    /// Where the links in nodes lead.
    pub(crate) fn of(alloc: Global, is_rich: bool, trees: &[Simple]) -> Result<Leadings, AllocError>
        ensures { IfOk result (λ found. (s : List ℕ)
            → views.span_to found s ≡ views.merged None s (spec.all_leadings is_rich (simples_of trees.now))) }
    {
        let mut leadings = Leadings {
            alloc,
            spans: HashMap::new(alloc),
        };
        let around = Around {
            seen: 0,
            heading: None,
            is_linked: false,
            is_rich,
        };
        leadings.among(around, Layout::Blocks, trees)?;
        Ok(leadings)
    }

    /// Whether a link leads to a value.
    pub(crate) fn lead_to(&self, value: &str) -> bool
        ensures { result ≡ is_some (views.span_to self.now value.now) }
    {
        self.spans.contains_key(value)
    }

    /// Whether a link leads to a value, and not only from the heading that the next thing to see is in.
    pub(crate) fn lead_elsewhere(&self, value: &str, seen: usize) -> bool
        ensures { result ≡ views.leads_elsewhere (views.span_to self.now value.now) seen }
    {
        match self.spans.get(value) {
            Some(span) => !(span.from <= seen && seen < span.until),
            None => false,
        }
    }

    /// Whether no link leads to a part of the page.
    pub(crate) fn is_empty(&self) -> bool
        ensures { result ≡ true → (s : List ℕ) → views.span_to self.now s ≡ None }
    {
        self.spans.is_empty()
    }

    /// Notes where the links in nodes lead; how much is to see up to their end.
    #[cycle(leadings)]
    fn among(
        &mut self,
        around: Around,
        layout: Layout,
        trees: &[Simple],
    ) -> Result<usize, AllocError>
        ensures seen { IfOk result (λ n. n ≡ around.seen + all_seen (simples_of trees.now)) }
        ensures spans { OnOk result (views.Learns self.old self.new
            (spec.leadings_among around layout (simples_of trees.now))) }
    {
        let mut seen = around.seen;
        for tree in trees {
            seen = self.node(Around { seen, ..around }, layout.is_flat(tree), tree)?;
        }
        Ok(seen)
    }

    /// Notes where the links in a node lead; how much is to see up to its end.
    #[cycle(leadings)]
    fn node(&mut self, around: Around, is_flat: bool, tree: &Simple) -> Result<usize, AllocError>
        ensures seen { IfOk result (λ n. n ≡ around.seen + seen (simple_of tree.now)) }
        ensures spans { OnOk result (views.Learns self.old self.new
            (spec.leadings around is_flat (simple_of tree.now))) }
    {
        match leaf_shows(tree) {
            Some(shows) => one_more(around.seen, shows),
            None => self.inside(around, is_flat, tree),
        }
    }

    /// The same of a node that is no leaf.
    #[cycle(leadings)]
    fn inside(&mut self, around: Around, is_flat: bool, tree: &Simple) -> Result<usize, AllocError>
        ensures seen { IfOk result (λ n. n ≡ around.seen + all_seen (content_of (simple_of tree.now))) }
        ensures spans { OnOk result (views.Learns self.old self.new
            (spec.leadings_inside around is_flat (simple_of tree.now))) }
    {
        match tree {
            Simple::Element {
                role,
                attrs,
                content,
                ..
            } => self.element(around, is_flat, *role, attrs, content),
            Simple::Text(_) => Ok(around.seen),
            Simple::Image { .. } => Ok(around.seen),
            Simple::Formula { .. } => Ok(around.seen),
            Simple::Embedded(_) => Ok(around.seen),
            Simple::Anchor(_) => Ok(around.seen),
        }
    }

    /// Notes where an element that is no leaf, and the links in it, lead; how much is to see up to its end.
    #[cycle(leadings)]
    fn element(
        &mut self,
        around: Around,
        is_flat: bool,
        role: Role,
        attrs: &[Attribute],
        content: &[Simple],
    ) -> Result<usize, AllocError>
        ensures seen { IfOk result (λ n. n ≡ around.seen + all_seen (simples_of content.now)) }
        ensures spans { OnOk result (views.Learns self.old self.new
            (spec.leadings_of_element around is_flat role (pairs_of attrs.now) (simples_of content.now))) }
    {
        let layout = Layout::within(self.alloc, around.is_rich, is_flat, role, content)?;
        let heading = heading_in(around, role, content)?;
        let may_lead = around.may_lead(role);
        let is_written = self.link_if(may_lead, around.is_rich, heading, layout, attrs, content)?;
        let outer = around.around_content(is_flat, role, content);
        self.among(outer.inside(heading, is_written), layout, content)
    }

    /// Notes where an element leads, if it is a link in no other, and is written; whether it is both.
    fn link_if(
        &mut self,
        is_link: bool,
        is_rich: bool,
        heading: Option<Span>,
        layout: Layout,
        attrs: &[Attribute],
        content: &[Simple],
    ) -> Result<bool, AllocError>
        ensures written { IfOk result (λ b. b
            ≡ (is_link && spec.shows_in_link is_rich layout (pairs_of attrs.now) (simples_of content.now))) }
        ensures spans { OnOk result (views.Learns self.old self.new (spec.leadings_if
            (is_link && spec.shows_in_link is_rich layout (pairs_of attrs.now) (simples_of content.now)) heading
            (pairs_of attrs.now))) }
    {
        if !is_link {
            return Ok(false);
        }
        self.link(is_rich, heading, layout, attrs, content)
    }

    /// Notes where a link leads, if it is written; whether it is.
    fn link(
        &mut self,
        is_rich: bool,
        heading: Option<Span>,
        layout: Layout,
        attrs: &[Attribute],
        content: &[Simple],
    ) -> Result<bool, AllocError>
        ensures written { IfOk result (λ b. b
            ≡ spec.shows_in_link is_rich layout (pairs_of attrs.now) (simples_of content.now)) }
        ensures spans { OnOk result (views.Learns self.old self.new (spec.leadings_if
            (spec.shows_in_link is_rich layout (pairs_of attrs.now) (simples_of content.now)) heading
            (pairs_of attrs.now))) }
    {
        let to_part = is_link_to_part(true, attrs);
        if !have_leaf(self.alloc, is_rich, to_part, layout, content)? {
            return Ok(false);
        }
        self.lead_if(to_part, attrs, heading)?;
        Ok(true)
    }

    /// Notes where an element leads, which is to a part of the page or not.
    fn lead_if(
        &mut self,
        to_part: bool,
        attrs: &[Attribute],
        heading: Option<Span>,
    ) -> Result<(), AllocError>
        requires { to_part ≡ at.is_to_part (address_of (pairs_of attrs.now)) }
        ensures { OnOk result (views.Learns self.old self.new
            (spec.leadings_if true heading (pairs_of attrs.now))) }
    {
        if !to_part {
            return Ok(());
        }
        let href = text_of(attrs, "href");
        if let Some(address) = whole_address(href) {
            return self.lead_by(address, heading);
        }
        let address = address(self.alloc, href)?;
        self.lead_by(address.as_str(), heading)
    }

    /// Notes where an address leads, if that is a part of the page.
    fn lead_by(&mut self, address: &str, heading: Option<Span>) -> Result<(), AllocError>
        ensures { OnOk result (views.Learns self.old self.new
            (if at.is_to_part address.now then spec.leadings_to heading (drop 1 address.now) else [])) }
    {
        match address.strip_prefix('#') {
            Some(part) => self.lead(part, heading),
            None => Ok(()),
        }
    }

    /// Notes that a link leads to a value, or to what it is when decoded.
    fn lead(&mut self, part: &str, heading: Option<Span>) -> Result<(), AllocError>
        ensures { OnOk result (views.Learns self.old self.new (spec.leadings_to heading part.now)) }
    {
        let value = in_line(self.alloc, part)?;
        self.note(value, heading)?;
        if !has_percent_sign(part.as_bytes()) {
            return Ok(());
        }
        let decoded = percent_decode(part.as_bytes()).decode_utf8_lossy(self.alloc)?;
        let value = in_line(self.alloc, decoded.as_str())?;
        self.note(value, heading)
    }

    /// Notes that a link leads to a value.
    fn note(&mut self, value: String, heading: Option<Span>) -> Result<(), AllocError>
        ensures { OnOk result (views.Learns self.old self.new (spec.leading_to heading (string_bytes value))) }
    {
        if value.is_empty() {
            return Ok(());
        }
        let span = self.span_with(value.as_str(), heading);
        self.spans.insert(value, span)?;
        Ok(())
    }

    /// What there is to see in all headings around links to a value, one more of which is this or none.
    fn span_with(&self, value: &str, heading: Option<Span>) -> Span
        ensures { result ≡ views.in_both (views.span_to self.now value.now) (views.span_of heading) }
    {
        let heading = heading.unwrap_or(Span::NONE);
        match self.spans.get(value) {
            Some(span) => span.and(heading),
            None => heading,
        }
    }
}

/// Whether a percent sign is among the bytes, so that something can be decoded.
fn has_percent_sign(bytes: &[u8]) -> bool
    ensures { result ≡ list_any (λ b. b == percent_sign) bytes.now }
{
    bytes.iter().any(|b| *b == b'%')
}

/// The outermost heading around what is in an element.
fn heading_in(around: Around, role: Role, content: &[Simple]) -> Result<Option<Span>, AllocError>
    ensures { IfOk result (λ span. span ≡ spec.heading_in around.heading around.seen role (simples_of content.now)) }
{
    if around.heading.is_some() || !role.is_heading() {
        return Ok(around.heading);
    }
    Ok(Some(Span {
        from: around.seen,
        until: all_seen(around.seen, content)?,
    }))
}

/// Whether a link of nodes leads to a part of the page.
#[cycle(parts)]
pub(crate) fn lead_to_part(trees: &[Simple]) -> bool
    ensures { result ≡ spec.lead_to_part (simples_of trees.now) }
{
    for tree in trees {
        if leads_to_part_in(tree) {
            return true;
        }
    }
    false
}

/// Whether a node, or a link in it, leads to a part of the page.
#[cycle(parts)]
fn leads_to_part_in(tree: &Simple) -> bool
    ensures { result ≡ spec.leads_to_part (simple_of tree.now) }
{
    match tree {
        Simple::Element {
            role,
            attrs,
            content,
            ..
        } => is_link_to_part(role.is_link(), attrs) || lead_to_part(content),
        Simple::Text(_) => false,
        Simple::Image { .. } => false,
        Simple::Formula { .. } => false,
        Simple::Embedded(_) => false,
        Simple::Anchor(_) => false,
    }
}

/// Whether an element, which is a link or not, is one to a part of the page.
fn is_link_to_part(is_link: bool, attrs: &[Attribute]) -> bool
    ensures { result ≡ (is_link && at.is_to_part (address_of (pairs_of attrs.now))) }
{
    if !is_link {
        return false;
    }
    leads_to_part(value_of(attrs, "href"))
}
