//! What shows of a page, by one walk over its tree.
ghost use Rattle.std.specs.Prelude.{◌≡◌, ◌<◌, false, All, IfOk, IfSome, OnOk, [], None, Some, length};
ghost use Rattle.std.specs.Prelude.{string_bytes};
ghost use Rattle.std.specs.Option.{option_copied, option_map};
ghost use Rattle.htmd_lexical.specs.Attributes.{pairs_of};
ghost use Rattle.htmd_nodes.specs.NumberedTrees.{tree_of, forest_of};
ghost use Rattle.htmd_nodes.specs.NumberedTrees as pages;
ghost use Rattle.htmd_shown.specs.Embeds as embeds;
ghost use Rattle.htmd_shown.specs.Facts as facts;
ghost use Rattle.htmd_shown.specs.PageViews.{element_in};
ghost use Rattle.htmd_shown.specs.Permalinks as permalinks;
ghost use Rattle.htmd_shown.specs.Repeats as repeats;
ghost use Rattle.htmd_shown.specs.Roles as roles;
ghost use Rattle.htmd_shown.specs.Shown as spec;
ghost use Rattle.htmd_shown.specs.ShownTexts.{shown_text};
ghost use Rattle.htmd_shown.specs.SightViews as views;
ghost use Rattle.htmd_shown.specs.SimpleTrees as trees;
ghost use Rattle.htmd_shown.specs.SimpleViews.{simple_of, simples_of};

use crate::attributes::{leads_to_part, text_of};
use crate::below::Below;
use crate::classes::{is_copy, is_of_permalink};
use crate::embedded::{Embedding, embedding_of, is_embedding};
use crate::formula::{is_display, tex_of};
use crate::image_source::{image_address, is_image, picture_source};
use crate::page::{
    Element, element_at, is_img, is_number_cell, is_number_in_code, is_numbered_row, tag_at,
    text_at,
};
use crate::repeats::{has_script, is_passed, leads_to_script};
use crate::role::{Role, is_among, is_never_shown, role_of};
use crate::role_at::role_at;
use crate::sign::Sign;
use crate::simple::{Embedded, Simple, is_text};
use htmd_document::InlineElement;
use htmd_nodes::{Attribute, Name, NodeId, Tag, Tree, value_of};
use std::alloc::{AllocError, Global};

/// What shows of a page: of its tree, without the elements that `skip` names, and without `noscript` where scripts run.
/// For a rich document more elements count. `Err` means out of memory.
pub fn shown<'t>(
    alloc: Global,
    tree: &'t Tree,
    scripting: bool,
    skip: &'t [&'t str],
    is_rich: bool,
) -> Result<Vec<Simple<'t>>, AllocError>
    ensures { IfOk result (λ nodes. simples_of nodes.items
        ≡ spec.shown_in (views.sight_with scripting skip.now is_rich) (tree_of tree.now 0)) }
{
    let root = tree.root();
    let sight = Sight {
        alloc,
        tree,
        scripting,
        skip,
        is_rich,
    };
    let inside = Inside {
        parent: root,
        around: Around::NOWHERE,
        source: None,
        formats: &[],
        is_quoted: false,
    };
    let content = sight.among(tree.children(root), &inside)?;
    Ok(content.nodes)
}

// ---- what is walked

/// A page that is looked at.
#[derive(Clone, Copy)]
struct Sight<'t> {
    alloc: Global,
    tree: &'t Tree,
    /// Whether scripts run.
    scripting: bool,
    /// The names of the elements that are skipped with all in them.
    skip: &'t [&'t str],
    /// Whether the document is rich.
    is_rich: bool,
}

/// What stands around a node.
#[derive(Clone, Copy)]
struct Around {
    /// Whether it is in a heading or the like.
    in_head: bool,
    /// Whether it is in a `pre`.
    in_pre: bool,
    /// Whether it is right in a row with line numbers.
    in_numbered_row: bool,
}

/// A node that shows, and what is known of it.
#[derive(Drop)]
struct Seen<'t> {
    node: Simple<'t>,
    below: Below,
}

/// Nodes that show, and what is known of them.
#[derive(Drop)]
struct Content<'t> {
    nodes: Vec<Simple<'t>>,
    below: Below,
}

impl Around {
    const NOWHERE: Around = Around {
        in_head: false,
        in_pre: false,
        in_numbered_row: false,
    };

    /// Inside an element.
    fn inside(self, tree: &Tree, found: &Element) -> Around
        requires { All (λ node. node < length tree.now) found.now.children.now }
        ensures { views.around_of result ≡ spec.inside found.now.name.now
            (forest_of (tree_of tree.now) found.now.children.now) (views.around_of self) }
    {
        let role = role_of(found.name);
        Around {
            in_head: self.in_head || role.is_headed(),
            in_pre: self.in_pre || role.is_preformatted(),
            in_numbered_row: is_numbered_row(tree, found.name, found.children),
        }
    }

    /// Whether a browser doesn't show an element, or it is a line number in code.
    fn is_hidden(self, name: &Name, attrs: &[Attribute]) -> bool
        ensures { result ≡ spec.is_hidden (views.around_of self) name.now (pairs_of attrs.now) }
    {
        is_never_shown(name) || self.in_pre && is_number_in_code(name, attrs)
    }

    /// Whether nothing of the content of an element shows.
    fn is_emptied(self, name: &Name, attrs: &[Attribute]) -> bool
        ensures { result ≡ spec.is_emptied (views.around_of self) name.now (pairs_of attrs.now) }
    {
        role_of(name).is_void() || self.in_numbered_row && is_number_cell(name, attrs)
    }
}

// ---- nodes of the simpler tree

impl<'t> Seen<'t> {
    fn of_text(text: &'t str) -> Seen<'t>
        ensures value { views.node_of result ≡ trees.text (shown_text text.now) }
        ensures summed { views.IsSummed result }
    {
        Seen {
            node: Simple::Text(text),
            below: Below::of_sign(Sign::of_text(text)),
        }
    }

    fn of_image(address: Option<&'t str>, attrs: &'t [Attribute]) -> Seen<'t>
        ensures value { views.node_of result
            ≡ trees.image (option_copied address.entry) (pairs_of attrs.now) }
        ensures summed { views.IsSummed result }
    {
        Seen {
            node: Simple::Image { address, attrs },
            below: Below::of_image(address.is_some(), text_of(attrs, "alt")),
        }
    }

    #[tactic(auto, using(crate::proofs::BelowsLemmas::formula_below))]
    fn of_formula(tex: String, is_alone: bool, attrs: &'t [Attribute]) -> Seen<'t>
        ensures value { views.node_of result ≡ trees.formula (string_bytes tex) is_alone (pairs_of attrs.now) }
        ensures summed { views.IsSummed result }
    {
        Seen {
            node: Simple::Formula {
                tex,
                is_alone,
                attrs,
            },
            below: Below::of_leaf(Sign::More),
        }
    }

    fn of_embedded(
        alloc: Global,
        node: NodeId,
        found: Embedding,
        attrs: &'t [Attribute],
    ) -> Result<Seen<'t>, AllocError>
        ensures value { IfOk result (λ seen. views.node_of seen
            ≡ trees.embedded node (string_bytes found.address) (string_bytes found.title) (pairs_of attrs.now) []) }
        ensures summed { IfOk result (λ seen. views.IsSummed seen) }
    {
        let below = Below::of_leaf(Sign::of_text(found.title.as_str()));
        let embedded = Embedded {
            node,
            address: found.address,
            title: found.title,
            attrs,
            anchors: Vec::new(alloc),
        };
        Ok(Seen {
            node: Simple::Embedded(Box::new(alloc, embedded)?),
            below,
        })
    }

    #[tactic(auto, using(crate::proofs::BelowsLemmas::below_facts))]
    fn of_element(
        node: NodeId,
        role: Role,
        attrs: &'t [Attribute],
        content: Content<'t>,
    ) -> Seen<'t>
        requires { views.AreSummed content }
        ensures value { views.node_of result
            ≡ facts.made node role (pairs_of attrs.now) (views.nodes_of content.entry) }
        ensures summed { views.IsSummed result }
    {
        let below = content.below.within(role);
        Seen {
            node: Simple::Element {
                node,
                role,
                facts: content.below.facts(),
                attrs,
                content: content.nodes,
            },
            below,
        }
    }
}

impl<'t> Content<'t> {
    /// None yet.
    fn with_capacity(alloc: Global, capacity: usize) -> Result<Content<'t>, AllocError>
        ensures value { IfOk result (λ content. views.nodes_of content ≡ trees.none) }
        ensures summed { IfOk result (λ content. views.AreSummed content) }
    {
        Ok(Content {
            nodes: Vec::with_capacity(alloc, capacity)?,
            below: Below::NOTHING,
        })
    }

    /// Adds one more node.
    #[tactic(auto, using(crate::proofs::BelowsLemmas::below_one, crate::proofs::NodesLemmas::nodes_push))]
    fn push(&mut self, seen: Seen<'t>) -> Result<(), AllocError>
        requires nodes { views.AreSummed self.old }
        requires node { views.IsSummed seen }
        ensures value { OnOk result (views.nodes_of self.new
            ≡ spec.followed_by (views.nodes_of self.old) (trees.more (views.node_of seen.entry) trees.none)) }
        ensures summed { OnOk result (views.AreSummed self.new) }
    {
        self.below = self.below.and(seen.below);
        self.nodes.push(seen.node)?;
        Ok(())
    }

    /// Adds one more node in a format, if one shows.
    fn push_next(
        &mut self,
        alloc: Global,
        seen: Option<Seen<'t>>,
        format: Option<InlineElement>,
        parent: NodeId,
    ) -> Result<(), AllocError>
        requires nodes { views.AreSummed self.old }
        requires node { IfSome seen (λ s. views.IsSummed s) }
        ensures value { OnOk result (views.nodes_of self.new ≡ spec.followed_by (views.nodes_of self.old)
            (views.raised_next format parent (option_map views.node_of seen.entry))) }
        ensures summed { OnOk result (views.AreSummed self.new) }
    {
        match seen {
            Some(seen) => self.push_raised(alloc, seen, format, parent),
            None => Ok(()),
        }
    }

    /// Adds one more node in a format, if there is one.
    fn push_raised(
        &mut self,
        alloc: Global,
        seen: Seen<'t>,
        format: Option<InlineElement>,
        parent: NodeId,
    ) -> Result<(), AllocError>
        requires nodes { views.AreSummed self.old }
        requires node { views.IsSummed seen }
        ensures value { OnOk result (views.nodes_of self.new ≡ spec.followed_by (views.nodes_of self.old)
            (trees.more (spec.raised_one format parent (views.node_of seen.entry)) trees.none)) }
        ensures summed { OnOk result (views.AreSummed self.new) }
    {
        match format {
            Some(format) => self.push(raised(alloc, format, parent, seen)?),
            None => self.push(seen),
        }
    }

    /// Adds one more mark of a quotation, where it is one.
    fn mark(&mut self, is_quoted: bool) -> Result<(), AllocError>
        requires { views.AreSummed self.old }
        ensures value { OnOk result (views.nodes_of self.new
            ≡ spec.followed_by (views.nodes_of self.old) (spec.marks is_quoted)) }
        ensures summed { OnOk result (views.AreSummed self.new) }
    {
        if is_quoted {
            self.push(Seen::of_text("\""))
        } else {
            Ok(())
        }
    }
}

// ---- raised and lowered parts of formulas

/// What the element children of a formula's part are put in: of `msup` the second is raised.
fn raised_by(name: &Name) -> &'static [Option<InlineElement>]
    ensures { result.now ≡ spec.raised_by name.now }
{
    if name.is(Tag::Msup) {
        &[None, Some(InlineElement::Superscript)]
    } else if name.is(Tag::Msub) {
        &[None, Some(InlineElement::Subscript)]
    } else if name.is(Tag::Msubsup) {
        &[
            None,
            Some(InlineElement::Subscript),
            Some(InlineElement::Superscript),
        ]
    } else {
        &[]
    }
}

/// The first of these formats.
fn format_of(formats: &[Option<InlineElement>]) -> Option<InlineElement>
    ensures { result ≡ spec.format_of formats.now }
{
    match formats {
        [format, ..] => *format,
        [] => None,
    }
}

/// Those for the elements after a node that may show.
fn formats_past<'a>(
    formats: &'a [Option<InlineElement>],
    seen: &Option<Seen>,
) -> &'a [Option<InlineElement>]
    ensures { result.now ≡ views.formats_past formats.now (option_map views.node_of seen.now) }
{
    match seen {
        Some(seen) => formats_after(formats, &seen.node),
        None => formats,
    }
}

/// Those for the elements after a node.
fn formats_after<'a>(
    formats: &'a [Option<InlineElement>],
    node: &Simple,
) -> &'a [Option<InlineElement>]
    ensures { result.now ≡ spec.formats_after formats.now (simple_of node.now) }
{
    match formats {
        [_, rest @ ..] => { if is_text(node) { formats } else { rest } }
        [] => formats,
    }
}

/// A node in a format, if it is an element.
#[cold]
fn raised<'t>(
    alloc: Global,
    format: InlineElement,
    parent: NodeId,
    seen: Seen<'t>,
) -> Result<Seen<'t>, AllocError>
    requires { views.IsSummed seen }
    ensures value { IfOk result (λ made. views.node_of made
        ≡ spec.raised_one (Some format) parent (views.node_of seen.entry)) }
    ensures summed { IfOk result (λ made. views.IsSummed made) }
{
    if is_text(&seen.node) {
        return Ok(seen);
    }
    let mut content = Content::with_capacity(alloc, 1)?;
    content.push(seen)?;
    Ok(Seen::of_element(parent, Role::Element(format), &[], content))
}

// ---- permalinks

/// Whether a link is one to its own place: in a heading or the like by its class or its address, elsewhere by both.
#[tactic(auto, using(crate::proofs::BelowsLemmas::mark_told))]
fn is_permalink(in_head: bool, attrs: &[Attribute], content: &Content) -> bool
    requires { views.AreSummed content.now }
    ensures { result ≡ permalinks.is_permalink in_head (pairs_of attrs.now) (views.nodes_of content.now) }
{
    let is_near = leads_to_part(value_of(attrs, "href")) && content.below.is_usual_sign();
    let is_known = is_of_permalink(attrs);
    if in_head {
        is_known && content.below.is_sign() || is_near
    } else {
        is_known && is_near
    }
}

/// What stays of a permalink: the place, if links can lead to it.
fn target<'t>(
    alloc: Global,
    node: NodeId,
    attrs: &'t [Attribute],
) -> Result<Option<Seen<'t>>, AllocError>
    ensures value { IfOk result (λ seen. option_map views.node_of seen ≡ spec.target node (pairs_of attrs.now)) }
    ensures summed { IfOk result (λ seen. IfSome seen (λ s. views.IsSummed s)) }
{
    if value_of(attrs, "id").is_none() && value_of(attrs, "name").is_none() {
        return Ok(None);
    }
    let content = Content::with_capacity(alloc, 0)?;
    Ok(Some(Seen::of_element(node, Role::Target, attrs, content)))
}

// ---- nodes beside each other

/// What stands around nodes beside each other.
#[derive(Clone, Copy)]
struct Inside<'t> {
    parent: NodeId,
    around: Around,
    /// What a picture gives for the first image.
    source: Option<&'t str>,
    /// What the elements are put in.
    formats: &'t [Option<InlineElement>],
    /// Whether they are between the marks of a quotation.
    is_quoted: bool,
}

/// What is known of the nodes before a node.
#[derive(Clone, Copy)]
struct Before<'t> {
    /// What a picture gives for the next image.
    source: Option<&'t str>,
    /// The attributes of the last element.
    element: Option<&'t [Attribute]>,
}

impl<'t> Before<'t> {
    /// What a picture gives for a node.
    fn source_for(self, tree: &Tree, node: NodeId) -> Option<&'t str>
        requires { node < length tree.now }
        ensures { option_copied result ≡ spec.source_for (option_copied self.entry.source) (tree_of tree.now node) }
    {
        if self.source.is_some() && is_img(tree, node) {
            self.source
        } else {
            None
        }
    }

    /// Whether a node shows a formula again; follows: whether a script with TeX follows it.
    fn is_repeat(self, tree: &Tree, node: NodeId, follows: bool) -> bool
        requires { node < length tree.now }
        ensures { result
            ≡ repeats.is_repeat (views.attributes_of self.entry.element) (tree_of tree.now node) follows }
    {
        match tag_at(tree, node) {
            Some((_, attrs)) => self.is_copied(attrs) || follows && is_passed(tree, node),
            None => false,
        }
    }

    /// Whether an element with these attributes shows the last element again.
    fn is_copied(self, attrs: &[Attribute]) -> bool
        ensures { result ≡ repeats.is_copied (views.attributes_of self.entry.element) (pairs_of attrs.now) }
    {
        match self.element {
            Some(before) => is_copy(before, attrs),
            None => false,
        }
    }

    /// After one more node.
    fn and(self, tree: &'t Tree, node: NodeId) -> Before<'t>
        requires { node < length tree.now }
        ensures source { option_copied result.source
            ≡ spec.source_after (option_copied self.entry.source) (tree_of tree.now node) }
        ensures element { views.attributes_of result.element
            ≡ repeats.last_element (views.attributes_of self.entry.element) (tree_of tree.now node) }
    {
        match tag_at(tree, node) {
            Some((name, attrs)) => Before {
                source: if self.source.is_some() && name.is(Tag::Img) {
                    None
                } else {
                    self.source
                },
                element: Some(attrs),
            },
            None => self,
        }
    }
}

// ---- the walk

impl<'t> Sight<'t> {
    /// Whether this is one of the names that are skipped, of which there are seldom any.
    fn is_named_to_skip(&self, name: &Name) -> bool
        ensures { result ≡ roles.is_among (views.sight_of self.now).skip name.now }
    {
        if self.skip.is_empty() {
            return false;
        }
        is_among(name.as_str(), self.skip)
    }

    /// Whether elements with this name are skipped with all in them.
    fn is_skipped(&self, name: &Name) -> bool
        ensures { result ≡ spec.is_skipped (views.sight_of self.now) name.now }
    {
        self.is_named_to_skip(name) || name.is(Tag::Noscript) && self.scripting
    }

    /// What shows of a node, if something does.
    #[cycle(shown)]
    #[tactic(auto, unfolding(crate::specs::Shown::shown))]
    fn node(
        &self,
        node: NodeId,
        around: Around,
        source: Option<&'t str>,
    ) -> Result<Option<Seen<'t>>, AllocError>
        requires { node < length self.now.tree.now }
        ensures value { IfOk result (λ seen. option_map views.node_of seen
            ≡ spec.shown (views.sight_of self.now) (views.around_of around) (option_copied source.entry)
            (tree_of self.now.tree.now node)) }
        ensures summed { IfOk result (λ seen. IfSome seen (λ s. views.IsSummed s)) }
    {
        match element_at(self.tree, node) {
            Some(found) => self.element(&found, around, source),
            None => match text_at(self.tree, node) {
                Some(text) => Ok(Some(Seen::of_text(text))),
                None => Ok(None),
            },
        }
    }

    /// What shows of an element, if something does.
    #[cycle(shown)]
    #[tactic(auto, unfolding(crate::specs::Shown::shown))]
    fn element(
        &self,
        found: &Element<'t>,
        around: Around,
        source: Option<&'t str>,
    ) -> Result<Option<Seen<'t>>, AllocError>
        requires { All (λ node. node < length self.now.tree.now) found.now.children.now }
        ensures value { IfOk result (λ seen. option_map views.node_of seen
            ≡ spec.shown (views.sight_of self.now) (views.around_of around) (option_copied source.entry)
            (element_in self.now.tree.now found.now)) }
        ensures summed { IfOk result (λ seen. IfSome seen (λ s. views.IsSummed s)) }
    {
        if self.is_skipped(found.name) {
            return Ok(None);
        }
        match tex_of(self.alloc, self.tree, found)? {
            Some(tex) => {
                let is_alone = is_display(found.name, found.attrs);
                Ok(Some(Seen::of_formula(tex, is_alone, found.attrs)))
            }
            None => self.other_element(found, around, source),
        }
    }

    /// What shows of an element that isn't skipped and is no formula, if something does.
    #[cycle(shown)]
    fn other_element(
        &self,
        found: &Element<'t>,
        around: Around,
        source: Option<&'t str>,
    ) -> Result<Option<Seen<'t>>, AllocError>
        requires { All (λ node. node < length self.now.tree.now) found.now.children.now }
        ensures value { IfOk result (λ seen. option_map views.node_of seen
            ≡ views.other_shown (views.sight_of self.now) (views.around_of around) (option_copied source.entry)
            (element_in self.now.tree.now found.now)) }
        ensures summed { IfOk result (λ seen. IfSome seen (λ s. views.IsSummed s)) }
    {
        if around.is_hidden(found.name, found.attrs) {
            return Ok(None);
        }
        if is_image(found.name, found.attrs) {
            let address = image_address(self.alloc, found.attrs, source)?;
            return Ok(Some(Seen::of_image(address, found.attrs)));
        }
        if is_embedding(found.name) {
            return self.embedded(found);
        }
        let content = self.content(found, around)?;
        if found.name.is(Tag::Object) {
            self.object(found, content)
        } else {
            self.with_content(found, around.in_head, content)
        }
    }

    /// What an element embeds, if that is to be seen.
    fn embedded(&self, found: &Element<'t>) -> Result<Option<Seen<'t>>, AllocError>
        requires { All (λ node. node < length self.now.tree.now) found.now.children.now }
        ensures value { IfOk result (λ seen. option_map views.node_of seen
            ≡ spec.embed found.now.node (pairs_of found.now.attrs.now)
            (embeds.embedding_of found.now.name.now (pairs_of found.now.attrs.now)
            (forest_of (tree_of self.now.tree.now) found.now.children.now))) }
        ensures summed { IfOk result (λ seen. IfSome seen (λ s. views.IsSummed s)) }
    {
        match embedding_of(self.alloc, self.tree, found)? {
            Some(embedding) => {
                let seen = Seen::of_embedded(self.alloc, found.node, embedding, found.attrs)?;
                Ok(Some(seen))
            }
            None => Ok(None),
        }
    }

    /// An object with this content: what it embeds, where nothing shows of that.
    fn object(
        &self,
        found: &Element<'t>,
        content: Content<'t>,
    ) -> Result<Option<Seen<'t>>, AllocError>
        requires within { All (λ node. node < length self.now.tree.now) found.now.children.now }
        requires summed { views.AreSummed content }
        ensures value { IfOk result (λ seen. option_map views.node_of seen
            ≡ spec.object found.now.node (pairs_of found.now.attrs.now) (views.nodes_of content.entry)
            (embeds.embedding_of found.now.name.now (pairs_of found.now.attrs.now)
            (forest_of (tree_of self.now.tree.now) found.now.children.now))) }
        ensures summed { IfOk result (λ seen. IfSome seen (λ s. views.IsSummed s)) }
    {
        if !content.below.is_blank {
            let seen = Seen::of_element(found.node, Role::Plain, found.attrs, content);
            return Ok(Some(seen));
        }
        match self.embedded(found)? {
            Some(seen) => Ok(Some(seen)),
            None => {
                let seen = Seen::of_element(found.node, Role::Plain, found.attrs, content);
                Ok(Some(seen))
            }
        }
    }

    /// An element with this content, if something shows of it.
    fn with_content(
        &self,
        found: &Element<'t>,
        in_head: bool,
        content: Content<'t>,
    ) -> Result<Option<Seen<'t>>, AllocError>
        requires within { All (λ node. node < length self.now.tree.now) found.now.children.now }
        requires summed { views.AreSummed content }
        ensures value { IfOk result (λ seen. option_map views.node_of seen
            ≡ spec.with_content self.now.is_rich in_head found.now.node found.now.name.now
            (pairs_of found.now.attrs.now) (forest_of (tree_of self.now.tree.now) found.now.children.now)
            (views.nodes_of content.entry)) }
        ensures summed { IfOk result (λ seen. IfSome seen (λ s. views.IsSummed s)) }
    {
        if found.name.is(Tag::A) && is_permalink(in_head, found.attrs, &content) {
            return target(self.alloc, found.node, found.attrs);
        }
        let role = role_at(self.is_rich, self.tree, found);
        Ok(Some(Seen::of_element(found.node, role, found.attrs, content)))
    }

    /// What shows of the content of an element.
    #[cycle(shown)]
    fn content(&self, found: &Element<'t>, around: Around) -> Result<Content<'t>, AllocError>
        requires { All (λ node. node < length self.now.tree.now) found.now.children.now }
        ensures value { IfOk result (λ content. views.nodes_of content
            ≡ views.content_shown (views.sight_of self.now) (views.around_of around)
            (element_in self.now.tree.now found.now)) }
        ensures summed { IfOk result (λ content. views.AreSummed content) }
    {
        if around.is_emptied(found.name, found.attrs) {
            return Content::with_capacity(self.alloc, 0);
        }
        let inside = Inside {
            parent: found.node,
            around: around.inside(self.tree, found),
            source: picture_source(self.tree, found.name, found.children),
            formats: raised_by(found.name),
            is_quoted: found.name.is(Tag::Q),
        };
        self.among(found.children, &inside)
    }

    /// What shows of nodes beside each other.
    #[cycle(shown)]
    fn among(&self, nodes: &[NodeId], inside: &Inside<'t>) -> Result<Content<'t>, AllocError>
        requires { All (λ node. node < length self.now.tree.now) nodes.now }
        ensures value { IfOk result (λ content. views.nodes_of content
            ≡ spec.marked inside.now.is_quoted (spec.raised inside.now.formats.now inside.now.parent
            (spec.shown_all (views.sight_of self.now) (views.around_of inside.now.around)
            (option_copied inside.now.source) None (forest_of (tree_of self.now.tree.now) nodes.now)))) }
        ensures summed { IfOk result (λ content. views.AreSummed content) }
    {
        let mut content = Content::with_capacity(self.alloc, nodes.len())?;
        content.mark(inside.is_quoted)?;
        let mut before = Before {
            source: inside.source,
            element: None,
        };
        let mut formats = inside.formats;
        let scripts = has_script(self.tree, nodes);
        let mut follows = self.script_follows(nodes, scripts)?;
        for (place, node) in nodes.iter().enumerate() {
            if let Some(text) = text_at(self.tree, *node) {
                content.push(Seen::of_text(text))?;
                follows = self.follows_after(*node, &nodes[place + 1..], follows, scripts)?;
                continue;
            }
            let seen = self.next(*node, inside.around, before, follows)?;
            let format = format_of(formats);
            formats = formats_past(formats, &seen);
            content.push_next(self.alloc, seen, format, inside.parent)?;
            before = before.and(self.tree, *node);
            follows = self.follows_after(*node, &nodes[place + 1..], follows, scripts)?;
        }
        content.mark(inside.is_quoted)?;
        Ok(content)
    }

    /// Whether a script with TeX comes first of these nodes; scripts: whether one can be among them.
    fn script_follows(&self, nodes: &[NodeId], scripts: bool) -> Result<bool, AllocError>
        requires nodes { All (λ n. n < length self.now.tree.now) nodes.now }
        requires scripts { scripts ≡ false
            → repeats.has_script (forest_of (tree_of self.now.tree.now) nodes.now) ≡ false }
        ensures { IfOk result (λ b. b ≡ repeats.leads_to_script (views.sight_of self.now).skip
            (forest_of (tree_of self.now.tree.now) nodes.now)) }
    {
        if !scripts {
            return Ok(false);
        }
        leads_to_script(self.alloc, self.tree, self.skip, nodes)
    }

    /// Whether a script with TeX follows a node before the rest, if it is known what follows before the node.
    fn follows_after(
        &self,
        node: NodeId,
        rest: &[NodeId],
        follows: bool,
        scripts: bool,
    ) -> Result<bool, AllocError>
        requires node { node < length self.now.tree.now }
        requires rest { All (λ n. n < length self.now.tree.now) rest.now }
        requires scripts { scripts ≡ false
            → repeats.has_script (forest_of (tree_of self.now.tree.now) rest.now) ≡ false }
        requires follows { follows ≡ repeats.leads_to_script (views.sight_of self.now).skip
            (pages.more (tree_of self.now.tree.now node) (forest_of (tree_of self.now.tree.now) rest.now)) }
        ensures { IfOk result (λ b. b ≡ repeats.leads_to_script (views.sight_of self.now).skip
            (forest_of (tree_of self.now.tree.now) rest.now)) }
    {
        if !scripts {
            return Ok(false);
        }
        if is_passed(self.tree, node) {
            return Ok(follows);
        }
        leads_to_script(self.alloc, self.tree, self.skip, rest)
    }

    /// What shows of a node after others, if something does; follows: whether a script with TeX follows it.
    #[cycle(shown)]
    fn next(
        &self,
        node: NodeId,
        around: Around,
        before: Before<'t>,
        follows: bool,
    ) -> Result<Option<Seen<'t>>, AllocError>
        requires { node < length self.now.tree.now }
        ensures value { IfOk result (λ seen. option_map views.node_of seen
            ≡ views.next_shown (views.sight_of self.now) (views.around_of around) (option_copied before.entry.source)
            (views.attributes_of before.entry.element) (tree_of self.now.tree.now node) follows) }
        ensures summed { IfOk result (λ seen. IfSome seen (λ s. views.IsSummed s)) }
    {
        if before.is_repeat(self.tree, node, follows) {
            return Ok(None);
        }
        self.node(node, around, before.source_for(self.tree, node))
    }
}
