//! What becomes of an element, by what is asked.
ghost use Rattle.std.specs.Prelude.{◌≡◌, ◌<◌, All, IfOk, length};
ghost use Rattle.std.specs.List.{list_all};
ghost use Rattle.std.specs.Option.{option_copied};
ghost use Rattle.std.specs.Str.{chars};
ghost use Rattle.htmd_lexical.specs.Attributes.{pairs_of};
ghost use Rattle.htmd_nodes.specs.NumberedTrees.{tree_of, forest_of};
ghost use Rattle.htmd_nodes.specs.Views.{data_of};
ghost use Rattle.htmd_shown.specs.Embeds.{embedding_names};
ghost use Rattle.htmd_shown.specs.Embeds as embeds;
ghost use Rattle.htmd_shown.specs.Roles.{is_among};
ghost use Rattle.htmd_trimming.specs.FateViews.{fate_of};
ghost use Rattle.htmd_trimming.specs.FateViews as views;
ghost use Rattle.htmd_trimming.specs.Fates as spec;

use crate::asked::{Images, Page};
use crate::formulas::is_formula;
use crate::hidden::is_hidden;
use htmd_nodes::{Attribute, Name, NodeData, NodeId, Tag, Tree, value_of};
use htmd_shown::attributes::{address, leads_to_part, number_at, text_of};
use htmd_shown::image_source::{image_address, is_data, is_image};
use htmd_shown::shown_text::is_blank_character;
use htmd_shown::spaces::is_blank_text;
use htmd_shown::{is_of_wiki, is_usual_sign};
use std::alloc::{AllocError, Global};

/// What becomes of an element.
#[derive(Clone, Copy)]
pub(crate) enum Fate<'t> {
    Gone,
    /// A text stands in its place, unless it is empty.
    Text(&'t str),
    /// It stays, without the attributes of this name.
    Kept(Option<&'static str>),
    /// It stays, and its class says that it is a permalink.
    Sign,
}

/// Whether an address has a file in itself.
fn holds_file(alloc: Global, place: Option<&str>) -> Result<bool, AllocError>
    ensures { IfOk result (λ b. b ≡ spec.holds_file (option_copied place.entry)) }
{
    match place {
        Some(text) => {
            let address = address(alloc, text)?;
            Ok(is_data(address.as_bytes()))
        }
        None => Ok(false),
    }
}

/// What becomes of an image, of which its picture may give a source.
#[tactic(auto, using(crate::proofs::FatesLemmas::without_none))]
fn image_fate<'t>(
    alloc: Global,
    images: Images,
    source: Option<&'t str>,
    attrs: &'t [Attribute],
) -> Result<Fate<'t>, AllocError>
    ensures { IfOk result (λ f. fate_of (pairs_of attrs.now) f
        ≡ spec.image_fate images (option_copied source.entry) (pairs_of attrs.now)) }
{
    match images {
        Images::Keep => Ok(Fate::Kept(None)),
        Images::Linked => {
            if holds_file(alloc, image_address(alloc, attrs, source)?)? {
                Ok(Fate::Text(text_of(attrs, "alt")))
            } else {
                Ok(Fate::Kept(None))
            }
        }
        Images::Alt => Ok(Fate::Text(text_of(attrs, "alt"))),
        Images::Drop => Ok(Fate::Gone),
    }
}

/// Whether an element with this name embeds, and has no content of its own.
fn is_embedding(name: &Name) -> bool
    ensures { result ≡ is_among embedding_names name.now }
{
    name.is(Tag::Iframe) || name.is(Tag::Video) || name.is(Tag::Audio) || name.is(Tag::Embed)
}

fn is_tiny(number: Option<i64>) -> bool
    ensures { result ≡ embeds.is_tiny number }
{
    matches!(number, Some(0 | 1))
}

/// Whether something is embedded without being seen: hidden, or as wide or high as nothing.
fn is_unseen(attrs: &[Attribute]) -> bool
    ensures { result ≡ embeds.is_unseen (pairs_of attrs.now) }
{
    value_of(attrs, "hidden").is_some()
        || is_tiny(number_at(attrs, "width"))
        || is_tiny(number_at(attrs, "height"))
}

/// The title of what is embedded, else its label; nothing if it isn't seen.
fn embedded_text(attrs: &[Attribute]) -> &str
    ensures { result.now ≡ spec.embedded_text (pairs_of attrs.now) }
{
    let title = text_of(attrs, "title");
    if is_unseen(attrs) {
        ""
    } else if is_blank_text(title) {
        text_of(attrs, "aria-label")
    } else {
        title
    }
}

fn is_sign_or_blank(c: char) -> bool
    ensures { result ≡ spec.is_sign_or_blank c }
{
    is_usual_sign(c) || is_blank_character(c)
}

fn are_signs(text: &str) -> bool
    ensures { result ≡ list_all spec.is_sign_or_blank (chars text.now) }
{
    text.chars().all(is_sign_or_blank)
}

/// Whether a node is a text of signs that usually link to their own place.
fn is_sign(node: &NodeData) -> bool
    ensures { result ≡ views.is_sign (data_of node.now) }
{
    match node {
        NodeData::Text(text) => are_signs(text.as_str()),
        NodeData::Document | NodeData::Doctype | NodeData::Comment(_) | NodeData::Element { .. } =>
            false,
    }
}

/// Whether nodes beside each other are one text of such signs.
fn is_sign_alone(tree: &Tree, nodes: &[NodeId]) -> bool
    requires { All (λ node. node < length tree.now) nodes.now }
    ensures { result ≡ spec.is_sign_alone (forest_of (tree_of tree.now) nodes.now) }
{
    match nodes {
        [node] => is_sign(tree.data(*node)),
        _ => false,
    }
}

/// Whether an element is a link of such signs to a part of the page.
fn is_sign_link(tree: &Tree, name: &Name, attrs: &[Attribute], children: &[NodeId]) -> bool
    requires { All (λ node. node < length tree.now) children.now }
    ensures { result ≡ spec.is_sign_link name.now (pairs_of attrs.now) (forest_of (tree_of tree.now) children.now) }
{
    name.is(Tag::A) && leads_to_part(value_of(attrs, "href")) && is_sign_alone(tree, children)
}

/// The attribute that says where an element leads.
fn leading_attribute(name: &Name) -> Option<&'static str>
    ensures { option_copied result ≡ spec.leading_attribute name.now }
{
    if name.is(Tag::A) || name.is(Tag::Area) {
        Some("href")
    } else if name.is(Tag::Object) {
        Some("data")
    } else {
        None
    }
}

/// What becomes of an element where links are asked for as text.
fn leading_fate<'t>(
    tree: &Tree,
    name: &Name,
    attrs: &'t [Attribute],
    children: &[NodeId],
) -> Fate<'t>
    requires { All (λ node. node < length tree.now) children.now }
    ensures { fate_of (pairs_of attrs.now) result
        ≡ spec.leading_fate name.now (pairs_of attrs.now) (forest_of (tree_of tree.now) children.now) }
{
    if is_embedding(name) {
        Fate::Text(embedded_text(attrs))
    } else if is_sign_link(tree, name, attrs, children) {
        Fate::Sign
    } else {
        Fate::Kept(leading_attribute(name))
    }
}

/// Whether an element goes with all that is below it.
fn goes(page: &Page<'_>, name: &Name, attrs: &[Attribute], children: &[NodeId]) -> bool
    requires { All (λ node. node < length page.now.tree.now) children.now }
    ensures { result ≡ spec.goes page.now.asked name.now (pairs_of attrs.now)
        (forest_of (tree_of page.now.tree.now) children.now) }
{
    let asked = page.asked;
    asked.visible && is_hidden(attrs) && !is_formula(page.tree, children)
        || asked.untitled && name.is(Tag::Title)
}

/// Whether an element is an image, but for MediaWiki's of a formula.
fn is_shown_image(name: &Name, attrs: &[Attribute]) -> bool
    ensures { result ≡ spec.is_shown_image name.now (pairs_of attrs.now) }
{
    is_image(name, attrs) && !is_of_wiki(attrs)
}

/// What becomes of an element, to which a picture may give a source.
#[tactic(auto, using(crate::proofs::FatesLemmas::without_none))]
pub(crate) fn fate_for<'t>(
    page: &Page<'t>,
    source: Option<&'t str>,
    name: &Name,
    attrs: &'t [Attribute],
    children: &[NodeId],
) -> Result<Fate<'t>, AllocError>
    requires { All (λ node. node < length page.now.tree.now) children.now }
    ensures { IfOk result (λ f. fate_of (pairs_of attrs.now) f
        ≡ spec.fate_for page.now.asked (option_copied source.entry) name.now (pairs_of attrs.now)
        (forest_of (tree_of page.now.tree.now) children.now)) }
{
    if goes(page, name, attrs, children) {
        return Ok(Fate::Gone);
    }
    if is_shown_image(name, attrs) {
        return image_fate(page.alloc, page.asked.images, source, attrs);
    }
    if page.asked.links_as_text {
        return Ok(leading_fate(page.tree, name, attrs, children));
    }
    Ok(Fate::Kept(None))
}
