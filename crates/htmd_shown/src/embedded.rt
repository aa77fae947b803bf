//! What is embedded in a page: another page, or a file that is played or shown.
ghost use Rattle.std.specs.Prelude.{◌≡◌, ◌≤◌, ◌<◌, All, IfOk, length, string_bytes, option_map};
ghost use Rattle.std.specs.List.{prefix_len};
ghost use Rattle.std.specs.Option.{option_copied};
ghost use Rattle.htmd_lexical.specs.Attributes.{pairs_of};
ghost use Rattle.htmd_nodes.specs.NumberedTrees.{tree_of, forest_of};
ghost use Rattle.htmd_shown.specs.EmbedViews.{embedding_in};
ghost use Rattle.htmd_shown.specs.Embeds as spec;
ghost use Rattle.htmd_shown.specs.Roles as roles;

use crate::attributes::{address, in_line, is_to_part, number_at, text_of};
use crate::page::{Element, element_at};
use crate::shown_text::is_blank_when_shown;
use crate::spaces::is_blank_text;
use htmd_nodes::{Attribute, Name, NodeId, Tag, Tree, value_of};
use std::alloc::{AllocError, Global};

/// Where something embedded is, and what is said of it.
#[derive(Drop)]
pub(crate) struct Embedding {
    pub(crate) address: String,
    pub(crate) title: String,
}

// ---- addresses

/// Whether a byte can stand in the scheme of an address (RFC 3986, 3.1).
fn is_scheme_character(b: u8) -> bool
    ensures { result ≡ spec.is_scheme_character b }
{
    b.is_ascii_alphanumeric() || matches!(b, b'+' | b'.' | b'-')
}

/// How many such bytes begin a text.
fn scheme_len(text: &[u8]) -> usize
    ensures bound { result ≤ length text.now }
    ensures value { result ≡ prefix_len spec.is_scheme_character text.now }
{
    for (len, b) in text.iter().enumerate() {
        if !is_scheme_character(*b) {
            return len;
        }
    }
    text.len()
}

/// The scheme of an address: a letter begins it, and a colon ends it.
fn scheme_of(text: &[u8]) -> Option<&[u8]>
    ensures { option_copied result ≡ spec.scheme_of text.now }
{
    let len = scheme_len(text);
    match (&text[..len], &text[len..]) {
        ([first, ..], [b':', ..]) if first.is_ascii_alphabetic() => Some(&text[..len]),
        _ => None,
    }
}

/// Whether an address has no scheme, or one of pages.
fn is_for_pages(text: &[u8]) -> bool
    ensures { result ≡ spec.is_for_pages (spec.scheme_of text.now) }
{
    match scheme_of(text) {
        Some(scheme) => {
            scheme.eq_ignore_ascii_case(b"http") || scheme.eq_ignore_ascii_case(b"https")
        }
        None => true,
    }
}

/// Whether an address is one of `http` or `https`, or a relative one to another page or file.
fn is_place(address: &str) -> bool
    ensures { result ≡ spec.is_place address.now }
{
    !is_blank_when_shown(address) && !is_to_part(address) && is_for_pages(address.as_bytes())
}

/// The address that a value gives, if it is one of a page or a file.
fn place_of(alloc: Global, value: &str) -> Result<Option<String>, AllocError>
    ensures { IfOk result (λ place. option_map string_bytes place ≡ spec.place_of value.now) }
{
    let address = address(alloc, value)?;
    if is_place(address.as_str()) {
        Ok(Some(address))
    } else {
        Ok(None)
    }
}

/// The address of the first `source` among nodes, if it is one of a page or a file.
fn source_place(alloc: Global, tree: &Tree, nodes: &[NodeId]) -> Result<Option<String>, AllocError>
    requires { All (λ node. node < length tree.now) nodes.now }
    ensures { IfOk result (λ place. option_map string_bytes place
        ≡ spec.source_place (forest_of (tree_of tree.now) nodes.now)) }
{
    for node in nodes {
        if let Some(found) = element_at(tree, *node) {
            if found.name.is(Tag::Source) {
                return place_of(alloc, text_of(found.attrs, "src"));
            }
        }
    }
    Ok(None)
}

/// The attribute that has the address of what an element with this name embeds.
fn address_name(name: &Name) -> &'static str
    ensures { result.now ≡ spec.address_name name.now }
{
    if name.is(Tag::Object) { "data" } else { "src" }
}

/// Whether an element with this name can have sources in it.
fn has_sources(name: &Name) -> bool
    ensures { result ≡ spec.has_sources name.now }
{
    name.is(Tag::Video) || name.is(Tag::Audio)
}

/// The address of what an element embeds: its own, or that of a source.
fn embedded_place(alloc: Global, tree: &Tree, found: &Element) -> Result<Option<String>, AllocError>
    requires { All (λ node. node < length tree.now) found.now.children.now }
    ensures { IfOk result (λ place. option_map string_bytes place
        ≡ spec.embedded_address found.now.name.now (pairs_of found.now.attrs.now)
        (forest_of (tree_of tree.now) found.now.children.now)) }
{
    match place_of(alloc, text_of(found.attrs, address_name(found.name)))? {
        Some(place) => Ok(Some(place)),
        None => {
            if has_sources(found.name) {
                source_place(alloc, tree, found.children)
            } else {
                Ok(None)
            }
        }
    }
}

// ---- elements

/// Whether a number is 0 or 1.
fn is_tiny(number: Option<i64>) -> bool
    ensures { result ≡ spec.is_tiny number }
{
    matches!(number, Some(0 | 1))
}

/// Whether something is embedded without being seen: hidden, or as wide or high as nothing.
fn is_unseen(attrs: &[Attribute]) -> bool
    ensures { result ≡ spec.is_unseen (pairs_of attrs.now) }
{
    value_of(attrs, "hidden").is_some()
        || is_tiny(number_at(attrs, "width"))
        || is_tiny(number_at(attrs, "height"))
}

/// The text of the link to what is embedded: its title, else its label, else its address.
fn embedded_title(alloc: Global, attrs: &[Attribute], place: &str) -> Result<String, AllocError>
    ensures { IfOk result (λ s. string_bytes s ≡ spec.embedded_title (pairs_of attrs.now) place.now) }
{
    let title = in_line(alloc, text_of(attrs, "title"))?;
    if !is_blank_text(title.as_str()) {
        return Ok(title);
    }
    let label = in_line(alloc, text_of(attrs, "aria-label"))?;
    if !is_blank_text(label.as_str()) {
        return Ok(label);
    }
    in_line(alloc, place)
}

/// What an element embeds, if that is to be seen.
pub(crate) fn embedding_of(
    alloc: Global,
    tree: &Tree,
    found: &Element,
) -> Result<Option<Embedding>, AllocError>
    requires { All (λ node. node < length tree.now) found.now.children.now }
    ensures { IfOk result (λ embedding. option_map embedding_in embedding
        ≡ spec.embedding_of found.now.name.now (pairs_of found.now.attrs.now)
        (forest_of (tree_of tree.now) found.now.children.now)) }
{
    let Some(address) = embedded_place(alloc, tree, found)? else {
        return Ok(None);
    };
    if is_unseen(found.attrs) {
        return Ok(None);
    }
    let title = embedded_title(alloc, found.attrs, address.as_str())?;
    Ok(Some(Embedding { address, title }))
}

/// Whether elements with this name embed something, but for `object`, which can have content of its own.
pub(crate) fn is_embedding(name: &Name) -> bool
    ensures { result ≡ roles.is_among spec.embedding_names name.now }
{
    name.is(Tag::Iframe) || has_sources(name) || name.is(Tag::Embed)
}
