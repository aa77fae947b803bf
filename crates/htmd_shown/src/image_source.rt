//! Where an image is: pages that load images late keep the address in other attributes than `src`.
ghost use Rattle.std.specs.Prelude.{◌≡◌, ◌<◌, All, IfOk, length};
ghost use Rattle.std.specs.Option.{option_copied};
ghost use Rattle.htmd_lexical.specs.Attributes.{pairs_of};
ghost use Rattle.htmd_nodes.specs.NumberedTrees.{tree_of, forest_of};
ghost use Rattle.htmd_shown.specs.Images as spec;
ghost use Rattle.htmd_text.specs.Trims.{trimmed_text};

use crate::attributes::{address, first_word, text_of};
use crate::page::element_at;
use htmd_nodes::{Attribute, Name, NodeId, Tag, Tree, value_of};
use htmd_text::repeats::{leading_len, trailing_len};
use std::alloc::{AllocError, Global};

/// Whether an address has a file in itself.
pub fn is_data(address: &[u8]) -> bool
    ensures { result ≡ spec.is_data address.now }
{
    address.len() >= 5 && address[..5].eq_ignore_ascii_case(b"data:")
}

/// Whether an address isn't empty, and no data.
fn is_file(alloc: Global, text: &str) -> Result<bool, AllocError>
    ensures { IfOk result (λ b. b ≡ spec.is_file text.now) }
{
    let address = address(alloc, text)?;
    Ok(!address.is_empty() && !is_data(address.as_bytes()))
}

/// An address, if it is that of a file.
fn file_in<'t>(alloc: Global, address: Option<&'t str>) -> Result<Option<&'t str>, AllocError>
    ensures { IfOk result (λ file. option_copied file ≡ spec.file_in (option_copied address.entry)) }
{
    match address {
        Some(text) => {
            if is_file(alloc, text)? {
                Ok(Some(text))
            } else {
                Ok(None)
            }
        }
        None => Ok(None),
    }
}

/// A text without the commas at its ends.
fn without_commas_around(text: &str) -> &str
    ensures { result.now ≡ trimmed_text spec.is_comma text.now }
{
    let text = &text[leading_len(text.as_bytes(), b',')..];
    &text[..text.len() - trailing_len(text.as_bytes(), b',')]
}

/// A word without the commas at its ends, if it is more than these.
fn candidate_in(word: &str) -> Option<&str>
    ensures { option_copied result ≡ spec.candidate_in word.now }
{
    let address = without_commas_around(word);
    if address.is_empty() {
        None
    } else {
        Some(address)
    }
}

/// The first address of a set: a word that is more than commas, without the commas at its ends.
fn first_candidate(set: &str) -> Option<&str>
    ensures { option_copied result ≡ spec.first_candidate set.now }
{
    let mut rest = set;
    while let Some(found) = first_word(rest) {
        if let Some(address) = candidate_in(found.word) {
            return Some(address);
        }
        rest = found.after;
    }
    None
}

/// The first address of a set that an attribute gives.
fn candidate_at<'t>(attrs: &'t [Attribute], name: &str) -> Option<&'t str>
    ensures { option_copied result ≡ spec.candidate_at name.now (pairs_of attrs.now) }
{
    first_candidate(text_of(attrs, name))
}

/// What a source of a picture gives.
fn source_of(attrs: &[Attribute]) -> Option<&str>
    ensures { option_copied result ≡ spec.source_of (pairs_of attrs.now) }
{
    match candidate_at(attrs, "data-srcset") {
        Some(address) => Some(address),
        None => candidate_at(attrs, "srcset"),
    }
}

/// What the first `source` among nodes gives.
fn first_source<'t>(tree: &'t Tree, nodes: &[NodeId]) -> Option<&'t str>
    requires { All (λ node. node < length tree.now) nodes.now }
    ensures { option_copied result ≡ spec.first_source (forest_of (tree_of tree.now) nodes.now) }
{
    for node in nodes {
        if let Some(found) = element_at(tree, *node) {
            if found.name.is(Tag::Source) {
                return source_of(found.attrs);
            }
        }
    }
    None
}

/// What a `picture` gives the first `img` in it.
pub fn picture_source<'t>(tree: &'t Tree, name: &Name, children: &[NodeId]) -> Option<&'t str>
    requires { All (λ node. node < length tree.now) children.now }
    ensures { option_copied result
        ≡ spec.picture_source name.now (forest_of (tree_of tree.now) children.now) }
{
    if name.is(Tag::Picture) {
        first_source(tree, children)
    } else {
        None
    }
}

/// The first attribute that is the address of a file.
fn file_of_attributes<'t>(
    alloc: Global,
    attrs: &'t [Attribute],
) -> Result<Option<&'t str>, AllocError>
    ensures { IfOk result (λ file. option_copied file ≡ spec.file_of_attributes (pairs_of attrs.now)) }
{
    if let Some(file) = file_in(alloc, value_of(attrs, "src"))? {
        return Ok(Some(file));
    }
    if let Some(file) = file_in(alloc, value_of(attrs, "data-src"))? {
        return Ok(Some(file));
    }
    if let Some(file) = file_in(alloc, value_of(attrs, "data-original"))? {
        return Ok(Some(file));
    }
    file_in(alloc, value_of(attrs, "data-lazy-src"))
}

/// The first set whose first address is that of a file.
fn file_of_sets<'t>(alloc: Global, attrs: &'t [Attribute]) -> Result<Option<&'t str>, AllocError>
    ensures { IfOk result (λ file. option_copied file ≡ spec.file_of_sets (pairs_of attrs.now)) }
{
    if let Some(file) = file_in(alloc, candidate_at(attrs, "data-srcset"))? {
        return Ok(Some(file));
    }
    file_in(alloc, candidate_at(attrs, "srcset"))
}

/// The address of an image, of which its `picture` may give one: the first of a file, else `src` as it is.
pub fn image_address<'t>(
    alloc: Global,
    attrs: &'t [Attribute],
    source: Option<&'t str>,
) -> Result<Option<&'t str>, AllocError>
    ensures { IfOk result (λ address. option_copied address
        ≡ spec.image_address (pairs_of attrs.now) (option_copied source.entry)) }
{
    if let Some(file) = file_of_attributes(alloc, attrs)? {
        return Ok(Some(file));
    }
    if let Some(file) = file_of_sets(alloc, attrs)? {
        return Ok(Some(file));
    }
    if let Some(file) = file_in(alloc, source)? {
        return Ok(Some(file));
    }
    Ok(value_of(attrs, "src"))
}

/// Whether an element is an image: an `img`, or an `input` that is one.
pub fn is_image(name: &Name, attrs: &[Attribute]) -> bool
    ensures { result ≡ spec.is_image name.now (pairs_of attrs.now) }
{
    name.is(Tag::Img) || name.is(Tag::Input) && text_of(attrs, "type").eq_ignore_ascii_case("image")
}
