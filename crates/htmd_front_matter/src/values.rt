//! What the head of a page says about it.
ghost use Rattle.std.specs.Prelude.{◌≡◌, ◌<◌, length, option_copied};
ghost use Rattle.htmd_lexical.specs.Attributes.{pairs_of};
ghost use Rattle.htmd_nodes.specs.Items.{children_of};
ghost use Rattle.htmd_nodes.specs.NumberedTrees.{tree_of, forest_of, value_forest};
ghost use Rattle.htmd_nodes.specs.NumberedTrees.{value_at};
ghost use Rattle.htmd_front_matter.specs.Sources.{source_of};
ghost use Rattle.htmd_front_matter.specs.Values as spec;

use crate::sources::{Source, sources};
use htmd_nodes::{Attribute, NodeData, NodeId, Tree, value_of};

/// What is said.
#[derive(Clone, Copy)]
pub(crate) enum Key {
    Title,
    Lang,
    Description,
    Author,
    Date,
    Canonical,
    Keywords,
}

/// The key as it is written.
pub(crate) fn name_of(key: Key) -> &'static str
    ensures { result.now ≡ spec.name_of key }
{
    match key {
        Key::Title => "title",
        Key::Lang => "lang",
        Key::Description => "description",
        Key::Author => "author",
        Key::Date => "date",
        Key::Canonical => "canonical",
        Key::Keywords => "keywords",
    }
}

/// The value of an attribute, if another one has this value, with ASCII letters in either case.
fn value_if<'a>(attrs: &'a [Attribute], given: &str, wanted: &str, name: &str) -> Option<&'a str>
    ensures { option_copied result ≡ spec.value_if given.now wanted.now name.now (pairs_of attrs.now) }
{
    match value_of(attrs, given) {
        Some(value) => {
            if is_same(value, wanted) {
                value_of(attrs, name)
            } else {
                None
            }
        }
        None => None,
    }
}

fn is_same(a: &str, b: &str) -> bool
    ensures { result ≡ spec.is_same a.now b.now }
{
    a.eq_ignore_ascii_case(b)
}

/// What the attributes of an element say.
fn attribute_value<'a>(source: Source, name: &str, attrs: &'a [Attribute]) -> Option<&'a str>
    ensures { option_copied result ≡ spec.attribute_value (source_of source) name.now (pairs_of attrs.now) }
{
    match source {
        Source::Title => None,
        Source::Language => {
            if name == "html" {
                value_of(attrs, "lang")
            } else {
                None
            }
        }
        Source::CanonicalLink => {
            if name == "link" {
                value_if(attrs, "rel", "canonical", "href")
            } else {
                None
            }
        }
        Source::Meta(attribute, word) => {
            if name == "meta" {
                value_if(attrs, attribute, word, "content")
            } else {
                None
            }
        }
    }
}

/// The text of a node.
fn text_of(tree: &Tree, node: NodeId) -> Option<&str>
    requires { node < length tree.now }
    ensures { option_copied result ≡ spec.text_of (value_at tree.now node) }
{
    match tree.data(node) {
        NodeData::Text(text) => Some(text.as_str()),
        _ => None,
    }
}

/// The text that is a node's first child.
fn first_text(tree: &Tree, node: NodeId) -> Option<&str>
    requires { node < length tree.now }
    ensures { option_copied result ≡ spec.first_text
        (value_forest (forest_of (tree_of tree.now) (children_of tree.now node))) }
{
    let children = tree.children(node);
    if children.is_empty() {
        return None;
    }
    text_of(tree, children[0])
}

/// What an element says.
fn own_value<'a>(
    source: Source,
    tree: &'a Tree,
    node: NodeId,
    name: &str,
    attrs: &'a [Attribute],
) -> Option<&'a str>
    requires { node < length tree.now }
    ensures { option_copied result ≡ spec.own_value (source_of source) name.now (pairs_of attrs.now)
        (value_forest (forest_of (tree_of tree.now) (children_of tree.now node))) }
{
    match source {
        Source::Title => {
            if name == "title" {
                first_text(tree, node)
            } else {
                None
            }
        }
        _ => attribute_value(source, name, attrs),
    }
}

/// Whether what an element has in it says nothing.
fn is_passed(source: Source, name: &str) -> bool
    ensures { result ≡ spec.is_passed (source_of source) name.now }
{
    match source {
        Source::Title => name == "svg",
        _ => false,
    }
}

/// What the first element that says it says, among a node and what is below it.
#[cycle(values)]
fn found_in(source: Source, tree: &Tree, node: NodeId) -> Option<&str>
    requires { node < length tree.now }
    ensures { option_copied result ≡ spec.found_in (source_of source) (value_at tree.now node) }
{
    match tree.data(node) {
        NodeData::Document => first_found(source, tree, node),
        NodeData::Element { name, attrs } => {
            if is_passed(source, name.as_str()) {
                return None;
            }
            let own = own_value(source, tree, node, name.as_str(), attrs.as_slice());
            if own.is_some() {
                return own;
            }
            first_found(source, tree, node)
        }
        _ => None,
    }
}

#[cycle(values)]
fn first_found(source: Source, tree: &Tree, node: NodeId) -> Option<&str>
    requires { node < length tree.now }
    ensures { option_copied result ≡ spec.first_found (source_of source)
        (value_forest (forest_of (tree_of tree.now) (children_of tree.now node))) }
{
    for child in tree.children(node) {
        let found = found_in(source, tree, *child);
        if found.is_some() {
            return found;
        }
    }
    None
}

/// What a page says under a key.
pub(crate) fn value_in(key: Key, tree: &Tree) -> Option<&str>
    ensures { option_copied result ≡ spec.value_in key (value_at tree.now 0) }
{
    for source in sources(key) {
        let found = found_in(*source, tree, tree.root());
        if found.is_some() {
            return found;
        }
    }
    None
}
