//! Formulas: the TeX of a `math`, or of a script of MathJax.
ghost use Rattle.std.specs.Prelude.{◌≡◌, ◌<◌, ◌++◌, All, IfOk, OnOk, length, string_bytes, option_map};
ghost use Rattle.std.specs.List.{before_first, after_first, list_any, slice_split};
ghost use Rattle.std.specs.Str.{bytes_eq};
ghost use Rattle.htmd_lexical.specs.Attributes.{pairs_of};
ghost use Rattle.htmd_nodes.specs.NumberedTrees.{tree_of, forest_of};
ghost use Rattle.htmd_shown.specs.Formulas as spec;

use crate::attributes::{text_of, trimmed};
use crate::page::{Element, element_at, text_at};
use crate::shown_text::{is_all_shown, shown_text};
use crate::spaces::is_blank_text;
use htmd_nodes::{Attribute, Name, NodeId, Tag, Tree};
use std::alloc::{AllocError, Global};

// ---- texts

/// Appends all texts among nodes and below them, whether they are hidden or not.
#[cycle(push_raw)]
fn push_raw_among(out: &mut String, tree: &Tree, nodes: &[NodeId]) -> Result<(), AllocError>
    requires { All (λ node. node < length tree.now) nodes.now }
    ensures { OnOk result (string_bytes out.new
        ≡ string_bytes out.old ++ spec.raw_text_among (forest_of (tree_of tree.now) nodes.now)) }
{
    for node in nodes {
        push_raw(out, tree, *node)?;
    }
    Ok(())
}

/// Appends a text, or all texts in an element.
#[cycle(push_raw)]
fn push_raw(out: &mut String, tree: &Tree, node: NodeId) -> Result<(), AllocError>
    requires { node < length tree.now }
    ensures { OnOk result
        (string_bytes out.new ≡ string_bytes out.old ++ spec.raw_text (tree_of tree.now node)) }
{
    match element_at(tree, node) {
        Some(found) => push_raw_among(out, tree, found.children),
        None => match text_at(tree, node) {
            Some(text) => out.push_str(text),
            None => Ok(()),
        },
    }
}

/// All texts among nodes, without U+0000 and U+FEFF, if something shows of them.
fn text_among(alloc: Global, tree: &Tree, nodes: &[NodeId]) -> Result<Option<String>, AllocError>
    requires { All (λ node. node < length tree.now) nodes.now }
    ensures { IfOk result (λ found. option_map string_bytes found
        ≡ spec.text_if_shown (spec.raw_text_among (forest_of (tree_of tree.now) nodes.now))) }
{
    let mut text = String::new(alloc);
    push_raw_among(&mut text, tree, nodes)?;
    if is_all_shown(text.as_str()) {
        return Ok(if_shown(text));
    }
    text_if_shown(alloc, text.as_str())
}

/// A text, if something shows of it.
fn if_shown(text: String) -> Option<String>
    ensures { option_map string_bytes result ≡ spec.if_seen (string_bytes text) }
{
    if is_blank_text(text.as_str()) {
        None
    } else {
        Some(text)
    }
}

/// A text without U+0000 and U+FEFF, if something shows of it.
fn text_if_shown(alloc: Global, text: &str) -> Result<Option<String>, AllocError>
    ensures { IfOk result (λ found. option_map string_bytes found ≡ spec.text_if_shown text.now) }
{
    Ok(if_shown(shown_text(alloc, text)?))
}

// ---- in a `math`

/// The text of an annotation in TeX, if something shows of it.
fn annotated(alloc: Global, tree: &Tree, node: NodeId) -> Result<Option<String>, AllocError>
    requires { node < length tree.now }
    ensures { IfOk result (λ found. option_map string_bytes found
        ≡ spec.annotated (tree_of tree.now node)) }
{
    let Some(found) = element_at(tree, node) else {
        return Ok(None);
    };
    if found.name.is(Tag::Annotation) && is_tex(found.attrs) {
        text_among(alloc, tree, found.children)
    } else {
        Ok(None)
    }
}

/// Whether an annotation is in TeX.
fn is_tex(attrs: &[Attribute]) -> bool
    ensures { result ≡ spec.is_tex (pairs_of attrs.now) }
{
    trimmed(text_of(attrs, "encoding")).eq_ignore_ascii_case("application/x-tex")
}

/// The first such text among nodes.
fn annotated_among(
    alloc: Global,
    tree: &Tree,
    nodes: &[NodeId],
) -> Result<Option<String>, AllocError>
    requires { All (λ node. node < length tree.now) nodes.now }
    ensures { IfOk result (λ found. option_map string_bytes found
        ≡ spec.annotated_among (forest_of (tree_of tree.now) nodes.now)) }
{
    for node in nodes {
        if let Some(text) = annotated(alloc, tree, *node)? {
            return Ok(Some(text));
        }
    }
    Ok(None)
}

/// The first such text among the children of `semantics`.
fn annotated_in(alloc: Global, tree: &Tree, node: NodeId) -> Result<Option<String>, AllocError>
    requires { node < length tree.now }
    ensures { IfOk result (λ found. option_map string_bytes found
        ≡ spec.annotated_in (tree_of tree.now node)) }
{
    let Some(found) = element_at(tree, node) else {
        return Ok(None);
    };
    if found.name.is(Tag::Semantics) {
        annotated_among(alloc, tree, found.children)
    } else {
        Ok(None)
    }
}

/// Such a text of a child of a `math`, or of the `semantics` that it is.
fn annotation_at(alloc: Global, tree: &Tree, node: NodeId) -> Result<Option<String>, AllocError>
    requires { node < length tree.now }
    ensures { IfOk result (λ found. option_map string_bytes found
        ≡ spec.annotation_at (tree_of tree.now node)) }
{
    match annotated(alloc, tree, node)? {
        Some(text) => Ok(Some(text)),
        None => annotated_in(alloc, tree, node),
    }
}

/// The first such text among the children of a `math`, and of `semantics` among these.
fn annotation(alloc: Global, tree: &Tree, nodes: &[NodeId]) -> Result<Option<String>, AllocError>
    requires { All (λ node. node < length tree.now) nodes.now }
    ensures { IfOk result (λ found. option_map string_bytes found
        ≡ spec.annotation (forest_of (tree_of tree.now) nodes.now)) }
{
    for node in nodes {
        if let Some(text) = annotation_at(alloc, tree, *node)? {
            return Ok(Some(text));
        }
    }
    Ok(None)
}

/// The TeX of a `math`: an annotation's text, else `alttext`.
fn tex_of_math(
    alloc: Global,
    tree: &Tree,
    attrs: &[Attribute],
    children: &[NodeId],
) -> Result<Option<String>, AllocError>
    requires { All (λ node. node < length tree.now) children.now }
    ensures { IfOk result (λ found. option_map string_bytes found
        ≡ spec.tex_of_math (pairs_of attrs.now) (forest_of (tree_of tree.now) children.now)) }
{
    match annotation(alloc, tree, children)? {
        Some(text) => Ok(Some(text)),
        None => text_if_shown(alloc, text_of(attrs, "alttext")),
    }
}

// ---- in a script

/// Whether a text is this name, in letters of any case and with any white space.
fn is_squeezed(text: &[u8], name: &[u8]) -> bool
    ensures { result ≡ bytes_eq (spec.squeezed text.now) name.now }
{
    let mut len = 0;
    for b in text {
        if b.is_ascii_whitespace() {
            continue;
        }
        if len >= name.len() || name[len] != b.to_ascii_lowercase() {
            return false;
        }
        len += 1;
    }
    len == name.len()
}

/// What comes before the first semicolon.
fn first_part(text: &str) -> &str
    ensures { result.now ≡ before_first spec.is_semicolon text.now }
{
    match text.split_once(';') {
        Some((first, _)) => first,
        None => text,
    }
}

/// What comes after the first semicolon.
fn later_parts(text: &str) -> &str
    ensures { result.now ≡ after_first spec.is_semicolon text.now }
{
    match text.split_once(';') {
        Some((_, rest)) => rest,
        None => "",
    }
}

/// Whether the type of a script says that it has TeX.
pub(crate) fn is_tex_type(attrs: &[Attribute]) -> bool
    ensures { result ≡ spec.is_tex_type (pairs_of attrs.now) }
{
    is_squeezed(first_part(text_of(attrs, "type")).as_bytes(), b"math/tex")
}

/// The TeX of a script whose type says that it has some.
pub(crate) fn tex_of_script(
    alloc: Global,
    tree: &Tree,
    attrs: &[Attribute],
    children: &[NodeId],
) -> Result<Option<String>, AllocError>
    requires { All (λ node. node < length tree.now) children.now }
    ensures { IfOk result (λ found. option_map string_bytes found
        ≡ spec.tex_of_script (pairs_of attrs.now) (forest_of (tree_of tree.now) children.now)) }
{
    if is_tex_type(attrs) {
        text_among(alloc, tree, children)
    } else {
        Ok(None)
    }
}

/// Whether a part of a type is `mode=display`.
fn says_display(part: &str) -> bool
    ensures { result ≡ spec.says_display part.now }
{
    is_squeezed(part.as_bytes(), b"mode=display")
}

/// Whether one of the parts of a type is `mode=display`.
fn has_display(parts: &str) -> bool
    ensures { result ≡ list_any spec.says_display (slice_split spec.is_semicolon parts.now) }
{
    for part in parts.split(';') {
        if says_display(part) {
            return true;
        }
    }
    false
}

/// Whether a part of a type after the first is `mode=display`.
fn is_displayed_type(kind: &str) -> bool
    ensures { result ≡ spec.is_displayed_type kind.now }
{
    has_display(later_parts(kind))
}

// ---- of an element

/// The TeX of an element that is a formula.
pub(crate) fn tex_of(
    alloc: Global,
    tree: &Tree,
    found: &Element,
) -> Result<Option<String>, AllocError>
    requires { All (λ node. node < length tree.now) found.now.children.now }
    ensures { IfOk result (λ tex. option_map string_bytes tex
        ≡ spec.tex_of found.now.name.now (pairs_of found.now.attrs.now)
        (forest_of (tree_of tree.now) found.now.children.now)) }
{
    if found.name.is(Tag::Math) {
        tex_of_math(alloc, tree, found.attrs, found.children)
    } else if found.name.is(Tag::Script) {
        tex_of_script(alloc, tree, found.attrs, found.children)
    } else {
        Ok(None)
    }
}

/// Whether a formula stands alone.
pub(crate) fn is_display(name: &Name, attrs: &[Attribute]) -> bool
    ensures { result ≡ spec.is_display name.now (pairs_of attrs.now) }
{
    if name.is(Tag::Script) {
        is_displayed_type(text_of(attrs, "type"))
    } else {
        trimmed(text_of(attrs, "display")).eq_ignore_ascii_case("block")
    }
}
