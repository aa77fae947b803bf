//! How a tree is written as HTML, and as a block of raw HTML.
ghost use Rattle.std.specs.Prelude.{◌≡◌, ◌<◌, ◌++◌, ◌∷◌, false, length, string_bytes, IfOk, OnErr, OnOk};
ghost use Rattle.std.specs.Str.{IsUtf8, chars, encode_utf8_all};
ghost use Rattle.htmd_nodes.specs.Items.{children_of};
ghost use Rattle.htmd_nodes.specs.NumberedTrees.{tree_of, forest_of, value_tree, value_forest};
ghost use Rattle.htmd_lexical.specs.Attributes.{pair_of, pairs_of};
ghost use Rattle.htmd_text.specs.Beginnings.{IsBeginning};
ghost use Rattle.htmd_values.specs.Serialisation as spec;
ghost use Rattle.htmd_values.specs.RawBlocks as blocks;
ghost use Rattle.htmd_values.specs.SerialiserSteps as steps;

use crate::tree::{NodeData, NodeId, Tree};
use htmd_lexical::Attribute;
use htmd_text::surround_with_blank_lines;
use std::alloc::{AllocError, Global};

fn push_text_char(out: &mut String, c: char) -> Result<(), AllocError>
    ensures { OnOk result (string_bytes out.new
        ≡ string_bytes out.old ++ steps.escaped_html_char spec.text_byte c) }
{
    match c {
        '&' => out.push_str("&amp;"),
        '<' => out.push_str("&lt;"),
        '>' => out.push_str("&gt;"),
        '\u{a0}' => out.push_str("&nbsp;"),
        _ => out.push(c),
    }
}

fn push_value_char(out: &mut String, c: char) -> Result<(), AllocError>
    ensures ok { OnOk result (string_bytes out.new
        ≡ string_bytes out.old ++ steps.escaped_html_char spec.value_byte c) }
    ensures err { OnErr result (string_bytes out.new ≡ string_bytes out.old) }
{
    match c {
        '&' => out.push_str("&amp;"),
        '"' => out.push_str("&quot;"),
        '\u{a0}' => out.push_str("&nbsp;"),
        _ => out.push(c),
    }
}

fn push_text(out: &mut String, text: &str) -> Result<(), AllocError>
    ensures { OnOk result (string_bytes out.new
        ≡ string_bytes out.old ++ spec.escaped_html spec.text_byte text.now) }
{
    for c in text.chars() {
        push_text_char(out, c)?;
    }
    Ok(())
}

fn push_value(out: &mut String, value: &str) -> Result<(), AllocError>
    ensures ok { OnOk result (string_bytes out.new
        ≡ string_bytes out.old ++ spec.escaped_html spec.value_byte value.now) }
    ensures err { OnErr result (IsBeginning (string_bytes out.old) (string_bytes out.new)) }
{
    for c in value.chars() {
        push_value_char(out, c)?;
    }
    Ok(())
}

/// Whether an element with this name, in lower case, is written without an end tag (HTML Standard, 13.3). The name is
/// only compared with names of its own length.
#[tactic(auto, unfolding(htmd_values::specs::Serialisation::is_void))]
pub fn is_void(name: &str) -> bool
    ensures { result ≡ spec.is_void name.now }
{
    match name.len() {
        2 => matches!(name, "br" | "hr"),
        3 => matches!(name, "col" | "img" | "wbr"),
        4 => matches!(name, "area" | "base" | "link" | "meta"),
        5 => matches!(name, "embed" | "frame" | "input" | "param" | "track"),
        6 => matches!(name, "keygen" | "source"),
        7 => name == "bgsound",
        8 => name == "basefont",
        _ => false,
    }
}

/// Whether the texts of an element are written as they are.
#[tactic(auto, unfolding(htmd_values::specs::Serialisation::is_raw_text))]
fn is_raw_text(name: &str) -> bool
    ensures { result ≡ spec.is_raw_text name.now }
{
    matches!(
        name,
        "style" | "script" | "xmp" | "iframe" | "noembed" | "noframes" | "plaintext" | "noscript"
    )
}

fn push_attribute(out: &mut String, attribute: &Attribute) -> Result<(), AllocError>
    ensures ok { OnOk result (string_bytes out.new
        ≡ string_bytes out.old ++ spec.attribute_text (pair_of attribute.now)) }
    ensures err { OnErr result (IsBeginning (string_bytes out.old) (string_bytes out.new)) }
{
    out.push_str(" ")?;
    out.push_str(attribute.name.as_str())?;
    out.push_str("=\"")?;
    push_value(out, attribute.value.as_str())?;
    out.push_str("\"")
}

/// Appends the start tag of an element to a text (HTML Standard, 13.3). `Err` means out of memory; what the text held
/// is then still its beginning.
pub fn push_start_tag(out: &mut String, name: &str, attrs: &[Attribute]) -> Result<(), AllocError>
    ensures ok { OnOk result (string_bytes out.new
        ≡ string_bytes out.old ++ spec.start_tag name.now (pairs_of attrs.now)) }
    ensures err { OnErr result (IsBeginning (string_bytes out.old) (string_bytes out.new)) }
{
    out.push_str("<")?;
    out.push_str(name)?;
    for attribute in attrs {
        push_attribute(out, attribute)?;
    }
    out.push_str(">")
}

/// Appends the end tag of an element to a text (HTML Standard, 13.3). `Err` means out of memory; what the text held
/// is then still its beginning.
#[tactic(auto)]
pub fn push_end_tag(out: &mut String, name: &str) -> Result<(), AllocError>
    ensures ok { OnOk result
        (string_bytes out.new ≡ string_bytes out.old ++ spec.end_tag name.now) }
    ensures err { OnErr result (IsBeginning (string_bytes out.old) (string_bytes out.new)) }
{
    out.push_str("</")?;
    out.push_str(name)?;
    out.push_str(">")
}

fn push_comment(out: &mut String, text: &str) -> Result<(), AllocError>
    ensures { OnOk result (string_bytes out.new ≡ string_bytes out.old ++ spec.comment_of text.now) }
{
    out.push_str("<!--")?;
    out.push_str(text)?;
    out.push_str("-->")
}

#[cycle(serialiser)]
fn push_node(out: &mut String, tree: &Tree, node: NodeId, raw: bool) -> Result<(), AllocError>
    requires { node < length tree.now }
    ensures { OnOk result (string_bytes out.new
        ≡ string_bytes out.old ++ spec.markup_of raw (value_tree (tree_of tree.now node))) }
{
    match tree.data(node) {
        NodeData::Document => push_children(out, tree, node, false),
        NodeData::Doctype => out.push_str("<!DOCTYPE html>"),
        NodeData::Text(text) => {
            if raw {
                return out.push_str(text.as_str());
            }
            push_text(out, text.as_str())
        }
        NodeData::Comment(text) => push_comment(out, text.as_str()),
        NodeData::Element { name, attrs } => {
            let name = name.as_str();
            push_start_tag(out, name, attrs.as_slice())?;
            if is_void(name) {
                return Ok(());
            }
            push_children(out, tree, node, is_raw_text(name))?;
            push_end_tag(out, name)
        }
    }
}

#[cycle(serialiser)]
fn push_children(out: &mut String, tree: &Tree, node: NodeId, raw: bool) -> Result<(), AllocError>
    requires { node < length tree.now }
    ensures { OnOk result (string_bytes out.new ≡ string_bytes out.old
        ++ spec.all_markup_of raw (value_forest (forest_of (tree_of tree.now) (children_of tree.now node)))) }
{
    for child in tree.children(node) {
        push_node(out, tree, *child, raw)?;
    }
    Ok(())
}

/// The fragment serialisation of a node and what is below it (HTML Standard, 13.3). The tree must contain the node.
/// `Err` means out of memory.
pub fn serialize(alloc: Global, tree: &Tree, node: NodeId) -> Result<String, AllocError>
    requires { node < length tree.now }
    ensures { IfOk result
        (λ text. string_bytes text ≡ spec.serialisation (value_tree (tree_of tree.now node))) }
{
    let mut out = String::new(alloc);
    push_node(&mut out, tree, node, false)?;
    Ok(out)
}

fn begins_line(text: &str) -> bool
    ensures { result ≡ blocks.begins_line (chars text.now) }
{
    match text.chars().next() {
        Some(c) => c == '\n',
        None => false,
    }
}

/// Appends a character of a block to a text; the answer is whether only white space came since a raw line end.
fn push_block_char(out: &mut String, after: bool, c: char, rest: &str) -> Result<bool, AllocError>
    ensures { IfOk result (λ next. string_bytes out.new
        ++ encode_utf8_all (blocks.without_blank_lines next (chars rest.now))
        ≡ string_bytes out.old ++ encode_utf8_all (blocks.without_blank_lines after (c ∷ chars rest.now))) }
{
    if c == '\n' {
        if after {
            out.push_str("&#10;")?;
            return Ok(false);
        }
        out.push(c)?;
        return Ok(true);
    }
    if c == '\r' {
        if after && begins_line(rest) {
            out.push_str("&#13;")?;
            return Ok(true);
        }
        out.push(c)?;
        return Ok(false);
    }
    out.push(c)?;
    Ok(after && c.is_whitespace())
}

/// Appends a text to another one, with references in place of the line ends that would make a blank line.
fn push_block(out: &mut String, text: &str) -> Result<(), AllocError>
    ensures { OnOk result (string_bytes out.new
        ≡ string_bytes out.old ++ encode_utf8_all (blocks.without_blank_lines false (chars text.now))) }
{
    let mut after = false;
    let mut chars = text.chars();
    while let Some(c) = chars.next() {
        after = push_block_char(out, after, c, chars.as_str())?;
    }
    Ok(())
}

/// Whether two line feeds have only white space between them.
fn has_blank_line(text: &str) -> bool
    ensures { result ≡ steps.has_blank_line (chars text.now) }
{
    let mut behind = false;
    for c in text.chars() {
        if c == '\n' {
            if behind {
                return true;
            }
            behind = true;
        } else {
            behind = behind && c.is_whitespace();
        }
    }
    false
}

/// The text with references in place of the line ends that would make a blank line. A text without any is not written
/// again.
fn without_blank_lines(alloc: Global, text: String) -> Result<String, AllocError>
    ensures { IfOk result (λ rewritten. string_bytes rewritten
        ≡ encode_utf8_all (blocks.without_blank_lines false (chars (string_bytes text)))) }
{
    if !has_blank_line(text.as_str()) {
        return Ok(text);
    }
    let mut rewritten = String::with_capacity(alloc, text.len())?;
    push_block(&mut rewritten, text.as_str())?;
    Ok(rewritten)
}

/// The serialisation of a node as a block of raw HTML (CommonMark 0.31.2, 4.6): between blank lines, with references in
/// place of the line ends that would make one. The tree must contain the node. `Err` means out of memory.
pub fn raw_block(alloc: Global, tree: &Tree, node: NodeId) -> Result<String, AllocError>
    requires { node < length tree.now }
    ensures text { IfOk result (λ text. string_bytes text
        ≡ blocks.raw_block (spec.serialisation (value_tree (tree_of tree.now node)))) }
    ensures raw { let s = spec.serialisation (value_tree (tree_of tree.now node)) in IfOk result
        (λ text. blocks.has_carriage_return s ≡ false → blocks.IsRawBlock s (string_bytes text)) }
    ensures utf8 { IfOk result (λ _. IsUtf8 (spec.serialisation (value_tree (tree_of tree.now node)))) }
{
    let text = serialize(alloc, tree, node)?;
    let mut block = without_blank_lines(alloc, text)?;
    surround_with_blank_lines(&mut block)?;
    Ok(block)
}
