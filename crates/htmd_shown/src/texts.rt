//! All text of nodes, as a code block shows it.
ghost use Rattle.std.specs.Prelude.{◌≡◌, ◌++◌, IfOk, OnOk, string_bytes, encode_utf8_all};
ghost use Rattle.std.specs.List.{list_any};
ghost use Rattle.htmd_shown.specs.AllTexts as spec;
ghost use Rattle.htmd_shown.specs.ShownTexts.{shown_text};
ghost use Rattle.htmd_shown.specs.SimpleViews.{simple_of, simples_of};
ghost use Rattle.htmd_shown.specs.TextViews as views;

use crate::attributes::{in_line, text_of};
use crate::role::Role;
use crate::shown_text::{is_all_shown, shown_text};
use crate::simple::Simple;
use std::alloc::{AllocError, Global};

/// The text of a code block: all text of nodes, with a line feed for each line end. `Err` means out of memory.
pub fn all_text(alloc: Global, nodes: &[Simple]) -> Result<String, AllocError>
    ensures { IfOk result (λ s. string_bytes s
        ≡ spec.with_line_feeds (spec.all_text_among (simples_of nodes.now))) }
{
    let mut text = String::new(alloc);
    push_texts(alloc, &mut text, nodes)?;
    if !holds_return(text.as_bytes()) {
        return Ok(text);
    }
    with_line_feeds(alloc, text.as_str())
}

/// Whether a carriage return is in the text. All bytes are looked at, so that a processor can compare many at once.
fn holds_return(bytes: &[u8]) -> bool
    ensures { result ≡ list_any views.is_return bytes.now }
{
    let mut found = false;
    for b in bytes {
        found |= is_return(*b);
    }
    found
}

fn is_return(byte: u8) -> bool
    ensures { result ≡ views.is_return byte }
{
    byte == b'\r'
}

/// Appends the texts of nodes.
#[cycle(push_text)]
fn push_texts(alloc: Global, out: &mut String, nodes: &[Simple]) -> Result<(), AllocError>
    ensures { OnOk result (string_bytes out.new
        ≡ string_bytes out.old ++ spec.all_text_among (simples_of nodes.now)) }
{
    for node in nodes {
        push_text(alloc, out, node)?;
    }
    Ok(())
}

/// Appends all text of a node.
#[cycle(push_text)]
fn push_text(alloc: Global, out: &mut String, node: &Simple) -> Result<(), AllocError>
    ensures { OnOk result
        (string_bytes out.new ≡ string_bytes out.old ++ spec.all_text (simple_of node.now)) }
{
    match node {
        Simple::Text(text) => push_shown(alloc, out, text),
        Simple::Image { attrs, .. } => push_shown(alloc, out, text_of(attrs, "alt")),
        Simple::Formula { tex, .. } => push_formula(alloc, out, tex.as_str()),
        Simple::Embedded(found) => out.push_str(found.title.as_str()),
        Simple::Anchor(_) => Ok(()),
        Simple::Element { role, content, .. } => {
            push_element(alloc, out, *role, content.as_slice())
        }
    }
}

/// Appends the text of an element: a `br` is a line feed, and rows and blocks are lines.
#[cycle(push_text)]
fn push_element(
    alloc: Global,
    out: &mut String,
    role: Role,
    content: &[Simple],
) -> Result<(), AllocError>
    ensures { OnOk result (string_bytes out.new
        ≡ string_bytes out.old ++ spec.text_in role (spec.all_text_among (simples_of content.now))) }
{
    if role.is_line_break() {
        return out.push('\n');
    }
    let len = out.len();
    push_texts(alloc, out, content)?;
    let said = &out.as_bytes()[len..];
    if is_line(role, said) && !ends_line(said) {
        return out.push('\n');
    }
    Ok(())
}

/// Whether an element that says this is a line: a block that can be one, if it says something, and any row.
fn is_line(role: Role, said: &[u8]) -> bool
    ensures { result ≡ spec.is_line role said.now }
{
    can_be_line(role) && (role.is_row() || !said.is_empty())
}

/// Whether a block can be a line: not a table, its parts and cells, but its rows.
fn can_be_line(role: Role) -> bool
    ensures { result ≡ spec.can_be_line role }
{
    role.is_edged() && !role.is_table() && !role.is_part() && !role.is_cell()
}

/// Whether the last byte is a line feed.
fn ends_line(text: &[u8]) -> bool
    ensures { result ≡ spec.ends_line text.now }
{
    match text {
        [.., last] => *last == b'\n',
        [] => false,
    }
}

/// Appends a formula: its TeX in one line, between dollar signs.
fn push_formula(alloc: Global, out: &mut String, tex: &str) -> Result<(), AllocError>
    ensures { OnOk result (string_bytes out.new ≡ string_bytes out.old ++ spec.formula_text tex.now) }
{
    let line = in_line(alloc, tex)?;
    out.push('$')?;
    out.push_str(line.as_str())?;
    out.push('$')
}

/// Appends a text of the page without U+0000 and U+FEFF.
fn push_shown(alloc: Global, out: &mut String, text: &str) -> Result<(), AllocError>
    ensures { OnOk result (string_bytes out.new ≡ string_bytes out.old ++ shown_text text.now) }
{
    if is_all_shown(text) {
        return out.push_str(text);
    }
    let shown = shown_text(alloc, text)?;
    out.push_str(shown.as_str())
}

/// Appends a character of a text in which each line end becomes a line feed.
fn push_character(out: &mut String, c: char, after_return: bool) -> Result<(), AllocError>
    ensures { OnOk result
        (string_bytes out.new ≡ string_bytes out.old ++ encode_utf8_all (spec.written_for after_return c)) }
{
    if c == '\r' {
        return out.push('\n');
    }
    if c == '\n' && after_return {
        return Ok(());
    }
    out.push(c)
}

/// The text with a line feed for each line end.
pub fn with_line_feeds(alloc: Global, text: &str) -> Result<String, AllocError>
    ensures { IfOk result (λ s. string_bytes s ≡ spec.with_line_feeds text.now) }
{
    let mut out = String::with_capacity(alloc, text.len())?;
    let mut after_return = false;
    for c in text.chars() {
        push_character(&mut out, c, after_return)?;
        after_return = c == '\r';
    }
    Ok(out)
}

/// A text without its last line feed.
pub fn without_last_line_feed(text: &str) -> &str
    ensures { result.now ≡ spec.without_last_line_feed text.now }
{
    match text.strip_suffix('\n') {
        Some(rest) => rest,
        None => text,
    }
}
