//! Tags of HTML, as they are in the Markdown of a document and in its mdast.
ghost use Rattle.std.specs.Prelude.{◌≡◌, ◌++◌, OnOk, map, string_bytes};
ghost use Rattle.std.specs.List.{flat_map};
ghost use Rattle.htmd_document.specs.DocumentViews.{attribute_of};
ghost use Rattle.htmd_document.specs.Formats.{of_element};
ghost use Rattle.htmd_document.specs.Tags as spec;

use crate::document::{AttributeName, BlockAttribute, BlockElement, InlineElement};
use std::alloc::AllocError;

/// The tag that ends an anchor.
pub const END_OF_ANCHOR: &str = "</a>";

/// The tag that ends an abbreviation.
pub const END_OF_ABBREVIATION: &str = "</abbr>";

/// Appends a character of an attribute's value.
fn push_value_char(out: &mut String, c: char) -> Result<(), AllocError>
    ensures { OnOk result (string_bytes out.new ≡ string_bytes out.old ++ spec.in_value_char c) }
{
    match c {
        '&' => out.push_str("&amp;"),
        '<' => out.push_str("&lt;"),
        '>' => out.push_str("&gt;"),
        '"' => out.push_str("&quot;"),
        '|' => out.push_str("&#124;"),
        ']' => out.push_str("&#93;"),
        _ => out.push(c),
    }
}

/// Appends the value of an attribute.
fn push_value(out: &mut String, value: &str) -> Result<(), AllocError>
    ensures { OnOk result
        (string_bytes out.new ≡ string_bytes out.old ++ spec.escaped_value value.now) }
{
    for c in value.chars() {
        push_value_char(out, c)?;
    }
    Ok(())
}

/// Appends the tag that begins an anchor with this id.
pub fn push_anchor(out: &mut String, id: &str) -> Result<(), AllocError>
    ensures { OnOk result
        (string_bytes out.new ≡ string_bytes out.old ++ spec.anchor_tag id.now) }
{
    out.push_str("<a id=\"")?;
    push_value(out, id)?;
    out.push_str("\">")
}

/// Appends the tag that begins an abbreviation with this title.
pub fn push_abbreviation(out: &mut String, title: &str) -> Result<(), AllocError>
    ensures { OnOk result
        (string_bytes out.new ≡ string_bytes out.old ++ spec.abbreviation_tag title.now) }
{
    out.push_str("<abbr title=\"")?;
    push_value(out, title)?;
    out.push_str("\">")
}

/// The tag that begins an element in a line.
pub fn inline_tag(element: InlineElement) -> &'static str
    ensures { result.now ≡ spec.format_tag (of_element element) }
{
    match element {
        InlineElement::Superscript => "<sup>",
        InlineElement::Subscript => "<sub>",
        InlineElement::Inserted => "<ins>",
        InlineElement::Underlined => "<u>",
        InlineElement::Marked => "<mark>",
        InlineElement::Small => "<small>",
        InlineElement::Keyboard => "<kbd>",
    }
}

/// The tag that ends an element in a line.
pub fn end_of_inline(element: InlineElement) -> &'static str
    ensures { result.now ≡ spec.end_of_format (of_element element) }
{
    match element {
        InlineElement::Superscript => "</sup>",
        InlineElement::Subscript => "</sub>",
        InlineElement::Inserted => "</ins>",
        InlineElement::Underlined => "</u>",
        InlineElement::Marked => "</mark>",
        InlineElement::Small => "</small>",
        InlineElement::Keyboard => "</kbd>",
    }
}

/// Appends a character of a text between the tags of a line.
fn push_text_char(out: &mut String, c: char) -> Result<(), AllocError>
    ensures { OnOk result (string_bytes out.new ≡ string_bytes out.old ++ spec.in_text_char c) }
{
    match c {
        '&' => out.push_str("&amp;"),
        '<' => out.push_str("&lt;"),
        _ => out.push(c),
    }
}

/// Appends a text between the tags of a line.
fn push_text(out: &mut String, text: &str) -> Result<(), AllocError>
    ensures { OnOk result (string_bytes out.new ≡ string_bytes out.old ++ spec.escaped_text text.now) }
{
    for c in text.chars() {
        push_text_char(out, c)?;
    }
    Ok(())
}

fn element_name(name: BlockElement) -> &'static str
    ensures { result.now ≡ spec.element_name name }
{
    match name {
        BlockElement::Details => "details",
        BlockElement::Summary => "summary",
        BlockElement::Terms => "dl",
        BlockElement::Term => "dt",
        BlockElement::Meaning => "dd",
        BlockElement::Figure => "figure",
        BlockElement::FigureCaption => "figcaption",
        BlockElement::Table => "table",
        BlockElement::Caption => "caption",
        BlockElement::Row => "tr",
        BlockElement::Cell => "td",
        BlockElement::HeaderCell => "th",
    }
}

fn attribute_name(name: AttributeName) -> &'static str
    ensures { result.now ≡ spec.attribute_name name }
{
    match name {
        AttributeName::Open => "open",
        AttributeName::Border => "border",
        AttributeName::ColumnSpan => "colspan",
        AttributeName::RowSpan => "rowspan",
        AttributeName::Align => "align",
    }
}

fn push_attribute(out: &mut String, attribute: &BlockAttribute) -> Result<(), AllocError>
    ensures { OnOk result
        (string_bytes out.new ≡ string_bytes out.old ++ spec.attribute_text (attribute_of attribute.now)) }
{
    out.push_str(" ")?;
    out.push_str(attribute_name(attribute.name))?;
    out.push_str("=\"")?;
    push_value(out, &attribute.value)?;
    out.push_str("\"")
}

fn push_attributes(out: &mut String, attributes: &[BlockAttribute]) -> Result<(), AllocError>
    ensures { OnOk result (string_bytes out.new
        ≡ string_bytes out.old ++ flat_map spec.attribute_text (map attribute_of attributes.now)) }
{
    for attribute in attributes {
        push_attribute(out, attribute)?;
    }
    Ok(())
}

/// Appends the tag that begins an element around blocks.
pub(crate) fn push_element_tag(
    out: &mut String,
    name: BlockElement,
    attributes: &[BlockAttribute],
) -> Result<(), AllocError>
    ensures { OnOk result (string_bytes out.new
        ≡ string_bytes out.old ++ spec.element_tag name (map attribute_of attributes.now)) }
{
    out.push_str("<")?;
    out.push_str(element_name(name))?;
    push_attributes(out, attributes)?;
    out.push_str(">")
}

/// Appends the tag that ends an element around blocks.
pub(crate) fn push_end_of_element(out: &mut String, name: BlockElement) -> Result<(), AllocError>
    ensures { OnOk result (string_bytes out.new ≡ string_bytes out.old ++ spec.end_of_element name) }
{
    out.push_str("</")?;
    out.push_str(element_name(name))?;
    out.push_str(">")
}

/// Appends an element with nothing but this text in it.
pub(crate) fn push_element_line(
    out: &mut String,
    name: BlockElement,
    attributes: &[BlockAttribute],
    text: &str,
) -> Result<(), AllocError>
    ensures { OnOk result (string_bytes out.new
        ≡ string_bytes out.old ++ spec.element_line name (map attribute_of attributes.now) text.now) }
{
    push_element_tag(out, name, attributes)?;
    push_text(out, text)?;
    push_end_of_element(out, name)
}
