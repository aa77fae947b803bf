//! Tags of HTML.
ghost use Rattle.std.specs.Prelude.{◌≡◌, ◌++◌, OnOk, codes, string_bytes};
ghost use Rattle.htmd_document.specs.DocumentViews.{bytes_of_title};
ghost use Rattle.htmd_document.specs.Formats.{of_format};
ghost use Rattle.htmd_document.specs.Tags as tags;
ghost use Rattle.htmd_commonmark_reading.specs.Rendering as spec;
ghost use Rattle.htmd_parts.specs.Machine as machine;

use crate::texts::{push_address, push_text};
use htmd_document::{Alignment, Format};
use std::alloc::AllocError;

/// Appends a code span.
pub(crate) fn push_code(out: &mut String, text: &str) -> Result<(), AllocError>
    ensures { OnOk result (string_bytes out.new ≡ string_bytes out.old ++ spec.code_html text.now) }
{
    out.push_str("<code>")?;
    push_text(out, text)?;
    out.push_str("</code>")
}

/// The tag that begins emphasis or strikethrough.
pub(crate) fn start_of_format(format: Format) -> &'static str
    ensures { result.now ≡ tags.format_tag (of_format format) }
{
    match format {
        Format::Emphasis => "<em>",
        Format::Strong => "<strong>",
        Format::Deleted => "<del>",
    }
}

/// The tag that ends emphasis or strikethrough.
pub(crate) fn end_of_format(format: Format) -> &'static str
    ensures { result.now ≡ tags.end_of_format (of_format format) }
{
    match format {
        Format::Emphasis => "</em>",
        Format::Strong => "</strong>",
        Format::Deleted => "</del>",
    }
}

/// Appends the tag that begins a link.
pub(crate) fn push_link_tag(
    out: &mut String,
    address: &str,
    title: &Option<String>,
) -> Result<(), AllocError>
    ensures { OnOk result (string_bytes out.new ≡ string_bytes out.old
        ++ spec.link_tag address.now (bytes_of_title title.now)) }
{
    out.push_str("<a")?;
    push_address_attribute(out, "href", address)?;
    push_title(out, title)?;
    out.push_str(">")
}

/// Appends what is before the description of an image.
pub(crate) fn push_image_before(out: &mut String, address: &str) -> Result<(), AllocError>
    ensures { OnOk result
        (string_bytes out.new ≡ string_bytes out.old ++ spec.image_before address.now) }
{
    out.push_str("<img")?;
    push_address_attribute(out, "src", address)?;
    out.push_str(" alt=\"")
}

/// Appends what is behind the description of an image.
pub(crate) fn push_image_behind(out: &mut String, title: &Option<String>) -> Result<(), AllocError>
    ensures { OnOk result (string_bytes out.new ≡ string_bytes out.old
        ++ spec.image_behind (bytes_of_title title.now)) }
{
    out.push_str("\"")?;
    push_title(out, title)?;
    out.push_str(" />")
}

/// Appends an attribute with an address.
fn push_address_attribute(out: &mut String, name: &str, address: &str) -> Result<(), AllocError>
    ensures { OnOk result (string_bytes out.new ≡ string_bytes out.old
        ++ spec.attribute name.now (spec.escaped_address address.now)) }
{
    out.push_str(" ")?;
    out.push_str(name)?;
    out.push_str("=\"")?;
    push_address(out, address.as_bytes())?;
    out.push_str("\"")
}

/// Appends the attribute with a title, if there is one.
fn push_title(out: &mut String, title: &Option<String>) -> Result<(), AllocError>
    ensures { OnOk result (string_bytes out.new ≡ string_bytes out.old
        ++ spec.title_attribute (bytes_of_title title.now)) }
{
    let Some(title) = title else {
        return Ok(());
    };
    out.push_str(" title=\"")?;
    push_text(out, title)?;
    out.push_str("\"")
}

/// The box of a task.
pub(crate) fn task_box(is_checked: bool) -> &'static str
    ensures { result.now ≡ spec.box_html is_checked }
{
    if is_checked {
        "<input checked=\"\" disabled=\"\" type=\"checkbox\"> "
    } else {
        "<input disabled=\"\" type=\"checkbox\"> "
    }
}

/// The tag that begins a cell of a header.
pub(crate) fn start_of_header_cell(alignment: Alignment) -> &'static str
    ensures { result.now ≡ spec.cell_tag (codes "th") alignment }
{
    match alignment {
        Alignment::None => "<th>",
        Alignment::Left => "<th align=\"left\">",
        Alignment::Center => "<th align=\"center\">",
        Alignment::Right => "<th align=\"right\">",
    }
}

/// The tag that begins a cell.
pub(crate) fn start_of_cell(alignment: Alignment) -> &'static str
    ensures { result.now ≡ spec.cell_tag (codes "td") alignment }
{
    match alignment {
        Alignment::None => "<td>",
        Alignment::Left => "<td align=\"left\">",
        Alignment::Center => "<td align=\"center\">",
        Alignment::Right => "<td align=\"right\">",
    }
}

/// Appends the tag that begins a heading.
pub(crate) fn push_heading_tag(out: &mut String, level: u8) -> Result<(), AllocError>
    ensures { OnOk result (string_bytes out.new ≡ string_bytes out.old ++ spec.heading_tag level) }
{
    write!(out, "<h{level}>")
}

/// Appends the tag that ends a heading.
pub(crate) fn push_heading_end(out: &mut String, level: u8) -> Result<(), AllocError>
    ensures { OnOk result (string_bytes out.new ≡ string_bytes out.old ++ spec.end_of_heading level) }
{
    write!(out, "</h{level}>\n")
}

/// Appends a code block.
pub(crate) fn push_code_block(
    out: &mut String,
    language: &Option<String>,
    text: &str,
) -> Result<(), AllocError>
    ensures { OnOk result (string_bytes out.new ≡ string_bytes out.old
        ++ spec.code_block_html (bytes_of_title language.now) text.now) }
{
    out.push_str("<pre><code")?;
    push_language(out, language)?;
    out.push_str(">")?;
    push_code_lines(out, text)?;
    out.push_str("</code></pre>\n")
}

/// Appends the attribute with the language of code, if it has one.
fn push_language(out: &mut String, language: &Option<String>) -> Result<(), AllocError>
    ensures { OnOk result (string_bytes out.new ≡ string_bytes out.old
        ++ spec.language_attribute (bytes_of_title language.now)) }
{
    let Some(language) = language else {
        return Ok(());
    };
    out.push_str(" class=\"language-")?;
    push_text(out, language)?;
    out.push_str("\"")
}

/// Appends the lines of code.
fn push_code_lines(out: &mut String, text: &str) -> Result<(), AllocError>
    ensures { OnOk result (string_bytes out.new ≡ string_bytes out.old ++ spec.code_lines text.now) }
{
    if text.is_empty() {
        return Ok(());
    }
    push_text(out, text)?;
    out.push_str("\n")
}

/// Appends the tag that begins a list.
pub(crate) fn push_list_tag(out: &mut String, start: Option<u32>) -> Result<(), AllocError>
    ensures { OnOk result (string_bytes out.new ≡ string_bytes out.old ++ spec.list_tag start) }
{
    match start {
        None => out.push_str("<ul>\n"),
        Some(1) => out.push_str("<ol>\n"),
        Some(number) => write!(out, "<ol start=\"{number}\">\n"),
    }
}

/// The tag that ends a list.
pub(crate) fn end_of_list(numbered: bool) -> &'static str
    ensures { result.now ≡ machine.end_of_list numbered }
{
    if numbered { "</ol>\n" } else { "</ul>\n" }
}

/// Appends lines of HTML.
pub(crate) fn push_html_lines(out: &mut String, text: &str) -> Result<(), AllocError>
    ensures { OnOk result (string_bytes out.new ≡ string_bytes out.old ++ spec.html_lines text.now) }
{
    out.push_str(text)?;
    out.push_str("\n")
}
