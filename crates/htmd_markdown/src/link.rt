//! Links, images, autolinks and link reference definitions (CommonMark 0.31.2, 6.3 to 6.5 and 4.7).
ghost use Rattle.std.specs.Prelude.{◌≡◌, ◌++◌, false, IfOk, IfSome, OnOk, codes, string_bytes};
ghost use Rattle.std.specs.Fmt.{decimal};
ghost use Rattle.std.specs.Option.{option_copied, option_map};
ghost use Rattle.htmd_markdown.specs.Addresses.{holds_backslash, HoldsAddress};
ghost use Rattle.htmd_markdown.specs.Links as spec;
ghost use Rattle.htmd_markdown.specs.Titles.{title_text};

use crate::address::{holds_space, is_written_address, push_address};
use crate::title::{push_description, push_title};
use htmd_text::StripWhitespace;
use std::alloc::{AllocError, Global};

/// How a link is written (CommonMark 0.31.2, 6.3).
#[derive(Debug, Clone, Copy, PartialEq)]
pub enum LinkStyle {
    /// `[text](address "title")`
    Inlined,
    /// `<address>` if the text is the address, else as in `Inlined` (CommonMark 0.31.2, 6.5).
    InlinedPreferAutolinks,
    /// A reference, whose definition is at the end.
    Referenced,
}

/// How a link names the definition of its address.
#[derive(Debug, Clone, Copy, PartialEq)]
pub enum LinkReferenceStyle {
    /// By a number: `[content][1]`.
    Full,
    /// By the content: `[content][]`.
    Collapsed,
    /// By the content: `[content]`.
    Shortcut,
}

/// The most bytes around the parts of an image, `![](< "">)`; apart from escapes the text doesn't grow.
const MARKS_AROUND: usize = 10;

/// An image with its description and title. `Err` means out of memory.
pub fn write_image(
    alloc: Global,
    address: &str,
    alt: Option<&str>,
    title: Option<&str>,
) -> Result<String, AllocError>
    ensures text { IfOk result (λ s. string_bytes s
        ≡ spec.image address.now (option_copied alt.entry) (option_copied title.entry)) }
    ensures address { holds_backslash address.now ≡ false → IfOk result (λ s. HoldsAddress
        (spec.image_start address.now (option_copied alt.entry)) address.now
        (spec.resource_end address.now (option_copied title.entry)) (string_bytes s)) }
{
    let words = alt
        .unwrap_or("")
        .len()
        .saturating_add(title.unwrap_or("").len());
    let room = address
        .len()
        .saturating_add(words)
        .saturating_add(MARKS_AROUND);
    let mut image = String::with_capacity(alloc, room)?;
    push_image(&mut image, address, alt, title)?;
    Ok(image)
}

/// Appends an image with its description and title.
fn push_image(
    out: &mut String,
    address: &str,
    alt: Option<&str>,
    title: Option<&str>,
) -> Result<(), AllocError>
    ensures { OnOk result (string_bytes out.new ≡ string_bytes out.old
        ++ spec.image address.now (option_copied alt.entry) (option_copied title.entry)) }
{
    out.push_str("![")?;
    push_description(out, alt)?;
    out.push(']')?;
    push_resource(out, address, title)
}

/// A link around the content. White space at the content's start goes, and white space at its end stands after the
/// link. `Err` means out of memory.
pub fn write_inline_link(
    alloc: Global,
    content: &str,
    address: &str,
    title: Option<&str>,
) -> Result<String, AllocError>
    ensures text { IfOk result (λ s. string_bytes s
        ≡ spec.inline_link content.now address.now (option_copied title.entry)) }
    ensures address { holds_backslash address.now ≡ false → IfOk result (λ s. HoldsAddress
        (spec.inline_link_start content.now address.now) address.now
        (spec.inline_link_end content.now address.now (option_copied title.entry))
        (string_bytes s)) }
{
    let (content, _) = content.strip_leading_document_whitespace();
    let (content, white_space) = content.strip_trailing_document_whitespace();
    let words = content.len().saturating_add(title.unwrap_or("").len());
    let room = address
        .len()
        .saturating_add(words)
        .saturating_add(MARKS_AROUND);
    let mut link = String::with_capacity(alloc, room)?;
    push_in_brackets(&mut link, content)?;
    push_resource(&mut link, address, title)?;
    link.push_str(white_space.unwrap_or(""))?;
    Ok(link)
}

/// An autolink, if the content is the address as it is written. `Err` means out of memory.
pub fn write_autolink(
    alloc: Global,
    content: &str,
    address: &str,
) -> Result<Option<String>, AllocError>
    ensures text { IfOk result (λ link. option_map (λ s. string_bytes s) link
        ≡ spec.autolink content.now address.now) }
    ensures address { holds_backslash address.now ≡ false → IfOk result (λ link. IfSome link (λ s.
        HoldsAddress (codes "<") address.now (codes ">") (string_bytes s))) }
{
    if !is_written_address(content, address) {
        return Ok(None);
    }
    let mut link = String::with_capacity(alloc, content.len() + 2)?;
    link.push('<')?;
    link.push_str(content)?;
    link.push('>')?;
    Ok(Some(link))
}

/// A reference to the definition with this number, or with the content as its label. `Err` means out of memory.
pub fn write_reference(
    alloc: Global,
    style: LinkReferenceStyle,
    number: usize,
    content: &str,
) -> Result<String, AllocError>
    ensures { IfOk result (λ s. string_bytes s ≡ spec.reference style number content.now) }
{
    let mut link = String::with_capacity(alloc, content.len() + 24)?;
    push_in_brackets(&mut link, content)?;
    match style {
        LinkReferenceStyle::Full => push_number_in_brackets(&mut link, number)?,
        LinkReferenceStyle::Collapsed => link.push_str("[]")?,
        LinkReferenceStyle::Shortcut => {}
    }
    Ok(link)
}

/// The line that defines the address and the title of a reference. `Err` means out of memory.
pub fn write_definition(
    alloc: Global,
    style: LinkReferenceStyle,
    number: usize,
    content: &str,
    address: &str,
    title: Option<&str>,
) -> Result<String, AllocError>
    ensures text { IfOk result (λ s. string_bytes s
        ≡ spec.definition style number content.now address.now (option_copied title.entry)) }
    ensures address { holds_backslash address.now ≡ false → IfOk result (λ s. HoldsAddress
        (spec.definition_start style number content.now) address.now
        (title_text (option_copied title.entry)) (string_bytes s)) }
{
    let mut line = String::with_capacity(alloc, content.len() + 24)?;
    match style {
        LinkReferenceStyle::Full => push_number_in_brackets(&mut line, number)?,
        LinkReferenceStyle::Collapsed | LinkReferenceStyle::Shortcut => {
            push_in_brackets(&mut line, content)?
        }
    }
    line.push_str(": ")?;
    push_address(&mut line, address)?;
    push_title(&mut line, title)?;
    Ok(line)
}

/// Appends the text between brackets.
fn push_in_brackets(out: &mut String, text: &str) -> Result<(), AllocError>
    ensures { OnOk result
        (string_bytes out.new ≡ string_bytes out.old ++ spec.in_brackets text.now) }
{
    out.push('[')?;
    out.push_str(text)?;
    out.push(']')
}

/// Appends a number between brackets.
fn push_number_in_brackets(out: &mut String, number: usize) -> Result<(), AllocError>
    ensures { OnOk result
        (string_bytes out.new ≡ string_bytes out.old ++ spec.in_brackets (decimal number)) }
{
    write!(out, "[{number}]")
}

/// Appends the address and the title in parentheses.
fn push_resource(out: &mut String, address: &str, title: Option<&str>) -> Result<(), AllocError>
    ensures { OnOk result (string_bytes out.new
        ≡ string_bytes out.old ++ spec.resource address.now (option_copied title.entry)) }
{
    let is_apart = holds_space(address);
    out.push_str(if is_apart { "(<" } else { "(" })?;
    push_address(out, address)?;
    out.push_str(if is_apart { ">" } else { "" })?;
    push_title(out, title)?;
    out.push(')')
}
