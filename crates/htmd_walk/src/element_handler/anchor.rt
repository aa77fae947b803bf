//! The handler of `a`, and the definitions that its references name.

ghost use Rattle.std.specs.Prelude.{◌≡◌, ◌+◌, ◌∷◌, [], ◌++◌, IfOk, OnOk, length, string_bytes};
ghost use Rattle.std.specs.Option.{option_copied, unwrap_or};
ghost use Rattle.htmd_markdown.specs.Links as piece;
ghost use Rattle.htmd_walk.specs.Anchors as spec;
ghost use Rattle.htmd_walk.specs.Elements.{finish_answer};
ghost use Rattle.htmd_walk.specs.Markdown.{append_text};
ghost use Rattle.htmd_walk.specs.Views.{plan_view, element_view, result_view, answer_view};

use super::link_attributes::{is_raw_unless_among, last_value};
use super::{Element, HandlerResult, Links, Plan};
use crate::options::{LinkReferenceStyle, LinkStyle};
use htmd_markdown::{write_autolink, write_definition, write_inline_link, write_reference};
use std::alloc::{AllocError, Global};

/// Where a link leads, and its title.
#[derive(Clone, Copy)]
struct Target<'a> {
    address: &'a str,
    title: Option<&'a str>,
}

/// The children's content, unless the element has attributes that Markdown has no form for.
pub(crate) fn plan(element: &Element) -> Plan
    ensures { plan_view result ≡ spec.anchor_plan (element_view element.now) }
{
    if is_raw_unless_among(element, &["href", "title"]) {
        return Plan::RawHtml;
    }
    Plan::Children
}

/// An autolink if the content is the address, else an inline link.
fn write_autolink_or_link(
    alloc: Global,
    content: &str,
    target: Target,
) -> Result<String, AllocError>
    ensures { IfOk result (λ s. string_bytes s ≡ unwrap_or (piece.autolink content.now target.entry.address.now)
        (piece.inline_link content.now target.entry.address.now (option_copied target.entry.title))) }
{
    match write_autolink(alloc, content, target.address)? {
        Some(link) => Ok(link),
        None => write_inline_link(alloc, content, target.address, target.title),
    }
}

/// A reference, and its definition after those of the conversion so far.
fn refer(
    alloc: Global,
    style: LinkReferenceStyle,
    content: &str,
    target: Target,
    links: &mut Links,
) -> Result<String, AllocError>
    ensures reference { IfOk result (λ s. string_bytes s
        ≡ piece.reference style (length links.old + 1) content.now) }
    ensures definition { OnOk result (links.new ≡ links.old
        ++ piece.definition style (length links.old + 1) content.now target.entry.address.now
        (option_copied target.entry.title)
        ∷ []) }
{
    let number = links.lines.len() + 1;
    let reference = write_reference(alloc, style, number, content)?;
    let line = write_definition(alloc, style, number, content, target.address, target.title)?;
    links.lines.push(line)?;
    Ok(reference)
}

/// The content as a link, or as it is if there is no address.
pub(crate) fn finish(
    alloc: Global,
    element: &Element,
    content: HandlerResult,
    links: &mut Links,
) -> Result<Option<HandlerResult>, AllocError>
    ensures { IfOk result (λ r. answer_view r links.new ≡ finish_answer
        (spec.anchor_finish (element_view element.now) (result_view content) links.old) links.old) }
{
    let Some(address) = last_value(element.attrs, &["href"]) else {
        return Ok(Some(content));
    };
    let title = last_value(element.attrs, &["title"]);
    let target = Target { address, title };
    let content = content.content.as_str();
    let link = match element.options.link_style {
        LinkStyle::Inlined => write_inline_link(alloc, content, address, title)?,
        LinkStyle::InlinedPreferAutolinks => write_autolink_or_link(alloc, content, target)?,
        LinkStyle::Referenced => {
            let style = element.options.link_reference_style;
            refer(alloc, style, content, target, links)?
        }
    };
    Ok(Some(HandlerResult::from_string(link)))
}

/// Appends the definitions to a text, one on each line, with blank lines around.
pub(crate) fn push_definitions(links: &Links, out: &mut String) -> Result<(), AllocError>
    ensures { OnOk result (string_bytes out.new
        ≡ string_bytes out.old ++ append_text (spec.definitions_block links.now)) }
{
    if links.lines.is_empty() {
        return Ok(());
    }
    out.push('\n')?;
    for line in &links.lines {
        out.push('\n')?;
        out.push_str(line.as_str())?;
    }
    out.push_str("\n\n")?;
    Ok(())
}
