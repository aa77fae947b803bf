//! What leaves of a page give: images, formulas, what is embedded, boxes and code.
ghost use Rattle.std.specs.Prelude.{◌≡◌, ◌&&◌, not, OnOk, IfOk, map, string_bytes};
ghost use Rattle.std.specs.Option.{option_copied};
ghost use Rattle.htmd_document.specs.Documents as documents;
ghost use Rattle.htmd_document.specs.DocumentViews.{block_of};
ghost use Rattle.htmd_lexical.specs.Attributes.{pairs_of};
ghost use Rattle.htmd_text.specs.Trims.{trimmed_text, is_line_feed};
ghost use Rattle.htmd_shown.specs.AllTexts as texts;
ghost use Rattle.htmd_shown.specs.SimpleViews.{simples_of};
ghost use Rattle.htmd_flow.specs.Flows as spec;
ghost use Rattle.htmd_flow.specs.FlowViews as views;
ghost use Rattle.htmd_flow.specs.ParagraphViews.{writing_in};
ghost use Rattle.htmd_flow.specs.Paragraphs.{fed, fed_all};
ghost use Rattle.htmd_flow.specs.Parts as part;
ghost use Rattle.htmd_flow.specs.PartViews.{around_of};

use crate::around::Around;
use crate::language::language_of_block;
use crate::paragraphs::Paragraphs;
use crate::place::{Place, holds_link};
use htmd_document::Block;
use htmd_nodes::{Attribute, value_of};
use htmd_shown::attributes::{address, description_of, in_line, text_of, title_of, trimmed};
use htmd_shown::spaces::is_blank_text;
use htmd_shown::{Embedded, Simple, all_text, with_line_feeds, without_last_line_feed};
use htmd_text::repeats::{leading_len, trailing_len};
use std::alloc::{AllocError, Global};

/// Adds an image, or its description where it has no address.
pub(crate) fn push_image(
    alloc: Global,
    source: Option<&str>,
    attrs: &[Attribute],
    place: &Place,
    around: &[Around],
    out: &mut Paragraphs,
) -> Result<(), AllocError>
    ensures { OnOk result (writing_in out.new ≡ fed_all (writing_in out.old)
        (spec.image_parts (option_copied source.entry) (pairs_of attrs.now)
        (views.context_in place.now around.now))) }
{
    let description = description_of(alloc, attrs)?;
    let Some(source) = source else {
        return out.run(description.as_str(), around, place.is_code);
    };
    let address = address(alloc, source)?;
    let title = title_of(alloc, attrs)?;
    out.image(address, title, description, around)
}

// ---- formulas

/// The code block of a formula.
fn formula_block(alloc: Global, tex: &str) -> Result<Block, AllocError>
    ensures { IfOk result (λ b. block_of b ≡ spec.math_block tex.now) }
{
    let tex = with_line_feeds(alloc, tex)?;
    Ok(Block::CodeBlock {
        language: Some(String::from_str(alloc, "math")?),
        text: String::from_str(alloc, trimmed(tex.as_str()))?,
    })
}

/// Adds TeX as code between dollar signs.
fn push_math(
    alloc: Global,
    tex: &str,
    place: &Place,
    around: &[Around],
    out: &mut Paragraphs,
) -> Result<(), AllocError>
    ensures { OnOk result (writing_in out.new ≡ fed_all (writing_in out.old)
        (spec.math_in_line tex.now (views.context_in place.now around.now))) }
{
    let tex = in_line(alloc, tex)?;
    out.run("$", around, place.is_code)?;
    out.run(tex.as_str(), around, true)?;
    out.run("$", around, place.is_code)
}

/// Whether a formula is a block here.
fn stands_alone(is_alone: bool, place: &Place) -> bool
    ensures { result ≡ (is_alone && not place.now.is_flat) }
{
    is_alone && !place.is_flat
}

/// Adds a formula: a code block where it stands alone.
pub(crate) fn push_formula(
    alloc: Global,
    tex: &str,
    is_alone: bool,
    place: &Place,
    around: &[Around],
    out: &mut Paragraphs,
) -> Result<(), AllocError>
    ensures { OnOk result (writing_in out.new ≡ fed_all (writing_in out.old)
        (spec.formula_parts tex.now is_alone (views.context_in place.now around.now))) }
{
    if !stands_alone(is_alone, place) {
        return push_math(alloc, tex, place, around, out);
    }
    out.edge()?;
    out.block(formula_block(alloc, tex)?)?;
    out.edge()
}

// ---- what is embedded

/// Adds an edge beside what is embedded; in one line a space.
fn push_side(place: &Place, around: &[Around], out: &mut Paragraphs) -> Result<(), AllocError>
    ensures { OnOk result (writing_in out.new ≡ fed (writing_in out.old)
        (spec.embed_edge (views.context_in place.now around.now))) }
{
    if place.is_flat {
        return out.run(" ", around, place.is_code);
    }
    out.edge()
}

/// Adds anchors.
fn push_anchors(anchors: &[String], out: &mut Paragraphs) -> Result<(), AllocError>
    ensures { OnOk result (writing_in out.new ≡ fed_all (writing_in out.old)
        (map part.place (map string_bytes anchors.now))) }
{
    for id in anchors {
        out.anchor(id.as_str())?;
    }
    Ok(())
}

/// Adds the link to what is embedded; in a link, its text.
fn push_linked(
    alloc: Global,
    found: &Embedded,
    place: &Place,
    around: &mut Vec<Around>,
    out: &mut Paragraphs,
) -> Result<(), AllocError>
    ensures out { OnOk result (writing_in out.new ≡ fed (writing_in out.old)
        (views.embedded_run found.now (views.context_in place.now around.old.items))) }
    ensures around { OnOk result (around.new.items ≡ around.old.items) }
{
    if holds_link(around) {
        return out.run(found.title.as_str(), around, place.is_code);
    }
    around.push(Around::Link {
        node: found.node,
        address: String::from_str(alloc, found.address.as_str())?,
        title: None,
    })?;
    out.run(found.title.as_str(), around, place.is_code)?;
    around.pop();
    Ok(())
}

/// Adds what is embedded: a link to it, in a paragraph of its own.
pub(crate) fn push_embedded(
    alloc: Global,
    found: &Embedded,
    place: &Place,
    around: &mut Vec<Around>,
    out: &mut Paragraphs,
) -> Result<(), AllocError>
    ensures out { OnOk result (writing_in out.new ≡ fed_all (writing_in out.old)
        (views.embedded_parts found.now (views.context_in place.now around.old.items))) }
    ensures around { OnOk result (around.new.items ≡ around.old.items) }
{
    push_side(place, around, out)?;
    push_anchors(found.anchors.as_slice(), out)?;
    push_linked(alloc, found, place, around, out)?;
    push_side(place, around, out)
}

// ---- boxes

/// Adds the box of a task, if an input is one.
pub(crate) fn push_box(attrs: &[Attribute], out: &mut Paragraphs) -> Result<(), AllocError>
    ensures { OnOk result (writing_in out.new ≡ fed_all (writing_in out.old) (spec.box_parts (pairs_of attrs.now))) }
{
    if text_of(attrs, "type").eq_ignore_ascii_case("checkbox") {
        out.task(value_of(attrs, "checked").is_some())?;
    }
    Ok(())
}

// ---- code

/// The text without line feeds at its ends.
fn without_line_feeds_around(text: &str) -> &str
    ensures { result.now ≡ trimmed_text is_line_feed text.now }
{
    let text = &text[leading_len(text.as_bytes(), b'\n')..];
    &text[..text.len() - trailing_len(text.as_bytes(), b'\n')]
}

/// Adds the lines of a text, each as a line of code.
fn push_code_lines(text: &str, around: &[Around], out: &mut Paragraphs) -> Result<(), AllocError>
    ensures { OnOk result (writing_in out.new ≡ fed_all (writing_in out.old)
        (spec.code_parts (texts.lines_of text.now) (map around_of around.now))) }
{
    for line in without_line_feeds_around(text).split('\n') {
        out.run(line, around, true)?;
        out.edge()?;
    }
    Ok(())
}

/// The code block of a text in its language.
fn code_block(alloc: Global, language: Option<&str>, text: &str) -> Result<Block, AllocError>
    ensures { IfOk result (λ b. block_of b ≡ documents.code_block (option_copied language.entry)
        (texts.without_last_line_feed text.now)) }
{
    let language = match language {
        Some(name) => Some(String::from_str(alloc, name)?),
        None => None,
    };
    Ok(Block::CodeBlock {
        language,
        text: String::from_str(alloc, without_last_line_feed(text))?,
    })
}

/// Adds a code block, or lines of code.
pub(crate) fn push_verbatim<'t>(
    alloc: Global,
    attrs: &'t [Attribute],
    content: &[Simple<'t>],
    place: &Place<'t>,
    around: &[Around],
    out: &mut Paragraphs,
) -> Result<(), AllocError>
    ensures { OnOk result (writing_in out.new ≡ fed_all (writing_in out.old)
        (spec.verbatim_parts (pairs_of attrs.now) (simples_of content.now)
        (views.context_in place.now around.now))) }
{
    out.edge()?;
    let text = all_text(alloc, content)?;
    if is_blank_text(text.as_str()) {
        return Ok(());
    }
    if place.is_flat {
        return push_code_lines(text.as_str(), around, out);
    }
    let language = language_of_block(attrs, content, place.near);
    out.block(code_block(alloc, language, text.as_str())?)?;
    out.edge()
}
