//! Tokens in foreign content.
ghost use Rattle.std.specs.Prelude.{◌≡◌, ℕ, List, is_some, not, string_bytes, IfOk, IfSome, OnOk};
ghost use Rattle.htmd_html5_state.specs.Foreign.{current_is_html};
ghost use Rattle.htmd_html5_state.specs.Names.{name_of};
ghost use Rattle.htmd_html5.specs.Outcomes.{outcome};
ghost use Rattle.htmd_html5.specs.ForeignContent as spec;
ghost use Rattle.htmd_html5.specs.Tokens.{tag_of, start_tag, run};
ghost use Rattle.htmd_html5.specs.declared.tokens.RunKind.{RunKind};
ghost use Rattle.htmd_lexical.specs.Attributes.{pair_of, pairs_of};

use crate::modes::{end_by_mode, start_by_mode};
use crate::shared_rules::insert_foreign_tag;
use crate::tokens::{RunKind, StartTag};
use htmd_html5_state::{HtmlName, HtmlState, TagName};
use htmd_nodes::Attribute;
use std::alloc::{AllocError, Global};

// ---- which tokens go there

fn is_glyph(name: &HtmlName) -> bool
    ensures { result ≡ spec.is_glyph (name_of name.now) }
{
    matches!(name, HtmlName::Known(TagName::MGlyph | TagName::MalignMark))
}

fn is_svg_name(name: &HtmlName) -> bool
    ensures { result ≡ spec.is_svg_name (name_of name.now) }
{
    matches!(name, HtmlName::Known(TagName::Svg))
}

/// Whether a start tag goes to foreign content.
pub(crate) fn is_start_foreign(state: &HtmlState, tag: &StartTag) -> bool
    ensures { result ≡ spec.is_foreign (start_tag (tag_of tag.now)) state.now }
{
    !(state.current_is_html()
        || (state.current_is_math_text_point() && !is_glyph(&tag.name))
        || (state.current_is_annotation() && is_svg_name(&tag.name))
        || state.current_is_html_point())
}

/// Whether an end tag, a comment or a doctype goes to foreign content.
pub(crate) fn is_in_foreign(state: &HtmlState) -> bool
    ensures { result ≡ not (current_is_html state.now.stack) }
{
    !state.current_is_html()
}

/// Whether text goes to foreign content.
pub(crate) fn is_text_foreign(state: &HtmlState) -> bool
    ensures { (kind : RunKind) (text : List ℕ) → result ≡ spec.is_foreign (run kind text) state.now }
{
    !(state.current_is_html()
        || state.current_is_math_text_point()
        || state.current_is_html_point())
}

// ---- what they do there

/// Whether this is a start tag of HTML in text that ends foreign content.
#[tactic(auto, unfolding(crate::specs::ForeignContent::text_breaks_out))]
fn text_breaks_out(tag: TagName) -> bool
    ensures { result ≡ spec.text_breaks_out tag }
{
    matches!(
        tag,
        TagName::B
            | TagName::Big
            | TagName::Br
            | TagName::Code
            | TagName::Em
            | TagName::Embed
            | TagName::I
            | TagName::Img
            | TagName::NoBr
            | TagName::Ruby
            | TagName::S
            | TagName::Small
            | TagName::Span
            | TagName::Strong
            | TagName::Strike
            | TagName::Sub
            | TagName::Sup
            | TagName::Tt
            | TagName::U
            | TagName::Var
    )
}

/// Whether this is a start tag of HTML that ends foreign content.
fn breaks_out(tag: TagName) -> bool
    ensures { result ≡ spec.breaks_out tag }
{
    match tag {
        TagName::BlockQuote
        | TagName::Body
        | TagName::Center
        | TagName::Dd
        | TagName::Div
        | TagName::Dl
        | TagName::Dt
        | TagName::H1
        | TagName::H2
        | TagName::H3
        | TagName::H4
        | TagName::H5
        | TagName::H6
        | TagName::Head
        | TagName::Hr
        | TagName::Li
        | TagName::Listing
        | TagName::Menu
        | TagName::Meta
        | TagName::Ol
        | TagName::P
        | TagName::Pre
        | TagName::Table
        | TagName::Ul => true,
        _ => text_breaks_out(tag),
    }
}

fn is_font_attribute(attribute: &Attribute) -> bool
    ensures { result ≡ spec.is_font_attribute (pair_of attribute.now) }
{
    matches!(attribute.name.as_str(), "color" | "face" | "size")
}

fn has_font_attribute(attributes: &[Attribute]) -> bool
    ensures { result ≡ spec.has_font_attribute (pairs_of attributes.now) }
{
    for attribute in attributes {
        if is_font_attribute(attribute) {
            return true;
        }
    }
    false
}

fn tag_breaks_out(tag: &StartTag) -> bool
    ensures { result ≡ spec.tag_breaks_out (name_of tag.now.name) (pairs_of tag.now.attributes.items) }
{
    match &tag.name {
        HtmlName::Known(TagName::Font) => has_font_attribute(tag.attributes.as_slice()),
        HtmlName::Known(name) => breaks_out(*name),
        HtmlName::Other(_) => false,
    }
}

fn end_breaks_out(name: &HtmlName) -> bool
    ensures { result ≡ spec.end_breaks_out (name_of name.now) }
{
    matches!(name, HtmlName::Known(TagName::Br | TagName::P))
}

/// An element in the namespace of the current node.
fn insert_alike(state: &mut HtmlState, tag: StartTag) -> Result<(), AllocError>
    ensures { OnOk result (state.new ≡ spec.start_foreign_element (tag_of tag) state.old) }
{
    match state.current_namespace() {
        Some(space) => insert_foreign_tag(state, space, tag),
        None => Ok(()),
    }
}

/// A start tag in foreign content. Gives it back if it is to be processed again.
pub(crate) fn start_in_foreign(
    state: &mut HtmlState,
    tag: StartTag,
) -> Result<Option<StartTag>, AllocError>
    ensures outcome { IfOk result (λ again. outcome state.new (is_some again)
        ≡ spec.start_in_foreign (tag_of tag) state.old) }
    ensures same { IfOk result (λ again. IfSome again (λ t. tag_of t ≡ tag_of tag)) }
{
    if tag_breaks_out(&tag) {
        state.leave_foreign();
        return start_by_mode(state, tag);
    }
    insert_alike(state, tag)?;
    Ok(None)
}

/// An end tag in foreign content. Gives whether it is to be processed again.
pub(crate) fn end_in_foreign(state: &mut HtmlState, name: &HtmlName) -> Result<bool, AllocError>
    ensures { IfOk result (λ again. outcome state.new again
        ≡ spec.end_in_foreign (name_of name.now) state.old) }
{
    if end_breaks_out(name) {
        state.leave_foreign();
        return end_by_mode(state, name);
    }
    if state.close_foreign(name.text()) {
        return end_by_mode(state, name);
    }
    Ok(false)
}

/// U+FFFD for each character.
fn replacements(alloc: Global, text: &str) -> Result<String, AllocError>
    ensures { IfOk result (λ replaced. string_bytes replaced ≡ spec.replacements text.now) }
{
    let mut replaced = String::new(alloc);
    let bytes = text.as_bytes();
    for _byte in bytes {
        replaced.push('\u{fffd}')?;
    }
    Ok(replaced)
}

/// A run in foreign content.
pub(crate) fn put_run_in_foreign(
    state: &mut HtmlState,
    kind: RunKind,
    text: &str,
) -> Result<(), AllocError>
    ensures { OnOk result (state.new ≡ spec.run_in_foreign kind text.now state.old) }
{
    match kind {
        RunKind::White => state.insert_text(text),
        RunKind::Nulls => {
            let replaced = replacements(state.alloc(), text)?;
            state.insert_text(replaced.as_str())
        }
        RunKind::Characters => {
            state.insert_text(text)?;
            state.set_frameset_ok(false);
            Ok(())
        }
    }
}
