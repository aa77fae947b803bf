//! The mode "in head".
ghost use Rattle.std.specs.Prelude.{◌≡◌, is_some, IfOk, IfSome, OnOk};
ghost use Rattle.htmd_html5_state.specs.Names.{name_of};
ghost use Rattle.htmd_html5.specs.Outcomes.{outcome};
ghost use Rattle.htmd_html5.specs.InHead as spec;
ghost use Rattle.htmd_html5.specs.Tokens.{tag_of};

use crate::shared_rules::{
    add_to_root, end_template, insert_head_element, insert_raw_tag, insert_tag,
};
use crate::tokens::StartTag;
use htmd_html5_state::{HtmlName, HtmlState, InsertionMode, TagName};
use htmd_html5_tokens::RawElement;
use std::alloc::AllocError;

pub(crate) fn close_head(state: &mut HtmlState)
    ensures { state.new ≡ spec.close_head state.old }
{
    state.pop();
    state.set_mode(InsertionMode::AfterHead);
}

/// With scripting on, `noscript` holds only text.
fn put_noscript(state: &mut HtmlState, tag: StartTag) -> Result<(), AllocError>
    ensures { OnOk result (state.new ≡ spec.noscript_in_head (tag_of tag) state.old) }
{
    if state.scripting() {
        return insert_raw_tag(state, RawElement::Noscript, tag);
    }
    insert_tag(state, tag)?;
    state.set_mode(InsertionMode::InHeadNoscript);
    Ok(())
}

pub(crate) fn start_in_head(
    state: &mut HtmlState,
    tag: StartTag,
) -> Result<Option<StartTag>, AllocError>
    ensures outcome { IfOk result (λ again. outcome state.new (is_some again)
        ≡ spec.start_in_head (name_of tag.name) (tag_of tag) state.old) }
    ensures same { IfOk result (λ again. IfSome again (λ t. tag_of t ≡ tag_of tag)) }
{
    match tag.name {
        HtmlName::Known(TagName::Html) => add_to_root(state, tag)?,
        HtmlName::Known(
            TagName::Base
            | TagName::BaseFont
            | TagName::BgSound
            | TagName::Link
            | TagName::Meta
            | TagName::Title
            | TagName::NoFrames
            | TagName::Style
            | TagName::Script
            | TagName::Template,
        ) => insert_head_element(state, tag)?,
        HtmlName::Known(TagName::NoScript) => put_noscript(state, tag)?,
        HtmlName::Known(TagName::Head) => {}
        _ => {
            close_head(state);
            return Ok(Some(tag));
        }
    }
    Ok(None)
}

pub(crate) fn end_in_head(state: &mut HtmlState, name: &HtmlName) -> bool
    ensures { outcome state.new result ≡ spec.end_in_head (name_of name.now) state.old }
{
    match name {
        HtmlName::Known(TagName::Head) => {
            close_head(state);
            false
        }
        HtmlName::Known(TagName::Template) => {
            end_template(state);
            false
        }
        HtmlName::Known(TagName::Body | TagName::Html | TagName::Br) => {
            close_head(state);
            true
        }
        _ => false,
    }
}
