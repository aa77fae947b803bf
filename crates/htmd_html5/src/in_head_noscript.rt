//! The mode "in head noscript".
ghost use Rattle.std.specs.Prelude.{◌≡◌, is_some, IfOk, IfSome};
ghost use Rattle.htmd_html5_state.specs.Names.{name_of};
ghost use Rattle.htmd_html5.specs.Outcomes.{outcome};
ghost use Rattle.htmd_html5.specs.InHeadNoscript as spec;
ghost use Rattle.htmd_html5.specs.Tokens.{tag_of};

use crate::shared_rules::{add_to_root, insert_head_element};
use crate::tokens::StartTag;
use htmd_html5_state::{HtmlName, HtmlState, InsertionMode, TagName};
use std::alloc::AllocError;

pub(crate) fn close_noscript(state: &mut HtmlState)
    ensures { state.new ≡ spec.close_noscript state.old }
{
    state.pop();
    state.set_mode(InsertionMode::InHead);
}

pub(crate) fn start_in_noscript(
    state: &mut HtmlState,
    tag: StartTag,
) -> Result<Option<StartTag>, AllocError>
    ensures outcome { IfOk result (λ again. outcome state.new (is_some again)
        ≡ spec.start_in_noscript (name_of tag.name) (tag_of tag) state.old) }
    ensures same { IfOk result (λ again. IfSome again (λ t. tag_of t ≡ tag_of tag)) }
{
    match tag.name {
        HtmlName::Known(TagName::Html) => add_to_root(state, tag)?,
        HtmlName::Known(
            TagName::BaseFont
            | TagName::BgSound
            | TagName::Link
            | TagName::Meta
            | TagName::NoFrames
            | TagName::Style,
        ) => insert_head_element(state, tag)?,
        HtmlName::Known(TagName::Head | TagName::NoScript) => {}
        _ => {
            close_noscript(state);
            return Ok(Some(tag));
        }
    }
    Ok(None)
}

pub(crate) fn end_in_noscript(state: &mut HtmlState, name: &HtmlName) -> bool
    ensures { outcome state.new result ≡ spec.end_in_noscript (name_of name.now) state.old }
{
    match name {
        HtmlName::Known(TagName::NoScript) => {
            close_noscript(state);
            false
        }
        HtmlName::Known(TagName::Br) => {
            close_noscript(state);
            true
        }
        _ => false,
    }
}
