//! The mode "in column group".
ghost use Rattle.std.specs.Prelude.{◌≡◌, is_some, IfOk, IfSome};
ghost use Rattle.htmd_html5_state.specs.Names.{name_of};
ghost use Rattle.htmd_html5.specs.Outcomes.{outcome};
ghost use Rattle.htmd_html5.specs.InColumnGroup as spec;
ghost use Rattle.htmd_html5.specs.Tokens.{tag_of};

use crate::shared_rules::{add_to_root, end_template, insert_head_element, insert_void_tag};
use crate::tokens::StartTag;
use htmd_html5_state::{HtmlName, HtmlState, InsertionMode, NameSet, TagName};
use std::alloc::AllocError;

/// Closes the column group if it is the current node. Gives whether it is.
pub(crate) fn end_columns(state: &mut HtmlState) -> bool
    ensures found { result ≡ spec.has_columns state.old }
    ensures value { state.new ≡ spec.end_columns state.old }
{
    let found = state.current_is(NameSet::Only(TagName::ColGroup));
    if found {
        state.pop();
        state.set_mode(InsertionMode::InTable);
    }
    found
}

pub(crate) fn start_in_columns(
    state: &mut HtmlState,
    tag: StartTag,
) -> Result<Option<StartTag>, AllocError>
    ensures outcome { IfOk result (λ again. outcome state.new (is_some again)
        ≡ spec.start_in_columns (name_of tag.name) (tag_of tag) state.old) }
    ensures same { IfOk result (λ again. IfSome again (λ t. tag_of t ≡ tag_of tag)) }
{
    match tag.name {
        HtmlName::Known(TagName::Html) => add_to_root(state, tag)?,
        HtmlName::Known(TagName::Col) => insert_void_tag(state, tag)?,
        HtmlName::Known(TagName::Template) => insert_head_element(state, tag)?,
        _ => {
            if end_columns(state) {
                return Ok(Some(tag));
            }
        }
    }
    Ok(None)
}

pub(crate) fn end_in_columns(state: &mut HtmlState, name: &HtmlName) -> bool
    ensures { outcome state.new result ≡ spec.end_in_columns (name_of name.now) state.old }
{
    match name {
        HtmlName::Known(TagName::ColGroup) => {
            end_columns(state);
            false
        }
        HtmlName::Known(TagName::Col) => false,
        HtmlName::Known(TagName::Template) => {
            end_template(state);
            false
        }
        _ => end_columns(state),
    }
}
