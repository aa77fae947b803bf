//! The modes "after body" and "after after body".
ghost use Rattle.std.specs.Prelude.{◌≡◌, is_some, string_bytes, IfOk, IfSome, OnOk};
ghost use Rattle.htmd_html5_state.specs.Names.{name_of};
ghost use Rattle.htmd_html5.specs.AfterBody as spec;
ghost use Rattle.htmd_html5.specs.Outcomes.{outcome};
ghost use Rattle.htmd_html5.specs.Tokens.{tag_of};

use crate::shared_rules::add_to_root;
use crate::tokens::StartTag;
use htmd_html5_state::{HtmlName, HtmlState, InsertionMode, TagName};
use std::alloc::AllocError;

pub(crate) fn start_after_body(
    state: &mut HtmlState,
    tag: StartTag,
) -> Result<Option<StartTag>, AllocError>
    ensures outcome { IfOk result (λ again. outcome state.new (is_some again)
        ≡ spec.start_after_body (name_of tag.name) (tag_of tag) state.old) }
    ensures same { IfOk result (λ again. IfSome again (λ t. tag_of t ≡ tag_of tag)) }
{
    match tag.name {
        HtmlName::Known(TagName::Html) => {
            add_to_root(state, tag)?;
            Ok(None)
        }
        _ => {
            state.set_mode(InsertionMode::InBody);
            Ok(Some(tag))
        }
    }
}

pub(crate) fn end_after_body(state: &mut HtmlState, name: &HtmlName) -> bool
    ensures { outcome state.new result ≡ spec.end_after_body (name_of name.now) state.old }
{
    match name {
        HtmlName::Known(TagName::Html) => {
            state.set_mode(InsertionMode::AfterAfterBody);
            false
        }
        _ => {
            state.set_mode(InsertionMode::InBody);
            true
        }
    }
}

/// A comment in the outermost element.
pub(crate) fn put_comment_in_root(state: &mut HtmlState, text: String) -> Result<(), AllocError>
    ensures { OnOk result (state.new ≡ spec.comment_in_root (string_bytes text) state.old) }
{
    match state.first_open() {
        Some(root) => state.insert_comment_in(root, text),
        None => Ok(()),
    }
}
