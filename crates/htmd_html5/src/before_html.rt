//! The mode "before html".
ghost use Rattle.std.specs.Prelude.{◌≡◌, true, is_some, IfOk, IfSome, OnOk};
ghost use Rattle.htmd_html5_state.specs.Names.{name_of};
ghost use Rattle.htmd_html5.specs.Outcomes.{outcome};
ghost use Rattle.htmd_html5.specs.BeforeHtml as spec;
ghost use Rattle.htmd_html5.specs.Tokens.{tag_of};
ghost use Rattle.htmd_lexical.specs.Attributes.{pairs_of};

use crate::tokens::StartTag;
use htmd_html5_state::{HtmlName, HtmlState, InsertionMode, TagName};
use htmd_nodes::Attribute;
use std::alloc::AllocError;

fn put_root(
    state: &mut HtmlState,
    name: HtmlName,
    attributes: Vec<Attribute>,
) -> Result<(), AllocError>
    ensures { OnOk result (state.new
        ≡ spec.with_root (name_of name) (pairs_of attributes.items) state.old) }
{
    state.insert_root(name, attributes)?;
    state.set_mode(InsertionMode::BeforeHead);
    Ok(())
}

/// Makes an `html` that no tag made.
pub(crate) fn imply_root(state: &mut HtmlState) -> Result<(), AllocError>
    ensures { OnOk result (outcome state.new true ≡ spec.imply_root state.old) }
{
    let attributes = Vec::new(state.alloc());
    put_root(state, HtmlName::Known(TagName::Html), attributes)
}

pub(crate) fn start_before_html(
    state: &mut HtmlState,
    tag: StartTag,
) -> Result<Option<StartTag>, AllocError>
    ensures outcome { IfOk result (λ again. outcome state.new (is_some again)
        ≡ spec.start_before_html (name_of tag.name) (tag_of tag) state.old) }
    ensures same { IfOk result (λ again. IfSome again (λ t. tag_of t ≡ tag_of tag)) }
{
    match tag.name {
        HtmlName::Known(TagName::Html) => {
            put_root(state, tag.name, tag.attributes)?;
            Ok(None)
        }
        _ => {
            imply_root(state)?;
            Ok(Some(tag))
        }
    }
}

pub(crate) fn end_before_html(state: &mut HtmlState, name: &HtmlName) -> Result<bool, AllocError>
    ensures { IfOk result (λ again. outcome state.new again
        ≡ spec.end_before_html (name_of name.now) state.old) }
{
    match name {
        HtmlName::Known(TagName::Head | TagName::Body | TagName::Html | TagName::Br) => {
            imply_root(state)?;
            Ok(true)
        }
        _ => Ok(false),
    }
}
