//! The mode "before head".
ghost use Rattle.std.specs.Prelude.{◌≡◌, true, is_some, IfOk, IfSome, OnOk};
ghost use Rattle.htmd_html5_state.specs.Names.{name_of};
ghost use Rattle.htmd_html5.specs.Outcomes.{outcome};
ghost use Rattle.htmd_html5.specs.BeforeHead as spec;
ghost use Rattle.htmd_html5.specs.Tokens.{tag_of};
ghost use Rattle.htmd_lexical.specs.Attributes.{pairs_of};

use crate::shared_rules::add_to_root;
use crate::tokens::StartTag;
use htmd_html5_state::{HtmlName, HtmlState, InsertionMode, TagName};
use htmd_nodes::Attribute;
use std::alloc::AllocError;

fn put_head(
    state: &mut HtmlState,
    name: HtmlName,
    attributes: Vec<Attribute>,
) -> Result<(), AllocError>
    ensures { OnOk result (state.new
        ≡ spec.with_head (name_of name) (pairs_of attributes.items) state.old) }
{
    let head = state.insert_element(name, attributes)?;
    state.set_head(Some(head));
    state.set_mode(InsertionMode::InHead);
    Ok(())
}

/// Makes a `head` that no tag made.
pub(crate) fn imply_head(state: &mut HtmlState) -> Result<(), AllocError>
    ensures { OnOk result (outcome state.new true ≡ spec.imply_head state.old) }
{
    let attributes = Vec::new(state.alloc());
    put_head(state, HtmlName::Known(TagName::Head), attributes)
}

pub(crate) fn start_before_head(
    state: &mut HtmlState,
    tag: StartTag,
) -> Result<Option<StartTag>, AllocError>
    ensures outcome { IfOk result (λ again. outcome state.new (is_some again)
        ≡ spec.start_before_head (name_of tag.name) (tag_of tag) state.old) }
    ensures same { IfOk result (λ again. IfSome again (λ t. tag_of t ≡ tag_of tag)) }
{
    match tag.name {
        HtmlName::Known(TagName::Html) => add_to_root(state, tag)?,
        HtmlName::Known(TagName::Head) => put_head(state, tag.name, tag.attributes)?,
        _ => {
            imply_head(state)?;
            return Ok(Some(tag));
        }
    }
    Ok(None)
}

pub(crate) fn end_before_head(state: &mut HtmlState, name: &HtmlName) -> Result<bool, AllocError>
    ensures { IfOk result (λ again. outcome state.new again
        ≡ spec.end_before_head (name_of name.now) state.old) }
{
    match name {
        HtmlName::Known(TagName::Head | TagName::Body | TagName::Html | TagName::Br) => {
            imply_head(state)?;
            Ok(true)
        }
        _ => Ok(false),
    }
}
