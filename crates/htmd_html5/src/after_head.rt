//! The mode "after head".
ghost use Rattle.std.specs.Prelude.{◌≡◌, true, is_some, IfOk, IfSome, OnOk};
ghost use Rattle.htmd_html5_state.specs.Names.{name_of};
ghost use Rattle.htmd_html5.specs.AfterHead as spec;
ghost use Rattle.htmd_html5.specs.Outcomes.{outcome};
ghost use Rattle.htmd_html5.specs.SharedRules.{no_frameset};
ghost use Rattle.htmd_html5.specs.Tokens.{tag_of};
ghost use Rattle.htmd_lexical.specs.Attributes.{pairs_of};

use crate::shared_rules::{add_to_root, end_template, insert_head_element, insert_tag};
use crate::tokens::StartTag;
use htmd_html5_state::{HtmlName, HtmlState, InsertionMode, TagName};
use htmd_nodes::Attribute;
use std::alloc::AllocError;

fn put_body(
    state: &mut HtmlState,
    name: HtmlName,
    attributes: Vec<Attribute>,
) -> Result<(), AllocError>
    ensures { OnOk result (state.new
        ≡ spec.with_body (name_of name) (pairs_of attributes.items) state.old) }
{
    state.insert_element(name, attributes)?;
    state.set_mode(InsertionMode::InBody);
    Ok(())
}

/// Makes a `body` that no tag made.
pub(crate) fn imply_body(state: &mut HtmlState) -> Result<(), AllocError>
    ensures { OnOk result (outcome state.new true ≡ spec.imply_body state.old) }
{
    let attributes = Vec::new(state.alloc());
    put_body(state, HtmlName::Known(TagName::Body), attributes)
}

fn put_tagged_body(state: &mut HtmlState, tag: StartTag) -> Result<(), AllocError>
    ensures { OnOk result (state.new
        ≡ no_frameset (spec.with_body (name_of tag.name) (pairs_of tag.attributes.items) state.old)) }
{
    put_body(state, tag.name, tag.attributes)?;
    state.set_frameset_ok(false);
    Ok(())
}

fn put_frameset(state: &mut HtmlState, tag: StartTag) -> Result<(), AllocError>
    ensures { OnOk result (state.new ≡ spec.put_frameset (tag_of tag) state.old) }
{
    insert_tag(state, tag)?;
    state.set_mode(InsertionMode::InFrameset);
    Ok(())
}

/// An element of the head after the head; the head is open only for that element.
fn insert_late(state: &mut HtmlState, tag: StartTag) -> Result<(), AllocError>
    ensures { OnOk result (state.new ≡ spec.insert_late (tag_of tag) state.old) }
{
    let Some(head) = state.head() else {
        return insert_head_element(state, tag);
    };
    state.reopen_node(head, HtmlName::Known(TagName::Head))?;
    insert_head_element(state, tag)?;
    state.remove_open(head);
    Ok(())
}

pub(crate) fn start_after_head(
    state: &mut HtmlState,
    tag: StartTag,
) -> Result<Option<StartTag>, AllocError>
    ensures outcome { IfOk result (λ again. outcome state.new (is_some again)
        ≡ spec.start_after_head (name_of tag.name) (tag_of tag) state.old) }
    ensures same { IfOk result (λ again. IfSome again (λ t. tag_of t ≡ tag_of tag)) }
{
    match tag.name {
        HtmlName::Known(TagName::Html) => add_to_root(state, tag)?,
        HtmlName::Known(TagName::Body) => put_tagged_body(state, tag)?,
        HtmlName::Known(TagName::FrameSet) => put_frameset(state, tag)?,
        HtmlName::Known(
            TagName::Base
            | TagName::BaseFont
            | TagName::BgSound
            | TagName::Link
            | TagName::Meta
            | TagName::NoFrames
            | TagName::Script
            | TagName::Style
            | TagName::Template
            | TagName::Title,
        ) => insert_late(state, tag)?,
        HtmlName::Known(TagName::Head) => {}
        _ => {
            imply_body(state)?;
            return Ok(Some(tag));
        }
    }
    Ok(None)
}

pub(crate) fn end_after_head(state: &mut HtmlState, name: &HtmlName) -> Result<bool, AllocError>
    ensures { IfOk result (λ again. outcome state.new again
        ≡ spec.end_after_head (name_of name.now) state.old) }
{
    match name {
        HtmlName::Known(TagName::Template) => end_template(state),
        HtmlName::Known(TagName::Body | TagName::Html | TagName::Br) => {
            imply_body(state)?;
            return Ok(true);
        }
        _ => {}
    }
    Ok(false)
}
