//! The modes "in select" and "in select in table".
ghost use Rattle.std.specs.Prelude.{◌≡◌, is_some, IfOk, IfSome, OnOk};
ghost use Rattle.htmd_html5_state.specs.Names.{name_of};
ghost use Rattle.htmd_html5_state.specs.State.{on_stack};
ghost use Rattle.htmd_html5.specs.Outcomes.{outcome};
ghost use Rattle.htmd_html5.specs.InSelect as spec;
ghost use Rattle.htmd_html5.specs.Tokens.{tag_of};

use crate::body_starts::close_option;
use crate::shared_rules::{
    add_to_root, end_template, insert_head_element, insert_tag, insert_void_tag,
};
use crate::tokens::{RunKind, StartTag};
use htmd_html5_state::{HtmlName, HtmlState, NameSet, Scope, TagName};
use std::alloc::AllocError;

fn close_group(state: &mut HtmlState)
    ensures { state.new ≡ on_stack spec.close_group state.old }
{
    if state.current_is(NameSet::Only(TagName::OptGroup)) {
        state.pop();
    }
}

fn start_option(state: &mut HtmlState, tag: StartTag) -> Result<(), AllocError>
    ensures { OnOk result (state.new ≡ spec.start_option (tag_of tag) state.old) }
{
    close_option(state);
    insert_tag(state, tag)
}

fn start_group(state: &mut HtmlState, tag: StartTag) -> Result<(), AllocError>
    ensures { OnOk result (state.new ≡ spec.start_group (tag_of tag) state.old) }
{
    close_option(state);
    close_group(state);
    insert_tag(state, tag)
}

fn start_separator(state: &mut HtmlState, tag: StartTag) -> Result<(), AllocError>
    ensures { OnOk result (state.new ≡ spec.start_separator (tag_of tag) state.old) }
{
    close_option(state);
    close_group(state);
    insert_void_tag(state, tag)
}

fn end_group(state: &mut HtmlState)
    ensures { state.new ≡ spec.end_group state.old }
{
    if state.current_is(NameSet::Only(TagName::OptionTag))
        && state.second_current_is(NameSet::Only(TagName::OptGroup))
    {
        state.pop();
    }
    close_group(state);
}

fn close_select(state: &mut HtmlState)
    ensures { state.new ≡ spec.close_select state.old }
{
    state.pop_until(NameSet::Only(TagName::Select));
    state.reset_insertion_mode();
}

/// Closes the `select` that is in scope. Gives whether one is.
fn end_select(state: &mut HtmlState) -> bool
    ensures found { result ≡ spec.has_select state.old }
    ensures value { state.new ≡ spec.end_select state.old }
{
    let found = state.is_in_scope(NameSet::Only(TagName::Select), Scope::Select);
    if found {
        close_select(state);
    }
    found
}

pub(crate) fn start_in_select(
    state: &mut HtmlState,
    tag: StartTag,
) -> Result<Option<StartTag>, AllocError>
    ensures outcome { IfOk result (λ again. outcome state.new (is_some again)
        ≡ spec.start_in_select (name_of tag.name) (tag_of tag) state.old) }
    ensures same { IfOk result (λ again. IfSome again (λ t. tag_of t ≡ tag_of tag)) }
{
    match tag.name {
        HtmlName::Known(TagName::Html) => add_to_root(state, tag)?,
        HtmlName::Known(TagName::OptionTag) => start_option(state, tag)?,
        HtmlName::Known(TagName::OptGroup) => start_group(state, tag)?,
        HtmlName::Known(TagName::Hr) => start_separator(state, tag)?,
        HtmlName::Known(TagName::Select) => {
            end_select(state);
        }
        HtmlName::Known(TagName::Input | TagName::KeyGen | TagName::TextArea) => {
            if end_select(state) {
                return Ok(Some(tag));
            }
        }
        HtmlName::Known(TagName::Script | TagName::Template) => insert_head_element(state, tag)?,
        _ => {}
    }
    Ok(None)
}

pub(crate) fn end_in_select(state: &mut HtmlState, name: &HtmlName)
    ensures { state.new ≡ spec.end_in_select (name_of name.now) state.old }
{
    match name {
        HtmlName::Known(TagName::OptGroup) => end_group(state),
        HtmlName::Known(TagName::OptionTag) => close_option(state),
        HtmlName::Known(TagName::Select) => {
            end_select(state);
        }
        HtmlName::Known(TagName::Template) => end_template(state),
        _ => {}
    }
}

pub(crate) fn put_run_in_select(
    state: &mut HtmlState,
    kind: RunKind,
    text: &str,
) -> Result<(), AllocError>
    ensures { OnOk result (state.new ≡ spec.run_in_select kind text.now state.old) }
{
    match kind {
        RunKind::Nulls => Ok(()),
        RunKind::White | RunKind::Characters => state.insert_text(text),
    }
}

fn is_table_part(tag: TagName) -> bool
    ensures { result ≡ spec.is_table_part tag }
{
    matches!(
        tag,
        TagName::Caption
            | TagName::Table
            | TagName::TBody
            | TagName::Td
            | TagName::TFoot
            | TagName::Th
            | TagName::THead
            | TagName::Tr
    )
}

#[tactic(auto, using(crate::proofs::InSelectLemmas::start_left, crate::proofs::InSelectLemmas::start_as_in_select))]
pub(crate) fn start_in_select_in_table(
    state: &mut HtmlState,
    tag: StartTag,
) -> Result<Option<StartTag>, AllocError>
    ensures outcome { IfOk result (λ again. outcome state.new (is_some again)
        ≡ spec.start_in_select_in_table (name_of tag.name) (tag_of tag) state.old) }
    ensures same { IfOk result (λ again. IfSome again (λ t. tag_of t ≡ tag_of tag)) }
{
    match tag.name {
        HtmlName::Known(name) if is_table_part(name) => {
            close_select(state);
            Ok(Some(tag))
        }
        _ => start_in_select(state, tag),
    }
}

/// Closes the `select` if an element with this name is in scope. Gives whether one is.
fn leave_select(state: &mut HtmlState, tag: TagName) -> bool
    ensures { outcome state.new result ≡ spec.leave_select_in tag state.old }
{
    let found = state.is_in_scope(NameSet::Only(tag), Scope::Table);
    if found {
        close_select(state);
    }
    found
}

#[tactic(auto, using(crate::proofs::InSelectLemmas::part_left, crate::proofs::InSelectLemmas::as_in_select))]
pub(crate) fn end_in_select_in_table(state: &mut HtmlState, name: &HtmlName) -> bool
    ensures { outcome state.new result ≡ spec.end_in_select_in_table (name_of name.now) state.old }
{
    match name {
        HtmlName::Known(tag) if is_table_part(*tag) => leave_select(state, *tag),
        _ => {
            end_in_select(state, name);
            false
        }
    }
}
