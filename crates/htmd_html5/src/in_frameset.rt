//! The modes "in frameset", "after frameset" and "after after frameset".
ghost use Rattle.std.specs.Prelude.{◌≡◌, OnOk};
ghost use Rattle.htmd_html5_state.specs.Names.{name_of};
ghost use Rattle.htmd_html5.specs.InFrameset as spec;
ghost use Rattle.htmd_html5.specs.Tokens.{tag_of};

use crate::in_body::put_run_in_body;
use crate::shared_rules::{add_to_root, insert_head_element, insert_tag, insert_void_tag};
use crate::tokens::{RunKind, StartTag};
use htmd_html5_state::{HtmlName, HtmlState, InsertionMode, NameSet, TagName};
use std::alloc::AllocError;

pub(crate) fn start_in_frameset(state: &mut HtmlState, tag: StartTag) -> Result<(), AllocError>
    ensures { OnOk result (state.new
        ≡ spec.start_in_frameset (name_of tag.name) (tag_of tag) state.old) }
{
    match tag.name {
        HtmlName::Known(TagName::Html) => add_to_root(state, tag),
        HtmlName::Known(TagName::FrameSet) => insert_tag(state, tag),
        HtmlName::Known(TagName::Frame) => insert_void_tag(state, tag),
        HtmlName::Known(TagName::NoFrames) => insert_head_element(state, tag),
        _ => Ok(()),
    }
}

/// The end of the outermost one ends the mode.
fn end_frameset(state: &mut HtmlState)
    ensures { state.new ≡ spec.end_frameset state.old }
{
    if state.has_second() {
        state.pop();
        if !state.current_is(NameSet::Only(TagName::FrameSet)) {
            state.set_mode(InsertionMode::AfterFrameset);
        }
    }
}

pub(crate) fn end_in_frameset(state: &mut HtmlState, name: &HtmlName)
    ensures { state.new ≡ spec.end_in_frameset (name_of name.now) state.old }
{
    match name {
        HtmlName::Known(TagName::FrameSet) => end_frameset(state),
        _ => {}
    }
}

pub(crate) fn put_run_in_frameset(
    state: &mut HtmlState,
    kind: RunKind,
    text: &str,
) -> Result<(), AllocError>
    ensures { OnOk result (state.new ≡ spec.run_in_frameset kind text.now state.old) }
{
    match kind {
        RunKind::White => state.insert_text(text),
        RunKind::Nulls | RunKind::Characters => Ok(()),
    }
}

pub(crate) fn start_after_frameset(state: &mut HtmlState, tag: StartTag) -> Result<(), AllocError>
    ensures { OnOk result (state.new
        ≡ spec.start_after_frameset (name_of tag.name) (tag_of tag) state.old) }
{
    match tag.name {
        HtmlName::Known(TagName::Html) => add_to_root(state, tag),
        HtmlName::Known(TagName::NoFrames) => insert_head_element(state, tag),
        _ => Ok(()),
    }
}

pub(crate) fn end_after_frameset(state: &mut HtmlState, name: &HtmlName)
    ensures { state.new ≡ spec.end_after_frameset (name_of name.now) state.old }
{
    match name {
        HtmlName::Known(TagName::Html) => state.set_mode(InsertionMode::AfterAfterFrameset),
        _ => {}
    }
}

/// White space after a frameset is inserted as in the body.
pub(crate) fn put_run_after_frameset(
    state: &mut HtmlState,
    kind: RunKind,
    text: &str,
) -> Result<(), AllocError>
    ensures { OnOk result (state.new ≡ spec.run_after_frameset kind text.now state.old) }
{
    match kind {
        RunKind::White => put_run_in_body(state, kind, text),
        RunKind::Nulls | RunKind::Characters => Ok(()),
    }
}
