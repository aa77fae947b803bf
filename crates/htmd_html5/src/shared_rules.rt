//! Rules that many modes share.
ghost use Rattle.std.specs.Prelude.{◌≡◌, OnOk};
ghost use Rattle.htmd_html5_state.specs.Names.{name_of};
ghost use Rattle.htmd_html5.specs.SharedRules as spec;
ghost use Rattle.htmd_html5.specs.Tokens.{tag_of};

use crate::tokens::StartTag;
use htmd_html5_state::{HtmlName, HtmlState, InsertionMode, NameSet, Namespace, Scope, TagName};
use htmd_html5_tokens::RawElement;
use std::alloc::AllocError;

/// The element of a tag.
pub(crate) fn insert_tag(state: &mut HtmlState, tag: StartTag) -> Result<(), AllocError>
    ensures { OnOk result (state.new ≡ spec.insert_tag (tag_of tag) state.old) }
{
    state.insert_element(tag.name, tag.attributes)?;
    Ok(())
}

/// The element of a tag, closed at once.
pub(crate) fn insert_void_tag(state: &mut HtmlState, tag: StartTag) -> Result<(), AllocError>
    ensures { OnOk result (state.new ≡ spec.insert_void_tag (tag_of tag) state.old) }
{
    state.insert_void(tag.name, tag.attributes)
}

/// The element of a tag, which holds only text.
pub(crate) fn insert_raw_tag(
    state: &mut HtmlState,
    element: RawElement,
    tag: StartTag,
) -> Result<(), AllocError>
    ensures { OnOk result (state.new ≡ spec.insert_raw_tag element (tag_of tag) state.old) }
{
    state.insert_raw(tag.name, element, tag.attributes)
}

/// The foreign element of a tag, closed at once if the tag ends in `/>`.
pub(crate) fn insert_foreign_tag(
    state: &mut HtmlState,
    space: Namespace,
    tag: StartTag,
) -> Result<(), AllocError>
    ensures { OnOk result (state.new ≡ spec.insert_foreign_tag space (tag_of tag) state.old) }
{
    let StartTag {
        name,
        attributes,
        self_closing,
    } = tag;
    state.insert_foreign(space, name.text(), attributes, self_closing)
}

/// Closes a `p` if one is in button scope.
pub(crate) fn close_paragraph(state: &mut HtmlState)
    ensures { state.new ≡ spec.close_paragraph state.old }
{
    state.close(NameSet::Only(TagName::P), Scope::Button);
}

/// Gives the outermost element the attributes of a start tag of `html` that it doesn't have yet.
pub(crate) fn add_to_root(state: &mut HtmlState, tag: StartTag) -> Result<(), AllocError>
    ensures { OnOk result (state.new ≡ spec.add_to_root (tag_of tag) state.old) }
{
    if state.is_open(NameSet::Only(TagName::Template)) {
        return Ok(());
    }
    match state.first_open() {
        Some(root) => state.add_missing(root, tag.attributes),
        None => Ok(()),
    }
}

fn open_template(state: &mut HtmlState, tag: StartTag) -> Result<(), AllocError>
    ensures { OnOk result (state.new ≡ spec.open_template (tag_of tag) state.old) }
{
    insert_tag(state, tag)?;
    state.push_marker()?;
    state.set_frameset_ok(false);
    state.set_mode(InsertionMode::InTemplate);
    state.push_template_mode(InsertionMode::InTemplate)
}

/// Closes the innermost template.
pub(crate) fn leave_template(state: &mut HtmlState)
    ensures { state.new ≡ spec.leave_template state.old }
{
    state.pop_until(NameSet::Only(TagName::Template));
    state.clear_to_marker();
    state.pop_template_mode();
    state.reset_insertion_mode();
}

pub(crate) fn end_template(state: &mut HtmlState)
    ensures { state.new ≡ spec.end_template state.old }
{
    if state.is_open(NameSet::Only(TagName::Template)) {
        leave_template(state);
    }
}

/// Whether it is an element of the head.
pub(crate) fn is_head_tag(tag: TagName) -> bool
    ensures { result ≡ spec.is_head_tag tag }
{
    matches!(
        tag,
        TagName::Base
            | TagName::BaseFont
            | TagName::BgSound
            | TagName::Link
            | TagName::Meta
            | TagName::NoFrames
            | TagName::Script
            | TagName::Style
            | TagName::Template
            | TagName::Title
    )
}

/// An element of the head.
pub(crate) fn insert_head_element(state: &mut HtmlState, tag: StartTag) -> Result<(), AllocError>
    ensures { OnOk result (state.new
        ≡ spec.insert_head_element (name_of tag.name) (tag_of tag) state.old) }
{
    match tag.name {
        HtmlName::Known(TagName::Title) => insert_raw_tag(state, RawElement::Title, tag),
        HtmlName::Known(TagName::NoFrames) => insert_raw_tag(state, RawElement::Noframes, tag),
        HtmlName::Known(TagName::Style) => insert_raw_tag(state, RawElement::Style, tag),
        HtmlName::Known(TagName::Script) => insert_raw_tag(state, RawElement::Script, tag),
        HtmlName::Known(TagName::Template) => open_template(state, tag),
        _ => insert_void_tag(state, tag),
    }
}
