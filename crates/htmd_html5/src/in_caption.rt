//! The mode "in caption".
ghost use Rattle.std.specs.Prelude.{◌≡◌, is_some, IfOk, IfSome};
ghost use Rattle.htmd_html5_state.specs.Names.{name_of};
ghost use Rattle.htmd_html5.specs.Outcomes.{outcome};
ghost use Rattle.htmd_html5.specs.InCaption as spec;
ghost use Rattle.htmd_html5.specs.Tokens.{tag_of};

use crate::body_ends::end_in_body;
use crate::body_starts::start_in_body;
use crate::in_cell::leaves_cell;
use crate::tokens::StartTag;
use htmd_html5_state::{HtmlName, HtmlState, InsertionMode, NameSet, Scope, TagName};
use std::alloc::AllocError;

/// Closes the caption that is in scope. Gives whether one is.
fn end_caption(state: &mut HtmlState) -> bool
    ensures found { result ≡ spec.has_caption state.old }
    ensures value { state.new ≡ spec.end_caption state.old }
{
    let found = state.close(NameSet::Only(TagName::Caption), Scope::Table);
    if found {
        state.clear_to_marker();
        state.set_mode(InsertionMode::InTable);
    }
    found
}

#[tactic(auto, using(crate::proofs::TableTagLemmas::caption_left, crate::proofs::TableTagLemmas::caption_other_start))]
pub(crate) fn start_in_caption(
    state: &mut HtmlState,
    tag: StartTag,
) -> Result<Option<StartTag>, AllocError>
    ensures outcome { IfOk result (λ again. outcome state.new (is_some again)
        ≡ spec.start_in_caption (name_of tag.name) (tag_of tag) state.old) }
    ensures same { IfOk result (λ again. IfSome again (λ t. tag_of t ≡ tag_of tag)) }
{
    match tag.name {
        HtmlName::Known(name) if leaves_cell(name) => {
            if end_caption(state) {
                return Ok(Some(tag));
            }
            Ok(None)
        }
        _ => {
            start_in_body(state, tag)?;
            Ok(None)
        }
    }
}

/// Whether its end tag does nothing.
fn ends_nothing(tag: TagName) -> bool
    ensures { result ≡ spec.ends_nothing tag }
{
    matches!(
        tag,
        TagName::Body
            | TagName::Col
            | TagName::ColGroup
            | TagName::Html
            | TagName::TBody
            | TagName::Td
            | TagName::TFoot
            | TagName::Th
            | TagName::THead
            | TagName::Tr
    )
}

#[tactic(auto, using(crate::proofs::TableTagLemmas::caption_nothing))]
pub(crate) fn end_in_caption(state: &mut HtmlState, name: &HtmlName) -> Result<bool, AllocError>
    ensures { IfOk result (λ again. outcome state.new again
        ≡ spec.end_in_caption (name_of name.now) state.old) }
{
    match name {
        HtmlName::Known(TagName::Caption) => {
            end_caption(state);
            Ok(false)
        }
        HtmlName::Known(TagName::Table) => Ok(end_caption(state)),
        HtmlName::Known(tag) if ends_nothing(*tag) => Ok(false),
        _ => end_in_body(state, name),
    }
}
