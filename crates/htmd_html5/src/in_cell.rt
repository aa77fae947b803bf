//! The mode "in cell".
ghost use Rattle.std.specs.Prelude.{◌≡◌, is_some, IfOk, IfSome};
ghost use Rattle.htmd_html5_state.specs.Names.{name_of};
ghost use Rattle.htmd_html5.specs.Outcomes.{outcome};
ghost use Rattle.htmd_html5.specs.InCell as spec;
ghost use Rattle.htmd_html5.specs.Tokens.{tag_of};

use crate::body_ends::end_in_body;
use crate::body_starts::start_in_body;
use crate::tokens::StartTag;
use htmd_html5_state::{HtmlName, HtmlState, InsertionMode, NameSet, Scope, TagName};
use std::alloc::AllocError;

fn end_cell(state: &mut HtmlState, tag: TagName)
    ensures { state.new ≡ spec.end_cell tag state.old }
{
    if state.close(NameSet::Only(tag), Scope::Table) {
        state.clear_to_marker();
        state.set_mode(InsertionMode::InRow);
    }
}

/// Closes the cell if one of these is in scope. Gives whether one is.
fn leave_cell(state: &mut HtmlState, wanted: NameSet) -> bool
    ensures { outcome state.new result ≡ spec.leave_cell wanted state.old }
{
    let found = state.is_in_scope(wanted, Scope::Table);
    if found {
        state.pop_until(NameSet::Cells);
        state.clear_to_marker();
        state.set_mode(InsertionMode::InRow);
    }
    found
}

/// Whether it is a part of a table that isn't allowed in a cell or a caption.
pub(crate) fn leaves_cell(tag: TagName) -> bool
    ensures { result ≡ spec.leaves_cell tag }
{
    matches!(
        tag,
        TagName::Caption
            | TagName::Col
            | TagName::ColGroup
            | TagName::TBody
            | TagName::Td
            | TagName::TFoot
            | TagName::Th
            | TagName::THead
            | TagName::Tr
    )
}

#[tactic(auto, using(crate::proofs::TableTagLemmas::cell_left, crate::proofs::TableTagLemmas::cell_other_start))]
pub(crate) fn start_in_cell(
    state: &mut HtmlState,
    tag: StartTag,
) -> Result<Option<StartTag>, AllocError>
    ensures outcome { IfOk result (λ again. outcome state.new (is_some again)
        ≡ spec.start_in_cell (name_of tag.name) (tag_of tag) state.old) }
    ensures same { IfOk result (λ again. IfSome again (λ t. tag_of t ≡ tag_of tag)) }
{
    match tag.name {
        HtmlName::Known(name) if leaves_cell(name) => {
            if leave_cell(state, NameSet::Cells) {
                return Ok(Some(tag));
            }
            Ok(None)
        }
        _ => {
            start_in_body(state, tag)?;
            Ok(None)
        }
    }
}

pub(crate) fn end_in_cell(state: &mut HtmlState, name: &HtmlName) -> Result<bool, AllocError>
    ensures { IfOk result (λ again. outcome state.new again
        ≡ spec.end_in_cell (name_of name.now) state.old) }
{
    match name {
        HtmlName::Known(tag @ (TagName::Td | TagName::Th)) => {
            end_cell(state, *tag);
            Ok(false)
        }
        HtmlName::Known(tag @ (TagName::Table | TagName::Tr)) => {
            Ok(leave_cell(state, NameSet::Only(*tag)))
        }
        HtmlName::Known(tag @ (TagName::TBody | TagName::TFoot | TagName::THead)) => {
            Ok(leave_cell(state, NameSet::Only(*tag)))
        }
        HtmlName::Known(
            TagName::Body | TagName::Caption | TagName::Col | TagName::ColGroup | TagName::Html,
        ) => Ok(false),
        _ => end_in_body(state, name),
    }
}
