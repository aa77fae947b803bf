//! The mode "in row".
ghost use Rattle.std.specs.Prelude.{◌≡◌, is_some, IfOk, IfSome, OnOk};
ghost use Rattle.htmd_html5_state.specs.Names.{name_of};
ghost use Rattle.htmd_html5.specs.Outcomes.{outcome};
ghost use Rattle.htmd_html5.specs.InRow as spec;
ghost use Rattle.htmd_html5.specs.Tokens.{tag_of};

use crate::in_table::{end_in_table, start_in_table};
use crate::shared_rules::insert_tag;
use crate::tokens::StartTag;
use htmd_html5_state::{HtmlName, HtmlState, InsertionMode, NameSet, Scope, TagName};
use std::alloc::AllocError;

fn start_cell(state: &mut HtmlState, tag: StartTag) -> Result<(), AllocError>
    ensures { OnOk result (state.new ≡ spec.start_cell (tag_of tag) state.old) }
{
    state.clear_to(NameSet::TableRowContext);
    insert_tag(state, tag)?;
    state.set_mode(InsertionMode::InCell);
    state.push_marker()
}

/// Closes the row that is in scope. Gives whether one is.
fn end_row(state: &mut HtmlState) -> bool
    ensures found { result ≡ spec.has_row state.old }
    ensures value { state.new ≡ spec.end_row state.old }
{
    let found = state.is_in_scope(NameSet::Only(TagName::Tr), Scope::Table);
    if found {
        state.clear_to(NameSet::TableRowContext);
        state.pop();
        state.set_mode(InsertionMode::InTableBody);
    }
    found
}

/// The same, if a section is in scope.
fn end_row_of(state: &mut HtmlState, section: TagName) -> bool
    ensures { outcome state.new result ≡ spec.leave_row_of section state.old }
{
    state.is_in_scope(NameSet::Only(section), Scope::Table) && end_row(state)
}

pub(crate) fn start_in_row(
    state: &mut HtmlState,
    tag: StartTag,
) -> Result<Option<StartTag>, AllocError>
    ensures outcome { IfOk result (λ again. outcome state.new (is_some again)
        ≡ spec.start_in_row (name_of tag.name) (tag_of tag) state.old) }
    ensures same { IfOk result (λ again. IfSome again (λ t. tag_of t ≡ tag_of tag)) }
{
    match tag.name {
        HtmlName::Known(TagName::Td | TagName::Th) => {
            start_cell(state, tag)?;
            Ok(None)
        }
        HtmlName::Known(
            TagName::Caption
            | TagName::Col
            | TagName::ColGroup
            | TagName::TBody
            | TagName::TFoot
            | TagName::THead
            | TagName::Tr,
        ) => {
            if end_row(state) {
                return Ok(Some(tag));
            }
            Ok(None)
        }
        _ => start_in_table(state, tag),
    }
}

/// Whether its end tag does nothing.
fn ends_nothing(tag: TagName) -> bool
    ensures { result ≡ spec.ends_nothing tag }
{
    matches!(
        tag,
        TagName::Body
            | TagName::Caption
            | TagName::Col
            | TagName::ColGroup
            | TagName::Html
            | TagName::Td
            | TagName::Th
    )
}

#[tactic(auto, using(crate::proofs::TableTagLemmas::row_nothing))]
pub(crate) fn end_in_row(state: &mut HtmlState, name: &HtmlName) -> Result<bool, AllocError>
    ensures { IfOk result (λ again. outcome state.new again
        ≡ spec.end_in_row (name_of name.now) state.old) }
{
    match name {
        HtmlName::Known(TagName::Tr) => {
            end_row(state);
            Ok(false)
        }
        HtmlName::Known(TagName::Table) => Ok(end_row(state)),
        HtmlName::Known(tag @ (TagName::TBody | TagName::TFoot | TagName::THead)) => {
            Ok(end_row_of(state, *tag))
        }
        HtmlName::Known(tag) if ends_nothing(*tag) => Ok(false),
        _ => {
            end_in_table(state, name)?;
            Ok(false)
        }
    }
}
