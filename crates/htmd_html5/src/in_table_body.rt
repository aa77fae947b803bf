//! The mode "in table body".
ghost use Rattle.std.specs.Prelude.{◌≡◌, is_some, IfOk, IfSome, OnOk};
ghost use Rattle.htmd_html5_state.specs.Names.{name_of};
ghost use Rattle.htmd_html5_state.specs.OpenElements.{is_in_scope};
ghost use Rattle.htmd_html5_state.specs.declared.sets.Scope.TheVariants.{Table};
ghost use Rattle.htmd_html5.specs.Outcomes.{outcome};
ghost use Rattle.htmd_html5.specs.InTableBody as spec;
ghost use Rattle.htmd_html5.specs.Tokens.{tag_of};
ghost use Rattle.htmd_lexical.specs.Attributes.{pairs_of};

use crate::in_table::{end_in_table, start_in_table};
use crate::tokens::StartTag;
use htmd_html5_state::{HtmlName, HtmlState, InsertionMode, NameSet, Scope, TagName};
use htmd_nodes::Attribute;
use std::alloc::AllocError;

fn start_row(
    state: &mut HtmlState,
    name: HtmlName,
    attributes: Vec<Attribute>,
) -> Result<(), AllocError>
    ensures { OnOk result (state.new
        ≡ spec.start_row (name_of name) (pairs_of attributes.items) state.old) }
{
    state.clear_to(NameSet::TableBodyContext);
    state.insert_element(name, attributes)?;
    state.set_mode(InsertionMode::InRow);
    Ok(())
}

fn imply_row(state: &mut HtmlState) -> Result<(), AllocError>
    ensures { OnOk result (state.new ≡ spec.imply_row state.old) }
{
    let attributes = Vec::new(state.alloc());
    start_row(state, HtmlName::Known(TagName::Tr), attributes)
}

/// Closes the section if one of these is in scope. Gives whether one is.
fn end_section(state: &mut HtmlState, wanted: NameSet) -> bool
    ensures found { result ≡ is_in_scope wanted Table state.old.stack }
    ensures value { state.new ≡ spec.end_section wanted state.old }
{
    let found = state.is_in_scope(wanted, Scope::Table);
    if found {
        state.clear_to(NameSet::TableBodyContext);
        state.pop();
        state.set_mode(InsertionMode::InTable);
    }
    found
}

pub(crate) fn start_in_section(
    state: &mut HtmlState,
    tag: StartTag,
) -> Result<Option<StartTag>, AllocError>
    ensures outcome { IfOk result (λ again. outcome state.new (is_some again)
        ≡ spec.start_in_section (name_of tag.name) (tag_of tag) state.old) }
    ensures same { IfOk result (λ again. IfSome again (λ t. tag_of t ≡ tag_of tag)) }
{
    match tag.name {
        HtmlName::Known(TagName::Tr) => {
            start_row(state, tag.name, tag.attributes)?;
            Ok(None)
        }
        HtmlName::Known(TagName::Td | TagName::Th) => {
            imply_row(state)?;
            Ok(Some(tag))
        }
        HtmlName::Known(
            TagName::Caption
            | TagName::Col
            | TagName::ColGroup
            | TagName::TBody
            | TagName::TFoot
            | TagName::THead,
        ) => {
            if end_section(state, NameSet::TableSections) {
                return Ok(Some(tag));
            }
            Ok(None)
        }
        _ => start_in_table(state, tag),
    }
}

/// Whether its end tag does nothing.
fn ends_nothing(tag: TagName) -> bool
    ensures { result ≡ spec.ends_nothing tag }
{
    matches!(
        tag,
        TagName::Body
            | TagName::Caption
            | TagName::Col
            | TagName::ColGroup
            | TagName::Html
            | TagName::Td
            | TagName::Th
            | TagName::Tr
    )
}

#[tactic(auto, using(crate::proofs::TableTagLemmas::section_nothing))]
pub(crate) fn end_in_section(state: &mut HtmlState, name: &HtmlName) -> Result<bool, AllocError>
    ensures { IfOk result (λ again. outcome state.new again
        ≡ spec.end_in_section (name_of name.now) state.old) }
{
    match name {
        HtmlName::Known(tag @ (TagName::TBody | TagName::TFoot | TagName::THead)) => {
            end_section(state, NameSet::Only(*tag));
            Ok(false)
        }
        HtmlName::Known(TagName::Table) => Ok(end_section(state, NameSet::TableSections)),
        HtmlName::Known(tag) if ends_nothing(*tag) => Ok(false),
        _ => {
            end_in_table(state, name)?;
            Ok(false)
        }
    }
}
