//! The mode "in template".
ghost use Rattle.std.specs.Prelude.{◌≡◌, is_some, IfOk, IfSome, OnOk};
ghost use Rattle.htmd_html5_state.specs.Names.{name_of};
ghost use Rattle.htmd_html5.specs.Outcomes.{outcome};
ghost use Rattle.htmd_html5.specs.InTemplate as spec;
ghost use Rattle.htmd_html5.specs.Tokens.{tag_of};

use crate::shared_rules::{end_template, insert_head_element, is_head_tag};
use crate::tokens::StartTag;
use htmd_html5_state::{HtmlName, HtmlState, InsertionMode, TagName};
use std::alloc::AllocError;

/// The mode for what is in the template.
fn set_template_mode(state: &mut HtmlState, mode: InsertionMode) -> Result<(), AllocError>
    ensures { OnOk result (state.new ≡ spec.with_template_mode mode state.old) }
{
    state.set_mode(mode);
    state.pop_template_mode();
    state.push_template_mode(mode)
}

/// The mode for the content in which an element with this name is.
fn mode_of_content(name: &HtmlName) -> InsertionMode
    ensures { result ≡ spec.mode_of_content (name_of name.now) }
{
    match name {
        HtmlName::Known(
            TagName::Caption | TagName::ColGroup | TagName::TBody | TagName::TFoot | TagName::THead,
        ) => InsertionMode::InTable,
        HtmlName::Known(TagName::Col) => InsertionMode::InColumnGroup,
        HtmlName::Known(TagName::Tr) => InsertionMode::InTableBody,
        HtmlName::Known(TagName::Td | TagName::Th) => InsertionMode::InRow,
        _ => InsertionMode::InBody,
    }
}

#[tactic(auto, using(crate::proofs::HeadTagLemmas::head_in_template, crate::proofs::HeadTagLemmas::other_in_template))]
pub(crate) fn start_in_template(
    state: &mut HtmlState,
    tag: StartTag,
) -> Result<Option<StartTag>, AllocError>
    ensures outcome { IfOk result (λ again. outcome state.new (is_some again)
        ≡ spec.start_in_template (name_of tag.name) (tag_of tag) state.old) }
    ensures same { IfOk result (λ again. IfSome again (λ t. tag_of t ≡ tag_of tag)) }
{
    match tag.name {
        HtmlName::Known(name) if is_head_tag(name) => {
            insert_head_element(state, tag)?;
            Ok(None)
        }
        _ => {
            let mode = mode_of_content(&tag.name);
            set_template_mode(state, mode)?;
            Ok(Some(tag))
        }
    }
}

pub(crate) fn end_in_template(state: &mut HtmlState, name: &HtmlName)
    ensures { state.new ≡ spec.end_in_template (name_of name.now) state.old }
{
    match name {
        HtmlName::Known(TagName::Template) => end_template(state),
        _ => {}
    }
}
