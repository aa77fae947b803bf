//! End tags in the mode "in body".
ghost use Rattle.std.specs.Prelude.{◌≡◌, IfOk, OnOk};
ghost use Rattle.htmd_html5_state.specs.Names.{name_of};
ghost use Rattle.htmd_html5_state.specs.State.{on_stack};
ghost use Rattle.htmd_html5.specs.Outcomes.{outcome};
ghost use Rattle.htmd_html5.specs.BodyEnds as spec;

use crate::shared_rules::end_template;
use htmd_html5_state::{HtmlName, HtmlState, InsertionMode, NameSet, Scope, TagName};
use std::alloc::AllocError;

/// What an end tag does.
#[derive(Clone, Copy)]
enum EndRule {
    Body,
    /// `html`.
    Root,
    Template,
    Block,
    Form,
    Paragraph,
    ListItem,
    Heading,
    Formatting,
    /// `applet`, `marquee` and `object`.
    Embedded,
    /// `br`.
    LineBreak,
    Ordinary,
}

// ---- which rule a name has

fn end_rule(tag: TagName) -> EndRule
    ensures { result ≡ spec.end_rule tag }
{
    match tag {
        TagName::Body => EndRule::Body,
        TagName::Html => EndRule::Root,
        TagName::Template => EndRule::Template,
        TagName::Address
        | TagName::Article
        | TagName::Aside
        | TagName::BlockQuote
        | TagName::Center
        | TagName::Details
        | TagName::Dialog
        | TagName::Dir
        | TagName::Div
        | TagName::Dl
        | TagName::FieldSet
        | TagName::FigCaption
        | TagName::Figure
        | TagName::Footer
        | TagName::Header
        | TagName::HGroup
        | TagName::Main
        | TagName::Menu
        | TagName::Nav
        | TagName::Ol
        | TagName::Search
        | TagName::Section
        | TagName::Summary
        | TagName::Ul => EndRule::Block,
        _ => text_end_rule(tag),
    }
}

#[tactic(auto, unfolding(crate::specs::BodyEnds::text_end_rule))]
fn text_end_rule(tag: TagName) -> EndRule
    ensures { result ≡ spec.text_end_rule tag }
{
    match tag {
        TagName::Button | TagName::Dd | TagName::Dt | TagName::Listing | TagName::Pre =>
            EndRule::Block,
        TagName::Form => EndRule::Form,
        TagName::P => EndRule::Paragraph,
        TagName::Li => EndRule::ListItem,
        TagName::H1 | TagName::H2 | TagName::H3 | TagName::H4 | TagName::H5 | TagName::H6 =>
            EndRule::Heading,
        TagName::A
        | TagName::B
        | TagName::Big
        | TagName::Code
        | TagName::Em
        | TagName::Font
        | TagName::I
        | TagName::NoBr
        | TagName::S
        | TagName::Small
        | TagName::Strike
        | TagName::Strong
        | TagName::Tt
        | TagName::U => EndRule::Formatting,
        TagName::Applet | TagName::Marquee | TagName::Object => EndRule::Embedded,
        TagName::Br => EndRule::LineBreak,
        _ => EndRule::Ordinary,
    }
}

// ---- what the rules do

/// The body stays open, since more may follow.
fn end_body(state: &mut HtmlState) -> bool
    ensures found { result ≡ spec.has_body state.old }
    ensures value { state.new ≡ spec.end_body state.old }
{
    let found = state.is_in_scope(NameSet::Only(TagName::Body), Scope::Default);
    if found {
        state.set_mode(InsertionMode::AfterBody);
    }
    found
}

fn end_block(state: &mut HtmlState, tag: TagName)
    ensures { state.new ≡ spec.end_block tag state.old }
{
    state.close(NameSet::Only(tag), Scope::Default);
}

fn end_form(state: &mut HtmlState)
    ensures { state.new ≡ spec.end_form state.old }
{
    if state.is_open(NameSet::Only(TagName::Template)) {
        state.close(NameSet::Only(TagName::Form), Scope::Default);
        return;
    }
    let form = state.form();
    state.set_form(None);
    if let Some(form) = form
        && state.is_node_in_scope(form)
    {
        state.pop_while(NameSet::ImpliedEnd);
        state.remove_open(form);
    }
}

/// An end tag of `p` that closes none makes one.
fn end_paragraph(state: &mut HtmlState) -> Result<(), AllocError>
    ensures { OnOk result (state.new ≡ spec.end_paragraph state.old) }
{
    if state.close(NameSet::Only(TagName::P), Scope::Button) {
        return Ok(());
    }
    let attributes = Vec::new(state.alloc());
    state.insert_void(HtmlName::Known(TagName::P), attributes)
}

fn end_embedded(state: &mut HtmlState, tag: TagName)
    ensures { state.new ≡ spec.end_embedded tag state.old }
{
    if state.close(NameSet::Only(tag), Scope::Default) {
        state.clear_to_marker();
    }
}

/// `</br>` means `<br>`.
fn put_line_break(state: &mut HtmlState) -> Result<(), AllocError>
    ensures { OnOk result (state.new ≡ spec.line_break state.old) }
{
    state.reconstruct()?;
    let attributes = Vec::new(state.alloc());
    state.insert_void(HtmlName::Known(TagName::Br), attributes)?;
    state.set_frameset_ok(false);
    Ok(())
}

// ---- the rules

fn end_by(state: &mut HtmlState, rule: EndRule, tag: TagName) -> Result<bool, AllocError>
    ensures { IfOk result (λ again. outcome state.new again ≡ spec.end_by rule tag state.old) }
{
    match rule {
        EndRule::Body => {
            end_body(state);
        }
        EndRule::Root => return Ok(end_body(state)),
        EndRule::Template => end_template(state),
        EndRule::Block => end_block(state, tag),
        EndRule::Form => end_form(state),
        EndRule::Paragraph => end_paragraph(state)?,
        EndRule::ListItem => {
            state.close(NameSet::Only(TagName::Li), Scope::ListItem);
        }
        EndRule::Heading => {
            state.close(NameSet::Headings, Scope::Default);
        }
        EndRule::Formatting => state.adoption_agency(tag)?,
        EndRule::Embedded => end_embedded(state, tag),
        EndRule::LineBreak => put_line_break(state)?,
        EndRule::Ordinary => state.close_name(&HtmlName::Known(tag)),
    }
    Ok(false)
}

/// An end tag in the body.
pub(crate) fn end_in_body(state: &mut HtmlState, name: &HtmlName) -> Result<bool, AllocError>
    ensures { IfOk result (λ again. outcome state.new again
        ≡ spec.end_in_body (name_of name.now) state.old) }
{
    match name {
        HtmlName::Known(tag) => end_by(state, end_rule(*tag), *tag),
        HtmlName::Other(_) => {
            state.close_name(name);
            Ok(false)
        }
    }
}
