//! The modes "in table" and "in table text".
ghost use Rattle.std.specs.Prelude.{◌≡◌, ◌++◌, is_some, length, string_bytes, IfOk, IfSome, OnOk};
ghost use Rattle.std.specs.List.{list_all};
ghost use Rattle.htmd_lexical.specs.WhiteSpace.{is_ascii_white_space};
ghost use Rattle.htmd_html5_state.specs.Names.{name_of};
ghost use Rattle.htmd_html5.specs.Outcomes.{outcome};
ghost use Rattle.htmd_html5.specs.BodyEnds.{end_in_body};
ghost use Rattle.htmd_html5.specs.BodyStarts.{start_in_body};
ghost use Rattle.htmd_html5.specs.InBody.{run_in_body};
ghost use Rattle.htmd_html5.specs.InTable as spec;
ghost use Rattle.htmd_html5.specs.Tokens.{tag_of};
ghost use Rattle.htmd_lexical.specs.Attributes.{pairs_of};

use crate::body_ends::end_in_body;
use crate::body_starts::{is_hidden, start_in_body};
use crate::in_body::put_run_in_body;
use crate::shared_rules::{end_template, insert_head_element, insert_tag, insert_void_tag};
use crate::tokens::{RunKind, StartTag, split_run};
use htmd_html5_state::{HtmlName, HtmlState, InsertionMode, NameSet, Scope, TagName};
use htmd_nodes::Attribute;
use std::alloc::{AllocError, Global};

// ---- text, which is taken all at once

/// Whether each character is white space.
pub(crate) fn is_white(text: &str) -> bool
    ensures { result ≡ list_all is_ascii_white_space text.now }
{
    text.as_bytes()
        .iter()
        .all(|byte| byte.is_ascii_whitespace())
}

fn push_unless_nulls(kept: &mut String, kind: RunKind, run: &str) -> Result<(), AllocError>
    ensures { OnOk result (string_bytes kept.new
        ≡ string_bytes kept.old ++ spec.kept_of kind run.now) }
{
    match kind {
        RunKind::Nulls => Ok(()),
        RunKind::White | RunKind::Characters => kept.push_str(run),
    }
}

fn without_nulls(alloc: Global, text: &str) -> Result<String, AllocError>
    ensures { IfOk result (λ kept. string_bytes kept ≡ spec.without_nulls text.now) }
{
    let mut kept = String::with_capacity(alloc, text.len())?;
    let mut rest = text;
    while !rest.is_empty() {
        let split = split_run(rest);
        push_unless_nulls(&mut kept, split.kind, split.run)?;
        rest = split.rest;
    }
    Ok(kept)
}

/// A run before the table.
pub(crate) fn foster_run(state: &mut HtmlState, kind: RunKind, text: &str) -> Result<(), AllocError>
    ensures { OnOk result (state.new ≡ spec.fostered (run_in_body kind text.now) state.old) }
{
    state.set_foster_parenting(true);
    put_run_in_body(state, kind, text)?;
    state.set_foster_parenting(false);
    Ok(())
}

fn foster_runs(state: &mut HtmlState, text: &str) -> Result<(), AllocError>
    ensures { OnOk result (state.new ≡ spec.foster_runs (length text.now) text.now state.old) }
{
    let mut rest = text;
    while !rest.is_empty() {
        let split = split_run(rest);
        foster_run(state, split.kind, split.run)?;
        rest = split.rest;
    }
    Ok(())
}

fn put_table_text(state: &mut HtmlState, text: &str) -> Result<(), AllocError>
    ensures { OnOk result (state.new ≡ spec.put_table_text text.now state.old) }
{
    if text.is_empty() {
        return Ok(());
    }
    if is_white(text) {
        return state.insert_text(text);
    }
    foster_runs(state, text)
}

/// Text in the table itself.
pub(crate) fn table_text(state: &mut HtmlState, text: &str) -> Result<(), AllocError>
    ensures { OnOk result (state.new ≡ spec.table_text text.now state.old) }
{
    let kept = without_nulls(state.alloc(), text)?;
    put_table_text(state, kept.as_str())
}

// ---- parts of the table

fn start_caption(state: &mut HtmlState, tag: StartTag) -> Result<(), AllocError>
    ensures { OnOk result (state.new ≡ spec.start_caption (tag_of tag) state.old) }
{
    state.clear_to(NameSet::TableContext);
    state.push_marker()?;
    insert_tag(state, tag)?;
    state.set_mode(InsertionMode::InCaption);
    Ok(())
}

fn start_columns(
    state: &mut HtmlState,
    name: HtmlName,
    attributes: Vec<Attribute>,
) -> Result<(), AllocError>
    ensures { OnOk result (state.new
        ≡ spec.start_columns (name_of name) (pairs_of attributes.items) state.old) }
{
    state.clear_to(NameSet::TableContext);
    state.insert_element(name, attributes)?;
    state.set_mode(InsertionMode::InColumnGroup);
    Ok(())
}

fn start_section(
    state: &mut HtmlState,
    name: HtmlName,
    attributes: Vec<Attribute>,
) -> Result<(), AllocError>
    ensures { OnOk result (state.new
        ≡ spec.start_section (name_of name) (pairs_of attributes.items) state.old) }
{
    state.clear_to(NameSet::TableContext);
    state.insert_element(name, attributes)?;
    state.set_mode(InsertionMode::InTableBody);
    Ok(())
}

fn imply_columns(state: &mut HtmlState) -> Result<(), AllocError>
    ensures { OnOk result (state.new ≡ spec.imply_columns state.old) }
{
    let attributes = Vec::new(state.alloc());
    start_columns(state, HtmlName::Known(TagName::ColGroup), attributes)
}

fn imply_section(state: &mut HtmlState) -> Result<(), AllocError>
    ensures { OnOk result (state.new ≡ spec.imply_section state.old) }
{
    let attributes = Vec::new(state.alloc());
    start_section(state, HtmlName::Known(TagName::TBody), attributes)
}

/// Closes the table that is in scope. Gives whether one is.
fn end_table(state: &mut HtmlState) -> bool
    ensures found { result ≡ spec.has_table state.old }
    ensures value { state.new ≡ spec.end_table state.old }
{
    let found = state.close(NameSet::Only(TagName::Table), Scope::Table);
    if found {
        state.reset_insertion_mode();
    }
    found
}

// ---- what else comes there

/// What isn't for a table goes before it.
fn foster_start(state: &mut HtmlState, tag: StartTag) -> Result<(), AllocError>
    ensures { OnOk result (state.new ≡ spec.fostered (start_in_body (tag_of tag)) state.old) }
{
    state.set_foster_parenting(true);
    start_in_body(state, tag)?;
    state.set_foster_parenting(false);
    Ok(())
}

fn foster_end(state: &mut HtmlState, name: &HtmlName) -> Result<(), AllocError>
    ensures { OnOk result (state.new ≡ spec.foster_end (name_of name.now) state.old) }
{
    state.set_foster_parenting(true);
    end_in_body(state, name)?;
    state.set_foster_parenting(false);
    Ok(())
}

fn start_table_input(state: &mut HtmlState, tag: StartTag) -> Result<(), AllocError>
    ensures { OnOk result (state.new ≡ spec.start_table_input (tag_of tag) state.old) }
{
    if is_hidden(tag.attributes.as_slice()) {
        return insert_void_tag(state, tag);
    }
    foster_start(state, tag)
}

fn start_table_form(state: &mut HtmlState, tag: StartTag) -> Result<(), AllocError>
    ensures { OnOk result (state.new ≡ spec.start_table_form (tag_of tag) state.old) }
{
    if state.form().is_some() || state.is_open(NameSet::Only(TagName::Template)) {
        return Ok(());
    }
    insert_tag(state, tag)?;
    let form = state.current_node();
    state.set_form(Some(form));
    state.pop();
    Ok(())
}

// ---- the mode

fn start_part(state: &mut HtmlState, tag: StartTag) -> Result<(), AllocError>
    ensures { OnOk result (state.new ≡ spec.start_part (name_of tag.name) (tag_of tag) state.old) }
{
    match tag.name {
        HtmlName::Known(TagName::Caption) => start_caption(state, tag),
        HtmlName::Known(TagName::ColGroup) => start_columns(state, tag.name, tag.attributes),
        HtmlName::Known(TagName::TBody | TagName::TFoot | TagName::THead) => {
            start_section(state, tag.name, tag.attributes)
        }
        HtmlName::Known(TagName::Style | TagName::Script | TagName::Template) => {
            insert_head_element(state, tag)
        }
        HtmlName::Known(TagName::Input) => start_table_input(state, tag),
        HtmlName::Known(TagName::Form) => start_table_form(state, tag),
        _ => foster_start(state, tag),
    }
}

pub(crate) fn start_in_table(
    state: &mut HtmlState,
    tag: StartTag,
) -> Result<Option<StartTag>, AllocError>
    ensures outcome { IfOk result (λ again. outcome state.new (is_some again)
        ≡ spec.start_in_table (name_of tag.name) (tag_of tag) state.old) }
    ensures same { IfOk result (λ again. IfSome again (λ t. tag_of t ≡ tag_of tag)) }
{
    match tag.name {
        HtmlName::Known(TagName::Col) => imply_columns(state)?,
        HtmlName::Known(TagName::Td | TagName::Th | TagName::Tr) => imply_section(state)?,
        HtmlName::Known(TagName::Table) => {
            if !end_table(state) {
                return Ok(None);
            }
        }
        _ => {
            start_part(state, tag)?;
            return Ok(None);
        }
    }
    Ok(Some(tag))
}

/// Whether its end tag does nothing in a table.
fn ends_nothing(tag: TagName) -> bool
    ensures { result ≡ spec.ends_nothing tag }
{
    matches!(
        tag,
        TagName::Body
            | TagName::Caption
            | TagName::Col
            | TagName::ColGroup
            | TagName::Html
            | TagName::TBody
            | TagName::Td
            | TagName::TFoot
            | TagName::Th
            | TagName::THead
            | TagName::Tr
    )
}

#[tactic(auto, using(crate::proofs::TableTagLemmas::table_nothing))]
pub(crate) fn end_in_table(state: &mut HtmlState, name: &HtmlName) -> Result<(), AllocError>
    ensures { OnOk result (state.new ≡ spec.end_in_table (name_of name.now) state.old) }
{
    match name {
        HtmlName::Known(TagName::Table) => {
            end_table(state);
            Ok(())
        }
        HtmlName::Known(tag) if ends_nothing(*tag) => Ok(()),
        HtmlName::Known(TagName::Template) => {
            end_template(state);
            Ok(())
        }
        _ => foster_end(state, name),
    }
}
