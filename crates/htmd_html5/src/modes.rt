//! A token by the rules of the mode.
ghost use Rattle.std.specs.Prelude.{◌≡◌, is_some, string_bytes, IfOk, IfSome, OnOk};
ghost use Rattle.htmd_html5_state.specs.Names.{name_of};
ghost use Rattle.htmd_html5.specs.Outcomes.{outcome, done};
ghost use Rattle.htmd_html5.specs.Modes as spec;
ghost use Rattle.htmd_html5.specs.Tokens.{tag_of, start_tag, end_tag, run, comment, doctype, end_of_file};

use crate::after_body::{end_after_body, put_comment_in_root, start_after_body};
use crate::after_head::{end_after_head, imply_body, start_after_head};
use crate::before_head::{end_before_head, imply_head, start_before_head};
use crate::before_html::{end_before_html, imply_root, start_before_html};
use crate::body_ends::end_in_body;
use crate::body_starts::start_in_body;
use crate::in_body::{end_of_file_in_body, end_of_file_in_template, put_run_in_body};
use crate::in_caption::{end_in_caption, start_in_caption};
use crate::in_cell::{end_in_cell, start_in_cell};
use crate::in_column_group::{end_columns, end_in_columns, start_in_columns};
use crate::in_frameset::{
    end_after_frameset, end_in_frameset, put_run_after_frameset, put_run_in_frameset,
    start_after_frameset, start_in_frameset,
};
use crate::in_head::{close_head, end_in_head, start_in_head};
use crate::in_head_noscript::{close_noscript, end_in_noscript, start_in_noscript};
use crate::in_row::{end_in_row, start_in_row};
use crate::in_select::{
    end_in_select, end_in_select_in_table, put_run_in_select, start_in_select,
    start_in_select_in_table,
};
use crate::in_table::{end_in_table, foster_run, start_in_table};
use crate::in_table_body::{end_in_section, start_in_section};
use crate::in_template::{end_in_template, start_in_template};
use crate::initial::{leave_initial, put_doctype};
use crate::tokens::{RunKind, StartTag};
use htmd_html5_state::{HtmlName, HtmlState, InsertionMode};
use std::alloc::AllocError;

/// A start tag, in a mode that processes each only once.
fn start_once(state: &mut HtmlState, mode: InsertionMode, tag: StartTag) -> Result<(), AllocError>
    ensures { OnOk result (state.new ≡ spec.start_once mode (tag_of tag) state.old) }
{
    match mode {
        InsertionMode::InFrameset => start_in_frameset(state, tag),
        InsertionMode::AfterFrameset | InsertionMode::AfterAfterFrameset => {
            start_after_frameset(state, tag)
        }
        _ => start_in_body(state, tag),
    }
}

/// A start tag by the rules of the mode. Gives it back if it is to be processed again.
pub(crate) fn start_by_mode(
    state: &mut HtmlState,
    tag: StartTag,
) -> Result<Option<StartTag>, AllocError>
    ensures outcome { IfOk result (λ again. outcome state.new (is_some again)
        ≡ spec.by_mode_rules (start_tag (tag_of tag)) state.old) }
    ensures same { IfOk result (λ again. IfSome again (λ t. tag_of t ≡ tag_of tag)) }
{
    match state.mode() {
        InsertionMode::Initial => {
            leave_initial(state);
            Ok(Some(tag))
        }
        InsertionMode::BeforeHtml => start_before_html(state, tag),
        InsertionMode::BeforeHead => start_before_head(state, tag),
        InsertionMode::InHead => start_in_head(state, tag),
        InsertionMode::InHeadNoscript => start_in_noscript(state, tag),
        InsertionMode::AfterHead => start_after_head(state, tag),
        InsertionMode::InTable => start_in_table(state, tag),
        InsertionMode::InCaption => start_in_caption(state, tag),
        InsertionMode::InColumnGroup => start_in_columns(state, tag),
        InsertionMode::InTableBody => start_in_section(state, tag),
        InsertionMode::InRow => start_in_row(state, tag),
        InsertionMode::InCell => start_in_cell(state, tag),
        InsertionMode::InSelect => start_in_select(state, tag),
        InsertionMode::InSelectInTable => start_in_select_in_table(state, tag),
        InsertionMode::InTemplate => start_in_template(state, tag),
        InsertionMode::AfterBody | InsertionMode::AfterAfterBody => start_after_body(state, tag),
        mode => {
            start_once(state, mode, tag)?;
            Ok(None)
        }
    }
}

/// An end tag, in a mode that processes each only once.
fn end_once(state: &mut HtmlState, mode: InsertionMode, name: &HtmlName) -> Result<(), AllocError>
    ensures { OnOk result (state.new ≡ spec.end_once mode (name_of name.now) state.old) }
{
    match mode {
        InsertionMode::InTable => end_in_table(state, name)?,
        InsertionMode::InSelect => end_in_select(state, name),
        InsertionMode::InTemplate => end_in_template(state, name),
        InsertionMode::InFrameset => end_in_frameset(state, name),
        InsertionMode::AfterFrameset => end_after_frameset(state, name),
        _ => {}
    }
    Ok(())
}

/// An end tag by the rules of the mode. Gives whether it is to be processed again.
pub(crate) fn end_by_mode(state: &mut HtmlState, name: &HtmlName) -> Result<bool, AllocError>
    ensures { IfOk result (λ again. outcome state.new again
        ≡ spec.by_mode_rules (end_tag (name_of name.now)) state.old) }
{
    match state.mode() {
        InsertionMode::Initial => {
            leave_initial(state);
            Ok(true)
        }
        InsertionMode::BeforeHtml => end_before_html(state, name),
        InsertionMode::BeforeHead => end_before_head(state, name),
        InsertionMode::InHead => Ok(end_in_head(state, name)),
        InsertionMode::InHeadNoscript => Ok(end_in_noscript(state, name)),
        InsertionMode::AfterHead => end_after_head(state, name),
        InsertionMode::InBody => end_in_body(state, name),
        InsertionMode::InCaption => end_in_caption(state, name),
        InsertionMode::InColumnGroup => Ok(end_in_columns(state, name)),
        InsertionMode::InTableBody => end_in_section(state, name),
        InsertionMode::InRow => end_in_row(state, name),
        InsertionMode::InCell => end_in_cell(state, name),
        InsertionMode::InSelectInTable => Ok(end_in_select_in_table(state, name)),
        InsertionMode::AfterBody => Ok(end_after_body(state, name)),
        InsertionMode::AfterAfterBody => {
            state.set_mode(InsertionMode::InBody);
            Ok(true)
        }
        mode => {
            end_once(state, mode, name)?;
            Ok(false)
        }
    }
}

/// White space before the body: it is dropped, or text.
fn put_white_space(state: &mut HtmlState, mode: InsertionMode, text: &str) -> Result<(), AllocError>
    ensures { OnOk result (state.new ≡ spec.put_white_space mode text.now state.old) }
{
    match mode {
        InsertionMode::Initial | InsertionMode::BeforeHtml | InsertionMode::BeforeHead => Ok(()),
        InsertionMode::AfterBody | InsertionMode::AfterAfterBody => {
            put_run_in_body(state, RunKind::White, text)
        }
        _ => state.insert_text(text),
    }
}

/// What any other run does in a mode that then has it processed again. Gives whether it is.
fn leave_mode(state: &mut HtmlState, mode: InsertionMode) -> Result<bool, AllocError>
    ensures { IfOk result (λ again. outcome state.new again ≡ spec.leave_mode mode state.old) }
{
    match mode {
        InsertionMode::Initial => leave_initial(state),
        InsertionMode::BeforeHtml => imply_root(state)?,
        InsertionMode::BeforeHead => imply_head(state)?,
        InsertionMode::InHead => close_head(state),
        InsertionMode::InHeadNoscript => close_noscript(state),
        InsertionMode::AfterHead => imply_body(state)?,
        InsertionMode::InColumnGroup => return Ok(end_columns(state)),
        _ => state.set_mode(InsertionMode::InBody),
    }
    Ok(true)
}

/// A run by the rules of the mode. Gives whether it is to be processed again.
pub(crate) fn put_run_by_mode(
    state: &mut HtmlState,
    kind: RunKind,
    text: &str,
) -> Result<bool, AllocError>
    ensures { IfOk result (λ again. outcome state.new again
        ≡ spec.by_mode_rules (run kind text.now) state.old) }
{
    match state.mode() {
        InsertionMode::InBody
        | InsertionMode::InCaption
        | InsertionMode::InCell
        | InsertionMode::InTemplate => put_run_in_body(state, kind, text)?,
        InsertionMode::InTable | InsertionMode::InTableBody | InsertionMode::InRow => {
            foster_run(state, kind, text)?
        }
        InsertionMode::InSelect | InsertionMode::InSelectInTable => {
            put_run_in_select(state, kind, text)?
        }
        InsertionMode::InFrameset | InsertionMode::AfterFrameset => {
            put_run_in_frameset(state, kind, text)?
        }
        InsertionMode::AfterAfterFrameset => put_run_after_frameset(state, kind, text)?,
        mode => match kind {
            RunKind::White => put_white_space(state, mode, text)?,
            RunKind::Nulls | RunKind::Characters => return leave_mode(state, mode),
        },
    }
    Ok(false)
}

/// A comment by the rules of the mode.
pub(crate) fn put_comment_by_mode(state: &mut HtmlState, text: String) -> Result<(), AllocError>
    ensures { OnOk result (done state.new
        ≡ spec.by_mode_rules (comment (string_bytes text)) state.old) }
{
    match state.mode() {
        InsertionMode::Initial
        | InsertionMode::BeforeHtml
        | InsertionMode::AfterAfterBody
        | InsertionMode::AfterAfterFrameset => state.insert_comment_in(0, text),
        InsertionMode::AfterBody => put_comment_in_root(state, text),
        _ => state.insert_comment(text),
    }
}

/// A doctype by the rules of the mode.
pub(crate) fn put_doctype_by_mode(state: &mut HtmlState, quirks: bool) -> Result<(), AllocError>
    ensures { OnOk result (done state.new ≡ spec.by_mode_rules (doctype quirks) state.old) }
{
    match state.mode() {
        InsertionMode::Initial => put_doctype(state, quirks),
        _ => Ok(()),
    }
}

/// The end of the file by the rules of the mode. Gives whether it is to be processed again.
pub(crate) fn end_file_by_mode(state: &mut HtmlState) -> Result<bool, AllocError>
    ensures { IfOk result (λ again. outcome state.new again
        ≡ spec.by_mode_rules end_of_file state.old) }
{
    match state.mode() {
        InsertionMode::InTemplate => Ok(end_of_file_in_template(state)),
        InsertionMode::AfterBody
        | InsertionMode::InFrameset
        | InsertionMode::AfterFrameset
        | InsertionMode::AfterAfterBody
        | InsertionMode::AfterAfterFrameset => Ok(false),
        mode @ (InsertionMode::Initial
        | InsertionMode::BeforeHtml
        | InsertionMode::BeforeHead
        | InsertionMode::InHead
        | InsertionMode::InHeadNoscript
        | InsertionMode::AfterHead) => leave_mode(state, mode),
        _ => Ok(end_of_file_in_body(state)),
    }
}
