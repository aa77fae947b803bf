//! Tokens are processed by the rules of one mode after another.
ghost use Rattle.std.specs.Prelude.{◌≡◌, ◌+◌, length, is_some, string_bytes, IfOk, IfSome, OnOk};
ghost use Rattle.htmd_html5_state.specs.Names.{name_of};
ghost use Rattle.htmd_html5.specs.Outcomes.{outcome};
ghost use Rattle.htmd_html5.specs.Processing as spec;
ghost use Rattle.htmd_html5.specs.Tokens.{tag_of, start_tag, end_tag, run, comment, doctype, end_of_file};

use crate::body_starts::start_in_body;
use crate::foreign_content::{
    end_in_foreign, is_in_foreign, is_start_foreign, is_text_foreign, put_run_in_foreign,
    start_in_foreign,
};
use crate::modes::{
    end_by_mode, end_file_by_mode, put_comment_by_mode, put_doctype_by_mode, put_run_by_mode,
    start_by_mode,
};
use crate::tokens::{RunKind, StartTag};
use htmd_html5_state::{HtmlName, HtmlState, InsertionMode};
use std::alloc::AllocError;

/// At most this many modes process a token one after another without closing an element.
const MODES: usize = 23;

/// Enough turns for a token: each goes forward in the order of the modes or closes an element.
pub(crate) fn turns(state: &HtmlState) -> usize
    ensures { result ≡ spec.turns state.now }
{
    state.open_count() + MODES
}

fn start_by_rules(state: &mut HtmlState, tag: StartTag) -> Result<Option<StartTag>, AllocError>
    ensures outcome { IfOk result (λ again. outcome state.new (is_some again)
        ≡ spec.by_rules (start_tag (tag_of tag)) state.old) }
    ensures same { IfOk result (λ again. IfSome again (λ t. tag_of t ≡ tag_of tag)) }
{
    if is_start_foreign(state, &tag) {
        start_in_foreign(state, tag)
    } else {
        start_by_mode(state, tag)
    }
}

/// A start tag, turn by turn.
fn process_start_in_turns(state: &mut HtmlState, tag: StartTag) -> Result<(), AllocError>
    ensures { OnOk result (state.new ≡ spec.process (start_tag (tag_of tag)) state.old) }
{
    let mut tag = tag;
    for _turn in 0..turns(state) {
        match start_by_rules(state, tag)? {
            Some(again) => tag = again,
            None => return Ok(()),
        }
    }
    Ok(())
}

/// A start tag. Most of them the mode "in body" processes, which is done with each in one turn.
#[tactic(auto, using(crate::proofs::ProcessingLemmas::started_in_body))]
pub(crate) fn process_start(state: &mut HtmlState, tag: StartTag) -> Result<(), AllocError>
    ensures { OnOk result (state.new ≡ spec.process (start_tag (tag_of tag)) state.old) }
{
    if let InsertionMode::InBody = state.mode()
        && !is_start_foreign(state, &tag)
    {
        return start_in_body(state, tag);
    }
    process_start_in_turns(state, tag)
}

fn end_by_rules(state: &mut HtmlState, name: &HtmlName) -> Result<bool, AllocError>
    ensures { IfOk result (λ again. outcome state.new again
        ≡ spec.by_rules (end_tag (name_of name.now)) state.old) }
{
    if is_in_foreign(state) {
        end_in_foreign(state, name)
    } else {
        end_by_mode(state, name)
    }
}

/// An end tag.
pub(crate) fn process_end(state: &mut HtmlState, name: &HtmlName) -> Result<(), AllocError>
    ensures { OnOk result (state.new ≡ spec.process (end_tag (name_of name.now)) state.old) }
{
    for _turn in 0..turns(state) {
        if !end_by_rules(state, name)? {
            return Ok(());
        }
    }
    Ok(())
}

/// A run by the rules that apply. Gives whether it is to be processed again.
pub(crate) fn put_run_by_rules(
    state: &mut HtmlState,
    kind: RunKind,
    text: &str,
) -> Result<bool, AllocError>
    ensures { IfOk result (λ again. outcome state.new again
        ≡ spec.by_rules (run kind text.now) state.old) }
{
    if is_text_foreign(state) {
        put_run_in_foreign(state, kind, text)?;
        return Ok(false);
    }
    put_run_by_mode(state, kind, text)
}

/// A comment.
#[tactic(auto, using(crate::proofs::ProcessingLemmas::process_once))]
pub(crate) fn process_comment(state: &mut HtmlState, text: String) -> Result<(), AllocError>
    ensures { OnOk result (state.new ≡ spec.process (comment (string_bytes text)) state.old) }
{
    if is_in_foreign(state) {
        return state.insert_comment(text);
    }
    put_comment_by_mode(state, text)
}

/// A doctype.
#[tactic(auto, using(crate::proofs::ProcessingLemmas::process_once))]
pub(crate) fn process_doctype(state: &mut HtmlState, quirks: bool) -> Result<(), AllocError>
    ensures { OnOk result (state.new ≡ spec.process (doctype quirks) state.old) }
{
    if is_in_foreign(state) {
        return Ok(());
    }
    put_doctype_by_mode(state, quirks)
}

/// The end of the file.
pub(crate) fn process_end_of_file(state: &mut HtmlState) -> Result<(), AllocError>
    ensures { OnOk result (state.new ≡ spec.process end_of_file state.old) }
{
    for _turn in 0..turns(state) {
        if !end_file_by_mode(state)? {
            return Ok(());
        }
    }
    Ok(())
}
