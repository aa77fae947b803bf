//! Texts, run by run.
ghost use Rattle.std.specs.Prelude.{◌≡◌, string_bytes, IfOk, OnOk};
ghost use Rattle.std.specs.List.{list_all};
ghost use Rattle.std.specs.Str.{IsUtf8};
ghost use Rattle.htmd_html5.specs.AtOnce as at_once;
ghost use Rattle.htmd_html5.specs.Texts as spec;

use crate::in_table::{is_white, table_text};
use crate::processing::{put_run_by_rules, turns};
use crate::tokens::split_run;
use htmd_html5_state::{HtmlState, InsertionMode, NameSet};
use std::alloc::AllocError;

fn is_table_mode(mode: InsertionMode) -> bool
    ensures { result ≡ spec.is_table_mode mode }
{
    matches!(
        mode,
        InsertionMode::InTable | InsertionMode::InTableBody | InsertionMode::InRow
    )
}

/// Whether all the text that is left is in a table itself.
fn takes_all(state: &HtmlState) -> bool
    ensures { result ≡ spec.takes_all state.now }
{
    is_table_mode(state.mode()) && state.current_is(NameSet::Fostering)
}

/// The first part of a text. Gives what is left.
fn take_part<'a>(state: &mut HtmlState, text: &'a str) -> Result<&'a str, AllocError>
    ensures value { IfOk result (λ rest. spec.taken state.new rest.now ≡ spec.take_part text.now state.old) }
    ensures text { IfOk result (λ rest. IsUtf8 rest.now) }
{
    let split = split_run(text);
    for _turn in 0..turns(state) {
        if takes_all(state) {
            table_text(state, text)?;
            return Ok("");
        }
        if !put_run_by_rules(state, split.kind, split.run)? {
            return Ok(split.rest);
        }
    }
    Ok(split.rest)
}

/// A text, part by part.
fn put_parts(state: &mut HtmlState, text: &str) -> Result<(), AllocError>
    ensures { OnOk result (state.new ≡ spec.put_text text.now state.old) }
{
    let mut rest = text;
    while !rest.is_empty() {
        rest = take_part(state, rest)?;
    }
    Ok(())
}

/// Whether the mode puts text as "in body" does.
fn is_body_mode(mode: InsertionMode) -> bool
    ensures { result ≡ at_once.is_body_mode mode }
{
    matches!(
        mode,
        InsertionMode::InBody | InsertionMode::InCaption | InsertionMode::InCell
    )
}

/// Whether the parts of a text would be joined at the end of the current node.
fn takes_at_once(state: &HtmlState) -> bool
    ensures { result ≡ at_once.takes_at_once state.now }
{
    is_body_mode(state.mode()) && state.current_is_html() && state.appends_text()
}

/// Whether no character is U+0000. All bytes are looked at, so that a processor can compare many at once.
fn has_no_nulls(bytes: &[u8]) -> bool
    ensures { result ≡ list_all at_once.is_not_null bytes.now }
{
    let mut has_none = true;
    for byte in bytes {
        has_none &= *byte != 0;
    }
    has_none
}

/// Whether it has a character, and none is U+0000.
fn is_without_null(text: &str) -> bool
    ensures { result ≡ at_once.is_without_null text.now }
{
    !text.is_empty() && has_no_nulls(text.as_bytes())
}

fn put_at_once(state: &mut HtmlState, text: String) -> Result<(), AllocError>
    ensures { OnOk result (state.new ≡ at_once.put_at_once (string_bytes text) state.old) }
{
    let white = is_white(text.as_str());
    state.insert_owned_text(text)?;
    if !white {
        state.set_frameset_ok(false);
    }
    Ok(())
}

/// A text.
#[tactic(auto, using(crate::proofs::AtOnceLemmas::put_as_parts))]
pub(crate) fn put_text(state: &mut HtmlState, text: String) -> Result<(), AllocError>
    ensures { OnOk result (state.new ≡ spec.put_text (string_bytes text) state.old) }
{
    if takes_at_once(state) && is_without_null(text.as_str()) {
        return put_at_once(state, text);
    }
    put_parts(state, text.as_str())
}
