//! What a token of the tokenizer does.
ghost use Rattle.std.specs.Prelude.{◌≡◌, true, false, drop, string_bytes, IfOk, MatchOption, OnOk};
ghost use Rattle.htmd_lexical.specs.Characters.{line_feed};
ghost use Rattle.htmd_lexical.specs.CharacterClasses.{first_is};
ghost use Rattle.htmd_html5_state.specs.Names.{name_of};
ghost use Rattle.htmd_html5.specs.Feeding as spec;
ghost use Rattle.htmd_html5_tokens.specs.Tokens.{end_of_file, value_of};

use crate::processing::{
    process_comment, process_doctype, process_end, process_end_of_file, process_start,
};
use crate::texts::put_text;
use crate::tokens::StartTag;
use htmd_html5_state::{HtmlName, HtmlState};
use htmd_html5_tokens::{ContentModel, RawElement, Token};
use std::alloc::{AllocError, Global};

/// Whether an element of only text is open, up to its end tag: the mode "text".
fn is_text_mode(state: &HtmlState) -> bool
    ensures { result ≡ spec.is_text_mode state.now.content }
{
    match state.content() {
        ContentModel::Normal | ContentModel::Raw(RawElement::Plaintext) => false,
        ContentModel::Raw(_) => true,
    }
}

fn feed_text(state: &mut HtmlState, text: String) -> Result<(), AllocError>
    ensures { OnOk result (state.new ≡ spec.feed_text (string_bytes text) state.old) }
{
    if !is_text_mode(state) {
        return put_text(state, text);
    }
    if text.is_empty() {
        return Ok(());
    }
    state.insert_owned_text(text)
}

/// The text after a line feed at its front.
fn strip_line_feed(text: &str) -> Option<&str>
    ensures { MatchOption result (first_is line_feed text.now ≡ false)
        (λ rest. (first_is line_feed text.now ≡ true) × (rest.now ≡ drop 1 text.now)) }
{
    match text.as_bytes() {
        [b'\n', ..] => Some(&text[1..]),
        _ => None,
    }
}

/// The text, without a line feed at its front if that is dropped.
fn without_line_feed(alloc: Global, text: String, skips: bool) -> Result<String, AllocError>
    ensures { IfOk result (λ left. string_bytes left ≡ spec.without_line_feed skips (string_bytes text)) }
{
    if !skips {
        return Ok(text);
    }
    match strip_line_feed(text.as_str()) {
        Some(rest) => String::from_str(alloc, rest),
        None => Ok(text),
    }
}

/// Closes the element of only text that is open. Gives whether one is.
fn leave_text_mode(state: &mut HtmlState) -> bool
    ensures found { result ≡ spec.is_text_mode state.old.content }
    ensures value { state.new ≡ spec.out_of_text_mode state.old }
{
    let found = is_text_mode(state);
    if found {
        state.pop();
        state.set_content(ContentModel::Normal);
    }
    found
}

fn feed_end_tag(state: &mut HtmlState, name: &HtmlName) -> Result<(), AllocError>
    ensures { OnOk result (state.new ≡ spec.feed_end_tag (name_of name.now) state.old) }
{
    if leave_text_mode(state) {
        return Ok(());
    }
    process_end(state, name)
}

/// The end of the page.
pub(crate) fn feed_end_of_file(state: &mut HtmlState) -> Result<(), AllocError>
    ensures { OnOk result (state.new ≡ spec.feed end_of_file state.old) }
{
    state.set_skips_line_feed(false);
    leave_text_mode(state);
    process_end_of_file(state)
}

/// A token.
#[inline(always)]
pub(crate) fn feed(state: &mut HtmlState, token: Token<'_>) -> Result<(), AllocError>
    ensures { OnOk result (state.new ≡ spec.feed (value_of token.entry) state.old) }
{
    let skips = state.skips_line_feed();
    state.set_skips_line_feed(false);
    match token {
        Token::Text(text) => {
            let text = without_line_feed(state.alloc(), text, skips)?;
            feed_text(state, text)
        }
        Token::StartTag(tag) => {
            leave_text_mode(state);
            let tag = StartTag::of(state.alloc(), tag)?;
            process_start(state, tag)
        }
        Token::EndTag(tag) => {
            let name = HtmlName::from_text(state.alloc(), tag.name)?;
            feed_end_tag(state, &name)
        }
        Token::Comment(text) => {
            leave_text_mode(state);
            process_comment(state, text)
        }
        Token::Doctype { quirks } => {
            leave_text_mode(state);
            process_doctype(state, quirks)
        }
        Token::EndOfFile => feed_end_of_file(state),
    }
}
