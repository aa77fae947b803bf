//! The tokenizer: a text, and its tokens from the front.
ghost use Rattle.std.specs.Prelude.{◌≡◌, length, take, drop, IfOk, OnOk, OnErr, MatchOption, true, false, List, ℕ};
ghost use Rattle.htmd_html5_tokens.specs.NextToken as spec;
ghost use Rattle.htmd_html5_tokens.specs.RawTexts as raw;
ghost use Rattle.htmd_html5_tokens.specs.Readings.{read_of};
ghost use Rattle.htmd_html5_tokens.specs.Tokens.{value_of};

use crate::contents::decoded;
use crate::markup::{begins_markup, read_markup, read_text};
use crate::raw_texts::{raw_text_len, reading_of};
use crate::sections::{after_empty_pieces, read_section};
use crate::tags::read_tag_of_raw;
use crate::tokens::Token;
use htmd_lexical::{ContentModel, RawElement};
use htmd_scanning::{strip, strip_byte};
use std::alloc::{AllocError, Global};
use std::marker::Model;

/// What follows `<![CDATA[`, if a CDATA section begins here.
fn strip_section(text: &str, foreign: bool) -> Option<&str>
    ensures { MatchOption result (spec.begins_section foreign text.now ≡ false)
        (λ rest. (spec.begins_section foreign text.now ≡ true) × (rest.now ≡ drop 9 text.now)) }
{
    if !foreign {
        return None;
    }
    strip(text, "<![CDATA[")
}

/// The token at the beginning of a text, which begins with no empty piece, and what follows it.
#[inline(always)]
fn read_piece(alloc: Global, text: &str, foreign: bool) -> Result<(Token<'_>, &str), AllocError>
    ensures { IfOk result (λ r. read_of r ≡ spec.read_piece foreign text.now) }
{
    if text.is_empty() {
        return Ok((Token::EndOfFile, ""));
    }
    if let Some(held) = strip_section(text, foreign) {
        return read_section(alloc, held);
    }
    if !begins_markup(text.as_bytes()) {
        return read_text(alloc, text);
    }
    read_markup(alloc, &text[1..])
}

/// The text of such an element, and what follows it.
fn split_raw(text: &str, element: RawElement) -> (&str, &str)
    ensures held { result.0.now ≡ take (raw.raw_text_len element text.now) text.now }
    ensures rest { result.1.now ≡ drop (raw.raw_text_len element text.now) text.now }
{
    text.split_at(raw_text_len(text.as_bytes(), element))
}

/// The text of such an element, or its end tag, and what follows it.
fn read_raw(alloc: Global, text: &str, element: RawElement) -> Result<(Token<'_>, &str), AllocError>
    ensures { IfOk result (λ r. read_of r ≡ spec.read_raw element text.now) }
{
    let (held, rest) = split_raw(text, element);
    if !held.is_empty() {
        let read = decoded(alloc, held, reading_of(element))?;
        return Ok((Token::Text(read), rest));
    }
    match strip_byte(rest, b'<') {
        Some(tag) => read_tag_of_raw(alloc, tag),
        None => Ok((Token::EndOfFile, "")),
    }
}

/// The next token of a text, and what follows it.
#[inline(always)]
fn next_token(
    alloc: Global,
    text: &str,
    content: ContentModel,
    foreign: bool,
) -> Result<(Token<'_>, &str), AllocError>
    ensures { IfOk result (λ r. read_of r ≡ spec.next_token content foreign text.now) }
{
    match content {
        ContentModel::Normal => read_piece(alloc, after_empty_pieces(text, foreign), foreign),
        ContentModel::Raw(element) => read_raw(alloc, text, element),
    }
}

/// What is left of a text, whose line ends are line feeds.
#[derive(Drop)]
pub struct Tokenizer<'a> {
    rest: &'a str,
}

impl<'a> Model for Tokenizer<'a> {
    ghost Value = { List ℕ };

    ghost view = { λ t. t.rest.now };
}

impl<'a> Tokenizer<'a> {
    /// A tokenizer for all of a text, whose line ends are line feeds.
    pub fn new(text: &'a str) -> Tokenizer<'a>
        ensures { result ≡ text.now }
    {
        Tokenizer { rest: text }
    }

    /// How many bytes are left.
    pub fn left(&self) -> usize
        ensures { result ≡ length self.now }
    {
        self.rest.len()
    }

    /// Takes the next token. `foreign` says whether the adjusted current node is in foreign content. At the end of the
    /// text, and in a tag that the end cuts off, the token is `EndOfFile`. `Err` means out of memory; nothing is taken
    /// then.
    #[inline(always)]
    pub fn next(
        &mut self,
        alloc: Global,
        content: ContentModel,
        foreign: bool,
    ) -> Result<Token<'a>, AllocError>
        ensures token { IfOk result (λ t. value_of t ≡ (spec.next_token content foreign self.old).token) }
        ensures rest { OnOk result (self.new ≡ (spec.next_token content foreign self.old).rest) }
        ensures err { OnErr result (self.new ≡ self.old) }
    {
        let (token, rest) = next_token(alloc, self.rest, content, foreign)?;
        self.rest = rest;
        Ok(token)
    }
}
