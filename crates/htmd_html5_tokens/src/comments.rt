//! Comments, and what is read as one.
ghost use Rattle.std.specs.Prelude.{◌≡◌, ◌≤◌, length, IfOk};
ghost use Rattle.htmd_lexical.specs.CharacterClasses.{up_to, onward};
ghost use Rattle.htmd_html5_tokens.specs.Comments as spec;
ghost use Rattle.htmd_html5_tokens.specs.Readings.{read_of};

use crate::classes::{Class, split_run};
use crate::contents::{Reading, decoded};
use crate::tokens::Token;
use htmd_scanning::{strip, strip_byte};
use std::alloc::{AllocError, Global};

/// A comment that holds this.
fn comment<'a>(alloc: Global, held: &str, rest: &'a str) -> Result<(Token<'a>, &'a str), AllocError>
    ensures { IfOk result (λ r. read_of r ≡ spec.comment_token held.now rest.now) }
{
    let text = decoded(alloc, held, Reading::RawText)?;
    Ok((Token::Comment(text), rest))
}

/// Whether a comment ends here, with its end or with a part of it that the end of the text cuts off.
fn ends_comment(bytes: &[u8]) -> bool
    ensures { result ≡ spec.ends_comment bytes.now }
{
    match bytes {
        [b'-'] | [b'-', b'-'] | [b'-', b'-', b'!'] => true,
        [b'-', b'-', b'>', ..] | [b'-', b'-', b'!', b'>', ..] => true,
        _ => false,
    }
}

/// How many bytes are before the end of a comment.
fn comment_len(bytes: &[u8]) -> usize
    ensures bound { result ≤ length bytes.now }
    ensures value { result ≡ length (up_to spec.ends_comment bytes.now) }
{
    let mut len = 0;
    while len < bytes.len() && !ends_comment(&bytes[len..]) {
        len += 1;
    }
    len
}

/// What comes before the end of a comment, and that end with what follows.
fn split_comment(text: &str) -> (&str, &str)
    ensures held { result.0.now ≡ up_to spec.ends_comment text.now }
    ensures rest { result.1.now ≡ onward spec.ends_comment text.now }
{
    text.split_at(comment_len(text.as_bytes()))
}

/// What follows the end of a comment.
fn after_comment_end(text: &str) -> &str
    ensures { result.now ≡ spec.after_comment_end text.now }
{
    if let Some(rest) = strip(text, "-->") {
        return rest;
    }
    match strip(text, "--!>") {
        Some(rest) => rest,
        None => "",
    }
}

/// A comment from just after its `<!--`, and what follows it.
pub(crate) fn read_comment(alloc: Global, text: &str) -> Result<(Token<'_>, &str), AllocError>
    ensures { IfOk result (λ r. read_of r ≡ spec.read_comment text.now) }
{
    if let Some(rest) = strip(text, ">") {
        return comment(alloc, "", rest);
    }
    if let Some(rest) = strip(text, "->") {
        return comment(alloc, "", rest);
    }
    let (held, end) = split_comment(text);
    comment(alloc, held, after_comment_end(end))
}

/// What comes before the first `>`, and what follows it.
pub(crate) fn split_at_sign(text: &str) -> (&str, &str)
    ensures held { result.0.now ≡ spec.before_sign text.now }
    ensures rest { result.1.now ≡ spec.after_sign text.now }
{
    let (held, end) = split_run(text, Class::Other(b'>'));
    match strip_byte(end, b'>') {
        Some(rest) => (held, rest),
        None => (held, end),
    }
}

/// Markup of no other kind, which is a comment, and what follows it.
pub(crate) fn read_bogus_comment(alloc: Global, text: &str) -> Result<(Token<'_>, &str), AllocError>
    ensures { IfOk result (λ r. read_of r ≡ spec.read_bogus_comment text.now) }
{
    let (held, rest) = split_at_sign(text);
    comment(alloc, held, rest)
}
