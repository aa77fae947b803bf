//! What characters stand for: texts, raw texts, values and names.
ghost use Rattle.std.specs.Prelude.{◌≡◌, ◌<◌, ◌≤◌, ◌++◌, false, length, slice_index, string_bytes, IfOk, OnOk, ◌∷◌};
ghost use Rattle.std.specs.Prelude.{◌+◌, ◌==◌, ◌&&◌, drop, not, true};
ghost use Rattle.std.specs.Cow.{cow_str_bytes};
ghost use Rattle.std.specs.List.{list_all};
ghost use Rattle.std.specs.Str.{IsUtf8};
ghost use Rattle.htmd_lexical.specs.CharacterClasses.{leading_run, behind_run};
ghost use Rattle.htmd_html5_tokens.specs.Contents as spec;
ghost use Rattle.htmd_html5_tokens.specs.ReferenceViews.{characters_of};
ghost use Rattle.htmd_html5_tokens.specs.declared.contents.Reading.TheVariants.{Text};
ghost use Rattle.htmd_lexical.specs.Characters.{ampersand, less_than_sign};
ghost use Rattle.htmd_html5_tokens.specs.AppendedCharacters.{is_literal, is_small, HasPushed};

use crate::references::{Characters, read_reference};
use htmd_scanning::begins_with;
use std::alloc::{AllocError, Global};
use std::borrow::CowStr;

/// How characters are read.
#[derive(Clone, Copy)]
pub(crate) enum Reading {
    /// outside raw text elements
    Text,
    /// in `title` and `textarea`
    EscapableRawText,
    /// in other raw text elements, in comments and in names
    RawText,
    AttributeValue,
}

/// Whether a character stands for itself, as its first byte tells.
fn is_literal(byte: u8, reading: Reading) -> bool
    ensures { result ≡ is_literal reading byte }
{
    match reading {
        Reading::Text => byte != b'&' && byte != b'<',
        Reading::RawText => byte != 0,
        Reading::EscapableRawText | Reading::AttributeValue => byte != b'&' && byte != 0,
    }
}

/// Whether no byte is one of two. All are looked at, so that a processor can compare many at once.
fn have_neither(bytes: &[u8], first: u8, second: u8) -> bool
    ensures { result ≡ list_all (λ b. not (b == first) && not (b == second)) bytes.now }
{
    let mut have_neither = true;
    for byte in bytes {
        have_neither &= (*byte != first) & (*byte != second);
    }
    have_neither
}

/// Whether all bytes are literal.
#[tactic(auto, using(crate::proofs::ContentsLemmas::neither_twice))]
fn are_literal(bytes: &[u8], reading: Reading) -> bool
    ensures { result ≡ list_all (is_literal reading) bytes.now }
{
    match reading {
        Reading::Text => have_neither(bytes, b'&', b'<'),
        Reading::RawText => have_neither(bytes, 0, 0),
        Reading::EscapableRawText | Reading::AttributeValue => have_neither(bytes, b'&', 0),
    }
}

/// How many bytes at the beginning are literal.
#[tactic(auto, using(htmd_lexical::proofs::RunsLemmas::run_more, htmd_lexical::proofs::RunsLemmas::run_stops))]
fn literal_len(bytes: &[u8], reading: Reading) -> usize
    ensures bound { result ≤ length bytes.now }
    ensures value { result ≡ length (leading_run (is_literal reading) bytes.now) }
{
    for (len, byte) in bytes.iter().enumerate() {
        if !is_literal(*byte, reading) {
            return len;
        }
    }
    bytes.len()
}

/// So many bytes of a text are passed at once where all are literal.
const BLOCK: usize = 16;

/// How many bytes at the beginning are in blocks of bytes that are literal in a text.
fn literal_blocks_len(bytes: &[u8]) -> usize
    ensures bound { result ≤ length bytes.now }
    ensures value { result + length (leading_run (is_literal Text) (drop result bytes.now))
        ≡ length (leading_run (is_literal Text) bytes.now) }
{
    let mut len = 0;
    while bytes.len() - len >= BLOCK && are_literal(&bytes[len..len + BLOCK], Reading::Text) {
        len += BLOCK;
    }
    len
}

/// How many bytes at the beginning are literal in a text.
fn text_len(bytes: &[u8]) -> usize
    ensures bound { result ≤ length bytes.now }
    ensures value { result ≡ length (leading_run (is_literal Text) bytes.now) }
{
    let len = literal_blocks_len(bytes);
    len + literal_len(&bytes[len..], Reading::Text)
}

/// How many bytes at the beginning are literal: in a text many are passed at once.
fn front_len(bytes: &[u8], reading: Reading) -> usize
    ensures bound { result ≤ length bytes.now }
    ensures value { result ≡ length (leading_run (is_literal reading) bytes.now) }
{
    match reading {
        Reading::Text => text_len(bytes),
        _ => literal_len(bytes, reading),
    }
}

/// The literal characters with which a text begins, and what follows them.
pub(crate) fn split_literals(text: &str) -> (&str, &str)
    ensures front { result.0.now ≡ leading_run (is_literal Text) text.now }
    ensures rest { result.1.now ≡ behind_run (is_literal Text) text.now }
{
    text.split_at(text_len(text.as_bytes()))
}

/// Appends the literal characters with which the text begins, and returns the rest.
fn push_literals<'a>(
    held: &mut String,
    text: &'a str,
    len: usize,
    reading: Reading,
) -> Result<&'a str, AllocError>
    requires some { 0 < len }
    requires plain { len ≡ length (leading_run (is_literal reading) text.now) }
    ensures pushed { IfOk result (λ rest. HasPushed reading (string_bytes held.old) text.now (string_bytes held.new)
        rest.now) }
    ensures text { IfOk result (λ rest. IsUtf8 rest.now) }
    ensures shorter { IfOk result (λ rest. length rest.now < length text.now) }
{
    let (front, rest) = text.split_at(len);
    held.push_str(front)?;
    Ok(rest)
}

/// Appends the characters of a reference.
fn push_characters(held: &mut String, characters: Characters) -> Result<(), AllocError>
    ensures { OnOk result (string_bytes held.new ≡ string_bytes held.old ++ characters_of characters) }
{
    match characters {
        Characters::One(character) => held.push(character),
        Characters::Named(text) => held.push_str(text),
    }
}

fn is_value(reading: Reading) -> bool
    ensures { result ≡ spec.is_value reading }
{
    matches!(reading, Reading::AttributeValue)
}

/// Appends what `&` begins, and returns what follows it.
fn push_reference<'a>(
    held: &mut String,
    after: &'a str,
    reading: Reading,
) -> Result<&'a str, AllocError>
    requires { spec.has_references reading ≡ true }
    ensures pushed { IfOk result (λ rest. HasPushed reading (string_bytes held.old) (ampersand ∷ after.now)
        (string_bytes held.new) rest.now) }
    ensures text { IfOk result (λ rest. IsUtf8 rest.now) }
    ensures within { IfOk result (λ rest. length rest.now ≤ length after.now) }
{
    let reference = read_reference(after, is_value(reading));
    push_characters(held, reference.characters)?;
    Ok(&after[reference.following..])
}

/// Appends what `<` begins in a text, and returns what follows it.
fn push_less_than<'a>(held: &mut String, after: &'a str) -> Result<&'a str, AllocError>
    ensures pushed { IfOk result (λ rest. HasPushed Text (string_bytes held.old) (less_than_sign ∷ after.now)
        (string_bytes held.new) rest.now) }
    ensures text { IfOk result (λ rest. IsUtf8 rest.now) }
    ensures within { IfOk result (λ rest. length rest.now ≤ length after.now) }
{
    if begins_with(after.as_bytes(), b"/>") {
        return Ok(&after[2..]);
    }
    held.push('<')?;
    Ok(after)
}

/// Appends what the first character begins, which isn't literal, and returns what follows it.
fn push_special<'a>(
    held: &mut String,
    text: &'a str,
    reading: Reading,
) -> Result<&'a str, AllocError>
    requires more { 0 < length text.now }
    requires special { is_literal reading (slice_index text.now 0) ≡ false }
    ensures pushed { IfOk result (λ rest. HasPushed reading (string_bytes held.old) text.now (string_bytes held.new)
        rest.now) }
    ensures text { IfOk result (λ rest. IsUtf8 rest.now) }
    ensures shorter { IfOk result (λ rest. length rest.now < length text.now) }
{
    let first = text.as_bytes()[0];
    let after = &text[1..];
    match first {
        b'&' => push_reference(held, after, reading),
        b'<' => push_less_than(held, after),
        _ => {
            held.push('\u{fffd}')?;
            Ok(after)
        }
    }
}

/// Appends what comes next in a text, literal characters or one other piece, and returns the rest.
fn push_next<'a>(held: &mut String, text: &'a str, reading: Reading) -> Result<&'a str, AllocError>
    requires { 0 < length text.now }
    ensures pushed { IfOk result (λ rest. HasPushed reading (string_bytes held.old) text.now (string_bytes held.new)
        rest.now) }
    ensures text { IfOk result (λ rest. IsUtf8 rest.now) }
    ensures shorter { IfOk result (λ rest. length rest.now < length text.now) }
{
    let len = front_len(text.as_bytes(), reading);
    if len == 0 {
        push_special(held, text, reading)
    } else {
        push_literals(held, text, len, reading)
    }
}

/// What the characters of a text stand for, piece by piece.
fn decoded_pieces(alloc: Global, text: &str, reading: Reading) -> Result<String, AllocError>
    ensures { IfOk result (λ t. string_bytes t ≡ spec.decoded reading 0 text.now) }
{
    let mut held = String::with_capacity(alloc, text.len())?;
    let mut rest = text;
    while !rest.is_empty() {
        rest = push_next(&mut held, rest, reading)?;
    }
    Ok(held)
}

/// What the characters of a text stand for.
#[tactic(auto, using(crate::proofs::ContentsLemmas::decoded_itself))]
pub(crate) fn decoded(alloc: Global, text: &str, reading: Reading) -> Result<String, AllocError>
    ensures { IfOk result (λ t. string_bytes t ≡ spec.decoded reading 0 text.now) }
{
    if are_literal(text.as_bytes(), reading) {
        return String::from_str(alloc, text);
    }
    decoded_pieces(alloc, text, reading)
}

/// Whether a name stands for itself: no character is an ASCII capital or U+0000.
#[inline(always)]
fn stands_for_itself(bytes: &[u8]) -> bool
    ensures { result ≡ list_all is_small bytes.now }
{
    bytes
        .iter()
        .all(|byte| *byte != 0 && !byte.is_ascii_uppercase())
}

/// A name in lower case, with U+FFFD for U+0000.
fn lowered(alloc: Global, text: &str) -> Result<String, AllocError>
    ensures { IfOk result (λ t. string_bytes t ≡ spec.name_of text.now) }
{
    let mut name = decoded(alloc, text, Reading::RawText)?;
    name.make_ascii_lowercase();
    Ok(name)
}

/// The name of an attribute with this spelling.
#[tactic(auto, using(crate::proofs::ContentsLemmas::name_itself))]
pub(crate) fn name_of(alloc: Global, text: &str) -> Result<String, AllocError>
    ensures { IfOk result (λ t. string_bytes t ≡ spec.name_of text.now) }
{
    if stands_for_itself(text.as_bytes()) {
        return String::from_str(alloc, text);
    }
    lowered(alloc, text)
}

/// The name of a tag with this spelling. It is borrowed if it is spelled so.
#[tactic(auto, using(crate::proofs::ContentsLemmas::name_itself))]
#[inline(always)]
pub(crate) fn tag_name_of(alloc: Global, text: &str) -> Result<CowStr<'_>, AllocError>
    ensures { IfOk result (λ t. cow_str_bytes t ≡ spec.name_of text.now) }
{
    if stands_for_itself(text.as_bytes()) {
        return Ok(CowStr::Borrowed(text));
    }
    Ok(CowStr::Owned(lowered(alloc, text)?))
}
