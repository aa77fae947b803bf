//! Classes of characters (CommonMark 0.31.2, 2.1), backslash escapes (2.4) and character references (2.5).
ghost use Rattle.std.specs.Prelude.{◌≡◌, ◌<◌, ◌≤◌, ◌+◌, ◌++◌, ◌∷◌, ℕ, Bool, true, false, length, take, drop};
ghost use Rattle.std.specs.Prelude.{option_map};
ghost use Rattle.std.specs.Prelude.{codes, slice_index, string_bytes, IfOk, OnOk};
ghost use Rattle.std.specs.Str.{IsUtf8, IsCharBoundary};
ghost use Rattle.htmd_lexical.specs.Characters.{ampersand, backslash, is_one_of};
ghost use Rattle.htmd_lexical.specs.CharacterClasses.{lacks, leading_run};
ghost use Rattle.htmd_commonmark_reading.specs.Characters as spec;
ghost use Rattle.htmd_commonmark_reader.specs.Pieces.{meaning_of, piece_of, piece_in, is_literal, HasPushed};
ghost use Rattle.htmd_commonmark_reader.specs.Ends.{IsOfAscii};

use htmd_html5_tokens::named;
use htmd_scanning::{
    ByteClass, alphanumeric_len, digits_len, first_is, hexdigits_len, number, run_len, split_run,
};
use std::alloc::{AllocError, Global};
use unicode::properties::{GeneralCategory, GeneralCategoryGroup};

const REPLACEMENT_CHARACTER: char = '\u{fffd}';

pub(crate) fn is_space_or_tab(byte: u8) -> bool
    ensures { result ≡ spec.is_space_or_tab byte }
{
    byte == b' ' || byte == b'\t'
}

/// White space in a text without blank lines: spaces, tabs and line endings.
pub(crate) fn is_white(byte: u8) -> bool
    ensures { result ≡ spec.is_white byte }
{
    is_space_or_tab(byte) || byte == b'\n'
}

/// Unicode white space.
pub(crate) fn is_unicode_white(c: char) -> bool
    ensures { result ≡ spec.is_unicode_white c }
{
    if c.is_ascii() {
        c.is_ascii_whitespace()
    } else {
        matches!(
            GeneralCategory::for_char(c),
            GeneralCategory::SpaceSeparator
        )
    }
}

/// Unicode punctuation: the categories P and S.
pub(crate) fn is_unicode_punctuation(c: char) -> bool
    ensures { result ≡ spec.is_unicode_punctuation c }
{
    if c.is_ascii() {
        return c.is_ascii_punctuation();
    }
    let category = GeneralCategory::for_char(c);
    GeneralCategoryGroup::Punctuation.contains(category)
        || GeneralCategoryGroup::Symbol.contains(category)
}

/// Whether no byte of the text is this one.
pub(crate) fn lacks(bytes: &[u8], byte: u8) -> bool
    ensures { result ≡ lacks byte bytes.now }
{
    bytes.iter().all(|other| *other != byte)
}

/// Spaces and tabs.
#[derive(Clone, Copy)]
pub(crate) struct SpaceOrTab;

impl ByteClass for SpaceOrTab {
    ghost use Rattle.htmd_commonmark_reading.specs.Characters.{is_space_or_tab};

    ghost bytes = { λ _. is_space_or_tab };

    #[inline(always)]
    fn has(self, byte: u8) -> bool {
        is_space_or_tab(byte)
    }
}

/// Spaces, tabs and line endings.
#[derive(Clone, Copy)]
pub(crate) struct White;

impl ByteClass for White {
    ghost use Rattle.htmd_commonmark_reading.specs.Characters.{is_white};

    ghost bytes = { λ _. is_white };

    #[inline(always)]
    fn has(self, byte: u8) -> bool {
        is_white(byte)
    }
}

/// The text without spaces and tabs at its beginning.
pub(crate) fn past_blanks(text: &str) -> &str
    ensures { result.now ≡ spec.past_blanks text.now }
{
    split_run(text, SpaceOrTab).1
}

/// Where the run of the class at the end of the text begins.
fn end_of<C: ByteClass>(bytes: &[u8], class: C) -> usize
    ensures bound { result ≤ length bytes.now }
    ensures value { take result bytes.now ≡ spec.stripped_end (C.bytes class) bytes.now }
    ensures cut { IsOfAscii (C.bytes class) → IsCharBoundary bytes.now result }
{
    let mut end = bytes.len();
    while end > 0 && class.has(bytes[end - 1]) {
        end -= 1;
    }
    end
}

/// The text without the run of the class at its end.
pub(crate) fn stripped_end<C: ByteClass>(text: &str, class: C) -> &str
    requires { IsOfAscii (C.bytes class) }
    ensures { result.now ≡ spec.stripped_end (C.bytes class) text.now }
{
    &text[..end_of(text.as_bytes(), class)]
}

/// The text without spaces and tabs at both ends.
pub(crate) fn stripped(text: &str) -> &str
    ensures { result.now ≡ spec.stripped text.now }
{
    stripped_end(past_blanks(text), SpaceOrTab)
}

/// The characters that something in a text stands for.
#[derive(Clone, Copy, Drop)]
pub(crate) enum Meaning {
    One(char),
    Named(&'static str),
}

/// What begins at a place: what it stands for, and how many of the bytes that follow belong to it.
#[derive(Clone, Copy, Drop)]
pub(crate) struct Piece {
    pub(crate) meaning: Meaning,
    pub(crate) following: usize,
}

/// The character of a number.
fn character_numbered(number: u32) -> char
    ensures { result ≡ spec.character_numbered number }
{
    if number == 0 {
        return REPLACEMENT_CHARACTER;
    }
    match char::from_u32(number) {
        Some(character) => character,
        None => REPLACEMENT_CHARACTER,
    }
}

/// A reference by number, whose `len` digits, at most so many, come after this many bytes.
fn numbered(bytes: &[u8], before: usize, len: usize, most: usize, base: u32) -> Option<Piece>
    requires small { base ≤ 16 }
    requires base { 0 < base }
    requires before { before ≤ 2 }
    requires most { most ≤ 7 }
    requires within { before + len ≤ length bytes.now }
    ensures { option_map piece_of result
        ≡ spec.numbered base before most (take len (drop before bytes.now)) (drop len (drop before bytes.now)) }
{
    let end = before + len;
    if len == 0 || len > most || !first_is(&bytes[end..], b';') {
        return None;
    }
    let character = character_numbered(number(&bytes[before..end], base));
    Some(Piece {
        meaning: Meaning::One(character),
        following: end + 1,
    })
}

fn is_x(byte: u8) -> bool
    ensures { result ≡ is_one_of (codes "xX") byte }
{
    byte == b'x' || byte == b'X'
}

/// After `&`, if the text begins with `#`: a reference by number.
fn number_reference(bytes: &[u8]) -> Option<Piece>
    ensures { option_map piece_of result ≡ spec.number_reference (drop 1 bytes.now) }
{
    if bytes.len() < 2 {
        return None;
    }
    if is_x(bytes[1]) {
        return numbered(bytes, 2, hexdigits_len(&bytes[2..]), 6, 16);
    }
    numbered(bytes, 1, digits_len(&bytes[1..]), 7, 10)
}

/// After `&`: one of HTML's names and `;`.
fn name_reference(bytes: &[u8]) -> Option<Piece>
    ensures { option_map piece_of result ≡ spec.name_reference bytes.now }
{
    let len = alphanumeric_len(bytes);
    if !first_is(&bytes[len..], b';') {
        return None;
    }
    match named(&bytes[..len]) {
        Some(characters) => Some(Piece {
            meaning: Meaning::Named(characters),
            following: len + 1,
        }),
        None => None,
    }
}

/// After `&`: a reference.
pub(crate) fn reference(bytes: &[u8]) -> Option<Piece>
    ensures { option_map piece_of result ≡ spec.reference bytes.now }
{
    if first_is(bytes, b'#') {
        number_reference(bytes)
    } else {
        name_reference(bytes)
    }
}

/// Whether the text begins with ASCII punctuation.
pub(crate) fn begins_with_punctuation(bytes: &[u8]) -> bool
    ensures { result ≡ spec.begins_with_punctuation bytes.now }
{
    matches!(bytes, [first, ..] if first.is_ascii_punctuation())
}

/// Bytes that stand for themselves whatever follows.
#[derive(Clone, Copy)]
struct Literal {
    /// Whether backslashes escape.
    escapes: bool,
}

impl ByteClass for Literal {
    ghost use Rattle.htmd_commonmark_reader.specs.Pieces.{is_literal};

    ghost bytes = { λ class. is_literal class.escapes };

    #[inline(always)]
    fn has(self, byte: u8) -> bool {
        byte != b'&' && !(self.escapes && byte == b'\\')
    }
}

/// Appends what a piece stands for.
pub(crate) fn push_meaning(held: &mut String, meaning: Meaning) -> Result<(), AllocError>
    ensures { OnOk result (string_bytes held.new ≡ string_bytes held.old ++ meaning_of meaning) }
{
    match meaning {
        Meaning::One(character) => held.push(character),
        Meaning::Named(text) => held.push_str(text),
    }
}

/// Appends what `&` begins, and returns what follows it.
fn push_reference<'a>(
    held: &mut String,
    after: &'a str,
    escapes: bool,
) -> Result<&'a str, AllocError>
    ensures pushed { IfOk result (λ rest. HasPushed escapes (string_bytes held.old) (ampersand ∷ after.now)
        (string_bytes held.new) rest.now) }
    ensures text { IfOk result (λ rest. IsUtf8 rest.now) }
    ensures within { IfOk result (λ rest. length rest.now ≤ length after.now) }
{
    match reference(after.as_bytes()) {
        Some(piece) => {
            push_meaning(held, piece.meaning)?;
            Ok(&after[piece.following..])
        }
        None => {
            held.push('&')?;
            Ok(after)
        }
    }
}

/// Appends what a backslash begins, and returns what follows it.
fn push_escape<'a>(held: &mut String, after: &'a str) -> Result<&'a str, AllocError>
    ensures pushed { IfOk result (λ rest. HasPushed true (string_bytes held.old) (backslash ∷ after.now)
        (string_bytes held.new) rest.now) }
    ensures text { IfOk result (λ rest. IsUtf8 rest.now) }
    ensures within { IfOk result (λ rest. length rest.now ≤ length after.now) }
{
    if !begins_with_punctuation(after.as_bytes()) {
        held.push('\\')?;
        return Ok(after);
    }
    let (escaped, rest) = after.split_at(1);
    held.push_str(escaped)?;
    Ok(rest)
}

/// Appends what the first character begins, which isn't literal, and returns what follows it.
fn push_special<'a>(held: &mut String, text: &'a str, escapes: bool) -> Result<&'a str, AllocError>
    requires more { 0 < length text.now }
    requires special { is_literal escapes (slice_index text.now 0) ≡ false }
    ensures pushed { IfOk result (λ rest. HasPushed escapes (string_bytes held.old) text.now (string_bytes held.new)
        rest.now) }
    ensures text { IfOk result (λ rest. IsUtf8 rest.now) }
    ensures shorter { IfOk result (λ rest. length rest.now < length text.now) }
{
    let after = &text[1..];
    if text.as_bytes()[0] == b'&' {
        push_reference(held, after, escapes)
    } else {
        push_escape(held, after)
    }
}

/// Appends the literal characters with which the text begins, and returns the rest.
fn push_literals<'a>(
    held: &mut String,
    text: &'a str,
    len: usize,
    escapes: bool,
) -> Result<&'a str, AllocError>
    requires some { 0 < len }
    requires plain { len ≡ length (leading_run (is_literal escapes) text.now) }
    ensures pushed { IfOk result (λ rest. HasPushed escapes (string_bytes held.old) text.now (string_bytes held.new)
        rest.now) }
    ensures text { IfOk result (λ rest. IsUtf8 rest.now) }
    ensures shorter { IfOk result (λ rest. length rest.now < length text.now) }
{
    let (front, rest) = text.split_at(len);
    held.push_str(front)?;
    Ok(rest)
}

/// Appends what comes next in a text, literal characters or one other piece, and returns the rest.
fn push_next<'a>(held: &mut String, text: &'a str, escapes: bool) -> Result<&'a str, AllocError>
    requires { 0 < length text.now }
    ensures pushed { IfOk result (λ rest. HasPushed escapes (string_bytes held.old) text.now (string_bytes held.new)
        rest.now) }
    ensures text { IfOk result (λ rest. IsUtf8 rest.now) }
    ensures shorter { IfOk result (λ rest. length rest.now < length text.now) }
{
    let len = run_len(text.as_bytes(), Literal { escapes });
    if len == 0 {
        push_special(held, text, escapes)
    } else {
        push_literals(held, text, len, escapes)
    }
}

/// The text with its references and, if this is set, its escapes resolved.
fn resolved(alloc: Global, text: &str, escapes: bool) -> Result<String, AllocError>
    ensures { IfOk result (λ t. string_bytes t ≡ spec.resolved (piece_in escapes) 0 text.now) }
{
    let mut held = String::with_capacity(alloc, text.len())?;
    let mut rest = text;
    while !rest.is_empty() {
        rest = push_next(&mut held, rest, escapes)?;
    }
    Ok(held)
}

/// An address, title or info string with its escapes and references resolved.
pub(crate) fn unescaped(alloc: Global, text: &str) -> Result<String, AllocError>
    ensures { IfOk result (λ t. string_bytes t ≡ spec.unescaped text.now) }
{
    resolved(alloc, text, true)
}

/// A text with its references resolved.
pub(crate) fn dereferenced(alloc: Global, text: &str) -> Result<String, AllocError>
    ensures { IfOk result (λ t. string_bytes t ≡ spec.dereferenced text.now) }
{
    resolved(alloc, text, false)
}
