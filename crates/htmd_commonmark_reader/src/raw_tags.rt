//! Raw HTML (CommonMark 0.31.2, 6.6): how long what a `<` begins is, without that sign.
ghost use Rattle.std.specs.Prelude.{◌≡◌, ◌≤◌, IfSome, None, codes, length};
ghost use Rattle.std.specs.Option.{option_or};
ghost use Rattle.htmd_commonmark_reading.specs.RawTags as spec;
ghost use Rattle.htmd_commonmark_reader.specs.Beginnings.{beginning_of};
ghost use Rattle.htmd_commonmark_reader.specs.Missing.{IsMissing, IsNoted, AreMissing};
ghost use Rattle.htmd_commonmark_reader.specs.Tags.{place_of, enclosed};

use crate::byte_runs::{split_bytes, strip};
use crate::characters::{White, is_white};
use htmd_scanning::{ByteClass, begins_with, first_is};

// ---- classes

/// What a tag's name goes on with.
#[derive(Clone, Copy)]
pub(crate) struct InTagName;

impl ByteClass for InTagName {
    ghost use Rattle.htmd_commonmark_reading.specs.RawTags.{is_in_tag_name};

    ghost bytes = { λ _. is_in_tag_name };

    #[inline(always)]
    fn has(self, byte: u8) -> bool {
        byte.is_ascii_alphanumeric() || byte == b'-'
    }
}

fn begins_attribute_name(byte: u8) -> bool
    ensures { result ≡ spec.begins_attribute_name byte }
{
    byte.is_ascii_alphabetic() || byte == b'_' || byte == b':'
}

fn is_in_attribute_name(byte: u8) -> bool
    ensures { result ≡ spec.is_in_attribute_name byte }
{
    byte.is_ascii_alphanumeric() || matches!(byte, b'_' | b'.' | b':' | b'-')
}

fn is_unquoted(byte: u8) -> bool
    ensures { result ≡ spec.is_unquoted byte }
{
    !(is_white(byte) || matches!(byte, b'"' | b'\'' | b'=' | b'<' | b'>' | b'`'))
}

pub(crate) fn begins_with_letter(text: &[u8]) -> bool
    ensures { result ≡ spec.begins_with_letter text.now }
{
    matches!(text, [first, ..] if first.is_ascii_alphabetic())
}

// ---- open tags

/// Where in an open tag a place is.
#[derive(Clone, Copy, Drop)]
enum Place {
    TagName,
    AfterSpace,
    AttributeName,
    AfterAttributeName,
    BeforeValue,
    UnquotedValue,
    Quotes(u8),
    AfterQuotes,
    AfterSlash,
    End,
    Refused,
}

fn at_tag_end(byte: u8) -> Place
    ensures { place_of result ≡ spec.at_tag_end byte }
{
    match byte {
        b'>' => Place::End,
        b'/' => Place::AfterSlash,
        _ => Place::Refused,
    }
}

fn at_attribute_or_end(byte: u8) -> Place
    ensures { place_of result ≡ spec.at_attribute_or_end byte }
{
    if begins_attribute_name(byte) {
        Place::AttributeName
    } else {
        at_tag_end(byte)
    }
}

fn at_value(byte: u8) -> Place
    ensures { place_of result ≡ spec.at_value byte }
{
    if is_white(byte) {
        Place::BeforeValue
    } else if byte == b'"' || byte == b'\'' {
        Place::Quotes(byte)
    } else if is_unquoted(byte) {
        Place::UnquotedValue
    } else {
        Place::Refused
    }
}

fn after_tag_name(byte: u8) -> Place
    ensures { place_of result ≡ spec.place_after byte spec.in_tag_name }
{
    if InTagName.has(byte) {
        Place::TagName
    } else if is_white(byte) {
        Place::AfterSpace
    } else {
        at_tag_end(byte)
    }
}

fn in_attribute_name(byte: u8) -> Place
    ensures { place_of result ≡ spec.place_after byte spec.in_attribute_name }
{
    if is_in_attribute_name(byte) {
        Place::AttributeName
    } else if is_white(byte) {
        Place::AfterAttributeName
    } else if byte == b'=' {
        Place::BeforeValue
    } else {
        at_tag_end(byte)
    }
}

fn after_attribute_name(byte: u8) -> Place
    ensures { place_of result ≡ spec.place_after byte spec.after_attribute_name }
{
    if is_white(byte) {
        Place::AfterAttributeName
    } else if byte == b'=' {
        Place::BeforeValue
    } else {
        at_attribute_or_end(byte)
    }
}

fn in_unquoted_value(byte: u8) -> Place
    ensures { place_of result ≡ spec.place_after byte spec.in_unquoted_value }
{
    if is_unquoted(byte) {
        Place::UnquotedValue
    } else if is_white(byte) {
        Place::AfterSpace
    } else if byte == b'>' {
        Place::End
    } else {
        Place::Refused
    }
}

fn after_space(byte: u8) -> Place
    ensures { place_of result ≡ spec.place_after byte spec.after_space }
{
    if is_white(byte) {
        Place::AfterSpace
    } else {
        at_attribute_or_end(byte)
    }
}

fn in_quotes(byte: u8, quote: u8) -> Place
    ensures { place_of result ≡ spec.place_after byte (spec.in_quotes quote) }
{
    if byte == quote {
        Place::AfterQuotes
    } else {
        Place::Quotes(quote)
    }
}

fn after_quotes(byte: u8) -> Place
    ensures { place_of result ≡ spec.place_after byte spec.after_quotes }
{
    if is_white(byte) {
        Place::AfterSpace
    } else {
        at_tag_end(byte)
    }
}

fn after_slash(byte: u8) -> Place
    ensures { place_of result ≡ spec.place_after byte spec.after_slash }
{
    if byte == b'>' {
        Place::End
    } else {
        Place::Refused
    }
}

/// The place after a character.
fn place_after(byte: u8, place: Place) -> Place
    ensures { place_of result ≡ spec.place_after byte (place_of place) }
{
    match place {
        Place::TagName => after_tag_name(byte),
        Place::AfterSpace => after_space(byte),
        Place::AttributeName => in_attribute_name(byte),
        Place::AfterAttributeName => after_attribute_name(byte),
        Place::BeforeValue => at_value(byte),
        Place::UnquotedValue => in_unquoted_value(byte),
        Place::Quotes(quote) => in_quotes(byte, quote),
        Place::AfterQuotes => after_quotes(byte),
        Place::AfterSlash => after_slash(byte),
        Place::End | Place::Refused => Place::Refused,
    }
}

/// The rest of an open tag up to its `>`.
fn tag_rest(text: &[u8]) -> Option<usize>
    ensures bound { IfSome result (λ len. len ≤ length text.now) }
    ensures value { beginning_of text.now result ≡ spec.tag_rest spec.in_tag_name text.now }
{
    let mut place = Place::TagName;
    for (len, byte) in text.iter().enumerate() {
        place = place_after(*byte, place);
        match place {
            Place::End => return Some(len + 1),
            Place::Refused => return None,
            _ => {}
        }
    }
    None
}

pub(crate) fn open_tag(text: &[u8]) -> Option<usize>
    ensures bound { IfSome result (λ len. len ≤ length text.now) }
    ensures value { beginning_of text.now result ≡ spec.open_tag text.now }
{
    if begins_with_letter(text) {
        tag_rest(text)
    } else {
        None
    }
}

// ---- the others

/// The text through the first of these signs.
fn through(text: &[u8], signs: &[u8]) -> Option<usize>
    ensures bound { IfSome result (λ len. len ≤ length text.now) }
    ensures value { beginning_of text.now result ≡ spec.through signs.now text.now }
{
    for len in 0..text.len() {
        if begins_with(&text[len..], signs) {
            return Some(len + signs.len());
        }
    }
    None
}

/// How many bytes at the end of a text are known to have no end of these: they aren't looked at again.
#[derive(Clone, Copy, Drop)]
pub(crate) struct Missing {
    pub(crate) comment: usize,
    pub(crate) instruction: usize,
    pub(crate) declaration: usize,
    pub(crate) section: usize,
}

/// The text through the first of these signs, unless they are known to be missing.
fn through_unless(text: &[u8], signs: &[u8], missing: &mut usize) -> Option<usize>
    requires { length text.now ≤ missing.old → spec.through signs.now text.now ≡ None }
    ensures bound { IfSome result (λ len. len ≤ length text.now) }
    ensures value { beginning_of text.now result ≡ spec.through signs.now text.now }
    ensures noted { IsNoted signs.now text.now missing.old missing.new }
{
    if text.len() <= *missing {
        return None;
    }
    match through(text, signs) {
        Some(len) => Some(len),
        None => {
            *missing = text.len();
            None
        }
    }
}

/// What begins with these signs, and goes through the first of those after them.
fn enclosed(text: &[u8], begin: &[u8], end: &[u8], missing: &mut usize) -> Option<usize>
    requires { IsMissing end.now text.now missing.old }
    ensures missing { IsMissing end.now text.now missing.new }
    ensures bound { IfSome result (λ len. len ≤ length text.now) }
    ensures value { beginning_of text.now result ≡ enclosed begin.now end.now text.now }
{
    if !begins_with(text, begin) {
        return None;
    }
    let len = through_unless(&text[begin.len()..], end, missing)?;
    Some(begin.len() + len)
}

pub(crate) fn closing_tag(text: &[u8]) -> Option<usize>
    ensures bound { IfSome result (λ len. len ≤ length text.now) }
    ensures value { beginning_of text.now result ≡ spec.closing_tag text.now }
{
    let Some(after) = strip(text, b'/') else {
        return None;
    };
    if !begins_with_letter(after) {
        return None;
    }
    let (name, rest) = split_bytes(after, InTagName);
    let (white, rest) = split_bytes(rest, White);
    if first_is(rest, b'>') {
        Some(name.len() + white.len() + 2)
    } else {
        None
    }
}

fn comment(text: &[u8], missing: &mut usize) -> Option<usize>
    requires { IsMissing (codes "-->") text.now missing.old }
    ensures missing { IsMissing (codes "-->") text.now missing.new }
    ensures bound { IfSome result (λ len. len ≤ length text.now) }
    ensures value { beginning_of text.now result ≡ spec.comment text.now }
{
    if begins_with(text, b"!-->") {
        return Some(4);
    }
    if begins_with(text, b"!--->") {
        return Some(5);
    }
    enclosed(text, b"!--", b"-->", missing)
}

fn declaration(text: &[u8], missing: &mut usize) -> Option<usize>
    requires { IsMissing (codes ">") text.now missing.old }
    ensures missing { IsMissing (codes ">") text.now missing.new }
    ensures bound { IfSome result (λ len. len ≤ length text.now) }
    ensures value { beginning_of text.now result ≡ spec.declaration text.now }
{
    match text {
        [b'!', after @ ..] if begins_with_letter(after) => through_unless(text, b">", missing),
        _ => None,
    }
}

/// What begins with `!` or `?`: a comment, an instruction, a declaration or a CDATA section.
fn other_tag(text: &[u8], missing: &mut Missing) -> Option<usize>
    requires { AreMissing text.now missing.old }
    ensures missing { AreMissing text.now missing.new }
    ensures bound { IfSome result (λ len. len ≤ length text.now) }
    ensures value { beginning_of text.now result
        ≡ option_or (spec.comment text.now) (option_or (spec.instruction text.now)
        (option_or (spec.declaration text.now) (spec.cdata_section text.now))) }
{
    if let Some(len) = comment(text, &mut missing.comment) {
        return Some(len);
    }
    if let Some(len) = enclosed(text, b"?", b"?>", &mut missing.instruction) {
        return Some(len);
    }
    if let Some(len) = declaration(text, &mut missing.declaration) {
        return Some(len);
    }
    enclosed(text, b"![CDATA[", b"]]>", &mut missing.section)
}

/// What a `<` begins, without that.
pub(crate) fn raw_tag(text: &[u8], missing: &mut Missing) -> Option<usize>
    requires { AreMissing text.now missing.old }
    ensures missing { AreMissing text.now missing.new }
    ensures bound { IfSome result (λ len. len ≤ length text.now) }
    ensures value { beginning_of text.now result ≡ spec.raw_tag text.now }
{
    if let Some(len) = open_tag(text) {
        return Some(len);
    }
    if let Some(len) = closing_tag(text) {
        return Some(len);
    }
    other_tag(text, missing)
}
