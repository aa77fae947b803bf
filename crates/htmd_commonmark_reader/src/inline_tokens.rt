//! Code spans (CommonMark 0.31.2, 6.1) and autolinks (6.5).
ghost use Rattle.std.specs.Prelude.{◌≡◌, ◌<◌, ◌≤◌, ◌==◌, true, if◌then◌else◌, IfSome, IfOk, drop, length, string_bytes};
ghost use Rattle.htmd_lexical.specs.Characters.{greater_than_sign};
ghost use Rattle.htmd_lexical.specs.CharacterClasses.{first_is};
ghost use Rattle.std.specs.List.{list_all};
ghost use Rattle.htmd_commonmark_reading.specs.InlineTokens as spec;
ghost use Rattle.htmd_commonmark_reader.specs.Beginnings.{beginning_of};
ghost use Rattle.htmd_commonmark_reader.specs.Missing.{AreMissing};
ghost use Rattle.htmd_commonmark_reader.specs.Angles.{angle_of, IsWithin, IsFound};

use crate::byte_runs::{split_bytes, strip};
use crate::raw_tags::{Missing, begins_with_letter, raw_tag};
use htmd_scanning::{ByteClass, first_is};
use std::alloc::{AllocError, Global};

// ---- code spans (6.1)

/// What stands before the next row of exactly so many grave accents.
pub(crate) fn before_graves(text: &[u8], count: usize) -> Option<usize>
    ensures bound { IfSome result (λ len. len ≤ length text.now) }
    ensures value { beginning_of text.now result ≡ spec.before_graves count 0 text.now }
{
    let mut row = 0;
    for (at, byte) in text.iter().enumerate() {
        if *byte == b'`' {
            row += 1;
        } else if row == count {
            return Some(at - row);
        } else {
            row = 0;
        }
    }
    if row == count {
        Some(text.len() - row)
    } else {
        None
    }
}

/// Whether it is a space once line endings are spaces.
fn becomes_space(byte: u8) -> bool
    ensures { result ≡ spec.is_space (if byte == 10 then 32 else byte) }
{
    byte == b' ' || byte == b'\n'
}

fn become_spaces(text: &[u8]) -> bool
    ensures { result ≡ list_all spec.is_space (spec.in_one_line text.now) }
{
    for byte in text {
        if !becomes_space(*byte) {
            return false;
        }
    }
    true
}

/// What of the content of a code span is its text: a space at either end goes, unless all are spaces.
fn code_part(content: &str) -> &str
    ensures { spec.in_one_line result.now ≡ spec.code_text (spec.in_one_line content.now) }
{
    let bytes = content.as_bytes();
    match bytes {
        [first, .., last]
            if becomes_space(*first) && becomes_space(*last) && !become_spaces(bytes) => {
            &content[1..content.len() - 1]
        }
        _ => content,
    }
}

/// The text with spaces for its line endings. `Err` means out of memory.
fn in_one_line(alloc: Global, text: &str) -> Result<String, AllocError>
    ensures { IfOk result (λ line. string_bytes line ≡ spec.in_one_line text.now) }
{
    let mut line = String::with_capacity(alloc, text.len())?;
    let mut rest = text;
    while let Some((before, after)) = rest.split_once('\n') {
        line.push_str(before)?;
        line.push(' ')?;
        rest = after;
    }
    line.push_str(rest)?;
    Ok(line)
}

/// The text of a code span with this content. `Err` means out of memory.
pub(crate) fn code_text(alloc: Global, content: &str) -> Result<String, AllocError>
    ensures { IfOk result (λ code. string_bytes code ≡ spec.code_text (spec.in_one_line content.now)) }
{
    in_one_line(alloc, code_part(content))
}

// ---- autolinks (6.5)

#[derive(Clone, Copy)]
struct InScheme;

impl ByteClass for InScheme {
    ghost use Rattle.htmd_commonmark_reading.specs.InlineTokens.{is_in_scheme};

    ghost bytes = { λ _. is_in_scheme };

    #[inline(always)]
    fn has(self, byte: u8) -> bool {
        byte.is_ascii_alphanumeric() || matches!(byte, b'+' | b'.' | b'-')
    }
}

/// Any but controls, spaces, `<` and `>`.
#[derive(Clone, Copy)]
struct InUri;

impl ByteClass for InUri {
    ghost use Rattle.htmd_commonmark_reading.specs.InlineTokens.{is_in_uri};

    ghost bytes = { λ _. is_in_uri };

    #[inline(always)]
    fn has(self, byte: u8) -> bool {
        b' ' < byte && !(byte == 0x7F || byte == b'<' || byte == b'>')
    }
}

#[derive(Clone, Copy)]
struct InLocalPart;

impl ByteClass for InLocalPart {
    ghost use Rattle.htmd_commonmark_reading.specs.InlineTokens.{is_in_local_part};

    ghost bytes = { λ _. is_in_local_part };

    #[inline(always)]
    fn has(self, byte: u8) -> bool {
        byte.is_ascii_alphanumeric()
            || matches!(
                byte,
                b'.' | b'!'
                    | b'#'
                    | b'$'
                    | b'%'
                    | b'&'
                    | b'\''
                    | b'*'
                    | b'+'
                    | b'/'
                    | b'='
                    | b'?'
                    | b'^'
                    | b'_'
                    | b'`'
                    | b'{'
                    | b'|'
                    | b'}'
                    | b'~'
                    | b'-'
            )
    }
}

#[derive(Clone, Copy)]
struct InHost;

impl ByteClass for InHost {
    ghost use Rattle.htmd_commonmark_reading.specs.InlineTokens.{is_in_host};

    ghost bytes = { λ _. is_in_host };

    #[inline(always)]
    fn has(self, byte: u8) -> bool {
        byte.is_ascii_alphanumeric() || byte == b'-' || byte == b'.'
    }
}

fn is_scheme(text: &[u8]) -> bool
    ensures { result ≡ spec.is_scheme text.now }
{
    begins_with_letter(text) && 2 <= text.len() && text.len() <= 32
}

/// After `<`: an absolute URI and `>`.
fn uri(text: &[u8]) -> Option<usize>
    ensures bound { IfSome result (λ len. len < length text.now) }
    ensures value { beginning_of text.now result ≡ spec.uri text.now }
    ensures end { IfSome result (λ len. first_is greater_than_sign (drop len text.now) ≡ true) }
{
    let (scheme, after) = split_bytes(text, InScheme);
    if !is_scheme(scheme) || !first_is(after, b':') {
        return None;
    }
    let (address, rest) = split_bytes(text, InUri);
    if first_is(rest, b'>') {
        Some(address.len())
    } else {
        None
    }
}

/// Letters, digits and hyphens, at most 63, and no hyphen at an end.
fn is_host_label(text: &[u8]) -> bool
    ensures { result ≡ spec.is_host_label text.now }
{
    match text {
        [first, ..] if !first.is_ascii_alphanumeric() => false,
        [.., last] => last.is_ascii_alphanumeric() && text.len() <= 63,
        [] => false,
    }
}

fn is_host(text: &[u8]) -> bool
    ensures { result ≡ spec.is_host text.now }
{
    text.split(|byte| *byte == b'.')
        .all(|label| is_host_label(label))
}

/// After `<`: an e-mail address and `>`.
fn email(text: &[u8]) -> Option<usize>
    ensures bound { IfSome result (λ len. len < length text.now) }
    ensures value { beginning_of text.now result ≡ spec.email text.now }
    ensures end { IfSome result (λ len. first_is greater_than_sign (drop len text.now) ≡ true) }
{
    let (local, rest) = split_bytes(text, InLocalPart);
    let Some(after) = strip(rest, b'@') else {
        return None;
    };
    let (host, end) = split_bytes(after, InHost);
    if local.is_empty() || !is_host(host) || !first_is(end, b'>') {
        return None;
    }
    Some(local.len() + 1 + host.len())
}

// ---- what `<` begins

/// What `<` begins: an autolink to an address of this length, raw HTML of this length behind it, or itself.
#[derive(Clone, Copy, Drop)]
pub(crate) enum AngleToken {
    Uri(usize),
    Email(usize),
    Tag(usize),
    Sign,
}

/// What `<` before this text begins.
pub(crate) fn angle(text: &[u8], missing: &mut Missing) -> AngleToken
    requires { AreMissing text.now missing.old }
    ensures missing { AreMissing text.now missing.new }
    ensures bound { IsWithin text.now result }
    ensures found { IsFound text.now result }
    ensures value { angle_of text.now result ≡ spec.angle text.now }
{
    if let Some(len) = uri(text) {
        return AngleToken::Uri(len);
    }
    if let Some(len) = email(text) {
        return AngleToken::Email(len);
    }
    match raw_tag(text, missing) {
        Some(len) => AngleToken::Tag(len),
        None => AngleToken::Sign,
    }
}
