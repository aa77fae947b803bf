//! The text of a page's bytes.
ghost use Rattle.std.specs.Prelude.{◌≡◌, IfOk, IsOkAnd, IsUtf8, MatchOption, string_bytes};
ghost use Rattle.std.specs.Char.Utf16.{is_high_surrogate};
ghost use Rattle.std.specs.Cow.{cow_str_bytes};
ghost use Rattle.std.specs.Str.Lossy.{utf8_lossy};
ghost use Rattle.htmd_encodings.specs.Decoding as spec;
ghost use Rattle.htmd_encodings.specs.Utf16.{code_unit, code_units, utf16_text};
ghost use Rattle.htmd_encodings.specs.declared.encodings.Encoding.TheVariants as held;

use crate::encodings::{ByteOrder, Encoding, SingleByte};
use crate::indexes::index_of;
use crate::iso_2022_jp::iso_2022_jp_text;
use crate::multi_byte::multi_byte_text;
use crate::prescan::{prescan, search};
use htmd_scanning::begins_with;
use std::alloc::{AllocError, Global};
use std::borrow::CowStr;

/// The text of a page's bytes. A mark at their beginning says the encoding, and else the one that is given is taken. If
/// none is given, bytes that are UTF-8 are the text itself, and others are searched for what the page says: the first
/// 1,024, and only if they say nothing the rest, for a `meta`. If it says nothing at all, they are windows-1252. A page
/// that says ISO-2022-JP in its first 1,024 bytes, or begins with an XML declaration in UTF-16, is taken at its word
/// even if it could be UTF-8.
pub fn page_text(
    alloc: Global,
    given: Option<Encoding>,
    bytes: &[u8],
) -> Result<CowStr<'_>, AllocError>
    ensures ok { IfOk result (λ text. cow_str_bytes text ≡ spec.page_text given bytes.now) }

    // Bytes that are UTF-8 are the text itself, and need no memory, unless they are in another encoding.
    ensures utf8 { IsUtf8 bytes.now → spec.encoding_of given bytes.now ≡ held.Utf8
        → IsOkAnd result (λ text. cow_str_bytes text ≡ bytes.now) }
{
    if let Some(encoding) = marked(bytes) {
        return decoded(alloc, encoding, bytes);
    }
    if let Some(encoding) = given {
        return decoded(alloc, encoding, bytes);
    }
    guessed(alloc, bytes)
}

/// The encoding that a mark says.
fn marked(bytes: &[u8]) -> Option<Encoding>
    ensures { result ≡ spec.marked bytes.now }
{
    match bytes {
        [0xEF, 0xBB, 0xBF, ..] => Some(Encoding::Utf8),
        [0xFE, 0xFF, ..] => Some(Encoding::Utf16(ByteOrder::BigEndian)),
        [0xFF, 0xFE, ..] => Some(Encoding::Utf16(ByteOrder::LittleEndian)),
        _ => None,
    }
}

/// How many bytes are searched first.
const SEARCHED: usize = 1024;

// What the page says of its encoding in its first bytes.
fn said(bytes: &[u8]) -> Option<Encoding>
    ensures { result ≡ spec.said bytes.now }
{
    match bytes.split_at_checked(SEARCHED) {
        Some((front, _)) => prescan(front),
        None => prescan(bytes),
    }
}

// What the page says anywhere, if its first bytes say this.
fn said_anywhere(said: Option<Encoding>, bytes: &[u8]) -> Option<Encoding>
    ensures { result ≡ spec.said_anywhere said bytes.now }
{
    match said {
        Some(named) => Some(named),
        None => search(bytes),
    }
}

// Whether what a page says is believed even if its bytes are UTF-8.
fn outweighs_utf8(said: Option<Encoding>) -> bool
    ensures { result ≡ spec.outweighs_utf8 said }
{
    matches!(said, Some(Encoding::Utf16(_) | Encoding::Iso2022Jp))
}

// What the page says, or windows-1252.
fn said_or_default(said: Option<Encoding>) -> Encoding
    ensures { result ≡ spec.said_or_default said }
{
    match said {
        Some(named) => named,
        None => Encoding::SingleByte(SingleByte::Windows1252),
    }
}

// The text of bytes that are UTF-8, unless what the page says in its first bytes outweighs that.
#[tactic(auto, using(crate::proofs::DecodingLemmas::believed_other, crate::proofs::DecodingLemmas::believed_said))]
fn as_utf8(bytes: &[u8], said: Option<Encoding>) -> Option<&str>
    ensures { MatchOption result
        (spec.believed said bytes.now ≡ spec.said_or_default (spec.said_anywhere said bytes.now))
        (λ text. (spec.believed said bytes.now ≡ held.Utf8) × (text.now ≡ bytes.now)
        × (utf8_lossy bytes.now ≡ bytes.now)) }
{
    if outweighs_utf8(said) {
        return None;
    }
    match str::from_utf8(bytes) {
        Ok(text) => Some(text),
        Err(_) => None,
    }
}

// The text when nothing is given and no mark is there.
fn guessed(alloc: Global, bytes: &[u8]) -> Result<CowStr<'_>, AllocError>
    ensures ok { IfOk result (λ text. cow_str_bytes text ≡ spec.decoded (spec.guessed bytes.now) bytes.now) }
    ensures utf8 { IsUtf8 bytes.now → spec.guessed bytes.now ≡ held.Utf8
        → IsOkAnd result (λ text. cow_str_bytes text ≡ bytes.now) }
{
    let said = said(bytes);
    if let Some(text) = as_utf8(bytes, said) {
        return Ok(CowStr::Borrowed(text));
    }
    decoded(alloc, said_or_default(said_anywhere(said, bytes)), bytes)
}

/// The text in an encoding.
fn decoded(alloc: Global, encoding: Encoding, bytes: &[u8]) -> Result<CowStr<'_>, AllocError>
    ensures ok { IfOk result (λ text. cow_str_bytes text ≡ spec.decoded encoding bytes.now) }
    ensures utf8 { IsUtf8 bytes.now → encoding ≡ held.Utf8
        → IsOkAnd result (λ text. cow_str_bytes text ≡ bytes.now) }
{
    match encoding {
        Encoding::Utf8 => utf8(alloc, bytes),
        Encoding::Utf16(order) => Ok(CowStr::Owned(utf16(alloc, unmarked(bytes), order)?)),
        Encoding::SingleByte(encoding) => {
            Ok(CowStr::Owned(text_by(alloc, index_of(encoding), bytes)?))
        }
        Encoding::MultiByte(encoding) => Ok(CowStr::Owned(multi_byte_text(
            alloc, encoding, bytes,
        )?)),
        Encoding::Iso2022Jp => Ok(CowStr::Owned(iso_2022_jp_text(alloc, bytes)?)),
        Encoding::Replacement => Ok(CowStr::Borrowed(replacement_text(bytes))),
    }
}

// The text of UTF-8.
#[tactic(auto, using(crate::proofs::DecodingLemmas::lossy_of_utf8))]
fn utf8(alloc: Global, bytes: &[u8]) -> Result<CowStr<'_>, AllocError>
    ensures ok { IfOk result (λ text. cow_str_bytes text ≡ utf8_lossy bytes.now) }
    ensures utf8 { IsUtf8 bytes.now → IsOkAnd result (λ text. cow_str_bytes text ≡ bytes.now) }
{
    match str::from_utf8(bytes) {
        Ok(text) => Ok(CowStr::Borrowed(text)),
        Err(_) => Ok(CowStr::Owned(String::from_utf8_lossy(alloc, bytes)?)),
    }
}

// The bytes without the mark of UTF-16.
fn unmarked(bytes: &[u8]) -> &[u8]
    ensures { result.now ≡ spec.unmarked bytes.now }
{
    match bytes {
        [0xFE, 0xFF, after @ ..] | [0xFF, 0xFE, after @ ..] => after,
        _ => bytes,
    }
}

// The text of UTF-16.
fn utf16(alloc: Global, bytes: &[u8], order: ByteOrder) -> Result<String, AllocError>
    ensures { IfOk result (λ text. string_bytes text ≡ utf16_text order bytes.now) }
{
    let units = units_of(alloc, bytes, order)?;
    String::from_utf16_lossy(alloc, units.as_slice())
}

// U+FFFD, which stands for what can't be decoded.
const REPLACEMENT: u16 = 0xFFFD;

// The code units, with U+FFFD for an odd byte at the end unless a leading surrogate waits before it.
fn units_of(alloc: Global, bytes: &[u8], order: ByteOrder) -> Result<Vec<u16>, AllocError>
    ensures { IfOk result (λ units. units.items ≡ code_units order bytes.now) }
{
    let mut units = Vec::with_capacity(alloc, bytes.len().div_ceil(2))?;
    let mut rest = bytes;
    let mut waits = false;
    while let [first, second, after @ ..] = rest {
        let unit = unit_of(*first, *second, order);
        waits = is_leading_surrogate(unit);
        units.push(unit)?;
        rest = after;
    }
    if !rest.is_empty() && !waits {
        units.push(REPLACEMENT)?;
    }
    Ok(units)
}

// Whether a code unit is the first of a pair.
fn is_leading_surrogate(unit: u16) -> bool
    ensures { result ≡ is_high_surrogate unit }
{
    matches!(unit, 0xD800..=0xDBFF)
}

// The code unit of two bytes.
fn unit_of(first: u8, second: u8, order: ByteOrder) -> u16
    ensures { result ≡ code_unit order first second }
{
    match order {
        ByteOrder::BigEndian => u16::from_be_bytes([first, second]),
        ByteOrder::LittleEndian => u16::from_le_bytes([first, second]),
    }
}

// One error for any bytes.
#[tactic(auto, using(crate::proofs::DecodingLemmas::replaced))]
fn replacement_text(bytes: &[u8]) -> &'static str
    ensures { result.now ≡ spec.replacement_text bytes.now }
{
    match bytes {
        [] => "",
        [_, ..] => "\u{fffd}",
    }
}

// The text by the index of a single-byte encoding.
fn text_by(alloc: Global, index: &[char; 128], bytes: &[u8]) -> Result<String, AllocError>
    ensures { IfOk result (λ text. string_bytes text ≡ spec.text_by index.now bytes.now) }
{
    let room = bytes.iter().fold(
        0usize,
        |room, &byte| room.saturating_add(character(index, byte).len_utf8()),
    );
    let mut text = String::with_capacity(alloc, room)?;
    for &byte in bytes {
        text.push(character(index, byte))?;
    }
    Ok(text)
}

// The character of a byte.
fn character(index: &[char; 128], byte: u8) -> char
    ensures { result ≡ spec.character index.now byte }
{
    match byte {
        0x80..=0xFF => index[byte as usize - 0x80],
        _ => char::from(byte),
    }
}
