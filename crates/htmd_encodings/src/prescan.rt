//! The search for a page's declaration of its encoding.
ghost use Rattle.std.specs.Prelude.{◌≡◌};
ghost use Rattle.htmd_encodings.specs.Prescan as spec;
ghost use Rattle.htmd_encodings.specs.Attributes as tags;
ghost use Rattle.htmd_encodings.specs.PrescanViews.{found_of, is_meta};
ghost use Rattle.htmd_lexical.specs.CharacterClasses.{behind_run};

use crate::attributes::tag;
use crate::cuts::{Class, after_first, split_run, strip_byte};
use crate::declarations::{in_attributes, in_declaration};
use crate::encodings::Encoding::Utf16;
use crate::encodings::{ByteOrder, Encoding};
use htmd_scanning::{begins_in_any_case, begins_with};

/// What is at a `<`.
enum Found<'a> {
    /// The page says its encoding there.
    Said(Encoding),
    /// It doesn't, and the search goes on here.
    Onward(&'a [u8]),
}

/// What follows the next `>`.
#[tactic(auto, using(crate::proofs::RunsLemmas::nothing_dropped))]
fn after_sign(bytes: &[u8]) -> &[u8]
    ensures { result.now ≡ spec.after_sign bytes.now }
{
    let (_, sign) = split_run(bytes, Class::Other(b'>'));
    match sign {
        [_, after @ ..] => after,
        [] => &[],
    }
}

/// What is at a `meta`, from just after its name.
fn found_in_meta(bytes: &[u8]) -> Found<'_>
    ensures { found_of result ≡ spec.found_in_meta (tags.tag bytes.now) }
{
    let Some((attributes, after)) = tag(bytes) else {
        return Found::Onward(&[]);
    };
    match in_attributes(attributes) {
        Some(named) => Found::Said(named),
        None => Found::Onward(after),
    }
}

/// What follows another tag, from its name.
fn after_tag(bytes: &[u8]) -> &[u8]
    ensures { result.now ≡ spec.behind_tag (tags.tag (behind_run tags.is_unquoted_byte bytes.now)) }
{
    let (_, parts) = split_run(bytes, Class::UnquotedValue);
    match tag(parts) {
        Some((_, after)) => after,
        None => &[],
    }
}

/// Whether a `meta` begins after a `<`.
fn is_meta(bytes: &[u8]) -> bool
    ensures { result ≡ is_meta bytes.now }
{
    if !begins_in_any_case(bytes, b"meta") {
        return false;
    }
    matches!(&bytes[4..], [byte, ..] if byte.is_ascii_whitespace() || *byte == b'/')
}

/// Whether a tag begins after a `<`.
fn is_tag(bytes: &[u8]) -> bool
    ensures { result ≡ spec.is_tag bytes.now }
{
    let name = match strip_byte(bytes, b'/') {
        Some(name) => name,
        None => bytes,
    };
    matches!(name, [first, ..] if first.is_ascii_alphabetic())
}

/// What is after a `<`.
fn found_after(bytes: &[u8]) -> Found<'_>
    ensures { found_of result ≡ spec.found_after bytes.now }
{
    if begins_with(bytes, b"!--") {
        return Found::Onward(after_first(&bytes[1..], b"-->"));
    }
    if is_meta(bytes) {
        return found_in_meta(&bytes[4..]);
    }
    if is_tag(bytes) {
        return Found::Onward(after_tag(bytes));
    }
    match bytes {
        [b'!' | b'/' | b'?', ..] => Found::Onward(after_sign(bytes)),
        _ => Found::Onward(bytes),
    }
}

/// The first encoding that is said in tags.
pub(crate) fn search(bytes: &[u8]) -> Option<Encoding>
    ensures { result ≡ spec.search bytes.now }
{
    let mut rest = bytes;
    loop {
        let (_, sign) = split_run(rest, Class::Other(b'<'));
        let [_, after @ ..] = sign else {
            return None;
        };
        match found_after(after) {
            Found::Said(named) => return Some(named),
            Found::Onward(next) => rest = next,
        }
    }
}

/// The encoding of bytes that begin with `<?x` in UTF-16.
fn utf16_declaration(bytes: &[u8]) -> Option<Encoding>
    ensures { result ≡ spec.utf16_declaration bytes.now }
{
    if begins_with(bytes, b"<\0?\0x\0") {
        return Some(Utf16(ByteOrder::LittleEndian));
    }
    if begins_with(bytes, b"\0<\0?\0x") {
        return Some(Utf16(ByteOrder::BigEndian));
    }
    None
}

/// The encoding that a page says in these bytes.
pub(crate) fn prescan(bytes: &[u8]) -> Option<Encoding>
    ensures { result ≡ spec.prescan bytes.now }
{
    if let Some(named) = utf16_declaration(bytes) {
        return Some(named);
    }
    if let Some(named) = search(bytes) {
        return Some(named);
    }
    in_declaration(bytes)
}
