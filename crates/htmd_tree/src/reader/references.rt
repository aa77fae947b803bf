//! Characters and character references (HTML Standard, 13.1.4), and what texts with references denote.
ghost use Rattle.std.specs.Prelude.{◌≡◌, ◌≤◌, ◌<◌, ◌+◌, ℕ, Bool, length, drop, map, None, Some, if◌then◌else◌};
ghost use Rattle.std.specs.Prelude.{false, IfOk, slice_index, ⊤, MatchOption, option_map, string_bytes};
ghost use Rattle.htmd_lexical.specs.CharacterClasses.{first_is, leading_run};
ghost use Rattle.htmd_lexical.specs.Characters.{number_sign, semicolon};
ghost use Rattle.htmd_tree.specs.DecodedCharacters.{entry, piece_of, IsPieceEnd, is_itself, HasPushed};
ghost use Rattle.std.specs.Str.{IsUtf8};
ghost use Rattle.htmd_grammar.specs.OpenElements.{has_unknown_reference, is_unknown};
ghost use Rattle.htmd_grammar.specs.References.{behind, decode};
ghost use Rattle.htmd_grammar.specs.Rules.{named_characters};
ghost use Rattle.htmd_grammar.specs.References as spec;
ghost use Rattle.htmd_lexical.specs.Numbers as numbers;
ghost use Rattle.htmd_grammar.specs.Rules as rules;

use htmd_grammar::FaultKind;
use htmd_scanning::{
    alphanumeric_len, begins_in_any_case, digits_len, first_is, hexdigits_len, number,
};
use std::alloc::{AllocError, Global};

/// The names that references may have, and their characters.
const NAMES: [(&str, char); 44] = [
    ("amp", '&'),
    ("lt", '<'),
    ("gt", '>'),
    ("quot", '"'),
    ("apos", '\''),
    ("nbsp", '\u{a0}'),
    ("copy", '\u{a9}'),
    ("reg", '\u{ae}'),
    ("deg", '\u{b0}'),
    ("middot", '\u{b7}'),
    ("laquo", '\u{ab}'),
    ("raquo", '\u{bb}'),
    ("frac12", '\u{bd}'),
    ("times", '\u{d7}'),
    ("agrave", '\u{e0}'),
    ("auml", '\u{e4}'),
    ("ccedil", '\u{e7}'),
    ("egrave", '\u{e8}'),
    ("eacute", '\u{e9}'),
    ("ouml", '\u{f6}'),
    ("uuml", '\u{fc}'),
    ("szlig", '\u{df}'),
    ("ndash", '\u{2013}'),
    ("mdash", '\u{2014}'),
    ("lsquo", '\u{2018}'),
    ("rsquo", '\u{2019}'),
    ("ldquo", '\u{201c}'),
    ("rdquo", '\u{201d}'),
    ("bull", '\u{2022}'),
    ("hellip", '\u{2026}'),
    ("euro", '\u{20ac}'),
    ("trade", '\u{2122}'),
    ("iexcl", '\u{a1}'),
    ("cent", '\u{a2}'),
    ("pound", '\u{a3}'),
    ("yen", '\u{a5}'),
    ("sect", '\u{a7}'),
    ("plusmn", '\u{b1}'),
    ("micro", '\u{b5}'),
    ("para", '\u{b6}'),
    ("iquest", '\u{bf}'),
    ("aacute", '\u{e1}'),
    ("iacute", '\u{ed}'),
    ("ntilde", '\u{f1}'),
];

/// A character that a text stands for, and how many bytes after the first one belong to it.
#[derive(Clone, Copy, Drop)]
pub(crate) struct Character {
    pub(crate) value: char,
    pub(crate) behind: usize,
}

/// The character with this name.
fn character_named(name: &[u8], names: &[(&str, char)]) -> Option<char>
    ensures { result ≡ rules.character_named (map entry names.now) name.now }
{
    for (known, character) in names {
        if name == known.as_bytes() {
            return Some(*character);
        }
    }
    None
}

/// Whether this is the number of a control above ASCII.
fn is_control(number: u32) -> bool
    ensures { result ≡ numbers.is_between 0x80 0x9F number }
{
    0x80 <= number && number <= 0x9F
}

/// The character of this number, if a reference may name it.
fn character_numbered(number: u32) -> Option<char>
    ensures { result ≡ if spec.may_be_numbered number then Some number else None }
{
    if number == 0 {
        return None;
    }
    if is_control(number) {
        return None;
    }
    char::from_u32(number)
}

/// A reference by a number, with this many digits after this many bytes.
fn reference_by_number(
    behind: &[u8],
    from: usize,
    len: usize,
    base: u32,
) -> Result<Character, FaultKind>
    requires small { base ≤ 16 }
    requires base { 0 < base }
    requires within { from + len ≤ length behind.now }
    ensures piece { (is_digit : ℕ → Bool) → is_digit semicolon ≡ false
        → len ≡ length (leading_run is_digit (drop from behind.now))
        → piece_of result ≡ spec.number_at is_digit base from (drop from behind.now) }
    ensures end { IfOk result (λ c. IsPieceEnd behind.now c.behind) }
{
    let end = from + len;
    if len == 0 || !first_is(&behind[end..], b';') {
        return Err(FaultKind::BadNumber);
    }
    match character_numbered(number(&behind[from..end], base)) {
        Some(value) => Ok(Character {
            value,
            behind: end + 1,
        }),
        None => Err(FaultKind::BadNumber),
    }
}

/// A reference by a name, or `&` itself.
fn reference_by_name(behind: &[u8]) -> Result<Character, FaultKind>
    requires { first_is number_sign behind.now ≡ false }
    ensures piece { piece_of result ≡ spec.behind_ampersand rules.named_characters behind.now }
    ensures end { IfOk result (λ c. IsPieceEnd behind.now c.behind) }
{
    let len = alphanumeric_len(behind);
    if len == 0 || !first_is(&behind[len..], b';') {
        return Ok(Character {
            value: '&',
            behind: 0,
        });
    }
    match character_named(&behind[..len], &NAMES) {
        Some(value) => Ok(Character {
            value,
            behind: len + 1,
        }),
        None => Err(FaultKind::UnknownReference),
    }
}

/// What stands at an `&`, given what follows it: a reference, or `&` itself.
fn reference(behind: &[u8]) -> Result<Character, FaultKind>
    ensures piece { piece_of result ≡ spec.behind_ampersand rules.named_characters behind.now }
    ensures end { IfOk result (λ c. IsPieceEnd behind.now c.behind) }
{
    if !first_is(behind, b'#') {
        return reference_by_name(behind);
    }
    if begins_in_any_case(&behind[1..], b"x") {
        let len = hexdigits_len(&behind[2..]);
        reference_by_number(behind, 2, len, 16)
    } else {
        let len = digits_len(&behind[1..]);
        reference_by_number(behind, 1, len, 10)
    }
}

/// The character that an ASCII character, or a reference that begins with it, stands for. CR LF and a lone CR are a
/// line feed.
pub(crate) fn character_at(first: u8, behind: &[u8]) -> Result<Character, FaultKind>
    requires { first < 128 }
    ensures piece { piece_of result ≡ spec.piece_at rules.named_characters first behind.now }
    ensures end { IfOk result (λ c. IsPieceEnd behind.now c.behind) }
{
    match first {
        b'&' => reference(behind),
        b'\r' => Ok(Character {
            value: '\n',
            behind: usize::from(first_is(behind, b'\n')),
        }),
        _ => Ok(Character {
            value: char::from(first),
            behind: 0,
        }),
    }
}

/// How many bytes at the beginning are characters that stand for themselves: no `&` and no CR.
fn literal_len(bytes: &[u8]) -> usize
    ensures bound { result ≤ length bytes.now }
    ensures value { result ≡ length (leading_run is_itself bytes.now) }
{
    let mut len = 0;
    while len < bytes.len() && bytes[len] != b'&' && bytes[len] != b'\r' {
        len += 1;
    }
    len
}

/// Appends the characters that stand for themselves to a value. Returns what is left, from an `&` or a CR on.
fn push_literal<'a>(value: &mut String, text: &'a str) -> Result<&'a str, AllocError>
    ensures pushed { IfOk result (λ rest.
        HasPushed (string_bytes value.old) text.now (string_bytes value.new) rest.now) }
    ensures special { IfOk result (λ rest. 0 < length rest.now → slice_index rest.now 0 < 128) }
    ensures text { IfOk result (λ rest. IsUtf8 rest.now) }
    ensures bound { IfOk result (λ rest. length rest.now ≤ length text.now) }
{
    let (literal, special) = text.split_at(literal_len(text.as_bytes()));
    value.push_str(literal)?;
    Ok(special)
}

/// Appends the character with which the text begins to a value. Returns what is left; nothing if a reference isn't
/// right.
fn push_character<'a>(value: &mut String, text: &'a str) -> Result<Option<&'a str>, AllocError>
    requires more { 0 < length text.now }
    requires ascii { slice_index text.now 0 < 128 }
    ensures pushed { IfOk result (λ o. MatchOption o (decode named_characters 0 text.now ≡ None)
        (λ rest. HasPushed (string_bytes value.old) text.now (string_bytes value.new) rest.now)) }
    ensures text { IfOk result (λ o. MatchOption o ⊤ (λ rest. IsUtf8 rest.now)) }
    ensures shorter { IfOk result (λ o. MatchOption o ⊤ (λ rest. length rest.now < length text.now)) }
{
    let bytes = text.as_bytes();
    match character_at(bytes[0], &bytes[1..]) {
        Ok(character) => {
            value.push(character.value)?;
            Ok(Some(&text[1 + character.behind..]))
        }
        Err(_) => Ok(None),
    }
}

/// What the text denotes, if each reference in it is right.
pub(crate) fn decoded(alloc: Global, text: &str) -> Result<Option<String>, AllocError>
    ensures { IfOk result (λ value. option_map string_bytes value ≡ decode named_characters 0 text.now) }
{
    let mut value = String::new(alloc);
    let mut rest = push_literal(&mut value, text)?;
    while !rest.is_empty() {
        let Some(behind) = push_character(&mut value, rest)? else {
            return Ok(None);
        };
        rest = push_literal(&mut value, behind)?;
    }
    Ok(Some(value))
}

/// Whether this is a reference by an unknown name.
fn is_unknown(character: Result<Character, FaultKind>) -> bool
    ensures { result ≡ is_unknown (piece_of character) }
{
    matches!(character, Err(FaultKind::UnknownReference))
}

/// Whether the text has a reference by an unknown name.
pub(crate) fn has_unknown_reference(text: &str) -> bool
    ensures { result ≡ has_unknown_reference named_characters text.now }
{
    let mut rest = text.as_bytes();
    while let [first, behind @ ..] = rest {
        if *first == b'&' && is_unknown(character_at(*first, behind)) {
            return true;
        }
        rest = behind;
    }
    false
}
