//! What the attributes of an element say.
ghost use Rattle.std.specs.Prelude.{◌≡◌, ◌≤◌, ◌<◌, ◌==◌, [], ◌∷◌, ◌++◌, not, true, All, IfOk, IfSome, OnOk};
ghost use Rattle.std.specs.Prelude.{MatchOption, length};
ghost use Rattle.std.specs.Prelude.{encode_utf8_all, filter, flat_map, string_bytes, pos, codes};
ghost use Rattle.std.specs.Char.{is_ascii_digit};
ghost use Rattle.std.specs.List.{list_all, list_any, prefix_len, suffix_len, slice_split};
ghost use Rattle.std.specs.Str.{chars};
ghost use Rattle.std.specs.Option.{option_copied, option_map};
ghost use Rattle.htmd_lexical.specs.Attributes.{pairs_of};
ghost use Rattle.htmd_lexical.specs.Characters.{space, semicolon};
ghost use Rattle.htmd_lexical.specs.WhiteSpace.{is_ascii_white_space};
ghost use Rattle.htmd_text.specs.Joins.{joined_texts};
ghost use Rattle.htmd_text.specs.Trims.{trimmed_text};
ghost use Rattle.htmd_shown.specs.Attributes as spec;
ghost use Rattle.htmd_document.specs.DocumentViews.{bytes_of_title};

use crate::shown_text::{is_all_shown, shown_text};
use htmd_document::Alignment;
use htmd_nodes::{Attribute, value_of};
use std::alloc::{AllocError, Global};

/// The value of the first attribute with this name, or nothing.
pub fn text_of<'a>(attrs: &'a [Attribute], name: &str) -> &'a str
    ensures { result.now ≡ spec.text_of name.now (pairs_of attrs.now) }
{
    match value_of(attrs, name) {
        Some(value) => value,
        None => "",
    }
}

// ---- words

/// A word, and what follows it.
#[derive(Clone, Copy)]
pub struct Word<'a> {
    pub word: &'a str,
    pub after: &'a str,
}

/// How many bytes of ASCII white space begin the text.
fn white_len(text: &[u8]) -> usize
    ensures bound { result ≤ length text.now }
    ensures value { result ≡ prefix_len is_ascii_white_space text.now }
{
    for (len, b) in text.iter().enumerate() {
        if !b.is_ascii_whitespace() {
            return len;
        }
    }
    text.len()
}

/// How many bytes come before the first ASCII white space.
fn word_len(text: &[u8]) -> usize
    ensures bound { result ≤ length text.now }
    ensures value { result ≡ prefix_len (λ b. not (is_ascii_white_space b)) text.now }
{
    for (len, b) in text.iter().enumerate() {
        if b.is_ascii_whitespace() {
            return len;
        }
    }
    text.len()
}

/// The first word of the text.
pub fn first_word(text: &str) -> Option<Word<'_>>
    ensures value { MatchOption result (spec.words text.now ≡ [])
        (λ w. spec.words text.now ≡ w.word.now ∷ spec.words w.after.now) }
    ensures shorter { IfSome result (λ w. length w.after.now < length text.now) }
{
    let text = &text[white_len(text.as_bytes())..];
    if text.is_empty() {
        return None;
    }
    let len = word_len(text.as_bytes());
    Some(Word {
        word: &text[..len],
        after: &text[len..],
    })
}

/// Appends words, each after a space.
fn push_words(line: &mut String, text: &str) -> Result<(), AllocError>
    ensures { OnOk result (string_bytes line.new
        ≡ string_bytes line.old ++ flat_map (λ word. space ∷ word) (spec.words text.now)) }
{
    let mut rest = text;
    while let Some(found) = first_word(rest) {
        line.push(' ')?;
        line.push_str(found.word)?;
        rest = found.after;
    }
    Ok(())
}

/// The words of the text, with a space between two.
pub fn joined_words(alloc: Global, text: &str) -> Result<String, AllocError>
    ensures { IfOk result (λ s. string_bytes s ≡ joined_texts (space ∷ []) (spec.words text.now)) }
{
    let Some(found) = first_word(text) else {
        return Ok(String::new(alloc));
    };
    let mut line = String::with_capacity(alloc, text.len())?;
    line.push_str(found.word)?;
    push_words(&mut line, found.after)?;
    Ok(line)
}

/// The words of the text in one line, without U+0000 and U+FEFF.
pub fn in_line(alloc: Global, text: &str) -> Result<String, AllocError>
    ensures { IfOk result (λ s. string_bytes s ≡ spec.in_line text.now) }
{
    if is_all_shown(text) {
        return joined_words(alloc, text);
    }
    let shown = shown_text(alloc, text)?;
    joined_words(alloc, shown.as_str())
}

/// The title in one line; none where it is blank.
pub fn title_of(alloc: Global, attrs: &[Attribute]) -> Result<Option<String>, AllocError>
    ensures { IfOk result (λ title. bytes_of_title title ≡ spec.title_of (pairs_of attrs.now)) }
{
    let Some(value) = value_of(attrs, "title") else {
        return Ok(None);
    };
    let title = in_line(alloc, value)?;
    if title.is_empty() {
        return Ok(None);
    }
    Ok(Some(title))
}

/// What an image says, in one line.
pub fn description_of(alloc: Global, attrs: &[Attribute]) -> Result<String, AllocError>
    ensures { IfOk result (λ s. string_bytes s ≡ spec.description_of (pairs_of attrs.now)) }
{
    in_line(alloc, text_of(attrs, "alt"))
}

// ---- addresses

/// Whether a byte is a space or a control below it.
pub fn is_space_or_control(b: u8) -> bool
    ensures { result ≡ spec.is_space_or_control b }
{
    b <= b' '
}

/// How many spaces and controls begin the text.
fn controls_len(text: &[u8]) -> usize
    ensures bound { result ≤ length text.now }
    ensures value { result ≡ prefix_len spec.is_space_or_control text.now }
{
    for (len, b) in text.iter().enumerate() {
        if !is_space_or_control(*b) {
            return len;
        }
    }
    text.len()
}

/// How many spaces and controls end the text.
fn last_controls_len(text: &[u8]) -> usize
    ensures bound { result ≤ length text.now }
    ensures value { result ≡ suffix_len spec.is_space_or_control text.now }
{
    let mut end = text.len();
    while end > 0 && is_space_or_control(text[end - 1]) {
        end -= 1;
    }
    text.len() - end
}

/// The text without spaces and controls at its ends.
pub fn without_controls_around(text: &str) -> &str
    ensures { result.now ≡ trimmed_text spec.is_space_or_control text.now }
{
    let text = &text[controls_len(text.as_bytes())..];
    &text[..text.len() - last_controls_len(text.as_bytes())]
}

/// Whether a character stays in an address: all but U+0000, tabs and line ends do.
pub fn is_in_address(c: char) -> bool
    ensures { result ≡ spec.is_in_address c }
{
    !matches!(c, '\0' | '\t' | '\n' | '\r')
}

/// Whether a space or a control is among bytes. All are looked at, so that a processor can compare many at once.
fn holds_space_or_control(bytes: &[u8]) -> bool
    ensures { result ≡ list_any spec.is_space_or_control bytes.now }
{
    // A number, since of a bool LLVM makes branches where this is inlined.
    let mut found = 0;
    for b in bytes {
        found = found.max(is_space_or_control(*b) as u8);
    }
    found == 1
}

/// An address as browsers take it, if it is a part of the text: no space and no control is in it.
pub fn whole_address(text: &str) -> Option<&str>
    ensures { IfSome result (λ a. a.now ≡ spec.address text.now) }
{
    let text = without_controls_around(text);
    if holds_space_or_control(text.as_bytes()) {
        return None;
    }
    Some(text)
}

/// An address as browsers take it: no white space or controls at the ends, no tabs and line ends in it, and no U+0000.
pub fn address(alloc: Global, text: &str) -> Result<String, AllocError>
    ensures { IfOk result (λ s. string_bytes s ≡ spec.address text.now) }
{
    let text = without_controls_around(text);
    if holds_space_or_control(text.as_bytes()) {
        kept_in_address(alloc, text)
    } else {
        String::from_str(alloc, text)
    }
}

/// The characters of a text that stay in an address.
fn kept_in_address(alloc: Global, text: &str) -> Result<String, AllocError>
    ensures { IfOk result (λ s. string_bytes s ≡ encode_utf8_all (filter spec.is_in_address (chars text.now))) }
{
    let mut address = String::with_capacity(alloc, text.len())?;
    for c in text.chars() {
        if is_in_address(c) {
            address.push(c)?;
        }
    }
    Ok(address)
}

/// Whether an address leads to a part of the page.
pub fn is_to_part(address: &str) -> bool
    ensures { result ≡ spec.is_to_part address.now }
{
    match address.as_bytes() {
        [first, ..] => *first == b'#',
        [] => false,
    }
}

/// Whether the address that an attribute gives leads to a part of the page.
pub fn leads_to_part(value: Option<&str>) -> bool
    ensures { result ≡ spec.leads_to_part (option_copied value.entry) }
{
    match value {
        Some(text) => is_to_part(without_controls_around(text)),
        None => false,
    }
}

// ---- numbers

/// A number that is greater than that of any item counts as this.
const GREATEST: i64 = 100_000_000_000_000_000;

/// How many ASCII digits begin the text.
fn digits_len(text: &[u8]) -> usize
    ensures bound { result ≤ length text.now }
    ensures value { result ≡ prefix_len is_ascii_digit text.now }
{
    for (len, b) in text.iter().enumerate() {
        if !b.is_ascii_digit() {
            return len;
        }
    }
    text.len()
}

/// The number of these digits.
fn number_of_digits(digits: &[u8]) -> i64
    requires { All (λ b. is_ascii_digit b ≡ true) digits.now }
    ensures value { result ≡ pos (spec.number_of_digits digits.now) }
    ensures bound { spec.number_of_digits digits.now ≤ spec.greatest_number }
{
    let mut number: i64 = 0;
    for digit in digits {
        number = (number * 10 + (*digit - b'0') as i64).min(GREATEST);
    }
    number
}

/// The number of the digits that begin the text.
fn leading_number(text: &[u8]) -> Option<i64>
    ensures { result ≡ option_map pos (spec.leading_number text.now) }
{
    let digits = &text[..digits_len(text)];
    if digits.is_empty() {
        return None;
    }
    Some(number_of_digits(digits))
}

/// The number that a text begins with, after white space (HTML, 2.3.4.1).
fn number(text: &[u8]) -> Option<i64>
    ensures { result ≡ spec.number text.now }
{
    match &text[white_len(text)..] {
        [b'+', digits @ ..] => leading_number(digits),
        [b'-', digits @ ..] => Some(-leading_number(digits)?),
        digits => leading_number(digits),
    }
}

/// The number that an attribute gives.
pub fn number_at(attrs: &[Attribute], name: &str) -> Option<i64>
    ensures { result ≡ spec.number_at name.now (pairs_of attrs.now) }
{
    number(text_of(attrs, name).as_bytes())
}

// ---- cells

/// How many columns a cell takes, 16 at most.
pub fn column_span(attrs: &[Attribute]) -> u8
    ensures { result ≡ spec.column_span (pairs_of attrs.now) }
{
    match number_at(attrs, "colspan") {
        Some(number) if number >= 0 => number.min(16).max(1) as u8,
        _ => 1,
    }
}

/// The same where a cell can take more columns, 1,000 at most.
pub fn wide_span(attrs: &[Attribute]) -> u16
    ensures { result ≡ spec.wide_span (pairs_of attrs.now) }
{
    match number_at(attrs, "colspan") {
        Some(number) if number >= 0 => number.min(1000).max(1) as u16,
        _ => 1,
    }
}

/// How many rows a cell takes; 0 stands for all further ones of its group.
pub fn row_span(attrs: &[Attribute]) -> u16
    ensures { result ≡ spec.row_span (pairs_of attrs.now) }
{
    match number_at(attrs, "rowspan") {
        Some(number) if number >= 0 => number.min(65534) as u16,
        _ => 1,
    }
}

/// The alignment with this name, in letters of any case.
fn alignment_named(name: &str) -> Option<Alignment>
    ensures { result ≡ spec.alignment_named name.now }
{
    if name.eq_ignore_ascii_case("left") {
        Some(Alignment::Left)
    } else if name.eq_ignore_ascii_case("center") {
        Some(Alignment::Center)
    } else if name.eq_ignore_ascii_case("right") {
        Some(Alignment::Right)
    } else {
        None
    }
}

/// The text without ASCII white space at its ends.
pub fn trimmed(text: &str) -> &str
    ensures { result.now ≡ spec.trimmed text.now }
{
    text.trim_ascii()
}

/// What a declaration of a style says about `text-align`.
fn alignment_of_declaration(declaration: &str) -> Option<Alignment>
    ensures { result ≡ spec.alignment_of_declaration declaration.now }
{
    let Some((name, value)) = declaration.split_once(':') else {
        return None;
    };
    if !trimmed(name).eq_ignore_ascii_case("text-align") {
        return None;
    }
    alignment_named(trimmed(value))
}

/// What the last declaration that says one says.
fn alignment_of_style(style: &str) -> Option<Alignment>
    ensures { result ≡ spec.alignment_of_declarations (slice_split (λ b. b == semicolon) style.now) }
{
    let mut last = None;
    for declaration in style.split(';') {
        match alignment_of_declaration(declaration) {
            Some(alignment) => last = Some(alignment),
            None => {}
        }
    }
    last
}

/// How a cell is aligned: by its style, else by its attribute.
pub fn alignment(attrs: &[Attribute]) -> Alignment
    ensures { result ≡ spec.alignment (pairs_of attrs.now) }
{
    if let Some(alignment) = alignment_of_style(text_of(attrs, "style")) {
        return alignment;
    }
    alignment_named(text_of(attrs, "align")).unwrap_or(Alignment::None)
}
