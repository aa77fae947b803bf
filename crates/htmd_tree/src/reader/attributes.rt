//! The attributes of a start tag, and what their values denote.
ghost use Rattle.std.specs.Prelude.{◌≡◌, ◌<◌, suc, length, IfOk, MatchOption, option_map, Ok, Err, MatchResult};
ghost use Rattle.htmd_grammar.specs.Tags.{decode_values};
ghost use Rattle.htmd_scanning.specs.TagParts.{part_of};
ghost use Rattle.htmd_tree.specs.TagParts.{all_spelled_of, attribute_part, read_attributes};
ghost use Rattle.htmd_lexical.specs.Attributes.{pairs_of};
ghost use Rattle.std.specs.List.{list_any};
ghost use Rattle.htmd_grammar.specs.Rules.{named_characters};
ghost use Rattle.htmd_lexical.specs.CharacterClasses as classes;
ghost use Rattle.htmd_lexical.specs.TagReading as spec;
ghost use Rattle.htmd_grammar.specs.OpenElements as steps;

use crate::reader::references;
use crate::reader::scan::{Class, split_run};
use htmd_grammar::FaultKind;
use htmd_lexical::Attribute;
use htmd_scanning::{Part, SpelledAttribute, TagForm, are_distinct, quoted_value, strip_byte};
use std::alloc::{AllocError, Global};

fn unquoted_value<'a>(name: &'a str, text: &'a str) -> Part<'a>
    ensures { part_of result ≡ spec.unquoted_value name.now text.now }
{
    let (value, rest) = split_run(text, Class::UnquotedValue);
    if value.is_empty() {
        return Part::Malformed;
    }
    Part::Attribute {
        spelled: SpelledAttribute { name, value },
        rest,
    }
}

/// After `=` and white space.
fn value_part<'a>(name: &'a str, text: &'a str) -> Part<'a>
    ensures { part_of result ≡ spec.value_part name.now text.now }
{
    if let Some(value) = strip_byte(text, b'"') {
        return quoted_value(name, value, b'"');
    }
    if let Some(value) = strip_byte(text, b'\'') {
        return quoted_value(name, value, b'\'');
    }
    unquoted_value(name, text)
}

/// After the name of an attribute.
fn behind_name<'a>(name: &'a str, text: &'a str) -> Part<'a>
    ensures { part_of result ≡ spec.behind_attribute_name name.now text.now }
{
    let (_, sign) = split_run(text, Class::WhiteSpace);
    let Some(gap) = strip_byte(sign, b'=') else {
        return Part::Attribute {
            spelled: SpelledAttribute { name, value: "" },
            rest: text,
        };
    };
    let (_, value) = split_run(gap, Class::WhiteSpace);
    value_part(name, value)
}

/// Whether the text has one of the controls U+0080 to U+009F.
fn holds_control(bytes: &[u8]) -> bool
    ensures { result ≡ classes.holds_control bytes.now }
{
    let mut rest = bytes;
    while let [first, behind @ ..] = rest {
        if *first == 0xC2 && matches!(behind, [second, ..] if *second < 0xA0) {
            return true;
        }
        rest = behind;
    }
    false
}

/// An attribute, which begins with its name.
fn attribute(text: &str) -> Part<'_>
    ensures { part_of result ≡ attribute_part text.now }
{
    let (name, rest) = split_run(text, Class::AttributeName);
    if name.is_empty() {
        return Part::Malformed;
    }
    if holds_control(name.as_bytes()) {
        return Part::Malformed;
    }
    behind_name(name, rest)
}

/// After `/`.
fn behind_slash(text: &str) -> Part<'_>
    ensures { part_of result ≡ spec.behind_slash text.now }
{
    match strip_byte(text, b'>') {
        Some(rest) => Part::End { slash: true, rest },
        None => Part::Malformed,
    }
}

/// The next attribute, or the end of the tag.
#[tactic(auto)]
pub(crate) fn next_part(text: &str) -> Part<'_>
    ensures { part_of result ≡ spec.next_part text.now }
{
    let (gap, behind) = split_run(text, Class::WhiteSpace);
    if let Some(rest) = strip_byte(behind, b'>') {
        return Part::End { slash: false, rest };
    }
    if let Some(end) = strip_byte(behind, b'/') {
        return behind_slash(end);
    }
    if gap.is_empty() {
        return Part::Malformed;
    }
    attribute(behind)
}

/// The form of a start tag from just after its name: its attributes, its `/` and its `>`. None if the text there has no
/// such form; `Err` means out of memory.
pub(crate) fn tag_form<'a>(alloc: Global, text: &'a str) -> Result<Option<TagForm<'a>>, AllocError>
    ensures { IfOk result (λ o. MatchOption o
        (spec.form_within (suc (length text.now)) text.now ≡ spec.no_form)
        (λ f. spec.form_within (suc (length text.now)) text.now
        ≡ spec.form (all_spelled_of f.attributes.items) f.slash f.rest.now)) }
{
    let mut attributes = Vec::new(alloc);
    let mut behind = text;
    loop {
        match next_part(behind) {
            Part::Malformed => return Ok(None),
            Part::End { slash, rest } => {
                return Ok(Some(TagForm {
                    attributes,
                    slash,
                    rest,
                }));
            }
            Part::Attribute { spelled, rest } => {
                attributes.push(spelled)?;
                behind = rest;
            }
        }
    }
}

/// Whether a value has a reference by an unknown name.
fn has_unknown_reference(spelled: &[SpelledAttribute<'_>]) -> bool
    ensures { result
        ≡ list_any (λ a. steps.has_unknown_reference named_characters a.value) (all_spelled_of spelled.now) }
{
    for attribute in spelled {
        if references::has_unknown_reference(attribute.value) {
            return true;
        }
    }
    false
}

/// The attributes with what their values denote, if each reference is right.
fn decoded(
    alloc: Global,
    spelled: &[SpelledAttribute<'_>],
) -> Result<Option<Vec<Attribute>>, AllocError>
    ensures { IfOk result (λ answer. option_map (λ v. pairs_of v.items) answer
        ≡ decode_values named_characters (all_spelled_of spelled.now)) }
{
    let mut attributes = Vec::with_capacity(alloc, spelled.len())?;
    for attribute in spelled {
        let Some(value) = references::decoded(alloc, attribute.value)? else {
            return Ok(None);
        };
        let name = attribute.name.to_ascii_lowercase(alloc)?;
        attributes.push(Attribute { name, value })?;
    }
    Ok(Some(attributes))
}

/// The attributes with what the references in their values stand for. A fault is `UnknownReference`, `BadNumber` or
/// `DuplicateAttribute`, the first of these that fits.
pub(crate) fn attributes_of(
    alloc: Global,
    spelled: &[SpelledAttribute<'_>],
) -> Result<Result<Vec<Attribute>, FaultKind>, AllocError>
    ensures { IfOk result (λ answer. MatchResult answer
        (λ attributes. read_attributes (all_spelled_of spelled.now) ≡ Ok (pairs_of attributes.items))
        (λ kind. read_attributes (all_spelled_of spelled.now) ≡ Err kind)) }
{
    if has_unknown_reference(spelled) {
        return Ok(Err(FaultKind::UnknownReference));
    }
    let Some(attributes) = decoded(alloc, spelled)? else {
        return Ok(Err(FaultKind::BadNumber));
    };
    if !are_distinct(alloc, attributes.as_slice())? {
        return Ok(Err(FaultKind::DuplicateAttribute));
    }
    Ok(Ok(attributes))
}
