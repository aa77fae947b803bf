//! Start tags and end tags.
ghost use Rattle.std.specs.Prelude.{◌≡◌, ◌++◌, ◌∷◌, [], false, if◌then◌else◌, option_map, IfOk, MatchOption, OnOk};
ghost use Rattle.htmd_lexical.specs.Attributes.{pair_of, pairs_of};
ghost use Rattle.htmd_html5_tokens.specs.Tags as spec;
ghost use Rattle.htmd_html5_tokens.specs.Firsts.{split_mark, those_marked};
ghost use Rattle.htmd_html5_tokens.specs.TagViews.{spelled_of, denoted};
ghost use Rattle.htmd_html5_tokens.specs.Tokens.{tag_of, start_tag, end_tag};
ghost use Rattle.htmd_html5_tokens.specs.Readings.{read_of};

use crate::attributes::next_part;
use crate::classes::{Class, split_run};
use crate::contents::{Reading, decoded, name_of, tag_name_of};
use crate::distinct::first_marks;
use crate::tokens::{Tag, Token};
use htmd_lexical::Attribute;
use htmd_scanning::{Part, SpelledAttribute, are_distinct, strip_byte};
use std::alloc::{AllocError, Global};

/// Up to this many attributes of a tag take no more room than they need.
const FEW: usize = 2;

/// What follows the name of a tag, with what each attribute denotes, and what follows the tag.
#[derive(Drop)]
struct DenotedForm<'a> {
    attributes: Vec<Attribute>,
    slash: bool,
    rest: &'a str,
}

/// What a spelled attribute denotes.
fn attribute_of(alloc: Global, spelled: &SpelledAttribute<'_>) -> Result<Attribute, AllocError>
    ensures { IfOk result (λ a. pair_of a ≡ spec.attribute_of (spelled_of spelled.now)) }
{
    let name = name_of(alloc, spelled.name)?;
    let value = decoded(alloc, spelled.value, Reading::AttributeValue)?;
    Ok(Attribute { name, value })
}

/// The first mark, and the others.
fn split_mark(marks: &[bool]) -> Option<(bool, &[bool])>
    ensures { option_map (λ p. (p.0, p.1.now)) result ≡ split_mark marks.now }
{
    match marks {
        [mark, after @ ..] => Some((*mark, after)),
        [] => None,
    }
}

/// Those of the attributes that are marked.
fn marked(
    alloc: Global,
    attributes: Vec<Attribute>,
    marks: &[bool],
) -> Result<Vec<Attribute>, AllocError>
    ensures { IfOk result (λ v. pairs_of v.items ≡ those_marked (pairs_of attributes.items) marks.now) }
{
    let mut kept = Vec::new(alloc);
    let mut rest = marks;
    for attribute in attributes {
        let Some((mark, after)) = split_mark(rest) else {
            return Ok(kept);
        };
        if mark {
            kept.push(attribute)?;
        }
        rest = after;
    }
    Ok(kept)
}

/// The attributes that count: of those with one name only the first.
fn firsts(alloc: Global, attributes: Vec<Attribute>) -> Result<Vec<Attribute>, AllocError>
    ensures { IfOk result (λ v. pairs_of v.items ≡ spec.firsts [] (pairs_of attributes.items)) }
{
    if are_distinct(alloc, attributes.as_slice())? {
        return Ok(attributes);
    }
    let marks = first_marks(alloc, attributes.as_slice())?;
    marked(alloc, attributes, marks.as_slice())
}

/// Appends an attribute. Few of them take no more room than they need, since most tags have few.
fn push_attribute(attributes: &mut Vec<Attribute>, attribute: Attribute) -> Result<(), AllocError>
    ensures { OnOk result (attributes.new.items ≡ attributes.old.items ++ attribute ∷ []) }
{
    if attributes.len() < FEW {
        attributes.reserve_exact(1)?;
    }
    attributes.push(attribute)?;
    Ok(())
}

/// What follows the name of a tag, with what each attribute denotes. None if the text ends in the tag.
fn denoted_form<'a>(alloc: Global, text: &'a str) -> Result<Option<DenotedForm<'a>>, AllocError>
    ensures { IfOk result (λ o. MatchOption o (denoted (spec.tag_form text.now) ≡ spec.unended)
        (λ f. denoted (spec.tag_form text.now) ≡ spec.ended (pairs_of f.attributes.items) f.slash f.rest.now)) }
{
    let mut attributes = Vec::new(alloc);
    let mut after = text;
    loop {
        match next_part(after) {
            Part::Malformed => return Ok(None),
            Part::End { slash, rest } => {
                return Ok(Some(DenotedForm {
                    attributes,
                    slash,
                    rest,
                }));
            }
            Part::Attribute { spelled, rest } => {
                push_attribute(&mut attributes, attribute_of(alloc, &spelled)?)?;
                after = rest;
            }
        }
    }
}

/// A tag, and what follows it.
#[inline(always)]
fn read_of_tag<'a>(tag: Tag<'a>, ends: bool, rest: &'a str) -> (Token<'a>, &'a str)
    ensures { read_of result
        ≡ record { token = (if ends then end_tag else start_tag) (tag_of tag.entry); rest = rest.now } }
{
    if ends {
        (Token::EndTag(tag), rest)
    } else {
        (Token::StartTag(tag), rest)
    }
}

/// A tag with this name and nothing else.
#[inline(always)]
fn plain_tag(alloc: Global, name: &str) -> Result<Tag<'_>, AllocError>
    ensures { IfOk result (λ t. tag_of t ≡ spec.tag_value name.now [] false) }
{
    Ok(Tag {
        name: tag_name_of(alloc, name)?,
        attributes: Vec::new(alloc),
        self_closing: false,
    })
}

/// A tag with this name from just after that, and what follows it; the end of the file, if the text ends in the tag.
#[tactic(auto, using(crate::proofs::TagsLemmas::token_denoted, crate::proofs::TagsLemmas::unended_denoted))]
fn tag_with_attributes<'a>(
    alloc: Global,
    name: &'a str,
    after: &'a str,
    ends: bool,
) -> Result<(Token<'a>, &'a str), AllocError>
    ensures { IfOk result (λ r. read_of r
        ≡ spec.tag_token (if ends then end_tag else start_tag) name.now (spec.tag_form after.now)) }
{
    let Some(form) = denoted_form(alloc, after)? else {
        return Ok((Token::EndOfFile, ""));
    };
    let tag = Tag {
        name: tag_name_of(alloc, name)?,
        attributes: firsts(alloc, form.attributes)?,
        self_closing: form.slash,
    };
    Ok(read_of_tag(tag, ends, form.rest))
}

/// A tag from its name on, and what follows it; if the text ends within the tag, the end of the file. Most tags have
/// nothing but a name.
#[tactic(auto, using(crate::proofs::TagsLemmas::plain_form))]
#[inline(always)]
fn tag_from_name(alloc: Global, text: &str, ends: bool) -> Result<(Token<'_>, &str), AllocError>
    ensures { IfOk result (λ r. read_of r ≡ spec.tag_from_name (if ends then end_tag else start_tag) text.now) }
{
    let (name, after) = split_run(text, Class::Name);
    let Some(rest) = strip_byte(after, b'>') else {
        return tag_with_attributes(alloc, name, after, ends);
    };
    let tag = plain_tag(alloc, name)?;
    Ok(read_of_tag(tag, ends, rest))
}

/// A tag from just after its `<`, and what follows it.
#[inline(always)]
pub(crate) fn read_tag(alloc: Global, text: &str) -> Result<(Token<'_>, &str), AllocError>
    ensures { IfOk result (λ r. read_of r ≡ spec.read_tag text.now) }
{
    let (name, ends) = match strip_byte(text, b'/') {
        Some(name) => (name, true),
        None => (text, false),
    };
    tag_from_name(alloc, name, ends)
}

/// A tag from its name on, and what follows it, whatever is in the tag; if the text ends within the tag, the end of the
/// file.
fn any_tag_from_name(alloc: Global, text: &str, ends: bool) -> Result<(Token<'_>, &str), AllocError>
    ensures { IfOk result (λ r. read_of r ≡ spec.tag_from_name (if ends then end_tag else start_tag) text.now) }
{
    let (name, after) = split_run(text, Class::Name);
    tag_with_attributes(alloc, name, after, ends)
}

/// The same as `read_tag`, for the tags that end raw texts, of which there are few.
pub(crate) fn read_tag_of_raw(alloc: Global, text: &str) -> Result<(Token<'_>, &str), AllocError>
    ensures { IfOk result (λ r. read_of r ≡ spec.read_tag text.now) }
{
    match strip_byte(text, b'/') {
        Some(name) => any_tag_from_name(alloc, name, true),
        None => any_tag_from_name(alloc, text, false),
    }
}
