//! What is in a tag after its name: attributes, its `/` and its `>`.
ghost use Rattle.std.specs.Prelude.{◌≡◌, ◌<◌, false, length};
ghost use Rattle.htmd_lexical.specs.CharacterClasses.{is_empty};
ghost use Rattle.htmd_html5_tokens.specs.Tags as spec;
ghost use Rattle.htmd_html5_tokens.specs.TagViews.{attribute_part};
ghost use Rattle.htmd_scanning.specs.TagParts.{part_of};

use crate::classes::{Class, split_run};
use htmd_scanning::{Part, SpelledAttribute, quoted_value, run_len, strip_byte};

/// An attribute from its value on, after `=` and white space.
fn value_part<'a>(name: &'a str, text: &'a str) -> Part<'a>
    ensures { part_of result ≡ spec.value_part name.now text.now }
{
    if let Some(value) = strip_byte(text, b'"') {
        return quoted_value(name, value, b'"');
    }
    if let Some(value) = strip_byte(text, b'\'') {
        return quoted_value(name, value, b'\'');
    }
    let (value, rest) = split_run(text, Class::UnquotedValue);
    Part::Attribute {
        spelled: SpelledAttribute { name, value },
        rest,
    }
}

/// An attribute from just after its name.
fn after_name<'a>(name: &'a str, text: &'a str) -> Part<'a>
    ensures { part_of result ≡ spec.after_attribute_name name.now text.now }
{
    let (_, sign) = split_run(text, Class::White);
    let Some(gap) = strip_byte(sign, b'=') else {
        return Part::Attribute {
            spelled: SpelledAttribute { name, value: "" },
            rest: text,
        };
    };
    let (_, value) = split_run(gap, Class::White);
    value_part(name, value)
}

/// An attribute, which begins with its name, whatever its first character is.
#[inline(always)]
fn attribute(text: &str) -> Part<'_>
    requires { 0 < length text.now }
    ensures { part_of result ≡ attribute_part text.now }
{
    let len = 1 + run_len(&text.as_bytes()[1..], Class::AttributeName);
    let (name, rest) = text.split_at(len);
    after_name(name, rest)
}

/// Whether the last character is `/`.
fn ends_in_slash(bytes: &[u8]) -> bool
    ensures { result ≡ spec.ends_in_slash bytes.now }
{
    match bytes {
        [.., last] => *last == b'/',
        [] => false,
    }
}

/// The next attribute, or the end of the tag.
#[inline(always)]
pub(crate) fn next_part(text: &str) -> Part<'_>
    ensures { part_of result ≡ spec.next_part text.now }
{
    let (gap, after) = split_run(text, Class::Gap);
    if after.is_empty() {
        return Part::Malformed;
    }
    match strip_byte(after, b'>') {
        Some(rest) => Part::End {
            slash: ends_in_slash(gap.as_bytes()),
            rest,
        },
        None => attribute(after),
    }
}
