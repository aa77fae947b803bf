//! The attributes of a tag, as far as they say something of the encoding.
ghost use Rattle.std.specs.Prelude.{◌≡◌, option_and_then, option_map};
ghost use Rattle.htmd_lexical.specs.TagReading as reading;
ghost use Rattle.htmd_encodings.specs.Attributes as spec;
ghost use Rattle.htmd_encodings.specs.ContentLabels as contents;
ghost use Rattle.htmd_encodings.specs.Labels as labels;
ghost use Rattle.htmd_encodings.specs.Views.{attribute_part, part_of, tag_of};

use crate::content_labels::content_label;
use crate::cuts::{Class, is_in_any_case, split_run, strip_byte};
use crate::encodings::Encoding;
use crate::labels::encoding_named;

/// What comes next in a tag after its name.
pub(crate) enum Part<'a> {
    /// The bytes end before that.
    Unended,
    End {
        rest: &'a [u8],
    },
    Attribute {
        name: &'a [u8],
        value: &'a [u8],
        rest: &'a [u8],
    },
}

/// What the first attributes of these names say of the encoding.
#[derive(Clone, Copy)]
pub(crate) struct Attributes {
    /// What `charset` names.
    pub(crate) charset: Option<Option<Encoding>>,
    /// What the label in `content` names.
    pub(crate) content: Option<Option<Encoding>>,
    /// Whether `http-equiv` is `content-type`.
    pub(crate) http_equiv: Option<bool>,
}

/// A value between quotes; the first one comes before the bytes.
fn quoted_value<'a>(name: &'a [u8], bytes: &'a [u8], quote: u8) -> Part<'a>
    ensures { part_of result ≡ reading.quoted_value quote name.now bytes.now }
{
    let (value, after) = split_run(bytes, Class::Other(quote));
    match strip_byte(after, quote) {
        Some(rest) => Part::Attribute { name, value, rest },
        None => Part::Unended,
    }
}

/// An attribute from its value on, after `=` and white space.
fn value_part<'a>(name: &'a [u8], bytes: &'a [u8]) -> Part<'a>
    ensures { part_of result ≡ spec.value_part name.now bytes.now }
{
    if let Some(value) = strip_byte(bytes, b'"') {
        return quoted_value(name, value, b'"');
    }
    if let Some(value) = strip_byte(bytes, b'\'') {
        return quoted_value(name, value, b'\'');
    }
    let (value, rest) = split_run(bytes, Class::UnquotedValue);
    Part::Attribute { name, value, rest }
}

/// An attribute from just after its name.
fn after_name<'a>(name: &'a [u8], bytes: &'a [u8]) -> Part<'a>
    ensures { part_of result ≡ spec.after_name name.now bytes.now }
{
    let (_, sign) = split_run(bytes, Class::White);
    let Some(gap) = strip_byte(sign, b'=') else {
        return Part::Attribute {
            name,
            value: &[],
            rest: bytes,
        };
    };
    let (_, value) = split_run(gap, Class::White);
    value_part(name, value)
}

/// An attribute, which begins with its name, whatever its first byte is.
fn attribute(bytes: &[u8]) -> Part<'_>
    ensures { part_of result ≡ attribute_part bytes.now }
{
    let [_, after @ ..] = bytes else {
        return Part::Unended;
    };
    let (more, _) = split_run(after, Class::AttributeName);
    let (name, rest) = bytes.split_at(1 + more.len());
    after_name(name, rest)
}

/// The next attribute, or the end of the tag.
#[tactic(auto, using(crate::proofs::AttributesLemmas::gap_end, crate::proofs::AttributesLemmas::gap_attribute))]
fn next_part(bytes: &[u8]) -> Part<'_>
    ensures { part_of result ≡ spec.next_part bytes.now }
{
    let (_, after) = split_run(bytes, Class::Gap);
    match strip_byte(after, b'>') {
        Some(rest) => Part::End { rest },
        None => attribute(after),
    }
}

/// What the label in a `content` names.
fn named_in_content(content: &[u8]) -> Option<Encoding>
    ensures { result ≡ option_and_then labels.encoding_named (contents.content_label content.now) }
{
    encoding_named(content_label(content)?)
}

impl Attributes {
    /// No attribute.
    fn new() -> Attributes
        ensures { result ≡ spec.no_attributes }
    {
        Attributes {
            charset: None,
            content: None,
            http_equiv: None,
        }
    }

    /// Takes one more attribute: the first of one name counts.
    fn add(&mut self, name: &[u8], value: &[u8])
        ensures { self.new ≡ spec.with_attribute self.old name.now value.now }
    {
        if is_in_any_case(name, b"charset") {
            self.charset = Some(self.charset.unwrap_or(encoding_named(value)));
        } else if is_in_any_case(name, b"content") {
            self.content = Some(self.content.unwrap_or(named_in_content(value)));
        } else if is_in_any_case(name, b"http-equiv") {
            let is_pragma = is_in_any_case(value, b"content-type");
            self.http_equiv = Some(self.http_equiv.unwrap_or(is_pragma));
        }
    }
}

/// What the attributes of a tag say, from just after its name, and what follows the tag. `None` if the bytes end in the
/// tag.
pub(crate) fn tag(bytes: &[u8]) -> Option<(Attributes, &[u8])>
    ensures { option_map tag_of result ≡ spec.tag bytes.now }
{
    let mut attributes = Attributes::new();
    let mut after = bytes;
    loop {
        match next_part(after) {
            Part::Unended => return None,
            Part::End { rest } => return Some((attributes, rest)),
            Part::Attribute { name, value, rest } => {
                attributes.add(name, value);
                after = rest;
            }
        }
    }
}
