//! How a page declares its encoding, in a `meta` and in an XML declaration.
ghost use Rattle.std.specs.Prelude.{◌≡◌};
ghost use Rattle.htmd_encodings.specs.Declarations as spec;
ghost use Rattle.htmd_encodings.specs.Views.{value_of};

use crate::attributes::Attributes;
use crate::content_labels::before_quote;
use crate::cuts::{Class, after_first, split_run, strip_byte};
use crate::encodings::Encoding;
use crate::encodings::Encoding::{SingleByte, Utf8, Utf16};
use crate::encodings::SingleByte::{Windows1252, XUserDefined};
use crate::labels::encoding_named;
use htmd_scanning::begins_with;

/// The encoding that a `meta` means by this one.
fn in_meta(named: Encoding) -> Encoding
    ensures { result ≡ spec.in_meta named }
{
    match named {
        Utf16(_) => Utf8,
        SingleByte(XUserDefined) => SingleByte(Windows1252),
        other => other,
    }
}

/// The encoding that the attributes of `meta` say.
pub(crate) fn in_attributes(attributes: Attributes) -> Option<Encoding>
    ensures { result ≡ spec.in_attributes attributes }
{
    let said = match attributes.charset {
        Some(said) => said,
        None => in_pragma(attributes.http_equiv, attributes.content),
    };
    Some(in_meta(said?))
}

/// What `content` says, if `http-equiv` makes it count.
fn in_pragma(http_equiv: Option<bool>, content: Option<Option<Encoding>>) -> Option<Encoding>
    ensures { result ≡ spec.in_pragma http_equiv content }
{
    match http_equiv {
        Some(true) => content?,
        _ => None,
    }
}

/// The encoding that an XML declaration means by this one.
fn in_xml(named: Encoding) -> Encoding
    ensures { result ≡ spec.in_xml named }
{
    match named {
        Utf16(_) => Utf8,
        other => other,
    }
}

/// A label between quotes.
fn xml_label(bytes: &[u8]) -> Option<&[u8]>
    ensures { value_of result ≡ spec.xml_label bytes.now }
{
    if let Some(label) = strip_byte(bytes, b'"') {
        return before_quote(label, b'"');
    }
    before_quote(strip_byte(bytes, b'\'')?, b'\'')
}

/// What a label names that has no control and no space.
fn whole_label(label: &[u8]) -> Option<Encoding>
    ensures { result ≡ spec.whole_label label.now }
{
    let (_, after) = split_run(label, Class::Visible);
    if !after.is_empty() {
        return None;
    }
    encoding_named(label)
}

/// The value of `encoding` in an XML declaration.
fn after_encoding(bytes: &[u8]) -> Option<Encoding>
    ensures { result ≡ spec.after_encoding bytes.now }
{
    let (_, sign) = split_run(bytes, Class::Control);
    let (_, value) = split_run(strip_byte(sign, b'=')?, Class::Control);
    whole_label(xml_label(value)?)
}

/// Whether the bytes begin with an XML declaration.
fn is_declaration(bytes: &[u8]) -> bool
    ensures { result ≡ spec.is_declaration bytes.now }
{
    let (_, end) = split_run(bytes, Class::Other(b'>'));
    begins_with(bytes, b"<?xml") && !end.is_empty()
}

/// The encoding that an XML declaration says.
pub(crate) fn in_declaration(bytes: &[u8]) -> Option<Encoding>
    ensures { result ≡ spec.in_declaration bytes.now }
{
    if !is_declaration(bytes) {
        return None;
    }
    let named = after_encoding(after_first(bytes, b"encoding"))?;
    Some(in_xml(named))
}
