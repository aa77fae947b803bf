//! The label in the attribute `content` of a `meta`.
ghost use Rattle.std.specs.Prelude.{◌≡◌};
ghost use Rattle.htmd_encodings.specs.ContentLabels as spec;
ghost use Rattle.htmd_encodings.specs.Views.{value_of};

use crate::cuts::{Class, split_run, strip_byte};
use htmd_scanning::begins_in_any_case;

/// What comes before the next such quote, if there is one.
pub(crate) fn before_quote(bytes: &[u8], quote: u8) -> Option<&[u8]>
    ensures { value_of result ≡ spec.before_quote quote bytes.now }
{
    let (label, after) = split_run(bytes, Class::Other(quote));
    if after.is_empty() {
        return None;
    }
    Some(label)
}

/// A label, between quotes or not.
fn label_at(bytes: &[u8]) -> Option<&[u8]>
    ensures { value_of result ≡ spec.label_at bytes.now }
{
    if let Some(label) = strip_byte(bytes, b'"') {
        return before_quote(label, b'"');
    }
    if let Some(label) = strip_byte(bytes, b'\'') {
        return before_quote(label, b'\'');
    }
    let (label, _) = split_run(bytes, Class::Label);
    Some(label)
}

/// What follows `=` and white space after this `charset`, if that is there.
fn charset_value(bytes: &[u8]) -> Option<&[u8]>
    ensures { value_of result ≡ spec.charset_value bytes.now }
{
    if !begins_in_any_case(bytes, b"charset") {
        return None;
    }
    let (_, sign) = split_run(&bytes[7..], Class::White);
    let (_, value) = split_run(strip_byte(sign, b'=')?, Class::White);
    Some(value)
}

/// The label after the first `charset` that `=` follows.
pub(crate) fn content_label(content: &[u8]) -> Option<&[u8]>
    ensures { value_of result ≡ spec.content_label content.now }
{
    let mut rest = content;
    while let [_, after @ ..] = rest {
        if let Some(value) = charset_value(rest) {
            return label_at(value);
        }
        rest = after;
    }
    None
}
