//! Texts without the white space at their ends.
ghost use Rattle.std.specs.Prelude.{◌≡◌, ◌-◌, length, string_bytes};
ghost use Rattle.std.specs.Option.{option_copied};
ghost use Rattle.std.specs.List.{prefix_len, suffix_len};
ghost use Rattle.std.specs.Str.{trim_start, trim_end, IsCharBoundary};
ghost use Rattle.htmd_text.specs.Trims.{trimmed_text, trimmed_start, trimmed_end, cut_start, cut_end, some_text};
ghost use Rattle.htmd_text.specs.Trims.{white_space_at_start, white_space_at_end, is_line_feed, is_space};
ghost use Rattle.htmd_lexical.specs.WhiteSpace as white;

use crate::repeats::{leading_len, trailing_len};
use std::convert::AsStr;

/// A text without document white space (tab, line feed, carriage return, space) at its ends.
pub trait TrimDocumentWhitespace: AsStr {
    /// The text without it at both ends.
    final fn trim_document_whitespace(&self) -> &str
        ensures { result.now ≡ trimmed_text white.is_document_white_space (Self.text self.now) }
    {
        without_document_end(without_document_start(self.as_str()))
    }

    /// The text without it at the start.
    final fn trim_start_document_whitespace(&self) -> &str
        ensures { result.now ≡ trimmed_start white.is_document_white_space (Self.text self.now) }
    {
        without_document_start(self.as_str())
    }

    /// The text without it at the end.
    final fn trim_end_document_whitespace(&self) -> &str
        ensures { result.now ≡ trimmed_end white.is_document_white_space (Self.text self.now) }
    {
        without_document_end(self.as_str())
    }
}

impl<S: AsStr> TrimDocumentWhitespace for S {}

/// A text without white space at one end, and what was cut there, if anything was.
pub trait StripWhitespace: AsStr {
    /// The text without document white space at its start.
    final fn strip_leading_document_whitespace(&self) -> (&str, Option<&str>)
        ensures rest { result.0.now
            ≡ trimmed_start white.is_document_white_space (Self.text self.now) }
        ensures cut { option_copied result.1
            ≡ some_text (cut_start white.is_document_white_space (Self.text self.now)) }
    {
        let text = self.as_str();
        let (cut, rest) = text.split_at(document_start(text));
        (rest, none_if_empty(cut))
    }

    /// The text without white space at its start.
    final fn strip_leading_whitespace(&self) -> (&str, Option<&str>)
        ensures rest { result.0.now ≡ trim_start (Self.text self.now) }
        ensures cut { option_copied result.1
            ≡ some_text (white_space_at_start (Self.text self.now)) }
    {
        let text = self.as_str();
        let rest = text.trim_start();
        (rest, none_if_empty(&text[..text.len() - rest.len()]))
    }

    /// The text without document white space at its end.
    final fn strip_trailing_document_whitespace(&self) -> (&str, Option<&str>)
        ensures rest { result.0.now
            ≡ trimmed_end white.is_document_white_space (Self.text self.now) }
        ensures cut { option_copied result.1
            ≡ some_text (cut_end white.is_document_white_space (Self.text self.now)) }
    {
        let text = self.as_str();
        let (rest, cut) = text.split_at(document_end(text));
        (rest, none_if_empty(cut))
    }

    /// The text without white space at its end.
    final fn strip_trailing_whitespace(&self) -> (&str, Option<&str>)
        ensures rest { result.0.now ≡ trim_end (Self.text self.now) }
        ensures cut { option_copied result.1 ≡ some_text (white_space_at_end (Self.text self.now)) }
    {
        let text = self.as_str();
        let rest = text.trim_end();
        (rest, none_if_empty(&text[rest.len()..]))
    }
}

impl<S: AsStr> StripWhitespace for S {}

/// Cuts the line feeds at both ends, in place.
pub fn trim_newlines(text: &mut String)
    ensures { string_bytes text.new ≡ trimmed_text is_line_feed (string_bytes text.old) }
{
    let start = leading_len(text.as_bytes(), b'\n');
    let removed = text.replace_range(..start, "");
    prove!(removed.is_ok());
    trim_end_line_feeds(text);
}

/// Cuts the line feeds at the end, in place.
pub fn trim_end_line_feeds(text: &mut String)
    ensures { string_bytes text.new ≡ trimmed_end is_line_feed (string_bytes text.old) }
{
    text.truncate(text.len() - trailing_len(text.as_bytes(), b'\n'));
}

/// Cuts the spaces at the end, in place.
pub fn trim_end_spaces(text: &mut String)
    ensures { string_bytes text.new ≡ trimmed_end is_space (string_bytes text.old) }
{
    text.truncate(text.len() - trailing_len(text.as_bytes(), b' '));
}

/// Cuts the document white space at the end, in place.
pub fn trim_end_document_white_space(text: &mut String)
    ensures { string_bytes text.new
        ≡ trimmed_end white.is_document_white_space (string_bytes text.old) }
{
    text.truncate(document_end(text.as_str()));
}

/// The text, or nothing if it is empty.
fn none_if_empty(text: &str) -> Option<&str>
    ensures { option_copied result ≡ some_text text.now }
{
    if text.is_empty() { None } else { Some(text) }
}

/// The text without document white space at its start.
fn without_document_start(text: &str) -> &str
    ensures { result.now ≡ trimmed_start white.is_document_white_space text.now }
{
    &text[document_start(text)..]
}

/// The text without document white space at its end.
pub(crate) fn without_document_end(text: &str) -> &str
    ensures { result.now ≡ trimmed_end white.is_document_white_space text.now }
{
    &text[..document_end(text)]
}

/// How many bytes of document white space are at the start.
fn document_start(text: &str) -> usize
    ensures value { result ≡ prefix_len white.is_document_white_space text.now }
    ensures cut { IsCharBoundary text.now result }
{
    for (i, b) in text.as_bytes().iter().enumerate() {
        if !is_document_white_space(*b) {
            return i;
        }
    }
    text.len()
}

/// Where the document white space at the end begins.
fn document_end(text: &str) -> usize
    ensures value { result ≡ length text.now - suffix_len white.is_document_white_space text.now }
    ensures cut { IsCharBoundary text.now result }
{
    let bytes = text.as_bytes();
    let mut end = bytes.len();
    while end > 0 && is_document_white_space(bytes[end - 1]) {
        end -= 1;
    }
    end
}

/// Whether the byte is tab, line feed, carriage return or space.
fn is_document_white_space(byte: u8) -> bool
    ensures { result ≡ white.is_document_white_space byte }
{
    matches!(byte, b'\t' | b'\n' | b'\r' | b' ')
}
