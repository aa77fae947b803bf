//! Elements that hold only text, up to their own end tag.
ghost use Rattle.std.specs.Prelude.{◌≡◌, ◌≤◌, length};
ghost use Rattle.htmd_html5_tokens.specs.RawTexts as spec;
ghost use Rattle.htmd_html5_tokens.specs.declared.raw_texts.Escape.TheVariants.{Unescaped};

use crate::contents::Reading;
use htmd_lexical::RawElement;
use htmd_scanning::{begins_own_end, goes_on_with_name, raw_content_len};

/// How a script is escaped: `<!--` escapes it, and in an escaped one `<script` escapes it doubly.
#[derive(Clone, Copy)]
pub(crate) enum Escape {
    Unescaped,
    Escaped,
    DoublyEscaped,
}

fn begins_script(bytes: &[u8]) -> bool
    ensures { result ≡ spec.begins_script bytes.now }
{
    match bytes {
        [b'<', after @ ..] => goes_on_with_name(after, b"script"),
        _ => false,
    }
}

fn begins_script_end(bytes: &[u8]) -> bool
    ensures { result ≡ spec.begins_script_end bytes.now }
{
    begins_own_end(bytes, b"script")
}

/// How a script is escaped after the character with which this begins.
fn escape_after(escape: Escape, bytes: &[u8]) -> Escape
    ensures { result ≡ spec.escape_after escape bytes.now }
{
    if bytes.starts_with(b"<!--") {
        return match escape {
            Escape::Unescaped | Escape::Escaped => Escape::Escaped,
            Escape::DoublyEscaped => Escape::DoublyEscaped,
        };
    }
    if bytes.starts_with(b"-->") {
        return Escape::Unescaped;
    }
    match escape {
        Escape::DoublyEscaped if begins_script_end(bytes) => Escape::Escaped,
        Escape::Escaped if begins_script(bytes) => Escape::DoublyEscaped,
        _ => escape,
    }
}

/// Whether a script ends here.
fn ends_script(escape: Escape, bytes: &[u8]) -> bool
    ensures { result ≡ spec.ends_script escape bytes.now }
{
    match escape {
        Escape::DoublyEscaped => false,
        Escape::Unescaped | Escape::Escaped => begins_script_end(bytes),
    }
}

/// How many bytes are before the end tag of a script.
fn script_len(bytes: &[u8]) -> usize
    ensures bound { result ≤ length bytes.now }
    ensures value { result ≡ spec.script_len Unescaped bytes.now }
{
    let mut escape = Escape::Unescaped;
    for i in 0..bytes.len() {
        let rest = &bytes[i..];
        if ends_script(escape, rest) {
            return i;
        }
        escape = escape_after(escape, rest);
    }
    bytes.len()
}

/// The name of an element's tags.
fn name_of(element: RawElement) -> &'static str
    ensures { result.now ≡ spec.name_of_element element }
{
    match element {
        RawElement::Title => "title",
        RawElement::Textarea => "textarea",
        RawElement::Style => "style",
        RawElement::Xmp => "xmp",
        RawElement::Iframe => "iframe",
        RawElement::Noembed => "noembed",
        RawElement::Noframes => "noframes",
        RawElement::Noscript => "noscript",
        RawElement::Script => "script",
        RawElement::Plaintext => "plaintext",
    }
}

/// How many bytes of the text belong to such an element.
pub(crate) fn raw_text_len(bytes: &[u8], element: RawElement) -> usize
    ensures bound { result ≤ length bytes.now }
    ensures value { result ≡ spec.raw_text_len element bytes.now }
{
    match element {
        RawElement::Plaintext => bytes.len(),
        RawElement::Script => script_len(bytes),
        _ => raw_content_len(bytes, name_of(element).as_bytes()),
    }
}

/// How the text of such an element is read.
pub(crate) fn reading_of(element: RawElement) -> Reading
    ensures { result ≡ spec.reading_of element }
{
    match element {
        RawElement::Title | RawElement::Textarea => Reading::EscapableRawText,
        _ => Reading::RawText,
    }
}
