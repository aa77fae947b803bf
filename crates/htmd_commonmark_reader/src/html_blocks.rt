//! HTML blocks: how they begin and end (CommonMark 0.31.2, 4.6).
ghost use Rattle.std.specs.Prelude.{◌≡◌, ◌≤◌, ◌&&◌, length, option_map, IfSome};
ghost use Rattle.std.specs.Str.{str_eq_ignore_ascii_case, str_to_ascii_lowercase};
ghost use Rattle.htmd_lexical.specs.CharacterClasses as classes;
ghost use Rattle.htmd_commonmark_reading.specs.BlockStarts as spec;
ghost use Rattle.htmd_commonmark_reader.specs.Beginnings.{beginning_of};
ghost use Rattle.htmd_commonmark_reader.specs.HtmlBlocks.{ends_of, are_no_ends, low_names, begins_declaration};
ghost use Rattle.htmd_commonmark_reader.specs.Starts.{after_of};

use crate::block_starts::{After, is_empty_or_blank};
use crate::byte_runs::{split_bytes, strip};
use crate::lines::is_blank_text;
use crate::raw_tags::{InTagName, begins_with_letter, closing_tag, open_tag};
use htmd_scanning::{ByteClass, begins_in_any_case, begins_with, first_is};

/// Names of elements that begin a block of the sixth kind.
static BLOCK_NAMES: [&str; 62] = [
    "address",
    "article",
    "aside",
    "base",
    "basefont",
    "blockquote",
    "body",
    "caption",
    "center",
    "col",
    "colgroup",
    "dd",
    "details",
    "dialog",
    "dir",
    "div",
    "dl",
    "dt",
    "fieldset",
    "figcaption",
    "figure",
    "footer",
    "form",
    "frame",
    "frameset",
    "h1",
    "h2",
    "h3",
    "h4",
    "h5",
    "h6",
    "head",
    "header",
    "hr",
    "html",
    "iframe",
    "legend",
    "li",
    "link",
    "main",
    "menu",
    "menuitem",
    "nav",
    "noframes",
    "ol",
    "optgroup",
    "option",
    "p",
    "param",
    "search",
    "section",
    "summary",
    "table",
    "tbody",
    "td",
    "tfoot",
    "th",
    "thead",
    "title",
    "tr",
    "track",
    "ul",
];

/// Names of elements whose content is text.
static TEXT_NAMES: [&str; 4] = ["pre", "script", "style", "textarea"];

/// What ends an HTML block.
#[derive(Clone, Copy, Drop)]
pub(crate) enum HtmlEnd {
    /// An end tag of an element whose content is text.
    TextElement,
    /// `-->`
    Comment,
    /// `?>`
    Instruction,
    /// `>`
    Declaration,
    /// `]]>`
    CharacterData,
    BlankLine,
}

/// What the name of a block's tag goes on with.
#[derive(Clone, Copy)]
struct OfName;

impl ByteClass for OfName {
    ghost use Rattle.std.specs.Char.{is_ascii_alphanumeric};

    ghost bytes = { λ _. is_ascii_alphanumeric };

    #[inline(always)]
    fn has(self, byte: u8) -> bool {
        byte.is_ascii_alphanumeric()
    }
}

fn is_same_name(name: &[u8], known: &[u8]) -> bool
    ensures { result ≡ str_eq_ignore_ascii_case name.now known.now }
{
    name.eq_ignore_ascii_case(known)
}

/// Whether a name is one of these, in any ASCII case.
fn is_named(names: &[&'static str], name: &[u8]) -> bool
    ensures { result ≡ classes.is_among (low_names names.now) (str_to_ascii_lowercase name.now) }
{
    for known in names {
        if is_same_name(name, known.as_bytes()) {
            return true;
        }
    }
    false
}

fn is_block_name(name: &[u8]) -> bool
    ensures { result ≡ classes.is_among spec.block_names (str_to_ascii_lowercase name.now) }
{
    is_named(&BLOCK_NAMES, name)
}

fn is_text_name(name: &[u8]) -> bool
    ensures { result ≡ classes.is_among spec.text_names (str_to_ascii_lowercase name.now) }
{
    is_named(&TEXT_NAMES, name)
}

fn ends_name(text: &[u8]) -> bool
    ensures { result ≡ spec.ends_name text.now }
{
    is_empty_or_blank(text) || first_is(text, b'>')
}

fn without_slash(text: &[u8]) -> &[u8]
    ensures { result.now ≡ spec.without_slash text.now }
{
    match text {
        [b'/', rest @ ..] => rest,
        _ => text,
    }
}

/// The first kind: an open tag of a text element.
fn is_text_block(text: &[u8]) -> bool
    ensures { result ≡ spec.is_text_block text.now }
{
    let (name, rest) = split_bytes(text, OfName);
    is_text_name(name) && ends_name(rest)
}

/// The sixth kind: a tag, complete or not, of an element that is a block.
fn is_block_tag(text: &[u8]) -> bool
    ensures { result ≡ spec.is_block_tag text.now }
{
    let (name, rest) = split_bytes(text, OfName);
    is_block_name(name) && (ends_name(rest) || begins_with(rest, b"/>"))
}

/// Whether the name of a complete tag is one of a text element.
fn is_of_text(text: &[u8]) -> bool
    ensures { result ≡ spec.is_of_text text.now }
{
    is_text_name(split_bytes(text, InTagName).0)
}

/// Whether nothing but white space follows a tag of so many bytes, if there is one.
fn fills(text: &[u8], tag: Option<usize>) -> bool
    requires { IfSome tag (λ len. len ≤ length text.now) }
    ensures { result ≡ spec.fills text.now (beginning_of text.now tag) }
{
    match tag {
        Some(len) => is_blank_text(&text[len..]),
        None => false,
    }
}

/// The seventh kind: a complete tag, alone in its line, but for an open tag of a text element.
fn is_lone_tag(text: &[u8]) -> bool
    ensures { result ≡ spec.is_lone_tag text.now }
{
    (!is_of_text(text) && fills(text, open_tag(text))) || fills(text, closing_tag(text))
}

/// A capital or small letter after `!`.
fn begins_declaration(text: &[u8]) -> bool
    ensures { result ≡ begins_declaration text.now }
{
    match strip(text, b'!') {
        Some(rest) => begins_with_letter(rest),
        None => false,
    }
}

/// The seventh kind, which doesn't interrupt a paragraph.
fn is_lone_start(after: After, text: &[u8]) -> bool
    ensures { result ≡ (spec.is_alone (after_of after) && spec.is_lone_tag text.now) }
{
    after.is_alone() && is_lone_tag(text)
}

/// After `<`: what ends the block that begins so.
pub(crate) fn block_end(after: After, text: &[u8]) -> Option<HtmlEnd>
    ensures { option_map ends_of result ≡ spec.block_ends (after_of after) text.now }
{
    if is_text_block(text) {
        return Some(HtmlEnd::TextElement);
    }
    if begins_with(text, b"!--") {
        return Some(HtmlEnd::Comment);
    }
    if begins_with(text, b"?") {
        return Some(HtmlEnd::Instruction);
    }
    if begins_declaration(text) {
        return Some(HtmlEnd::Declaration);
    }
    if begins_with(text, b"![CDATA[") {
        return Some(HtmlEnd::CharacterData);
    }
    if is_block_tag(without_slash(text)) {
        return Some(HtmlEnd::BlankLine);
    }
    if is_lone_start(after, text) {
        return Some(HtmlEnd::BlankLine);
    }
    None
}

/// Whether the text has this somewhere, in any ASCII case; it is given in lower case.
fn holds(text: &[u8], signs: &[u8]) -> bool
    ensures { result ≡ classes.holds_in_any_case signs.now text.now }
{
    for at in 0..text.len() {
        if begins_in_any_case(&text[at..], signs) {
            return true;
        }
    }
    false
}

impl HtmlEnd {
    pub(crate) fn is_blank_line(self) -> bool
        ensures { result ≡ are_no_ends (ends_of self) }
    {
        matches!(self, HtmlEnd::BlankLine)
    }

    /// Whether the line has one of the ends.
    pub(crate) fn is_in(self, line: &[u8]) -> bool
        ensures { result ≡ spec.has_end (ends_of self) line.now }
    {
        match self {
            HtmlEnd::TextElement => {
                holds(line, b"</pre>")
                    || holds(line, b"</script>")
                    || holds(line, b"</style>")
                    || holds(line, b"</textarea>")
            }
            HtmlEnd::Comment => holds(line, b"-->"),
            HtmlEnd::Instruction => holds(line, b"?>"),
            HtmlEnd::Declaration => holds(line, b">"),
            HtmlEnd::CharacterData => holds(line, b"]]>"),
            HtmlEnd::BlankLine => false,
        }
    }
}
