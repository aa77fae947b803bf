//! What the program says about a refused input, apart from the line that it always writes.
use htmd::{Article, Attribute, Chosen, FaultKind, NodeData, PageError, line_and_column};
use std::fmt;
use std::fmt::Write;
use unicode::width::UnicodeWidthChar;

/// A line is shown in this many columns of a terminal.
const COLUMNS: usize = 100;

/// What is at the place of a fault, and what the grammar expects.
fn sentence(kind: FaultKind) -> &'static str {
    match kind {
        FaultKind::Nul => "U+0000 is here; remove it.",
        FaultKind::MalformedTag => { "this tag is malformed; write a < of the text as &lt;." }
        FaultKind::MalformedComment => {
            "this comment has no --> at its end, or --!> in it; write <!-- text -->."
        }
        FaultKind::MalformedDeclaration => {
            "only a comment may begin like this, or <!DOCTYPE html> at the very beginning."
        }
        FaultKind::UnknownReference => {
            "an unknown &name; is here, or in the tag that begins here; write the character, or &amp; for the &."
        }
        FaultKind::BadNumber => {
            "an &# is here, or in the tag that begins here, with the number of no character, or without a ; at its end."
        }
        FaultKind::DuplicateAttribute => {
            "this tag has two attributes of the same name; leave one out."
        }
        FaultKind::SelfClosing => {
            "this tag ends in />; only elements that have no end tag, such as br, may."
        }
        FaultKind::TagOutside => {
            "this tag has no place in a text; --body converts the body of a whole page."
        }
        FaultKind::NotAllowedHere => {
            "this element may not stand in those that are open; close them first."
        }
        FaultKind::StrayEndTag => {
            "this end tag doesn't fit the innermost open element; mend it."
        }
        FaultKind::StrayText => {
            "this text is between the parts of a table; put it into a cell or the caption."
        }
        FaultKind::Unclosed =>
            "the input ends here, and an element is still open; write its end tag.",
        FaultKind::ScriptEscape => {
            "this script has <!-- and later <script; take one of them out."
        }
        FaultKind::TooDeep => "what begins here is more than 1024 levels deep.",
    }
}

/// A character as it is shown, and its columns: a control is one space.
fn shown(character: char) -> (char, usize) {
    if character.is_control() {
        return (' ', 1);
    }
    (character, character.width().unwrap_or(1))
}

fn columns(text: &str) -> usize {
    let mut sum: usize = 0;
    for character in text.chars() {
        sum = sum.saturating_add(shown(character).1);
    }
    sum
}

/// The end of a text, cut at its front so that it takes no more than this many columns.
fn last_columns(text: &str, most: usize) -> &str {
    let mut left = columns(text);
    let mut rest = text.chars();
    while left > most {
        let Some(character) = rest.next() else {
            break;
        };
        left = left.saturating_sub(shown(character).1);
    }
    rest.as_str()
}

/// The line that a place is in: its part before the place, and its part after it.
fn line_at(input: &str, place: usize) -> (&str, &str) {
    let Some((before, behind)) = input.split_at_checked(place) else {
        return ("", input);
    };
    let is_line_end = |c: char| c == '\n' || c == '\r';
    let front = match before.rfind(is_line_end) {
        Some(end) => before.get(end + 1..).unwrap_or(""),
        None => before,
    };
    let rest = match behind.find(is_line_end) {
        Some(end) => behind.get(..end).unwrap_or(""),
        None => behind,
    };
    (front, rest)
}

/// Writes this many columns of a text.
fn write_columns<W: Write>(out: &mut W, text: &str, most: usize) -> fmt::Result {
    let mut left = most;
    for character in text.chars() {
        let (character, width) = shown(character);
        if width > left {
            break;
        }
        left -= width;
        out.write_char(character)?;
    }
    out.write_char('\n')
}

/// Writes the line of a place, and a mark under the place.
pub(crate) fn write_mark<W: Write>(out: &mut W, input: &str, place: usize) -> fmt::Result {
    let (front, rest) = line_at(input, place);
    let front = if columns(front) < COLUMNS {
        front
    } else {
        last_columns(front, COLUMNS / 2)
    };
    let before = columns(front);
    write_front(out, front)?;
    write_columns(out, rest, COLUMNS.saturating_sub(before))?;
    for _ in 0..before {
        out.write_char(' ')?;
    }
    out.write_str("^\n")
}

fn write_front<W: Write>(out: &mut W, front: &str) -> fmt::Result {
    for character in front.chars() {
        out.write_char(shown(character).0)?;
    }
    Ok(())
}

/// How the main content of a page was found.
fn rule(chosen: Chosen) -> &'static str {
    match chosen {
        Chosen::Main => "what the page says is its main part",
        Chosen::ArticleBody => "what the page says is the body of its article",
        Chosen::Article => "an article with most of the prose",
        Chosen::Density => "the element with the most prose and few links",
        Chosen::Body => "the whole page, as no part of it is better",
    }
}

/// Writes the start tag of an element, of its attributes only the id and the class.
fn write_tag<W: Write>(out: &mut W, name: &str, attrs: &[Attribute]) -> fmt::Result {
    write!(out, " <{name}")?;
    for attribute in attrs {
        let (name, value) = (attribute.name.as_str(), attribute.value.as_str());
        if matches!(name, "id" | "class") {
            write!(out, " {name}={value:?}")?;
        }
    }
    out.write_str(">")
}

/// Writes what the main content of a page is, and why.
pub(crate) fn explain_main_content<W: Write>(out: &mut W, article: &Article) -> fmt::Result {
    write!(out, "main content: {}:", rule(article.chosen))?;
    let tree = &article.tree;
    for node in tree.children(tree.root()) {
        if let NodeData::Element { name, attrs } = tree.data(*node) {
            write_tag(out, name.as_str(), attrs.as_slice())?;
        }
    }
    out.write_str("\n")
}

/// Writes where and why an input is refused, or where it is not UTF-8; it writes nothing for any other error.
pub(crate) fn explain<W: Write>(out: &mut W, error: &PageError, input: &[u8]) -> fmt::Result {
    match (error, str::from_utf8(input)) {
        (PageError::Refused { place, kind }, Ok(text)) => {
            let (line, column) = line_and_column(text, *place);
            writeln!(out, "line {line}, column {column}: {}", sentence(*kind))?;
            write_mark(out, text, *place)?;
            out.write_str("--web reads any page.\n")
        }
        (PageError::NotUtf8, Err(fault)) => {
            writeln!(out, "the first bad byte is byte {}", fault.valid_up_to())
        }
        _ => Ok(()),
    }
}
