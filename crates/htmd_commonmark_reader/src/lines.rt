//! Lines (CommonMark 0.31.2, 2.1), columns and tabs (2.2).
ghost use Rattle.std.specs.Prelude.{◌≡◌, ◌<◌, ◌≤◌, ◌+◌, ◌*◌, ◌∷◌, length, IfOk, string_bytes};
ghost use Rattle.std.specs.Str.{IsCharBoundary};
ghost use Rattle.htmd_lexical.specs.CharacterClasses.{is_empty};
ghost use Rattle.htmd_commonmark_reading.specs.Characters.{past_blanks};
ghost use Rattle.htmd_commonmark_reading.specs.Lines as spec;
ghost use Rattle.htmd_commonmark_reader.specs.LineViews.{line_of, IsLine, columns_at, past_line_end, widest, cut_of};

use crate::characters::{is_space_or_tab, past_blanks};
use htmd_scanning::{ByteClass, split_run, strip_byte};
use std::alloc::{AllocError, Global};

/// The text with U+FFFD for each U+0000. `Err` means out of memory.
pub(crate) fn without_null(alloc: Global, text: &str) -> Result<String, AllocError>
    ensures { IfOk result (λ t. string_bytes t ≡ spec.without_null text.now) }
{
    let mut whole = String::with_capacity(alloc, text.len())?;
    let mut rest = text;
    while let Some((part, after)) = rest.split_once('\0') {
        whole.push_str(part)?;
        whole.push('\u{fffd}')?;
        rest = after;
    }
    whole.push_str(rest)?;
    Ok(whole)
}

/// Bytes that end no line.
#[derive(Clone, Copy)]
struct InLine;

impl ByteClass for InLine {
    ghost use Rattle.htmd_commonmark_reader.specs.LineViews.{is_in_line};

    ghost bytes = { λ _. is_in_line };

    #[inline(always)]
    fn has(self, byte: u8) -> bool {
        byte != b'\n' && byte != b'\r'
    }
}

/// The text after the line end with which it begins.
fn past_line_end(text: &str) -> &str
    ensures { result.now ≡ past_line_end text.now }
{
    match strip_byte(text, b'\r') {
        Some(after) => strip_byte(after, b'\n').unwrap_or(after),
        None => strip_byte(text, b'\n').unwrap_or(text),
    }
}

/// The first line of a text, and what follows its end.
pub(crate) fn split_line(text: &str) -> (&str, &str)
    requires { 0 < length text.now }
    ensures lines { spec.split_lines text.now ≡ result.0.now ∷ spec.split_lines result.1.now }
    ensures shorter { length result.1.now < length text.now }
    ensures within { length result.0.now ≤ length text.now }
{
    let (line, rest) = split_run(text, InLine);
    (line, past_line_end(rest))
}

/// Whether there is nothing but spaces and tabs.
pub(crate) fn is_blank_text(bytes: &[u8]) -> bool
    ensures { result ≡ spec.is_blank_text bytes.now }
{
    bytes.iter().all(|byte| is_space_or_tab(*byte))
}

/// How many columns a byte at a column takes, if it is a space or a tab.
fn columns_at(column: usize, byte: u8) -> usize
    ensures { result ≡ columns_at column byte }
{
    match byte {
        b' ' => 1,
        b'\t' => 4 - column % 4,
        _ => 0,
    }
}

/// Columns of white space that a text at a column begins with.
#[tactic(auto, using(crate::proofs::LinesLemmas::indent_steps))]
fn indent_at(column: usize, bytes: &[u8]) -> usize
    requires { column + 4 * length bytes.now ≤ widest }
    ensures { result ≡ spec.indent_at column bytes.now }
{
    let mut indent = 0;
    for byte in bytes {
        let columns = columns_at(column + indent, *byte);
        if columns == 0 {
            return indent;
        }
        indent += columns;
    }
    indent
}

/// What is left of a text: what is left of a cut tab, as spaces, and the rest, which they stand before.
#[derive(Clone, Copy, Drop)]
struct Cut<'a> {
    column: usize,
    spaces: usize,
    text: &'a str,
}

/// A text at a column without so many columns of its white space, or all that it has.
#[tactic(auto, using(crate::proofs::LinesLemmas::cut_steps))]
fn cut_at(column: usize, count: usize, text: &str) -> Cut<'_>
    requires { column + 4 * length text.now ≤ widest }
    ensures cut { cut_of result ≡ spec.cut_at column count text.now }
    ensures bound { result.column + result.spaces + 4 * length result.text.now ≤ column + 4 * length text.now }
{
    let bytes = text.as_bytes();
    let mut place = column;
    let mut left = count;
    for at in 0..bytes.len() {
        let columns = columns_at(place, bytes[at]);
        if left == 0 || columns == 0 {
            return Cut {
                column: place,
                spaces: 0,
                text: &text[at..],
            };
        }
        if columns > left {
            return Cut {
                column: place + left,
                spaces: columns - left,
                text: &text[at + 1..],
            };
        }
        place += columns;
        left -= columns;
    }
    Cut {
        column: place,
        spaces: 0,
        text: "",
    }
}

/// What is left of a line once the markers of its containers are cut off.
#[derive(Clone, Copy, Drop)]
pub(crate) struct Line<'a> {
    /// Where it begins.
    pub(crate) column: usize,
    /// What is left of a cut tab, before the text.
    pub(crate) spaces: usize,
    pub(crate) text: &'a str,
    /// Columns of white space before the content.
    pub(crate) indent: usize,
    /// The text without white space at its beginning.
    pub(crate) content: &'a str,
}

impl<'a> Line<'a> {
    /// A text at a column.
    pub(crate) fn at(column: usize, text: &'a str) -> Line<'a>
        requires { column + 4 * length text.now ≤ widest }
        ensures line { line_of result ≡ spec.line column text.now }
        ensures uncut { result.spaces ≡ 0 }
        ensures held { IsLine result }
    {
        Line {
            column,
            spaces: 0,
            text,
            indent: indent_at(column, text.as_bytes()),
            content: past_blanks(text),
        }
    }

    pub(crate) fn is_blank(self) -> bool
        requires { IsLine self }
        ensures { result ≡ spec.is_blank (line_of self.entry) }
    {
        self.content.is_empty()
    }

    /// Whether nothing is left of the line, not even white space.
    pub(crate) fn is_used_up(self) -> bool
        ensures { result ≡ is_empty (line_of self.entry).text }
    {
        self.spaces == 0 && self.text.is_empty()
    }

    /// The line without so many columns of its white space, or all that it has.
    pub(crate) fn cut(self, count: usize) -> Line<'a>
        requires { IsLine self }
        ensures line { line_of result ≡ spec.cut count (line_of self.entry) }
        ensures held { IsLine result }
    {
        if count >= self.indent {
            return self.without_indent();
        }
        if count <= self.spaces {
            return Line {
                column: self.column + count,
                spaces: self.spaces - count,
                text: self.text,
                indent: self.indent - count,
                content: self.content,
            };
        }
        let cut = cut_at(self.column + self.spaces, count - self.spaces, self.text);
        Line {
            column: cut.column,
            spaces: cut.spaces,
            text: cut.text,
            indent: self.indent - count,
            content: self.content,
        }
    }

    /// The line without the white space at its beginning.
    pub(crate) fn without_indent(self) -> Line<'a>
        requires { IsLine self }
        ensures line { line_of result ≡ spec.cut self.entry.indent (line_of self.entry) }
        ensures text { result.text.now ≡ self.entry.content.now }
        ensures uncut { result.spaces ≡ 0 }
        ensures held { IsLine result }
    {
        Line {
            column: self.column + self.indent,
            spaces: 0,
            text: self.content,
            indent: 0,
            content: self.content,
        }
    }

    /// What follows a marker of so many characters at the beginning of the line.
    pub(crate) fn after_marker(self, count: usize) -> Line<'a>
        requires held { IsLine self }
        requires uncut { self.spaces ≡ 0 }
        requires marker { IsCharBoundary self.text.now count }
        ensures line { line_of result ≡ spec.after_marker count (line_of self.entry) }
        ensures uncut { result.spaces ≡ 0 }
        ensures held { IsLine result }
    {
        Line::at(self.column + count, &self.text[count..])
    }
}
