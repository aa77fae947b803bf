//! What a line starts (CommonMark 0.31.2, 4.1, 4.2, 4.4 to 4.6, 5.1 and 5.2).
ghost use Rattle.std.specs.Prelude.{◌≡◌, ◌≤◌, ◌<◌, ◌+◌, ℕ, List, true, suc, length, drop, Some, None};
ghost use Rattle.std.specs.Str.{IsCharBoundary};
ghost use Rattle.htmd_commonmark_reading.specs.BlockStarts as spec;
ghost use Rattle.htmd_commonmark_reading.specs.Boxes.{quoting};
ghost use Rattle.htmd_commonmark_reading.specs.Lines as lines;
ghost use Rattle.htmd_commonmark_reader.specs.BulletRuns.{is_mixed, IsBehind};
ghost use Rattle.htmd_commonmark_reader.specs.LineViews.{line_of, IsLine};
ghost use Rattle.htmd_commonmark_reader.specs.LineStarts.{start_of, is_nothing, sign_as, IsHeld};
ghost use Rattle.htmd_commonmark_reader.specs.Starts.{after_of};

use crate::block_starts::{After, Fence, Heading, fence_start, heading_start, is_rule};
use crate::html_blocks::{HtmlEnd, block_end};
use crate::lines::Line;
use crate::markers::{Item, begun_item, number_marker};

/// What a line starts. What the rest of the line starts in a container is found from there.
#[derive(Clone, Copy, Drop)]
pub(crate) enum LineStart<'a> {
    Nothing,
    /// Indented code, with its first line.
    Code(Line<'a>),
    Heading(Heading<'a>),
    Fence(Fence<'a>),
    /// An HTML block, and whether it ends in the line.
    Html {
        end: HtmlEnd,
        is_whole: bool,
    },
    Rule,
    Quote(Line<'a>),
    Item {
        sign: u8,
        number: Option<u32>,
        item: Item<'a>,
    },
}

impl<'a> LineStart<'a> {
    pub(crate) fn is_nothing(self) -> bool
        ensures { result ≡ is_nothing self.entry }
    {
        matches!(self, LineStart::Nothing)
    }
}

/// Four columns are code, but under a paragraph.
fn code(after: After, line: Line<'_>) -> LineStart<'_>
    requires { IsLine line }
    ensures start { start_of (line_of line.entry) result ≡ spec.code_start (after_of after) (line_of line.entry) }
    ensures held { IsHeld result }
{
    if after.is_alone() {
        LineStart::Code(line.cut(4))
    } else {
        LineStart::Nothing
    }
}

fn heading(text: &str) -> LineStart<'_>
    ensures start { (l : lines.Line) → start_of l result ≡ spec.heading_start text.now }
    ensures held { IsHeld result }
{
    match heading_start(text) {
        Some(heading) => LineStart::Heading(heading),
        None => LineStart::Nothing,
    }
}

fn fence(columns: usize, sign: u8, text: &str) -> LineStart<'_>
    requires { sign < 128 }
    ensures start { (l : lines.Line) → start_of l result ≡ spec.fence_start columns sign text.now }
    ensures held { IsHeld result }
{
    match fence_start(columns, sign, text) {
        Some(fence) => LineStart::Fence(fence),
        None => LineStart::Nothing,
    }
}

/// The HTML block that a line begins, in which this follows `<`.
fn html<'a>(after: After, line: Line<'a>, rest: &'a str) -> LineStart<'a>
    ensures start { start_of (line_of line.entry) result
        ≡ spec.html_start (after_of after) (line_of line.entry).text rest.now }
    ensures held { IsHeld result }
{
    match block_end(after, rest.as_bytes()) {
        Some(end) => LineStart::Html {
            end,
            is_whole: end.is_in(line.text.as_bytes()),
        },
        None => LineStart::Nothing,
    }
}

/// The quote whose marker a line begins with.
fn quote(content: Line<'_>) -> LineStart<'_>
    requires line { IsLine content }
    requires uncut { content.spaces ≡ 0 }
    requires marker { IsCharBoundary content.text.now 1 }
    ensures start { let rest = spec.behind_quote (line_of content.entry) in
        (l : lines.Line) → start_of l result
        ≡ spec.first_line (spec.fresh quoting rest (spec.started spec.alone rest)) }
    ensures held { IsHeld result }
{
    LineStart::Quote(content.after_marker(1).cut(1))
}

/// The item whose marker, of so many characters, a line begins with.
fn listed<'a>(
    after: After,
    sign: u8,
    number: Option<u32>,
    before: usize,
    rest: Line<'a>,
) -> LineStart<'a>
    requires line { IsLine rest }
    requires uncut { rest.spaces ≡ 0 }
    requires few { before ≤ 20 }
    ensures start { let content = spec.behind_padding (line_of rest.entry) in (l : lines.Line) → start_of l result
        ≡ spec.item_start (after_of after) sign number before (line_of rest.entry) (spec.started spec.alone content) }
    ensures held { IsHeld result }
    ensures behind { (m : List ℕ) → lines.marks (spec.behind_padding (line_of rest.entry)).text ≡ drop 1 m
        → IsBehind m result }
{
    match begun_item(after, number, before, rest) {
        Some(item) => LineStart::Item { sign, number, item },
        None => LineStart::Nothing,
    }
}

/// What a character may start.
#[derive(Clone, Copy, Drop)]
enum Sign {
    Quote,
    Heading,
    Fence,
    Tag,
    Rule,
    BulletOrRule,
    Bullet,
    Digit,
    Other,
}

fn sign_of(byte: u8) -> Sign
    ensures { sign_as result ≡ spec.sign byte }
{
    match byte {
        b'>' => Sign::Quote,
        b'#' => Sign::Heading,
        b'`' | b'~' => Sign::Fence,
        b'<' => Sign::Tag,
        b'_' => Sign::Rule,
        b'*' | b'-' => Sign::BulletOrRule,
        b'+' => Sign::Bullet,
        b'0'..=b'9' => Sign::Digit,
        _ => Sign::Other,
    }
}

/// The item of the bullet with which a line begins, after so many columns.
fn bullet(after: After, sign: u8, columns: usize, content: Line<'_>) -> LineStart<'_>
    requires line { IsLine content }
    requires uncut { content.spaces ≡ 0 }
    requires marker { IsCharBoundary content.text.now 1 }
    requires few { columns ≤ 3 }
    ensures start { let rest = lines.after_marker 1 (line_of content.entry) in (l : lines.Line) → start_of l result
        ≡ spec.item_start (after_of after) sign None (suc columns) rest
        (spec.started spec.alone (spec.behind_padding rest)) }
    ensures held { IsHeld result }
    ensures behind { let rest = lines.after_marker 1 (line_of content.entry) in (m : List ℕ)
        → lines.marks (spec.behind_padding rest).text ≡ drop 1 m → IsBehind m result }
{
    listed(after, sign, None, columns + 1, content.after_marker(1))
}

/// The item of the bullet with which a line begins that isn't indented too far for it, and is no rule.
pub(crate) fn bullet_start(line: Line<'_>) -> LineStart<'_>
    requires line { IsLine line }
    requires mixed { (n : ℕ) × (is_mixed n (lines.marks (line_of line).text) ≡ true) }
    ensures start { start_of (line_of line.entry) result ≡ spec.started spec.alone (line_of line.entry) }
    ensures held { IsHeld result }
    ensures behind { IsBehind (lines.marks (line_of line.entry).text) result }
{
    if line.indent > 3 {
        return code(After::Alone, line);
    }
    let content = line.without_indent();
    let first = content.text.as_bytes()[0];
    bullet(After::Alone, first, line.indent, content)
}

/// The item of the number with which a line begins, after so many columns.
fn number(after: After, columns: usize, content: Line<'_>) -> LineStart<'_>
    requires line { IsLine content }
    requires uncut { content.spaces ≡ 0 }
    requires few { columns ≤ 3 }
    ensures start { let text = (line_of content.entry).text in let size = suc (length (spec.digits text)) in
        let rest = lines.after_marker size (line_of content.entry) in (l : lines.Line) → start_of l result
        ≡ spec.if_numbered text (spec.item_start (after_of after) (spec.delimiter text) (Some (spec.number_of text))
        (size + columns) rest (spec.started spec.alone (spec.behind_padding rest))) }
    ensures held { IsHeld result }
{
    match number_marker(content.text.as_bytes()) {
        Some(marker) => listed(
            after,
            marker.sign,
            Some(marker.number),
            marker.len + columns,
            content.after_marker(marker.len),
        ),
        None => LineStart::Nothing,
    }
}

/// What a line that isn't blank starts, after at most three columns, by the character with which its content begins.
fn by_sign<'a>(after: After, line: Line<'a>, content: Line<'a>) -> LineStart<'a>
    requires line { IsLine line }
    requires near { line.indent ≤ 3 }
    requires held { IsLine content }
    requires uncut { content.spaces ≡ 0 }
    requires content { content.text.now ≡ line.content.now }
    requires place { line_of content ≡ lines.cut line.indent (line_of line) }
    requires filled { 0 < length content.text.now }
    ensures start { start_of (line_of line.entry) result ≡ spec.started (after_of after) (line_of line.entry) }
    ensures held { IsHeld result }
{
    let bytes = content.text.as_bytes();
    let first = bytes[0];
    match sign_of(first) {
        Sign::Quote => quote(content),
        Sign::Heading => heading(content.text),
        Sign::Fence => fence(line.indent, first, content.text),
        Sign::Tag => html(after, line, &content.text[1..]),
        Sign::Rule => {
            if is_rule(first, bytes) {
                LineStart::Rule
            } else {
                LineStart::Nothing
            }
        }
        Sign::BulletOrRule => {
            if is_rule(first, bytes) {
                LineStart::Rule
            } else {
                bullet(after, first, line.indent, content)
            }
        }
        Sign::Bullet => bullet(after, first, line.indent, content),
        Sign::Digit => number(after, line.indent, content),
        Sign::Other => LineStart::Nothing,
    }
}

/// What a line starts.
pub(crate) fn line_start(after: After, line: Line<'_>) -> LineStart<'_>
    requires { IsLine line }
    ensures start { start_of (line_of line.entry) result ≡ spec.started (after_of after) (line_of line.entry) }
    ensures held { IsHeld result }
{
    if line.is_blank() {
        return LineStart::Nothing;
    }
    if line.indent > 3 {
        return code(after, line);
    }
    by_sign(after, line, line.without_indent())
}
