//! Inlines as Markdown, from left to right (CommonMark 0.31.2, 6).
ghost use Rattle.std.specs.Prelude.{◌≡◌, ◌++◌, suc, OnOk, IfOk, length, false, true, string_bytes};
ghost use Rattle.std.specs.Fmt.{decimal};
ghost use Rattle.std.specs.Option.{option_copied};
ghost use Rattle.htmd_document.specs.DocumentViews.{inline_of, inlines_of};
ghost use Rattle.htmd_document.specs.Documents as value;
ghost use Rattle.htmd_document.specs.Formats.{of_format, Abbreviation};
ghost use Rattle.htmd_document.specs.Tags.{anchor};
ghost use Rattle.htmd_commonmark.specs.InlineMarkdown as spec;
ghost use Rattle.htmd_commonmark.specs.Marks as marks;
ghost use Rattle.htmd_commonmark.specs.MarkViews.{mark_of};
ghost use Rattle.htmd_commonmark.specs.WrittenText.{nothing_written, written_of, wrote};

use crate::address::{is_autolink, push_destination, push_title};
use crate::code_span::push_code_span;
use crate::inline_ends::{
    Following, character_before, first_of_all, follows, is_last_escaped, last_of_all,
};
use crate::line::{Line, LineKind};
use crate::marks::{Mark, Sides, mark_for, tags_of};
use crate::text_escape::{Place, push_escaped};
use htmd_document::{
    END_OF_ABBREVIATION, END_OF_ANCHOR, Format, Inline, push_abbreviation, push_anchor,
};
use htmd_markdown::{BrStyle, LinkStyle};
use htmd_text::repeats::trailing_len;
use std::alloc::{AllocError, Global};

/// What was written so far: the text of a block, and the lines that define the links of the document.
#[derive(Drop)]
pub(crate) struct InlineWriter {
    pub(crate) text: String,
    pub(crate) definitions: Vec<String>,
    alloc: Global,
}

/// Whether number signs end the text, after a space or alone, so that a reader cuts them off the end of a heading
/// (CommonMark 0.31.2, 4.2).
fn ends_in_closing_signs(text: &[u8]) -> bool
    ensures { result ≡ spec.ends_in_closing_signs text.now }
{
    let before = text.len() - trailing_len(text, b'#');
    before < text.len() && (before == 0 || text[before - 1] == b' ')
}

/// Where a text is after what is written so far.
fn place_of(line: Line, so_far: &str, after: Option<char>) -> Place
    ensures { result ≡ spec.place_of line so_far.now after }
{
    let before = character_before(so_far);
    Place {
        begins_line: before.is_none() && !line.kind.is_one_line(),
        in_brackets: line.in_link,
        before,
        after,
    }
}

/// Whether what follows a text ends a heading.
fn is_end_of_heading(line: Line, follows: Following) -> bool
    ensures { result ≡ spec.is_end_of_heading line follows }
{
    line.kind == LineKind::Heading && follows.is_last && follows.after.is_none()
}

/// Whether these signs are in the text.
fn holds(text: &[u8], signs: &[u8]) -> bool
    ensures { result ≡ spec.holds signs.now text.now }
{
    for i in 0..text.len() {
        if text[i..].starts_with(signs) {
            return true;
        }
    }
    false
}

/// Whether the code is between tags: in a cell a `|` after a backslash would end the cell, and in a link `]:` could
/// make the paragraph a definition.
fn needs_tags(line: Line, code: &[u8]) -> bool
    ensures { result ≡ spec.needs_tags line code.now }
{
    line.kind == LineKind::Cell && holds(code, b"\\|") || line.in_link && holds(code, b"]:")
}

/// A break.
fn written_break(line: Line) -> &'static str
    ensures { result.now ≡ spec.written_break line }
{
    if line.kind.is_one_line() {
        return "<br>";
    }
    match line.br_style {
        BrStyle::TwoSpaces => "  \n",
        BrStyle::Backslash => "\\\n",
    }
}

/// The box of a task.
fn written_task(is_checked: bool) -> &'static str
    ensures { result.now ≡ spec.written_task is_checked }
{
    if is_checked { "[x]" } else { "[ ]" }
}

/// Whether the inline is this text.
fn is_text(x: &Inline, address: &str) -> bool
    ensures { result ≡ spec.is_text address.now (inline_of x.now) }
{
    match x {
        Inline::Text(text) => text.as_str() == address,
        _ => false,
    }
}

/// Whether the content is this text, and nothing else.
fn is_text_alone(content: &[Inline], address: &str) -> bool
    ensures { result ≡ spec.is_text_alone address.now (inlines_of content.now) }
{
    match content {
        [x] => is_text(x, address),
        _ => false,
    }
}

/// Whether the link is written as an autolink, which has no title (CommonMark 0.31.2, 6.5).
fn is_autolinked(line: Line, content: &[Inline], address: &str, title: Option<&str>) -> bool
    ensures { result ≡ spec.is_autolinked line address.now (option_copied title.entry) (inlines_of content.now) }
{
    line.link_style == LinkStyle::InlinedPreferAutolinks
        && title.is_none()
        && is_text_alone(content, address)
        && is_autolink(address)
        && line.kind != LineKind::Cell
}

/// The line that defines the address and the title of the reference with this number (CommonMark 0.31.2, 4.7).
///
/// `Err` means out of memory.
fn definition(
    alloc: Global,
    number: usize,
    address: &str,
    title: Option<&str>,
) -> Result<String, AllocError>
    ensures { IfOk result
        (λ s. string_bytes s ≡ spec.definition number address.now (option_copied title.entry)) }
{
    let mut line = String::with_capacity(alloc, address.len().saturating_add(8))?;
    write!(line, "[{number}]: ")?;
    push_destination(&mut line, address)?;
    push_title(&mut line, title)?;
    Ok(line)
}

/// Appends the number of a reference, after the bracket that ends its text.
fn push_number(out: &mut String, number: usize) -> Result<(), AllocError>
    ensures { OnOk result
        (string_bytes out.new ≡ string_bytes out.old ++ spec.reference_number number) }
{
    write!(out, "][{number}]")
}

impl InlineWriter {
    /// Nothing is written yet.
    pub(crate) fn new(alloc: Global) -> InlineWriter
        ensures { written_of result ≡ nothing_written }
    {
        InlineWriter {
            text: String::new(alloc),
            definitions: Vec::new(alloc),
            alloc,
        }
    }

    /// Writes a paragraph, the text of a heading or a cell, in place of the text so far.
    ///
    /// `Err` means out of memory.
    pub(crate) fn write_line(&mut self, xs: &[Inline], line: Line) -> Result<(), AllocError>
        ensures { OnOk result (written_of self.new
            ≡ spec.written_line line (written_of self.old).definitions (inlines_of xs.now)) }
    {
        self.text.clear();
        self.write_inlines(xs, line, None)
    }

    /// Writes inlines after the text so far, before the first character of what closes them.
    #[cycle(inlines)]
    fn write_inlines(
        &mut self,
        xs: &[Inline],
        line: Line,
        closing: Option<char>,
    ) -> Result<(), AllocError>
        ensures { OnOk result (written_of self.new
            ≡ spec.written line (written_of self.old) closing (inlines_of xs.now)) }
    {
        for (i, x) in xs.iter().enumerate() {
            let follows = follows(&xs[i + 1..], line.kind, closing);
            self.write_inline(x, line, follows)?;
        }
        Ok(())
    }

    /// Writes an inline after the text so far.
    #[cycle(inlines)]
    #[tactic(auto, using(crate::proofs::InlinesLemmas::written_steps))]
    fn write_inline(&mut self, x: &Inline, line: Line, follows: Following) -> Result<(), AllocError>
        ensures { OnOk result (written_of self.new
            ≡ spec.with_inline line (written_of self.old) follows (inline_of x.now)) }
    {
        match x {
            Inline::Text(text) => self.write_text(text, line, follows),
            Inline::Code(code) => self.write_code(code, line),
            Inline::Formatted(format, xs) => self.write_format(xs, *format, line, follows),
            Inline::Element(element, xs) => self.write_between(xs, tags_of(*element), line),
            Inline::Abbreviation { title, content } => {
                self.write_abbreviation(content, title, line)
            }
            Inline::Anchor(id) => self.write_anchor(id),
            Inline::Link {
                address,
                title,
                content,
            } => self.write_link(content, address, title.as_deref(), line),
            Inline::Image {
                address,
                title,
                description,
            } => self.write_image(address, title.as_deref(), description),
            Inline::LineBreak => self.text.push_str(written_break(line)),
            Inline::Task(is_checked) => self.text.push_str(written_task(*is_checked)),
        }
    }

    /// Writes a format: marks or tags around the content.
    #[cycle(inlines)]
    fn write_format(
        &mut self,
        content: &[Inline],
        format: Format,
        line: Line,
        follows: Following,
    ) -> Result<(), AllocError>
        ensures { OnOk result (written_of self.new ≡ spec.with_inline line (written_of self.old) follows
            (value.formatted (of_format format) (inlines_of content.now))) }
    {
        let sides = Sides {
            before: character_before(&self.text),
            is_escaped: is_last_escaped(&self.text),
            first: first_of_all(content, line.kind),
            last: last_of_all(content),
            after: follows.after,
            is_last: follows.is_last,
        };
        self.write_between(content, mark_for(format, sides), line)
    }

    /// Writes the content between marks or tags.
    #[cycle(inlines)]
    fn write_between(
        &mut self,
        content: &[Inline],
        mark: Mark,
        line: Line,
    ) -> Result<(), AllocError>
        ensures { OnOk result (written_of self.new
            ≡ spec.between line (written_of self.old) (mark_of mark) (inlines_of content.now)) }
    {
        self.text.push_str(mark.opener)?;
        self.write_inlines(content, line, Some(mark.sign))?;
        self.text.push_str(mark.closer)
    }

    /// Writes the content between the tags of an abbreviation.
    #[cycle(inlines)]
    fn write_abbreviation(
        &mut self,
        content: &[Inline],
        title: &str,
        line: Line,
    ) -> Result<(), AllocError>
        ensures { OnOk result (written_of self.new ≡ spec.between line (written_of self.old)
            (marks.tags_of (Abbreviation title.now)) (inlines_of content.now)) }
    {
        push_abbreviation(&mut self.text, title)?;
        self.write_inlines(content, line, Some('<'))?;
        self.text.push_str(END_OF_ABBREVIATION)
    }

    /// Writes a link.
    #[cycle(inlines)]
    fn write_link(
        &mut self,
        content: &[Inline],
        address: &str,
        title: Option<&str>,
        line: Line,
    ) -> Result<(), AllocError>
        ensures { OnOk result (written_of self.new ≡ spec.with_link line (written_of self.old)
            address.now (option_copied title.entry) (inlines_of content.now)) }
    {
        if is_autolinked(line, content, address, title) {
            return self.write_autolink(address);
        }
        self.text.push('[')?;
        self.write_inlines(content, line.in_link(), Some(']'))?;
        match line.link_style {
            LinkStyle::Referenced => self.write_reference(address, title),
            LinkStyle::Inlined | LinkStyle::InlinedPreferAutolinks => {
                self.write_resource(address, title)
            }
        }
    }

    /// Writes a text.
    fn write_text(&mut self, text: &str, line: Line, follows: Following) -> Result<(), AllocError>
        ensures { OnOk result
            (written_of self.new ≡ spec.with_text line (written_of self.old) follows text.now) }
    {
        let place = place_of(line, &self.text, follows.after);
        let start = self.text.len();
        push_escaped(&mut self.text, text, &place)?;
        if is_end_of_heading(line, follows)
            && ends_in_closing_signs(&self.text.as_bytes()[start..])
        {
            self.text.truncate(self.text.len() - 1);
            self.text.push_str("\\#")?;
        }
        Ok(())
    }

    /// Writes a code span, or the code as a text between tags.
    fn write_code(&mut self, code: &str, line: Line) -> Result<(), AllocError>
        ensures { OnOk result (written_of self.new
            ≡ wrote (written_of self.old) (spec.written_code line code.now)) }
    {
        if !needs_tags(line, code.as_bytes()) {
            return push_code_span(&mut self.text, code);
        }
        let place = Place {
            begins_line: false,
            in_brackets: line.in_link,
            before: Some('>'),
            after: Some('<'),
        };
        self.text.push_str("<code>")?;
        push_escaped(&mut self.text, code, &place)?;
        self.text.push_str("</code>")
    }

    /// Writes an image.
    fn write_image(
        &mut self,
        address: &str,
        title: Option<&str>,
        description: &str,
    ) -> Result<(), AllocError>
        ensures { OnOk result (written_of self.new ≡ wrote (written_of self.old)
            (spec.written_image address.now (option_copied title.entry) description.now)) }
    {
        let place = Place {
            begins_line: false,
            in_brackets: true,
            before: Some('['),
            after: Some(']'),
        };
        self.text.push_str("![")?;
        push_escaped(&mut self.text, description, &place)?;
        self.write_resource(address, title)
    }

    /// Writes an anchor.
    fn write_anchor(&mut self, id: &str) -> Result<(), AllocError>
        ensures { OnOk result (written_of self.new ≡ wrote (written_of self.old) (anchor id.now)) }
    {
        push_anchor(&mut self.text, id)?;
        self.text.push_str(END_OF_ANCHOR)
    }

    /// Writes an address between `<` and `>`.
    fn write_autolink(&mut self, address: &str) -> Result<(), AllocError>
        ensures { OnOk result (written_of self.new
            ≡ wrote (written_of self.old) (spec.autolink address.now)) }
    {
        self.text.push('<')?;
        self.text.push_str(address)?;
        self.text.push('>')
    }

    /// Writes an address and a title in parentheses, after the bracket that ends what they belong to.
    fn write_resource(&mut self, address: &str, title: Option<&str>) -> Result<(), AllocError>
        ensures { OnOk result (written_of self.new ≡ wrote (written_of self.old)
            (spec.written_resource address.now (option_copied title.entry))) }
    {
        self.text.push_str("](")?;
        push_destination(&mut self.text, address)?;
        push_title(&mut self.text, title)?;
        self.text.push(')')
    }

    /// Writes a reference to the next definition, which it adds.
    fn write_reference(&mut self, address: &str, title: Option<&str>) -> Result<(), AllocError>
        ensures { OnOk result (written_of self.new
            ≡ spec.with_reference (written_of self.old) address.now (option_copied title.entry)) }
    {
        let number = self.definitions.len() + 1;
        let definition = definition(self.alloc, number, address, title)?;
        self.definitions.push(definition)?;
        push_number(&mut self.text, number)
    }
}
