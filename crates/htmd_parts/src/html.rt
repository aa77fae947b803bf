//! Parts as HTML.
ghost use Rattle.std.specs.Prelude.{◌≡◌, ◌<◌, ◌≤◌, ◌^◌, ◌+◌, ◌++◌, ◌-◌, IfOk, OnOk, codes, false, string_bytes};
ghost use Rattle.htmd_document.specs.DocumentViews.{bytes_of_title};
ghost use Rattle.htmd_commonmark_reading.specs.Markup.{Blocks};
ghost use Rattle.htmd_commonmark_reading.specs.Rendering as spec;
ghost use Rattle.htmd_parts.specs.Parts as part;
ghost use Rattle.htmd_parts.specs.PartViews.{tag_of, end_of, part_of, all_parts_of};
ghost use Rattle.htmd_parts.specs.Machine.{page, page_of, more, line, new_line, with_tag, with_end};
ghost use Rattle.htmd_parts.specs.Machine.{with_image_end, with_parts};

use crate::parts::{Part, Tag, TagEnd};
use crate::tags::{
    end_of_format, end_of_list, push_code, push_code_block, push_heading_end, push_heading_tag,
    push_html_lines, push_image_before, push_image_behind, push_link_tag, push_list_tag,
    start_of_cell, start_of_format, start_of_header_cell, task_box,
};
use crate::texts::push_text;
use std::alloc::{AllocError, Global};

/// The HTML of what is read, by its parts. `Err` means out of memory.
pub fn to_html(alloc: Global, parts: &[Part]) -> Result<String, AllocError>
    ensures ok { IfOk result (λ html. (bs : Blocks) → all_parts_of parts.now ≡ part.parts_of bs
        → string_bytes html ≡ spec.html_of bs) }
{
    let mut writer = Writer {
        html: String::new(alloc),
        in_line: false,
        images: 0,
    };
    for part in parts {
        writer.push_part(part)?;
    }
    Ok(writer.html)
}

/// What was written so far.
#[derive(Drop)]
struct Writer {
    html: String,
    /// Whether something stands in the last line.
    in_line: bool,
    /// How many images are open.
    images: usize,
}

impl Writer {
    /// Writes a part.
    fn push_part(&mut self, part: &Part) -> Result<(), AllocError>
        requires { self.now.images < 2 ^ 63 }
        ensures page { OnOk result
            (page_of self.new ≡ with_parts (page_of self.old) (part_of part.now)) }
        ensures few { OnOk result (self.new.images ≤ self.old.images + 1) }
    {
        if self.images == 0 {
            self.push_shown(part)
        } else {
            self.push_described(part)
        }
    }

    /// Writes a part outside images.
    fn push_shown(&mut self, part: &Part) -> Result<(), AllocError>
        requires { self.now.images ≡ 0 }
        ensures page { OnOk result
            (page_of self.new ≡ with_parts (page_of self.old) (part_of part.now)) }
        ensures few { OnOk result (self.new.images ≤ 1) }
    {
        match part {
            Part::Start(tag) => self.push_start(tag),
            Part::End(end) => self.push_end(end),
            Part::Text(text) => push_text(&mut self.html, text),
            Part::Code(text) => push_code(&mut self.html, text),
            Part::Html(text) => self.html.push_str(text),
            Part::LineBreak => self.html.push_str("<br />\n"),
            Part::Task(is_checked) => self.html.push_str(task_box(*is_checked)),
            Part::CodeBlock { language, text } => {
                self.begin_line()?;
                push_code_block(&mut self.html, language, text)
            }
            Part::HtmlBlock(text) => {
                self.begin_line()?;
                push_html_lines(&mut self.html, text)
            }
            Part::ThematicBreak => self.push_line("<hr />\n"),
        }
    }

    /// Writes the text of a part in an image.
    fn push_described(&mut self, part: &Part) -> Result<(), AllocError>
        requires some { 0 < self.now.images }
        requires few { self.now.images < 2 ^ 63 }
        ensures page { OnOk result
            (page_of self.new ≡ with_parts (page_of self.old) (part_of part.now)) }
        ensures few { OnOk result (self.new.images ≤ self.old.images + 1) }
    {
        match part {
            Part::Start(Tag::Image { .. }) => {
                self.images += 1;
                Ok(())
            }
            Part::End(TagEnd::Image { title }) => self.end_image(title),
            Part::Text(text) | Part::Code(text) | Part::Html(text) => {
                push_text(&mut self.html, text)
            }
            Part::LineBreak => self.html.push_str(" "),
            _ => Ok(()),
        }
    }

    /// Ends an image, which may be in another.
    fn end_image(&mut self, title: &Option<String>) -> Result<(), AllocError>
        requires { 0 < self.now.images }
        ensures page { OnOk result (page_of self.new
            ≡ with_image_end (page_of self.old) (bytes_of_title title.now) (self.old.images - 1)) }
        ensures few { OnOk result (self.new.images < self.old.images) }
    {
        if self.images == 1 {
            push_image_behind(&mut self.html, title)?;
        }
        self.images -= 1;
        Ok(())
    }

    /// Begins a line, where one has begun.
    fn begin_line(&mut self) -> Result<(), AllocError>
        ensures { OnOk result (page_of self.new
            ≡ line (page_of self.old) (spec.line_end_before self.old.in_line false)) }
    {
        if self.in_line {
            self.html.push_str("\n")?;
        }
        self.in_line = false;
        Ok(())
    }

    /// Writes a tag at the beginning of a line.
    fn push_line(&mut self, tag: &str) -> Result<(), AllocError>
        ensures { OnOk result (page_of self.new ≡ new_line (page_of self.old) tag.now) }
    {
        self.begin_line()?;
        self.html.push_str(tag)
    }

    /// Writes a tag that ends a line.
    fn end_line(&mut self, tag: &str) -> Result<(), AllocError>
        ensures { OnOk result (page_of self.new ≡ line (page_of self.old) tag.now) }
    {
        self.in_line = false;
        self.html.push_str(tag)
    }

    /// Writes the tag that begins something.
    fn push_start(&mut self, tag: &Tag) -> Result<(), AllocError>
        requires { self.now.images ≡ 0 }
        ensures page { OnOk result (page_of self.new ≡ with_tag (page_of self.old) (tag_of tag.now)) }
        ensures few { OnOk result (self.new.images ≤ 1) }
    {
        match tag {
            Tag::Paragraph { tight: true } => Ok(()),
            Tag::Paragraph { tight: false } => self.push_line("<p>"),
            Tag::Heading(level) => {
                self.begin_line()?;
                push_heading_tag(&mut self.html, *level)
            }
            Tag::Quote => self.push_line("<blockquote>\n"),
            Tag::List { start, .. } => {
                self.begin_line()?;
                push_list_tag(&mut self.html, *start)
            }
            Tag::Item => {
                self.in_line = true;
                self.html.push_str("<li>")
            }
            Tag::Table => self.push_line("<table>\n"),
            Tag::Head => self.html.push_str("<thead>\n"),
            Tag::Body => self.html.push_str("<tbody>\n"),
            Tag::Row => self.html.push_str("<tr>\n"),
            Tag::HeaderCell(alignment) => self.html.push_str(start_of_header_cell(*alignment)),
            Tag::Cell(alignment) => self.html.push_str(start_of_cell(*alignment)),
            Tag::Formatted(format) => self.html.push_str(start_of_format(*format)),
            Tag::Link { address, title } => push_link_tag(&mut self.html, address, title),
            Tag::Image { address } => {
                self.images = 1;
                push_image_before(&mut self.html, address)
            }
        }
    }

    /// Writes the tag that ends something.
    fn push_end(&mut self, end: &TagEnd) -> Result<(), AllocError>
        requires { self.now.images ≡ 0 }
        ensures page { OnOk result (page_of self.new ≡ with_end (page_of self.old) (end_of end.now)) }
        ensures few { OnOk result (self.new.images ≤ 1) }
    {
        match end {
            TagEnd::Paragraph { tight: true } => {
                self.in_line = true;
                Ok(())
            }
            TagEnd::Paragraph { tight: false } => self.end_line("</p>\n"),
            TagEnd::Heading(level) => {
                self.in_line = false;
                push_heading_end(&mut self.html, *level)
            }
            TagEnd::Quote => self.end_line("</blockquote>\n"),
            TagEnd::List { numbered } => self.end_line(end_of_list(*numbered)),
            TagEnd::Item => self.end_line("</li>\n"),
            TagEnd::Table => self.end_line("</table>\n"),
            TagEnd::Head => self.html.push_str("</thead>\n"),
            TagEnd::Body => self.html.push_str("</tbody>\n"),
            TagEnd::Row => self.html.push_str("</tr>\n"),
            TagEnd::HeaderCell => self.html.push_str("</th>\n"),
            TagEnd::Cell => self.html.push_str("</td>\n"),
            TagEnd::Formatted(format) => self.html.push_str(end_of_format(*format)),
            TagEnd::Link => self.html.push_str("</a>"),
            TagEnd::Image { .. } => Ok(()),
        }
    }
}
