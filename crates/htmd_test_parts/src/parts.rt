//! What no clause says: that HTML is written if there is memory.

use htmd_document::{Alignment, Format};
use htmd_parts::{Part, Tag, TagEnd, to_html};
use htmd_test_expected::expect_text;
use std::alloc::{AllocError, Global};
use std::test::Fail;

/// As in 4.2, 5.1, 4.5, 4.1 and 4.6 of CommonMark.
const BLOCKS: &str = "<h2>foo</h2>\n<blockquote>\n<p>bar</p>\n</blockquote>\n\
     <pre><code class=\"language-ruby\">def foo(x)\n  return 3 &lt; 4\n</code></pre>\n<hr />\n<div>\n*a*\n";

/// As in 6.1 to 6.7 of CommonMark.
const INLINES: &str = "<p><em>a &amp; </em><code>&quot;c&quot;</code><br />\n\
     <a href=\"/my%20uri%5Bu\" title=\"title &quot;&amp;\">link</a>\
     <img src=\"/url\" alt=\"foo b d\" title=\"t\" /><b></p>\n";

/// As in 5.3 of CommonMark, with a task as in 5.3 of GitHub's.
const LISTS: &str = "<ul>\n<li><input checked=\"\" disabled=\"\" type=\"checkbox\"> a\n\
     <ol start=\"7\">\n<li>\n<p>b</p>\n</li>\n</ol>\n</li>\n<li></li>\n</ul>\n";

/// As in 4.10 of GitHub's.
const TABLE: &str =
    "<table>\n<thead>\n<tr>\n<th>foo</th>\n<th align=\"right\">bar</th>\n</tr>\n</thead>\n\
     <tbody>\n<tr>\n<td>baz</td>\n<td align=\"right\"></td>\n</tr>\n</tbody>\n</table>\n";

fn text(alloc: Global, s: &str) -> Result<Part, AllocError> {
    Ok(Part::Text(String::from_str(alloc, s)?))
}

/// What begins, a text and what ends.
fn push_around(
    alloc: Global,
    parts: &mut Vec<Part>,
    tag: Tag,
    s: &str,
    end: TagEnd,
) -> Result<(), AllocError> {
    parts.push(Part::Start(tag))?;
    parts.push(text(alloc, s)?)?;
    parts.push(Part::End(end))?;
    Ok(())
}

fn push_paragraph(alloc: Global, parts: &mut Vec<Part>, s: &str) -> Result<(), AllocError> {
    let tag = Tag::Paragraph { tight: false };
    push_around(alloc, parts, tag, s, TagEnd::Paragraph { tight: false })
}

/// A heading, a quote, code, a rule and lines of HTML.
fn blocks(alloc: Global) -> Result<Vec<Part>, AllocError> {
    let mut parts = Vec::new(alloc);
    push_around(
        alloc,
        &mut parts,
        Tag::Heading(2),
        "foo",
        TagEnd::Heading(2),
    )?;
    parts.push(Part::Start(Tag::Quote))?;
    push_paragraph(alloc, &mut parts, "bar")?;
    parts.push(Part::End(TagEnd::Quote))?;
    parts.push(Part::CodeBlock {
        language: Some(String::from_str(alloc, "ruby")?),
        text: String::from_str(alloc, "def foo(x)\n  return 3 < 4")?,
    })?;
    parts.push(Part::ThematicBreak)?;
    parts.push(Part::HtmlBlock(String::from_str(alloc, "<div>\n*a*")?))?;
    Ok(parts)
}

/// An image with an image, a break and code in it.
fn push_image(alloc: Global, parts: &mut Vec<Part>) -> Result<(), AllocError> {
    parts.push(Part::Start(Tag::Image {
        address: String::from_str(alloc, "/url")?,
    }))?;
    parts.push(text(alloc, "foo ")?)?;
    let inner = Tag::Image {
        address: String::from_str(alloc, "/b")?,
    };
    push_around(alloc, parts, inner, "b", TagEnd::Image { title: None })?;
    parts.push(Part::LineBreak)?;
    parts.push(Part::Code(String::from_str(alloc, "d")?))?;
    parts.push(Part::End(TagEnd::Image {
        title: Some(String::from_str(alloc, "t")?),
    }))?;
    Ok(())
}

/// A paragraph with an inline of each kind, tasks aside.
fn inlines(alloc: Global) -> Result<Vec<Part>, AllocError> {
    let mut parts = Vec::new(alloc);
    parts.push(Part::Start(Tag::Paragraph { tight: false }))?;
    let format = Format::Emphasis;
    push_around(
        alloc,
        &mut parts,
        Tag::Formatted(format),
        "a & ",
        TagEnd::Formatted(format),
    )?;
    parts.push(Part::Code(String::from_str(alloc, "\"c\"")?))?;
    parts.push(Part::LineBreak)?;
    let link = Tag::Link {
        address: String::from_str(alloc, "/my uri[u")?,
        title: Some(String::from_str(alloc, "title \"&")?),
    };
    push_around(alloc, &mut parts, link, "link", TagEnd::Link)?;
    push_image(alloc, &mut parts)?;
    parts.push(Part::Html(String::from_str(alloc, "<b>")?))?;
    parts.push(Part::End(TagEnd::Paragraph { tight: false }))?;
    Ok(parts)
}

/// A loose list of one item.
fn push_numbered(alloc: Global, parts: &mut Vec<Part>) -> Result<(), AllocError> {
    parts.push(Part::Start(Tag::List {
        start: Some(7),
        tight: false,
    }))?;
    parts.push(Part::Start(Tag::Item))?;
    push_paragraph(alloc, parts, "b")?;
    parts.push(Part::End(TagEnd::Item))?;
    parts.push(Part::End(TagEnd::List { numbered: true }))?;
    Ok(())
}

/// A tight list: a task with a loose list in it, and an empty item.
fn lists(alloc: Global) -> Result<Vec<Part>, AllocError> {
    let mut parts = Vec::new(alloc);
    parts.push(Part::Start(Tag::List {
        start: None,
        tight: true,
    }))?;
    parts.push(Part::Start(Tag::Item))?;
    parts.push(Part::Start(Tag::Paragraph { tight: true }))?;
    parts.push(Part::Task(true))?;
    parts.push(text(alloc, "a")?)?;
    parts.push(Part::End(TagEnd::Paragraph { tight: true }))?;
    push_numbered(alloc, &mut parts)?;
    parts.push(Part::End(TagEnd::Item))?;
    parts.push(Part::Start(Tag::Item))?;
    parts.push(Part::End(TagEnd::Item))?;
    parts.push(Part::End(TagEnd::List { numbered: false }))?;
    Ok(parts)
}

/// The header of a table of two columns.
fn push_head(alloc: Global, parts: &mut Vec<Part>) -> Result<(), AllocError> {
    parts.push(Part::Start(Tag::Head))?;
    parts.push(Part::Start(Tag::Row))?;
    let end = TagEnd::HeaderCell;
    push_around(alloc, parts, Tag::HeaderCell(Alignment::None), "foo", end)?;
    let end = TagEnd::HeaderCell;
    push_around(alloc, parts, Tag::HeaderCell(Alignment::Right), "bar", end)?;
    parts.push(Part::End(TagEnd::Row))?;
    parts.push(Part::End(TagEnd::Head))?;
    Ok(())
}

/// A table with a row whose last cell is empty.
fn table(alloc: Global) -> Result<Vec<Part>, AllocError> {
    let mut parts = Vec::new(alloc);
    parts.push(Part::Start(Tag::Table))?;
    push_head(alloc, &mut parts)?;
    parts.push(Part::Start(Tag::Body))?;
    parts.push(Part::Start(Tag::Row))?;
    push_around(
        alloc,
        &mut parts,
        Tag::Cell(Alignment::None),
        "baz",
        TagEnd::Cell,
    )?;
    parts.push(Part::Start(Tag::Cell(Alignment::Right)))?;
    parts.push(Part::End(TagEnd::Cell))?;
    parts.push(Part::End(TagEnd::Row))?;
    parts.push(Part::End(TagEnd::Body))?;
    parts.push(Part::End(TagEnd::Table))?;
    Ok(parts)
}

#[test]
fn writes_html(rt: HostRuntime) -> Result<(), Fail> {
    let html = to_html(rt.alloc(), &blocks(rt.alloc())?)?;
    expect_text("blocks", &html, BLOCKS)?;
    let html = to_html(rt.alloc(), &inlines(rt.alloc())?)?;
    expect_text("inlines", &html, INLINES)?;
    let html = to_html(rt.alloc(), &lists(rt.alloc())?)?;
    expect_text("lists", &html, LISTS)?;
    let html = to_html(rt.alloc(), &table(rt.alloc())?)?;
    expect_text("a table", &html, TABLE)
}

/// Whether the HTML is as it should be, or out of memory.
fn expect_html(
    alloc: Global,
    row: &str,
    parts: Result<Vec<Part>, AllocError>,
    want: &str,
) -> Result<(), Fail> {
    let Ok(parts) = parts else {
        return Ok(());
    };
    match to_html(alloc, &parts) {
        Ok(html) => expect_text(row, &html, want),
        Err(AllocError) => Ok(()),
    }
}

#[test]
fn passes_or_ends_out_of_memory(rt: HostRuntime) -> Result<(), Fail> {
    let alloc = rt.alloc();
    expect_html(alloc, "blocks", blocks(alloc), BLOCKS)?;
    expect_html(alloc, "inlines", inlines(alloc), INLINES)?;
    expect_html(alloc, "lists", lists(alloc), LISTS)?;
    expect_html(alloc, "a table", table(alloc), TABLE)
}
