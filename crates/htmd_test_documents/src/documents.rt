//! What no clause says: that documents are written if there is memory.

use htmd_commonmark::{DocumentOptions, to_markdown};
use htmd_document::{
    Alignment, AttributeName, Block, BlockAttribute, BlockElement, Document, Format, Inline,
    InlineElement,
};
use htmd_markdown::{BrStyle, BulletListMarker, CodeBlockFence, HeadingStyle, HrStyle, LinkStyle};
use htmd_test_expected::expect_text;
use std::alloc::{AllocError, Global};
use std::test::Fail;

const MARKDOWN: &str =
    "## <a id=\"i\"></a>a\n\n**b** [c](/x)<sup>2</sup>\n\n*   [x] d\n*   e\n\n| f   | 中  |\n| --- | --- |\n\
     | g   |     |\n\n> ```rust\n> h\n> ```";

const JSON: &str = "{\"children\":[{\"type\":\"thematicBreak\"},{\"children\":[\
     {\"type\":\"text\",\"value\":\"a\"}],\"type\":\"paragraph\"}],\"type\":\"root\"}";

const RICH_MARKDOWN: &str =
    "<details open=\"\">\n<summary>a</summary>\n\n<abbr title=\"b &quot;c&quot;\">d</abbr> <kbd>e</kbd>\n\n</details>";

const RICH_JSON: &str =
    "{\"children\":[{\"type\":\"html\",\"value\":\"<details open=\\\"\\\">\\n<summary>a</summary>\"},\
     {\"children\":[{\"type\":\"html\",\"value\":\"<abbr title=\\\"b &quot;c&quot;\\\">\"},\
     {\"type\":\"text\",\"value\":\"d\"},{\"type\":\"html\",\"value\":\"</abbr>\"},\
     {\"type\":\"text\",\"value\":\" \"},{\"type\":\"html\",\"value\":\"<kbd>\"},\
     {\"type\":\"text\",\"value\":\"e\"},{\"type\":\"html\",\"value\":\"</kbd>\"}],\"type\":\"paragraph\"},\
     {\"type\":\"html\",\"value\":\"</details>\"}],\"type\":\"root\"}";

const OPTIONS: DocumentOptions = DocumentOptions {
    heading_style: HeadingStyle::Atx,
    hr_style: HrStyle::Asterisks,
    br_style: BrStyle::TwoSpaces,
    link_style: LinkStyle::Inlined,
    code_block_fence: CodeBlockFence::Backticks,
    bullet_list_marker: BulletListMarker::Asterisk,
    ul_bullet_spacing: 3,
    ol_number_spacing: 2,
};

fn text(alloc: Global, s: &str) -> Result<Inline, AllocError> {
    Ok(Inline::Text(String::from_str(alloc, s)?))
}

fn line(alloc: Global, s: &str) -> Result<Vec<Inline>, AllocError> {
    let mut line = Vec::new(alloc);
    line.push(text(alloc, s)?)?;
    Ok(line)
}

/// Strong text, a space, a link and a superscript.
fn formats(alloc: Global) -> Result<Block, AllocError> {
    let mut line_of_all = Vec::new(alloc);
    line_of_all.push(Inline::Formatted(Format::Strong, line(alloc, "b")?))?;
    line_of_all.push(text(alloc, " ")?)?;
    line_of_all.push(Inline::Link {
        address: String::from_str(alloc, "/x")?,
        title: None,
        content: line(alloc, "c")?,
    })?;
    line_of_all.push(Inline::Element(InlineElement::Superscript, line(alloc, "2")?))?;
    Ok(Block::Paragraph(line_of_all))
}

/// An item of one paragraph.
fn item(alloc: Global, content: Vec<Inline>) -> Result<Vec<Block>, AllocError> {
    let mut blocks = Vec::new(alloc);
    blocks.push(Block::Paragraph(content))?;
    Ok(blocks)
}

/// A tight list of a task that is done and another item.
fn list(alloc: Global) -> Result<Block, AllocError> {
    let mut task = Vec::new(alloc);
    task.push(Inline::Task(true))?;
    task.push(text(alloc, " d")?)?;
    let mut items = Vec::new(alloc);
    items.push(item(alloc, task)?)?;
    items.push(item(alloc, line(alloc, "e")?)?)?;
    Ok(Block::List {
        start: None,
        tight: true,
        items,
    })
}

/// A table of two columns, with a row of one cell.
fn table(alloc: Global) -> Result<Block, AllocError> {
    let mut alignments = Vec::new(alloc);
    alignments.push(Alignment::None)?;
    alignments.push(Alignment::None)?;
    let mut header = Vec::new(alloc);
    header.push(line(alloc, "f")?)?;
    header.push(line(alloc, "中")?)?;
    let mut row = Vec::new(alloc);
    row.push(line(alloc, "g")?)?;
    let mut rows = Vec::new(alloc);
    rows.push(row)?;
    Ok(Block::Table {
        alignments,
        header,
        rows,
    })
}

/// A quote of a code block.
fn quote(alloc: Global) -> Result<Block, AllocError> {
    let mut blocks = Vec::new(alloc);
    blocks.push(Block::CodeBlock {
        language: Some(String::from_str(alloc, "rust")?),
        text: String::from_str(alloc, "h")?,
    })?;
    Ok(Block::Quote(blocks))
}

/// A heading with an anchor before its text.
fn heading(alloc: Global) -> Result<Block, AllocError> {
    let mut content = Vec::new(alloc);
    content.push(Inline::Anchor(String::from_str(alloc, "i")?))?;
    content.push(text(alloc, "a")?)?;
    Ok(Block::Heading { level: 2, content })
}

/// Details that are open, with a summary, an abbreviation and a key.
fn details(alloc: Global) -> Result<Document, AllocError> {
    let mut around = Vec::new(alloc);
    around.push(Inline::Abbreviation {
        title: String::from_str(alloc, "b \"c\"")?,
        content: line(alloc, "d")?,
    })?;
    around.push(text(alloc, " ")?)?;
    around.push(Inline::Element(InlineElement::Keyboard, line(alloc, "e")?))?;
    let mut content = Vec::new(alloc);
    content.push(Block::Element {
        name: BlockElement::Summary,
        attributes: Vec::new(alloc),
        content: item(alloc, line(alloc, "a")?)?,
    })?;
    content.push(Block::Paragraph(around))?;
    let mut attributes = Vec::new(alloc);
    attributes.push(BlockAttribute {
        name: AttributeName::Open,
        value: String::new(alloc),
    })?;
    let mut blocks = Vec::new(alloc);
    blocks.push(Block::Element {
        name: BlockElement::Details,
        attributes,
        content,
    })?;
    Ok(Document { blocks })
}

fn everything(alloc: Global) -> Result<Document, AllocError> {
    let mut blocks = Vec::new(alloc);
    blocks.push(heading(alloc)?)?;
    blocks.push(formats(alloc)?)?;
    blocks.push(list(alloc)?)?;
    blocks.push(table(alloc)?)?;
    blocks.push(quote(alloc)?)?;
    Ok(Document { blocks })
}

#[test]
fn writes_markdown(rt: HostRuntime) -> Result<(), Fail> {
    let document = everything(rt.alloc())?;
    let markdown = to_markdown(rt.alloc(), &document, &OPTIONS)?;
    expect_text("everything", &markdown, MARKDOWN)
}

#[test]
fn writes_json(rt: HostRuntime) -> Result<(), Fail> {
    let mut blocks = Vec::new(rt.alloc());
    blocks.push(Block::ThematicBreak)?;
    blocks.push(Block::Paragraph(line(rt.alloc(), "a")?))?;
    let json = Document { blocks }.to_mdast(rt.alloc())?;
    expect_text("a break and a paragraph", &json, JSON)
}

#[test]
fn writes_elements(rt: HostRuntime) -> Result<(), Fail> {
    let document = details(rt.alloc())?;
    let markdown = to_markdown(rt.alloc(), &document, &OPTIONS)?;
    expect_text("details as Markdown", &markdown, RICH_MARKDOWN)?;
    let json = document.to_mdast(rt.alloc())?;
    expect_text("details as JSON", &json, RICH_JSON)
}

#[test]
fn passes_or_ends_out_of_memory(rt: HostRuntime) -> Result<(), Fail> {
    let Ok(document) = everything(rt.alloc()) else {
        return Ok(());
    };
    match to_markdown(rt.alloc(), &document, &OPTIONS) {
        Ok(markdown) => expect_text("everything", &markdown, MARKDOWN),
        Err(AllocError) => Ok(()),
    }
}
