//! Pages that no one writes by hand, as browsers read them. None is refused. No node is below level 1,024: what would
//! be there follows the element at that level. And of the formatting elements that are open, a paragraph reopens the
//! sixteen newest.
use htmd::options::{Options, TranslationMode};
use htmd::{HtmlToMarkdown, to_markdown};
use htmd_test_expected::expect_text;
use std::alloc::{AllocError, Global};
use std::test::Fail;

// For each of so many characters, one after another from U+10000 on, the character between these texts.
fn numbered(alloc: Global, before: &str, after: &str, count: u32) -> Result<String, AllocError> {
    let mut all = String::new(alloc);
    for number in 0..count {
        if let Some(character) = char::from_u32(0x10000u32.saturating_add(number)) {
            all.push_str(before)?;
            all.push(character)?;
            all.push_str(after)?;
        }
    }
    Ok(all)
}

// A text between so many marks of `b`.
fn push_marked(
    alloc: Global,
    all: &mut String,
    text: &str,
    depth: usize,
) -> Result<(), AllocError> {
    let marks = "**".repeat(alloc, depth)?;
    all.push_str(marks.as_str())?;
    all.push_str(text)?;
    all.push_str(marks.as_str())?;
    Ok(())
}

// Fails unless this is the Markdown of a page, in this mode.
fn expect_markdown(
    alloc: Global,
    translation_mode: TranslationMode,
    html: &str,
    markdown: &str,
) -> Result<(), Fail> {
    let options = Options {
        translation_mode,
        ..Options::default()
    };
    let converter = HtmlToMarkdown::builder(alloc)?.options(options).build();
    let answer = converter.convert_html5(alloc, html)?;
    expect_text("page", answer.as_str(), markdown)
}

#[test]
fn reads_a_million_open_elements(rt: HostRuntime) -> Result<(), Fail> {
    let mut html = "<div>".repeat(rt.alloc(), 1_000_000)?;
    html.push_str("x")?;
    expect_markdown(rt.alloc(), TranslationMode::Pure, html.as_str(), "x")
}

// A page with a hundred thousand open elements.
fn with_open_elements(alloc: Global) -> Result<String, AllocError> {
    let mut html = String::from_str(alloc, "<p>")?;
    let tags = numbered(alloc, "<b a=", ">", 100_000)?;
    html.push_str(tags.as_str())?;
    html.push_str("x<p>y")?;
    Ok(html)
}

// `html`, `body` and `p` are at levels 1 to 3, so the `b` of number 1,021 is the deepest. It and all after it hold
// nothing, and the text follows them in the one of number 1,020.
#[test]
fn reopens_sixteen_elements(rt: HostRuntime) -> Result<(), Fail> {
    let html = with_open_elements(rt.alloc())?;
    let mut wanted = String::new(rt.alloc());
    push_marked(rt.alloc(), &mut wanted, "x", 1_020)?;
    wanted.push_str("\n\n")?;
    push_marked(rt.alloc(), &mut wanted, "y", 16)?;
    expect_markdown(
        rt.alloc(),
        TranslationMode::Pure,
        html.as_str(),
        wanted.as_str(),
    )
}

// A paragraph's start tag with a thousand attributes, and then this.
fn with_attributes(alloc: Global, after: &str, end: &str) -> Result<String, AllocError> {
    let mut html = String::from_str(alloc, "<p")?;
    let attributes = numbered(alloc, " a", after, 1_000)?;
    html.push_str(attributes.as_str())?;
    html.push_str(end)?;
    Ok(html)
}

// The first of them is ignored when it comes a second time.
#[test]
fn keeps_a_thousand_attributes(rt: HostRuntime) -> Result<(), Fail> {
    let html = with_attributes(rt.alloc(), "", " a\u{10000}=z>x")?;
    let wanted = with_attributes(rt.alloc(), "=\"\"", ">x</p>")?;
    expect_markdown(
        rt.alloc(),
        TranslationMode::Faithful,
        html.as_str(),
        wanted.as_str(),
    )
}

// A reader sees at most 32 nested quotes.
#[test]
fn sees_quotes_to_a_bound(rt: HostRuntime) -> Result<(), Fail> {
    let alloc = rt.alloc();
    let mut html = String::new(alloc);
    let mut seen = String::new(alloc);
    for level in 0..1022 {
        html.push_str("<blockquote>")?;
        if level < 32 {
            seen.push_str("> ")?;
        }
    }
    html.push('x')?;
    seen.push('x')?;
    let converter = HtmlToMarkdown::new(alloc)?;
    let document = converter.document(alloc, &html)?;
    let markdown = to_markdown(alloc, &document, &converter.document_options())?;
    expect_text("quotes", &markdown, &seen)
}
