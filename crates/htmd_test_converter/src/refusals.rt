//! Pages for which any one allocation may fail: the answer is out of memory or the page's own, and the same converter
//! and tree give the page's own at the next try. `checks/refused_memory`, a part of the gate, lets each allocation fail
//! in turn.
use crate::builders::{faithful, referenced};
use crate::handlers::{FirstChild, PassesOn};
use htmd::element_handler::ElementHandler;
use htmd::options::{Options, TranslationMode};
use htmd::{ConvertError, FaultKind, HtmlToMarkdown, Tree};
use htmd_test_expected::{expect_text, expect_that};
use std::alloc::{AllocError, Global};
use std::test::Fail;

// What a page gives or how it is refused, at a second try if need be.
fn asked(alloc: Global, converter: &HtmlToMarkdown, html: &str) -> Result<String, ConvertError> {
    match converter.convert(alloc, html) {
        Err(ConvertError::Memory) => converter.convert(alloc, html),
        answer => answer,
    }
}

// The tree of a page or how it is refused, at a second try if need be.
fn asked_tree(alloc: Global, converter: &HtmlToMarkdown, html: &str) -> Result<Tree, ConvertError> {
    match converter.html_to_tree(alloc, html) {
        Err(ConvertError::Memory) => converter.html_to_tree(alloc, html),
        answer => answer,
    }
}

// The Markdown of any page as browsers read it, at a second try if need be.
fn asked_any(alloc: Global, converter: &HtmlToMarkdown, html: &str) -> Result<String, AllocError> {
    match converter.convert_html5(alloc, html) {
        Ok(markdown) => Ok(markdown),
        Err(_) => converter.convert_html5(alloc, html),
    }
}

/// The Markdown of a page, and of its tree by the same converter.
pub(crate) fn answered(
    alloc: Global,
    converter: &HtmlToMarkdown,
    html: &str,
) -> Result<String, Fail> {
    let markdown = asked(alloc, converter, html)?;
    let tree = asked_tree(alloc, converter, html)?;
    let again = match converter.tree_to_markdown(alloc, &tree, tree.root()) {
        Ok(again) => again,
        Err(_) => converter.tree_to_markdown(alloc, &tree, tree.root())?,
    };
    if markdown.as_str() != again.as_str() {
        return Err(Fail::from("a page and its tree give the same"));
    }
    Ok(again)
}

/// The Markdown of a page, with these options.
pub(crate) fn answered_with(alloc: Global, options: Options, html: &str) -> Result<String, Fail> {
    let builder = match HtmlToMarkdown::builder(alloc) {
        Ok(builder) => builder,
        Err(_) => HtmlToMarkdown::builder(alloc)?,
    };
    answered(alloc, &builder.options(options).build(), html)
}

// The Markdown of a page with this handler for a tag, which is added at a second try if need be.
fn answered_by(
    alloc: Global,
    tag: &str,
    handler: Box<dyn ElementHandler>,
    html: &str,
) -> Result<String, Fail> {
    let builder = match HtmlToMarkdown::builder(alloc) {
        Ok(builder) => builder,
        Err(_) => HtmlToMarkdown::builder(alloc)?,
    };
    let builder = match builder.add_handler(&[tag], handler) {
        Ok(builder) => builder,
        Err(refused) => match refused.builder.add_handler(&[tag], refused.handler) {
            Ok(builder) => builder,
            Err(_) => return Err(Fail::from("one request is refused")),
        },
    };
    answered(alloc, &builder.build(), html)
}

#[test]
fn writes_a_table(rt: HostRuntime) -> Result<(), Fail> {
    let html =
        "<table><thead><tr><th>A</th></tr></thead><tbody><tr><td>b|c</td><td>d</td></tr></tbody></table>";
    let markdown = "| A        |   |\n| -------- | - |\n| b&#124;c | d |";
    let answer = answered_with(rt.alloc(), Options::default(), html)?;
    expect_text(html, answer.as_str(), markdown)
}

#[test]
fn refers_from_captions(rt: HostRuntime) -> Result<(), Fail> {
    let html = "<table><caption><a href=\"/x\">C</a></caption><thead></thead></table>";
    let answer = answered_with(rt.alloc(), referenced(), html)?;
    expect_text(html, answer.as_str(), "[C][2]\n\n[1]: /x\n[2]: /x")
}

#[test]
fn writes_raw_html(rt: HostRuntime) -> Result<(), Fail> {
    let html = "<details>\n    <summary>Test\n\n        1</summary>\n    Test 2\n</details>";
    let markdown = "<details>\n    <summary>Test\n&#10;        1</summary>\n    Test 2\n</details>";
    let answer = answered_with(rt.alloc(), faithful(), html)?;
    expect_text(html, answer.as_str(), markdown)
}

#[test]
fn passes_on(rt: HostRuntime) -> Result<(), Fail> {
    let handler: Box<dyn ElementHandler> = match Box::new(rt.alloc(), PassesOn { appended: None }) {
        Ok(handler) => handler,
        Err(_) => Box::new(rt.alloc(), PassesOn { appended: None })?,
    };
    let html =
        "<pre><code><span>sudo apt update\n</span><span>sudo apt install curl\n</span></code></pre>";
    let markdown = "```\nsudo apt update\nsudo apt install curl\n```";
    let answer = answered_by(rt.alloc(), "span", handler, html)?;
    expect_text(html, answer.as_str(), markdown)
}

#[test]
fn asks_for_a_descendant(rt: HostRuntime) -> Result<(), Fail> {
    let handler: Box<dyn ElementHandler> = match Box::new(rt.alloc(), FirstChild) {
        Ok(handler) => handler,
        Err(_) => Box::new(rt.alloc(), FirstChild)?,
    };
    let html = "<pre><delegate><mark>  *literal*  \nsecond</mark></delegate></pre>";
    let answer = answered_by(rt.alloc(), "delegate", handler, html)?;
    expect_text(html, answer.as_str(), "  *literal*  \nsecond")
}

#[test]
fn keeps_definitions(rt: HostRuntime) -> Result<(), Fail> {
    let options = Options {
        translation_mode: TranslationMode::Faithful,
        ..referenced()
    };
    let html = "<ol><li><a href=\"/x\">A</a></li><li foo>b</li></ol>";
    let markdown = "<ol><li><a href=\"/x\">A</a></li><li foo=\"\">b</li></ol>\n\n[1]: /x";
    let answer = answered_with(rt.alloc(), options, html)?;
    expect_text(html, answer.as_str(), markdown)
}

// Whether this refuses an element that is open at byte 6.
fn is_open(error: Option<ConvertError>) -> bool {
    let kind = FaultKind::Unclosed;
    error == Some(ConvertError::Refused { place: 6, kind })
}

#[test]
fn refuses_an_open_element(rt: HostRuntime) -> Result<(), Fail> {
    let builder = match HtmlToMarkdown::builder(rt.alloc()) {
        Ok(builder) => builder,
        Err(_) => HtmlToMarkdown::builder(rt.alloc())?,
    };
    let converter = builder.build();
    let answer = asked(rt.alloc(), &converter, "<div>a");
    expect_that("page", is_open(answer.err()))?;
    let answer = asked_tree(rt.alloc(), &converter, "<div>a");
    expect_that("tree", is_open(answer.err()))
}

// A page with end tags left out, as browsers read it.
#[test]
fn converts_a_broken_page(rt: HostRuntime) -> Result<(), Fail> {
    let converter = match HtmlToMarkdown::new(rt.alloc()) {
        Ok(converter) => converter,
        Err(_) => HtmlToMarkdown::new(rt.alloc())?,
    };
    let html = "<ul><li>a<li>b</ul><p>x<b>y<p>z";
    let markdown = asked_any(rt.alloc(), &converter, html)?;
    expect_text(html, markdown.as_str(), "*   a\n*   b\n\nx**y**\n\n**z**")
}
