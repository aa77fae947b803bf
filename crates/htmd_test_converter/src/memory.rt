//! What is handed back when an allocation fails: all is as before, and the same call with the same values then answers
//! as it would have. `checks/refused_memory`, a part of the gate, lets each allocation of these tests fail in turn;
//! each test passes whichever it is.
use crate::handlers::TextAlone;
use crate::refusals::{answered, answered_with};
use crate::registry::expect_found;
use htmd::element_handler::{ElementHandler, ElementHandlers};
use htmd::options::Options;
use htmd::{HtmlToMarkdown, HtmlToMarkdownBuilder, to_markdown};
use htmd_test_expected::expect_text;
use std::alloc::{AllocError, Global};
use std::test::Fail;

// A handler in a box, at a second try if need be.
fn text_alone(alloc: Global) -> Result<Box<TextAlone>, AllocError> {
    match Box::new(alloc, TextAlone) {
        Ok(handler) => Ok(handler),
        Err(_) => Ok(Box::new(alloc, TextAlone)?),
    }
}

// The builder without these tags, at a second try if need be.
fn skipping(builder: HtmlToMarkdownBuilder) -> Result<HtmlToMarkdownBuilder, Fail> {
    let refused = match builder.skip_tags(&["a", "b"]) {
        Ok(builder) => return Ok(builder),
        Err(refused) => refused,
    };
    match refused.builder.skip_tags(&["a", "b"]) {
        Ok(builder) => Ok(builder),
        Err(_) => Err(Fail::from("one request is refused")),
    }
}

// The builder with this handler, at a second try if need be.
fn with_handler(
    builder: HtmlToMarkdownBuilder,
    handler: Box<dyn ElementHandler>,
) -> Result<HtmlToMarkdownBuilder, Fail> {
    let refused = match builder.add_handler(&["i", "u"], handler) {
        Ok(builder) => return Ok(builder),
        Err(refused) => refused,
    };
    match refused.builder.add_handler(&["i", "u"], refused.handler) {
        Ok(builder) => Ok(builder),
        Err(_) => Err(Fail::from("one request is refused")),
    }
}

// What a reader sees of a page, as Markdown.
fn shown_once(alloc: Global, converter: &HtmlToMarkdown, html: &str) -> Result<String, AllocError> {
    let document = converter.document(alloc, html)?;
    to_markdown(alloc, &document, &converter.document_options())
}

// The same, at a second try if need be.
fn shown(alloc: Global, converter: &HtmlToMarkdown, html: &str) -> Result<String, AllocError> {
    match shown_once(alloc, converter, html) {
        Ok(markdown) => Ok(markdown),
        Err(_) => shown_once(alloc, converter, html),
    }
}

#[test]
fn hands_back_builders(rt: HostRuntime) -> Result<(), Fail> {
    let builder = match HtmlToMarkdown::builder(rt.alloc()) {
        Ok(builder) => builder,
        Err(_) => HtmlToMarkdown::builder(rt.alloc())?,
    };
    let builder = skipping(builder)?;
    let handler: Box<dyn ElementHandler> = text_alone(rt.alloc())?;
    let builder = with_handler(builder, handler)?;
    let converter = builder.build();
    let html = "<p>1<a href=/x>2</a><i>3</i><u>4</u><b>5</b></p>";
    let answer = answered(rt.alloc(), &converter, html)?;
    expect_text(html, answer.as_str(), "134")?;
    let shown = shown(rt.alloc(), &converter, html)?;
    expect_text("what shows", shown.as_str(), "1*3*4")
}

// A registry that refused a handler finds what it found before, and then takes the handler.
#[test]
fn hands_back_handlers(rt: HostRuntime) -> Result<(), Fail> {
    let mut handlers = match ElementHandlers::new(rt.alloc(), Options::default()) {
        Ok(handlers) => handlers,
        Err(_) => ElementHandlers::new(rt.alloc(), Options::default())?,
    };
    let handler: Box<dyn ElementHandler> = text_alone(rt.alloc())?;
    if let Err(refused) = handlers.add_handler(&["a", "u", "a"], handler) {
        for (tag, skipped, place) in [("a", 0, Some(1)), ("a", 1, None), ("u", 0, None)] {
            expect_found(&handlers, tag, skipped, place)?;
        }
        if handlers
            .add_handler(&["a", "u", "a"], refused.handler)
            .is_err()
        {
            return Err(Fail::from("one request is refused"));
        }
    }
    const ROWS: &[(&str, usize, Option<usize>)] = &[
        ("a", 0, Some(23)),
        ("a", 1, Some(23)),
        ("a", 2, Some(1)),
        ("a", 3, None),
        ("u", 0, Some(23)),
        ("u", 1, None),
    ];
    for &(tag, skipped, place) in ROWS {
        expect_found(&handlers, tag, skipped, place)?;
    }
    Ok(())
}

// A page whose conversion ran out of memory is converted at the next try.
#[test]
fn converts_after_a_refusal(rt: HostRuntime) -> Result<(), Fail> {
    let html =
        "<h1>A <em>page</em></h1><ol><li><a href=/x>b_c</a></li></ol><pre><code>d</code></pre>";
    let markdown = "# A *page*\n\n1.  [b\\_c](/x)\n\n```\nd\n```";
    let answer = answered_with(rt.alloc(), Options::default(), html)?;
    expect_text(html, answer.as_str(), markdown)
}
