//! The registry by itself: which handlers are called, and what they make of an element.
use crate::handlers::PassesOn;
use htmd::element_handler::{ElementHandler, ElementHandlers, Links};
use htmd::options::Options;
use htmd::{NodeData, NodeId, Tree};
use htmd_test_expected::{expect_text, expect_that};
use std::alloc::Global;
use std::test::Fail;

/// Fails unless this is the handler that is found for a tag, after so many others.
pub(crate) fn expect_found(
    handlers: &ElementHandlers,
    tag: &str,
    skipped: usize,
    place: Option<usize>,
) -> Result<(), Fail> {
    expect_that(tag, handlers.find_handler(tag, skipped) == place)
}

// A built-in handler is found by each of its tags.
#[test]
fn finds_built_in_handlers(rt: HostRuntime) -> Result<(), Fail> {
    let handlers = ElementHandlers::new(rt.alloc(), Options::default())?;
    expect_found(&handlers, "a", 0, Some(1))?;
    expect_found(&handlers, "h1", 0, handlers.find_handler("h6", 0))?;
    expect_that("p", handlers.find_handler("p", 0).is_some())?;
    for (tag, skipped) in [("p", 1), ("u", 0), ("", 0)] {
        expect_found(&handlers, tag, skipped, None)?;
    }
    Ok(())
}

// A tag that is named twice has its handler twice, the newest first. The built-in handlers are 0 to 22.
#[test]
fn finds_repeated_handlers(rt: HostRuntime) -> Result<(), Fail> {
    let mut handlers = ElementHandlers::new(rt.alloc(), Options::default())?;
    expect_found(&handlers, "a", 0, Some(1))?;
    let handler: Box<dyn ElementHandler> = Box::new(rt.alloc(), PassesOn { appended: None })?;
    if handlers.add_handler(&["a", "a"], handler).is_err() {
        return Err(Fail::from("there is memory"));
    }
    const ROWS: &[(usize, Option<usize>)] = &[
        (0, Some(23)),
        (1, Some(23)),
        (2, Some(1)),
        (3, None),
    ];
    for &(skipped, place) in ROWS {
        expect_found(&handlers, "a", skipped, place)?;
    }
    Ok(())
}

// Fails unless the handler after so many others gives this Markdown.
fn expect_handled(
    alloc: Global,
    handlers: &ElementHandlers,
    tree: &Tree,
    node: NodeId,
    skipped: usize,
    content: &str,
) -> Result<(), Fail> {
    if !tree.contains(node) || !matches!(tree.data(node), NodeData::Element { .. }) {
        return Err(Fail::from("an element was added"));
    }
    let mut links = Links::new(alloc);
    let answer = handlers.handle(alloc, tree, node, true, skipped, &mut links)?;
    expect_that(content, links.lines().is_empty())?;
    let result = answer.ok_or("a handler answers")?;
    expect_that(content, result.markdown_translated)?;
    expect_text(content, result.content.as_str(), content)
}

#[test]
fn handles_an_element(rt: HostRuntime) -> Result<(), Fail> {
    let handlers = ElementHandlers::new(rt.alloc(), Options::default())?;
    let mut tree = Tree::new(rt.alloc())?;
    let root = tree.root();
    let bold = tree.add_element(root, "b", Vec::new(rt.alloc()))?;
    tree.add_text(bold, "C ")?;
    expect_handled(rt.alloc(), &handlers, &tree, bold, 0, "**C** ")?;
    expect_handled(rt.alloc(), &handlers, &tree, bold, 1, "C ")
}
