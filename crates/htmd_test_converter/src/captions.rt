//! Pages that are converted in the time that their length and depth require, though what is in a table without lines is
//! needed twice.
use crate::builders::faithful;
use crate::pages::converted_page;
use htmd::options::Options;
use htmd_test_expected::expect_text;
use std::alloc::{AllocError, Global};
use std::test::Fail;

// A text between this many start tags and as many end tags.
fn nested(
    alloc: Global,
    count: usize,
    start: &str,
    text: &str,
    end: &str,
) -> Result<String, AllocError> {
    let mut html = String::new(alloc);
    for _ in 0..count {
        html.push_str(start)?;
    }
    html.push_str(text)?;
    for _ in 0..count {
        html.push_str(end)?;
    }
    Ok(html)
}

// Fails unless this is the Markdown of a page, in a mode.
fn expect_page(alloc: Global, options: Options, html: &str, markdown: &str) -> Result<(), Fail> {
    let answer = converted_page(alloc, options, html)?;
    expect_text(markdown, answer.as_str(), markdown)
}

// A table in the caption of a table, and so on: each has a head without cells, so it isn't a table but what its caption
// gives, between blank lines.
#[test]
fn converts_captions_in_captions(rt: HostRuntime) -> Result<(), Fail> {
    let table: [(&str, &str); 2] = [("x", "x"), ("<a href=\"/x\">C</a>", "[C](/x)")];
    for (text, markdown) in table {
        for count in [1, 2, 300, 400] {
            let start = "<table><caption>";
            let end = "</caption><thead></thead></table>";
            let html = nested(rt.alloc(), count, start, text, end)?;
            for options in [Options::default(), faithful()] {
                expect_page(rt.alloc(), options, html.as_str(), markdown)?;
            }
        }
    }
    Ok(())
}

// A table in the header of a table, and so on, with a later head without cells that replaces the headers: strong text
// in strong text.
#[test]
fn converts_headers_in_headers(rt: HostRuntime) -> Result<(), Fail> {
    for count in [1, 2, 100, 200] {
        let start = "<table><thead><tr><th><b>";
        let end = "</b></th></tr></thead><thead></thead></table>";
        let html = nested(rt.alloc(), count, start, "x", end)?;
        let marked = nested(rt.alloc(), count, "**", "x", "**")?;
        for options in [Options::default(), faithful()] {
            expect_page(rt.alloc(), options, html.as_str(), marked.as_str())?;
        }
    }
    Ok(())
}
