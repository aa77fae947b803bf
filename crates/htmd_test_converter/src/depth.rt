//! Pages of elements within elements.
use crate::pages::{converted_page, expect_refusals};
use htmd::FaultKind;
use htmd::options::Options;
use htmd_test_expected::expect_text;
use std::alloc::{AllocError, Global};
use std::test::Fail;

// Start tags, and after them end tags, the given number of each.
fn nested(alloc: Global, starts: usize, ends: usize) -> Result<String, AllocError> {
    let mut html = String::new(alloc);
    for _ in 0..starts {
        html.push_str("<div>")?;
    }
    for _ in 0..ends {
        html.push_str("</div>")?;
    }
    Ok(html)
}

// The deepest element that the grammar has is one of 1,022 below the body.
#[test]
fn converts_deep_pages(rt: HostRuntime) -> Result<(), Fail> {
    for count in [510, 1022] {
        let html = nested(rt.alloc(), count, count)?;
        let answer = converted_page(rt.alloc(), Options::default(), html.as_str())?;
        expect_text("deep", answer.as_str(), "")?;
    }
    Ok(())
}

// The row of a table implies a body of it, which would be too deep here.
#[test]
fn refuses_deeper_pages(rt: HostRuntime) -> Result<(), Fail> {
    let html = nested(rt.alloc(), 1023, 1023)?;
    let mut row = nested(rt.alloc(), 1020, 0)?;
    row.push_str("<table><tr>")?;
    let table = [
        (html.as_str(), 5110, FaultKind::TooDeep),
        (row.as_str(), 5107, FaultKind::TooDeep),
    ];
    expect_refusals(rt.alloc(), &table)
}
