//! Texts in memory of their own and borrowed ones. `checks/refused_memory`, a part of the gate, refuses each request of
//! the first two tests in turn, which then end out of memory, and all requests of the third, which passes.
use htmd_test_expected::expect_text;
use htmd_text::{compress_whitespace, escape_html, escape_if_needed, escape_pre_text_if_needed};
use std::test::Fail;

#[test]
fn escapes_in_new_memory(rt: HostRuntime) -> Result<(), Fail> {
    let escaped = escape_if_needed(rt.alloc(), "a_b")?;
    expect_text("a_b", escaped.as_str(), "a\\_b")
}

#[test]
fn squeezes_in_new_memory(rt: HostRuntime) -> Result<(), Fail> {
    let squeezed = compress_whitespace(rt.alloc(), "a  b")?;
    expect_text("a  b", squeezed.as_str(), "a b")
}

#[test]
fn borrows_what_stays(rt: HostRuntime) -> Result<(), Fail> {
    expect_text(
        "escaped",
        escape_if_needed(rt.alloc(), "a.b")?.as_str(),
        "a.b",
    )?;
    expect_text("HTML", escape_html(rt.alloc(), "a < b")?.as_str(), "a < b")?;
    expect_text(
        "squeezed",
        compress_whitespace(rt.alloc(), "a b")?.as_str(),
        "a b",
    )?;
    expect_text(
        "preformatted",
        escape_pre_text_if_needed(rt.alloc(), "x")?.as_str(),
        "x",
    )
}
