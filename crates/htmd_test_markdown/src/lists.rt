//! List items and lists.

use htmd_markdown::*;
use htmd_test_expected::{expect_number, expect_text, expect_that};
use std::alloc::{AllocError, Global};
use std::test::Fail;

#[test]
fn reads_the_first_number() -> Result<(), Fail> {
    const ROWS: &[(&str, u32)] = &[
        ("5", 5),
        ("+5", 5),
        ("-3", 1),
        ("-0", 1),
        ("0", 1),
        ("007", 7),
        (" 5", 1),
        ("5 ", 1),
        ("", 1),
        ("+", 1),
        ("-", 1),
        ("++5", 1),
        ("5.0", 1),
        ("0x5", 1),
        ("٥", 1),
        ("2147483647", 2147483647),
        ("+2147483647", 2147483647),
        ("2147483648", 1),
        ("-2147483648", 1),
        ("-2147483649", 1),
        ("99999999999999999999999", 1),
    ];
    for &(start, want) in ROWS {
        expect_that(start, first_number(Some(start)) == want)?;
    }
    expect_that("no number", first_number(None) == 1)
}

#[test]
fn writes_bullet_items(rt: HostRuntime) -> Result<(), Fail> {
    const ROWS: &[(BulletListMarker, u8, &str, &str)] = &[
        (BulletListMarker::Asterisk, 3, "a", "\n*   a"),
        (BulletListMarker::Dash, 0, "a", "\n-a"),
        (BulletListMarker::Dash, 1, "", "\n- "),
        (
            BulletListMarker::Asterisk,
            3,
            " \r\n a \n\n b\t\r\n",
            "\n*   a\n\n     b",
        ),
    ];
    for &(marker, spacing, content, want) in ROWS {
        let item = write_bullet_item(rt.alloc(), marker, spacing, content)?;
        expect_text(content, item.as_str(), want)?;
    }
    Ok(())
}

#[test]
fn writes_spaced_items(rt: HostRuntime) -> Result<(), Fail> {
    let item = write_bullet_item(rt.alloc(), BulletListMarker::Dash, 255, "a\nb")?;
    expect_number("bytes", item.len(), 1 + 256 + 1 + 1 + 256 + 1)
}

#[test]
fn writes_items_without_numbers(rt: HostRuntime) -> Result<(), Fail> {
    let item = write_unnumbered_item(rt.alloc(), "\n\t a\n ")?;
    expect_text("item", item.as_str(), "\na\n \n")
}

/// A block that is an item if the text begins with a line feed, else another one.
fn block(alloc: Global, text: &str) -> Result<ListBlock, AllocError> {
    let content = String::from_str(alloc, text)?;
    if text.starts_with('\n') {
        Ok(ListBlock::Item(content))
    } else {
        Ok(ListBlock::Other(content))
    }
}

/// The list of three blocks.
fn expect_list(
    alloc: Global,
    first: u32,
    spacing: u8,
    texts: [&str; 3],
    want: &str,
) -> Result<(), Fail> {
    let mut blocks = Vec::new(alloc);
    for text in texts {
        blocks.push(block(alloc, text)?)?;
    }
    let list = write_ordered_list(alloc, first, spacing, blocks)?;
    expect_text(want, list.as_str(), want)
}

#[test]
fn writes_ordered_lists(rt: HostRuntime) -> Result<(), Fail> {
    const ROWS: &[(u32, u8, [&str; 3], &str)] = &[
        (9, 2, ["\na\n", "\nb\n", "\n"], "\n9.   a\n10.  b\n11.  "),
        (
            99999999,
            0,
            ["\na\n", "\nb\n", ""],
            "\n99999999. a\n100000000.b",
        ),
        (1, 2, ["\na\n", "x", "\nb\n"], "\n1.  ax\n2.  b"),
        (
            1,
            1,
            ["\na \n\n b\n", "\n", "y\n"],
            "\n1. a\n\n    b\n2. y\n",
        ),
        (
            2147483647,
            2,
            ["\na\n", "\nb\n", ""],
            "\n2147483647.  a\n2147483648.  b",
        ),
        (0, 2, ["x", "", "y\n\n\n"], "xy\n\n\n"),
    ];
    for &(first, spacing, texts, want) in ROWS {
        expect_list(rt.alloc(), first, spacing, texts, want)?;
    }
    Ok(())
}

#[test]
fn writes_lists_of_great_numbers(rt: HostRuntime) -> Result<(), Fail> {
    let mut blocks = Vec::new(rt.alloc());
    blocks.push(block(rt.alloc(), "\na\nb\n")?)?;
    let list = write_ordered_list(rt.alloc(), u32::MAX, 255, blocks)?;
    expect_number("bytes", list.len(), 1 + 10 + 1 + 255 + 1 + 1 + 266 + 1)
}

#[test]
fn sets_lists_apart(rt: HostRuntime) -> Result<(), Fail> {
    const ROWS: &[(&str, bool, Option<&str>)] = &[
        ("\n\n*   a\n", false, Some("\n\n*   a\n\n")),
        ("\n*   a\n\n", true, Some("\n*   a\n")),
        ("*", true, Some("\n*\n")),
        ("\n\n\n", false, None),
        ("", true, None),
    ];
    for &(text, is_in_item, want) in ROWS {
        let list = String::from_str(rt.alloc(), text)?;
        let block = write_list_block(list, is_in_item)?;
        expect_that(text, block.as_ref().map(|s| s.as_str()) == want)?;
    }
    Ok(())
}
