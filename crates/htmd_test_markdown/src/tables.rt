//! Tables, and their rows.

use htmd_markdown::*;
use htmd_test_expected::{expect_text, expect_that};
use std::alloc::{AllocError, Global};
use std::test::Fail;

/// A line of two cells.
fn pair(alloc: Global, first: &str, second: &str) -> Result<Vec<String>, AllocError> {
    let mut cells = Vec::new(alloc);
    cells.push(String::from_str(alloc, first)?)?;
    cells.push(String::from_str(alloc, second)?)?;
    Ok(cells)
}

/// The row of a line, in which each cell has a width.
fn row(alloc: Global, cells: &[String], widths: &[usize]) -> Result<String, Fail> {
    if cells.len() > widths.len() {
        return Err(Fail::from("each cell has a width"));
    }
    Ok(write_row(alloc, cells, widths)?)
}

/// Reads a row's cells one by one: what is between two bars, without spaces, tabs and line ends at its ends.
fn is_row_of(line: &str, cells: &[&str]) -> bool {
    let Some(inside) = line.strip_prefix('|') else {
        return false;
    };
    let Some(inside) = inside.strip_suffix("|\n") else {
        return false;
    };
    let mut read = inside.split('|');
    for cell in cells {
        let Some(text) = read.next() else {
            return false;
        };
        if text.trim_matches([' ', '\t', '\r', '\n']) != *cell {
            return false;
        }
    }
    read.next().is_none()
}

#[test]
fn rows_are_read_back(rt: HostRuntime) -> Result<(), Fail> {
    let widths: [usize; 3] = [0, 4, 1];
    let cells = pair(rt.alloc(), "\ta|\r\nb ", "||")?;
    let line = row(rt.alloc(), cells.as_slice(), widths.as_slice())?;
    let read = ["a&#124; b", "&#124;&#124;", ""];
    expect_that("bars", is_row_of(line.as_str(), read.as_slice()))
}

#[test]
fn wide_rows_are_read_back(rt: HostRuntime) -> Result<(), Fail> {
    let widths: [usize; 3] = [0, 4, 1];
    let cells = pair(rt.alloc(), "e\u{301} 漢", "\u{3000}x\u{3000}")?;
    let line = row(rt.alloc(), cells.as_slice(), widths.as_slice())?;
    let read = ["e\u{301} 漢", "\u{3000}x\u{3000}", ""];
    expect_that("three", is_row_of(line.as_str(), read.as_slice()))?;
    let read = ["e\u{301} 漢", "\u{3000}x\u{3000}"];
    expect_that("two", !is_row_of(line.as_str(), read.as_slice()))
}

/// The row of two cells.
fn expect_row(
    alloc: Global,
    cells: (&str, &str),
    widths: &[usize],
    want: &str,
) -> Result<(), Fail> {
    let cells = pair(alloc, cells.0, cells.1)?;
    let line = row(alloc, cells.as_slice(), widths)?;
    expect_text(want, line.as_str(), want)
}

#[test]
fn rows_are_padded(rt: HostRuntime) -> Result<(), Fail> {
    let two: [usize; 2] = [3, 1];
    expect_row(
        rt.alloc(),
        ("a|b", ""),
        two.as_slice(),
        "| a&#124;b |   |\n",
    )?;
    let three: [usize; 3] = [3, 1, 2];
    for (cells, want) in [
        (("a|b", ""), "| a&#124;b |   |    |\n"),
        (("漢字", "\r\n x \ty\n"), "| 漢字  | x \ty |    |\n"),
    ] {
        expect_row(rt.alloc(), cells, three.as_slice(), want)?;
    }
    Ok(())
}

#[test]
fn rows_may_have_one_cell(rt: HostRuntime) -> Result<(), Fail> {
    let mut cells = Vec::new(rt.alloc());
    cells.push(String::from_str(rt.alloc(), "a\rb\nc")?)?;
    let widths: [usize; 1] = [0];
    let line = row(rt.alloc(), cells.as_slice(), widths.as_slice())?;
    expect_text("row", line.as_str(), "| ab c |\n")
}

#[test]
fn tables_have_even_lines(rt: HostRuntime) -> Result<(), Fail> {
    let headers = pair(rt.alloc(), "漢字", "x")?;
    let mut rows = Vec::new(rt.alloc());
    rows.push(pair(rt.alloc(), "e\u{301}a", "")?)?;
    rows.push(pair(rt.alloc(), "\u{3000}", "z")?)?;
    let table = write_table(rt.alloc(), headers.as_slice(), rows.as_slice())?;
    let lines = "| 漢字  | x |\n| --- | - |\n| e\u{301}a |   |\n| \u{3000}   | z |\n";
    expect_text("table", table.as_str(), lines)
}
