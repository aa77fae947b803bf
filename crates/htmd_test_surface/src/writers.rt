//! The writers of pieces, as they are called by handlers of your own.
use htmd::laws::{write_fence, write_row, write_span, write_table};
use htmd::options::CodeBlockFence;
use htmd_test_expected::expect_text;
use std::alloc::{AllocError, Global};
use std::test::Fail;

fn cells(alloc: Global, texts: &[&str]) -> Result<Vec<String>, AllocError> {
    let mut all = Vec::new(alloc);
    for text in texts {
        all.push(String::from_str(alloc, text)?)?;
    }
    Ok(all)
}

#[test]
fn writes_spans(rt: HostRuntime) -> Result<(), Fail> {
    const ROWS: &[(&str, bool, &str)] = &[
        ("a`", false, "`` a` ``"),
        ("", false, "``"),
        ("a", false, "`a`"),
        (" a\nb ", false, "`a\nb`"),
        ("a\nb", true, "`a b`"),
    ];
    for &(text, preformatted_code, span) in ROWS {
        let answer = write_span(rt.alloc(), text, preformatted_code)?;
        expect_text(text, answer.as_str(), span)?;
    }
    Ok(())
}

#[test]
fn writes_fences(rt: HostRuntime) -> Result<(), Fail> {
    const ROWS: &[(&str, Option<&str>, CodeBlockFence, &str)] = &[
        ("a\r", None, CodeBlockFence::Backticks, "```\na\r\n```"),
        ("\n", None, CodeBlockFence::Backticks, "```\n\n```"),
        (
            "a\n",
            Some("rust"),
            CodeBlockFence::Backticks,
            "```rust\na\n```",
        ),
        ("~~~", None, CodeBlockFence::Tildes, "~~~~\n~~~\n~~~~"),
    ];
    for &(text, language, symbol, fence) in ROWS {
        let answer = write_fence(rt.alloc(), text, language, symbol)?;
        expect_text(text, answer.as_str(), fence)?;
    }
    Ok(())
}

#[test]
fn writes_rows(rt: HostRuntime) -> Result<(), Fail> {
    let table: [(&[&str], &[usize], &str); 3] = [
        (&["a|b", ""], &[3, 1], "| a&#124;b |   |\n"),
        (&["a\rb\nc"], &[0], "| ab c |\n"),
        (&["a"], &[2, 1], "| a  |   |\n"),
    ];
    for (texts, widths, row) in table {
        let cells = cells(rt.alloc(), texts)?;
        if cells.len() > widths.len() {
            return Err(Fail::from("each cell has a width"));
        }
        let answer = write_row(rt.alloc(), cells.as_slice(), widths)?;
        expect_text(row, answer.as_str(), row)?;
    }
    Ok(())
}

// Fails unless this is the table of headers and one row of one cell.
fn expect_table(alloc: Global, headers: &[&str], table: &str) -> Result<(), Fail> {
    let headers = cells(alloc, headers)?;
    let mut rows = Vec::new(alloc);
    rows.push(cells(alloc, &["1"])?)?;
    let answer = write_table(alloc, headers.as_slice(), rows.as_slice())?;
    expect_text(table, answer.as_str(), table)
}

#[test]
fn writes_tables(rt: HostRuntime) -> Result<(), Fail> {
    expect_table(
        rt.alloc(),
        &["A", "bb"],
        "| A | bb |\n| - | -- |\n| 1 |    |\n",
    )?;
    expect_table(rt.alloc(), &[], "| 1 |\n")
}
