//! Any page as browsers read it, by the program: in each encoding, and in rows. Pages whose answer is a text are the
//! family `html5` of `htmd_test_cases`.
use crate::calls::{called_within, expect_answer, expect_called, expect_within};
use htmd_test_expected::{expect_text, expect_that};
use std::alloc::Global;
use std::test::Fail;

const PAGE: &str = "<ul><li>a<li>b</ul><p>x<b>y<p>z";

// UTF-8, with its mark and without, UTF-16 in both orders, and windows-1252.
#[test]
fn reads_each_encoding(rt: HostRuntime) -> Result<(), Fail> {
    const ROWS: &[(&[u8], &str)] = &[
        (b"<p>caf\xC3\xA9<p>\xE2\x82\xAC", "caf\u{e9}\n\n\u{20ac}\n"),
        (b"\xEF\xBB\xBF<p>a", "a\n"),
        (b"\xFE\xFF\0<\0p\0>\0\xE9\x20\xAC", "\u{e9}\u{20ac}\n"),
        (b"\xFF\xFE<\0p\0>\0\xE9\0\xAC\x20", "\u{e9}\u{20ac}\n"),
        (
            b"\xFF\xFEa\0\x3D\xD8\x00\xDE\x3D\xD8",
            "a\u{1f600}\u{fffd}\n",
        ),
        (b"<p>caf\xE9<p>\x80", "caf\u{e9}\n\n\u{20ac}\n"),
        (b"<p>\x93a\x94 \x81", "\u{201c}a\u{201d} \u{81}\n"),
        (b"\xFF", "\u{ff}\n"),
    ];
    for &(page, markdown) in ROWS {
        expect_answer(rt.alloc(), &["--html5"], page, (0, markdown, ""), 0)?;
    }
    Ok(())
}

// What a page declares as its encoding, and what the option says, which overrides it unless there is a byte order mark.
#[test]
fn finds_the_encoding(rt: HostRuntime) -> Result<(), Fail> {
    let rows: [(&[&str], &[u8], (u8, &str, &str)); 6] = [
        (
            &["--html5"],
            b"<meta charset=koi8-r><p>\xC1",
            (0, "\u{430}\n", ""),
        ),
        (
            &["--html5"],
            b"<meta charset=gbk><p>\xC4\xE3\xC1",
            (0, "\u{4f60}\u{fffd}\n", ""),
        ),
        (
            &["--html5", "--encoding=latin2"],
            b"<meta charset=gbk><p>\xB1",
            (0, "\u{105}\n", ""),
        ),
        (
            &["--encoding= KOI8-R", "--html5"],
            b"<p>\xD0\xB0",
            (0, "\u{43f}\u{255f}\n", ""),
        ),
        (
            &["--html5", "--encoding=koi8-r"],
            b"\xEF\xBB\xBF<p>\xD0\xB0",
            (0, "\u{430}\n", ""),
        ),
        (
            &["--encoding=koi8-r"],
            b"<p>a</p>",
            (
                0,
                "a\n",
                "htmd: --encoding has no effect without --html5 or --web\n",
            ),
        ),
    ];
    for (options, page, wanted) in rows {
        expect_called(rt.alloc(), options, page, wanted)?;
    }
    Ok(())
}

// Without the option, and for a text, only UTF-8 is read.
#[test]
fn reads_utf8_alone_otherwise(rt: HostRuntime) -> Result<(), Fail> {
    const ROWS: &[&[&str]] = &[&[], &["--body"], &["--html5", "--text"], &["--text"]];
    for &options in ROWS {
        for page in [b"a\xE9".as_slice(), b"\xFE\xFF\0a"] {
            expect_called(rt.alloc(), options, page, (1, "", "htmd: not UTF-8\n"))?;
        }
    }
    Ok(())
}

// Each row is read in its own encoding, and none is refused.
#[test]
fn answers_rows(rt: HostRuntime) -> Result<(), Fail> {
    let rows = b"1\t<p>a<p>b\n2\t<p><div>\n\\N\n4\t\\377\\376\\x61\\0\n5\t\xE9\n6\t<b>c\\n<i>d\\0\n\
          7\t<meta charset=big5>\xA7A\n";
    let wanted = "1\ta\\n\\nb\n2\t\n\\N\n4\ta\n5\t\u{e9}\n6\t**c *d***\n7\t\u{4f60}\n";
    for options in [["--html5", "--rows"], ["--rows", "--html5"]] {
        expect_called(rt.alloc(), options.as_slice(), rows, (0, wanted, ""))?;
    }
    Ok(())
}

// Fails unless the page is converted if all its reads are made, and otherwise nothing is written.
fn expect_read(alloc: Global, reads: usize) -> Result<(), Fail> {
    let answer = called_within(alloc, &["--html5"], PAGE.as_bytes(), reads, 100)?;
    let fails = reads < 32;
    let said = if fails { "htmd: read failed\n" } else { "" };
    expect_text("stderr", answer.stderr.as_str(), said)?;
    expect_that("status", answer.status == u8::from(fails))?;
    expect_that("stdout", answer.stdout.is_empty() == fails)?;
    expect_that("source", answer.has_failed == fails)
}

// A page of 31 bytes is read in 32 reads, the last one at its end. Each of them fails in turn.
#[test]
fn answers_each_failed_read(rt: HostRuntime) -> Result<(), Fail> {
    for reads in 0..34 {
        expect_read(rt.alloc(), reads)?;
    }
    Ok(())
}

// The Markdown of `<p>a<p>b` and its line feed are five bytes, written one by one, and flushed. Each of these calls
// fails in turn, and the same for a row.
#[test]
fn answers_each_failed_write(rt: HostRuntime) -> Result<(), Fail> {
    let table: [(&[&str], &str, &str); 2] = [
        (&["--html5"], "a\n\nb\n", "htmd: write failed\n"),
        (
            &["--html5", "--rows"],
            "a\\n\\nb\n",
            "htmd: row 1: write failed\n",
        ),
    ];
    for (options, markdown, said) in table {
        for writes in 0..=markdown.len() {
            let written = markdown.get(..writes).unwrap_or(markdown);
            let wants = (1, written, said);
            expect_within(rt.alloc(), options, b"<p>a<p>b", 100, writes, wants)?;
        }
    }
    Ok(())
}
