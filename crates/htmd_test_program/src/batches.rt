//! Runs on the rows of a batch.
use crate::calls::{expect_answer, expect_called, expect_within, strings};
use crate::doubles::{Dripping, Narrow};
use htmd_cli::{Input, command, read_field, write_field};
use htmd_test_expected::{expect_number, expect_text, expect_that};
use std::alloc::{AllocError, Global};
use std::test::Fail;

fn expect_bytes(bytes: &[u8], wanted: &[u8]) -> Result<(), Fail> {
    if bytes == wanted {
        return Ok(());
    }
    Err(Fail::new(format_args!("{bytes:?}, not {wanted:?}")))
}

#[test]
fn reads_each_escape(rt: HostRuntime) -> Result<(), Fail> {
    const ROWS: &[(&[u8], &[u8])] = &[
        (b"", b""),
        (b"a b", b"a b"),
        (b"a\\\\b", b"a\\b"),
        (b"\\b\\f\\n\\r\\t\\v", b"\x08\x0c\n\r\t\x0b"),
        (b"\\N\\.\\a\\\"", b"N.a\""),
        (b"\\", b"\\"),
        (b"a\\\\\\", b"a\\\\"),
        (b"\\0", b"\0"),
        (b"\\7z", b"\x07z"),
        (b"\\12", b"\n"),
        (b"\\128", b"\n8"),
        (b"\\141\\1411", b"aa1"),
        (b"\\377\\400\\777", b"\xff\0\xff"),
        (b"\\8\\9", b"89"),
        (b"\\x", b"x"),
        (b"\\xg", b"xg"),
        (b"\\x\\x41", b"xA"),
        (b"\\x4", b"\x04"),
        (b"\\xaz", b"\nz"),
        (b"\\x4a\\x4A", b"JJ"),
        (b"\\x4a1", b"J1"),
        (b"\\xFf\\xfF", b"\xff\xff"),
        (b"\\X41", b"X41"),
        (b"\\\xc3\xa9", b"\xc3\xa9"),
        (b"\\\\n", b"\\n"),
        (b"\r\t\r", b"\r\t\r"),
    ];
    for &(field, bytes) in ROWS {
        let mut page = Vec::new(rt.alloc());
        read_field(field, &mut page)?;
        expect_bytes(page.as_slice(), bytes)?;
    }
    Ok(())
}

// Each byte, by itself and after a backslash.
fn each_byte(alloc: Global) -> Result<Vec<u8>, AllocError> {
    let mut all = Vec::new(alloc);
    for byte in 0..=255 {
        all.push(byte)?;
        all.push(b'\\')?;
        all.push(byte)?;
    }
    Ok(all)
}

#[test]
fn reads_what_it_writes(rt: HostRuntime) -> Result<(), Fail> {
    let all = each_byte(rt.alloc())?;
    let mut field = Vec::new(rt.alloc());
    write_field(all.as_slice(), &mut field)?;
    expect_number("bytes", field.len(), all.len() + 258 + 3 * 2)?;
    for byte in field.as_slice() {
        expect_that("field", !b"\t\n\r".contains(byte))?;
    }
    let mut page = Vec::new(rt.alloc());
    read_field(field.as_slice(), &mut page)?;
    expect_bytes(page.as_slice(), all.as_slice())
}

#[test]
fn answers_rows(rt: HostRuntime) -> Result<(), Fail> {
    const ROWS: &[(&str, &[u8], &str, &str)] = &[
        ("", b"", "", ""),
        ("", b"\n", "\n", ""),
        ("", b"\n\n", "\n\n", ""),
        ("", b"<p>a <b>b</b></p>\n", "a **b**\n", ""),
        ("", b"1\t<p>a</p>\n2\t<p>b</p>", "1\ta\n2\tb\n", ""),
        ("", b"\t\t\n", "\t\t\n", ""),
        ("", b"1\t\\N\n\\N\n\\N\t", "1\t\\N\n\\N\n\\N\t\n", ""),
        ("", b"\\x41\\q\t\\x41\n", "\\x41\\q\tA\n", ""),
        (
            "",
            b"1\t<p>a<br>b</p><p>c</p>\r\n",
            "1\ta  \\nb\\n\\nc\n",
            "",
        ),
        ("--text", b"a\\tb \\\\ <c>", "a b \\\\\\\\ \\\\<c>\n", ""),
        (
            "--body\n--br-style=backslash",
            b"7\t<!doctype html><html><body><p>a<br>b</p></body></html>\n",
            "7\ta\\\\\\nb\n",
            "",
        ),
        (
            "",
            b"1\ta\n2\t<p><div>\n3\tb\n4\t\\377\n5\t\xff\n6\tc\n",
            "1\ta\n2\t\\N\n3\tb\n4\t\\N\n5\t\\N\n6\tc\n",
            "htmd: row 2: refused at byte 3: NotAllowedHere\nhtmd: row 4: not UTF-8\nhtmd: row 5: not UTF-8\n",
        ),
        (
            "",
            b"\\x3cp\\x3e\\n<div>",
            "\\N\n",
            "htmd: row 1: refused at byte 4: NotAllowedHere\n",
        ),
        ("", b"a\n\\.\nb\n", "a\n", ""),
        ("", b"a\n\\.", "a\n", ""),
        ("", b"1\t\\.\n\\.x\n\\.\n", "1\t.\n.x\n", ""),
        (
            "--explain",
            b"<p>\n",
            "\\N\n",
            "htmd: row 1: refused at byte 3: Unclosed\nline 1, column 4: the input ends here, and an element is still \
open; write its end tag.\n<p>\n   ^\n--web reads any page.\n",
        ),
    ];
    for &(lines, stdin, stdout, stderr) in ROWS {
        expect_rows(rt.alloc(), lines, stdin, (stdout, stderr))?;
    }
    Ok(())
}

// The options that a text has, one on each line, and after them the one for rows.
fn rows_options(alloc: Global, lines: &str) -> Result<Vec<&str>, AllocError> {
    let mut options = Vec::new(alloc);
    for option in lines.lines() {
        options.push(option)?;
    }
    options.push("--rows")?;
    Ok(options)
}

// Fails unless rows are converted so, whether each read gives one byte or one gives all.
fn expect_rows(alloc: Global, lines: &str, stdin: &[u8], wants: (&str, &str)) -> Result<(), Fail> {
    let options = rows_options(alloc, lines)?;
    expect_called(alloc, options.as_slice(), stdin, (0, wants.0, wants.1))?;
    let at_once = answered_at_once(alloc, options.as_slice(), stdin)?;
    expect_text(wants.1, at_once.as_str(), wants.0)
}

// What is written when one read gives all.
fn answered_at_once(alloc: Global, options: &[&str], stdin: &[u8]) -> Result<String, Fail> {
    let options = strings(alloc, options)?;
    let mut source = Input::new(stdin);
    let mut sink = Narrow::new(alloc, 10_000_000);
    let mut errors = Narrow::new(alloc, 1000);
    let status = command(
        alloc,
        options.as_slice(),
        &mut source,
        &mut sink,
        &mut errors,
    );
    if status != 0 {
        return Err(Fail::from("all rows are answered"));
    }
    Ok(String::from_str(alloc, str::from_utf8(sink.bytes())?)?)
}

// What follows the end of the data is not read, except for what the last read gave.
#[test]
fn ends_where_the_data_ends(rt: HostRuntime) -> Result<(), Fail> {
    expect_answer(rt.alloc(), &["--rows"], b"a\n\\.\nbc\n", (0, "a\n", ""), 3)
}

// A row of fields that aren't UTF-8 before this one.
fn many_fields(alloc: Global, last: &[u8]) -> Result<Vec<u8>, AllocError> {
    let mut row = Vec::new(alloc);
    for _ in 0..39 {
        row.extend_from_slice(b"<p>\\N\xff\t")?;
    }
    row.extend_from_slice(last)?;
    Ok(row)
}

#[test]
fn answers_many_fields(rt: HostRuntime) -> Result<(), Fail> {
    let row = many_fields(rt.alloc(), b"<i>a</i>\n")?;
    let wanted = many_fields(rt.alloc(), b"*a*\n")?;
    let options = strings(rt.alloc(), &["--rows"])?;
    let mut source = Dripping::new(row.as_slice(), 1000);
    let mut sink = Narrow::new(rt.alloc(), 1000);
    let mut errors = Narrow::new(rt.alloc(), 1000);
    let status = command(
        rt.alloc(),
        options.as_slice(),
        &mut source,
        &mut sink,
        &mut errors,
    );
    expect_that("status", status == 0)?;
    expect_bytes(sink.bytes(), wanted.as_slice())
}

// A row of thirty thousand paragraphs, and another.
fn long_row(alloc: Global) -> Result<Vec<u8>, AllocError> {
    let mut row = Vec::new(alloc);
    for _ in 0..30_000 {
        row.extend_from_slice(b"<p>a\\\\b</p>\\n")?;
    }
    row.extend_from_slice(b"\n1\tc")?;
    Ok(row)
}

#[test]
fn answers_a_long_row(rt: HostRuntime) -> Result<(), Fail> {
    let row = long_row(rt.alloc())?;
    let written = answered_at_once(rt.alloc(), &["--rows"], row.as_slice())?;
    expect_number("bytes", written.len(), 30_000 * 10 - 4 + 5)
}

// Each read fails in turn: a row is written before the next byte is read.
#[test]
fn answers_failed_reads(rt: HostRuntime) -> Result<(), Fail> {
    const ROWS: &[(usize, u8, &str, &str)] = &[
        (0, 1, "", "htmd: row 1: read failed\n"),
        (1, 1, "", "htmd: row 1: read failed\n"),
        (2, 1, "a\n", "htmd: row 2: read failed\n"),
        (3, 1, "a\n", "htmd: row 2: read failed\n"),
        (4, 1, "a\nb\n", "htmd: row 3: read failed\n"),
        (5, 1, "a\nb\n", "htmd: row 3: read failed\n"),
        (6, 0, "a\nb\nc\n", ""),
    ];
    for &(reads, status, stdout, stderr) in ROWS {
        let wants = (status, stdout, stderr);
        expect_within(rt.alloc(), &["--rows"], b"a\nb\nc", reads, 100, wants)?;
    }
    Ok(())
}

// Each write and each flush fails in turn: a row is two writes and a flush.
#[test]
fn answers_failed_writes(rt: HostRuntime) -> Result<(), Fail> {
    const ROWS: &[(usize, u8, &str, &str)] = &[
        (0, 1, "", "htmd: row 1: write failed\n"),
        (1, 1, "a", "htmd: row 1: write failed\n"),
        (2, 1, "a\n", "htmd: row 1: write failed\n"),
        (3, 1, "a\n", "htmd: row 2: write failed\n"),
        (4, 1, "a\nb", "htmd: row 2: write failed\n"),
        (5, 1, "a\nb\n", "htmd: row 2: write failed\n"),
        (6, 1, "a\nb\n", "htmd: row 3: write failed\n"),
        (7, 1, "a\nb\nc", "htmd: row 3: write failed\n"),
        (8, 1, "a\nb\nc\n", "htmd: row 3: write failed\n"),
        (9, 0, "a\nb\nc\n", ""),
    ];
    for &(writes, status, stdout, stderr) in ROWS {
        let wants = (status, stdout, stderr);
        expect_within(rt.alloc(), &["--rows"], b"a\nb\nc", 100, writes, wants)?;
    }
    Ok(())
}
