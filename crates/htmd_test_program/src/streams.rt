//! Runs on pages of HTML.
use crate::calls::{called, expect_answer, expect_called};
use crate::doubles::{Dripping, Narrow};
use htmd::FaultKind;
use htmd_cli::{Mode, RunError, Sink, Source, run};
use htmd_test_expected::{expect_number, expect_that};
use std::alloc::Global;
use std::test::Fail;

const PAGE: Mode = Mode {
    text: false,
    faithful: false,
};

const HTML: &[u8] = b"<p>a <b>b</b></p>";

const MARKDOWN: &[u8] = b"a **b**\n";

#[test]
fn answers_options(rt: HostRuntime) -> Result<(), Fail> {
    const REFUSED: &str = "htmd: refused at byte 3: NotAllowedHere (--web reads any page)\n";
    const ROWS: &[(&[&str], &[u8], &str, &str, u8)] = &[
        (&[], HTML, "a **b**\n", "", 0),
        (&[], b"<p><div>", "", REFUSED, 1),
        (&["--faithful"], b"<p><div>", "", REFUSED, 1),
        (&[], b"<h1>Hi</h1>", "# Hi\n", "", 0),
        (&[], b"", "\n", "", 0),
        (&["--faithful"], b"<hr bar>", "<hr bar=\"\">\n", "", 0),
        (&[], b"<p>\xff", "", "htmd: not UTF-8\n", 1),
    ];
    for &(options, stdin, stdout, stderr, status) in ROWS {
        let wants = (status, stdout, stderr);
        expect_answer(rt.alloc(), options, stdin, wants, 0)?;
    }
    Ok(())
}

// Fails unless a run that may read and write so often ends so, and has written this.
fn expect_run(
    alloc: Global,
    html: &[u8],
    reads: usize,
    writes: usize,
    answer: Result<(), RunError>,
    written: &[u8],
) -> Result<(), Fail> {
    let mut source = Dripping::new(html, reads);
    let mut sink = Narrow::new(alloc, writes);
    let result = run(alloc, &mut source, &mut sink, PAGE);
    expect_that("source", source.failed() == (result == Err(RunError::Read)))?;
    expect_that("sink", sink.failed() == (result == Err(RunError::Write)))?;
    expect_that("written", sink.bytes() == written)?;
    expect_that("answer", result == answer)
}

// A page of 17 bytes is read in 18 reads, the last one at its end. Each of them fails in turn.
#[test]
fn answers_each_failed_read(rt: HostRuntime) -> Result<(), Fail> {
    for reads in 0..18 {
        let answer = Err(RunError::Read);
        expect_run(rt.alloc(), HTML, reads, 100, answer, b"")?;
    }
    for reads in 18..20 {
        expect_run(rt.alloc(), HTML, reads, 100, Ok(()), MARKDOWN)?;
    }
    Ok(())
}

// Its 8 bytes of Markdown are written one by one, and flushed. Each of these calls fails in turn.
#[test]
fn answers_each_failed_write(rt: HostRuntime) -> Result<(), Fail> {
    for writes in 0..9 {
        let written = MARKDOWN.get(..writes).unwrap_or(MARKDOWN);
        let answer = Err(RunError::Write);
        expect_run(rt.alloc(), HTML, 100, writes, answer, written)?;
    }
    for writes in 9..11 {
        expect_run(rt.alloc(), HTML, 100, writes, Ok(()), MARKDOWN)?;
    }
    Ok(())
}

// What isn't UTF-8 is answered before anything is converted: memory can only run out before the fifth read, which finds
// the end. `checks/refused_memory`, a part of the gate, lets each allocation fail in turn.
#[test]
fn asks_for_utf8_first(rt: HostRuntime) -> Result<(), Fail> {
    for text in [false, true] {
        let mode = Mode { text, ..PAGE };
        let mut source = Dripping::new(b"<p>\xff", 9);
        let mut sink = Narrow::new(rt.alloc(), 9);
        let result = run(rt.alloc(), &mut source, &mut sink, mode);
        let reads = 9usize.saturating_sub(source.reads_left());
        expect_that(
            "answer",
            result == Err(RunError::NotUtf8) || result == Err(RunError::Memory),
        )?;
        expect_that("memory", (result == Err(RunError::Memory)) == (reads < 5))?;
        expect_that("written", sink.bytes().is_empty())?;
    }
    Ok(())
}

// How many bytes of a page are not read.
fn unread(alloc: Global, html: &[u8]) -> Result<usize, Fail> {
    let answer = called(alloc, &[], html)?;
    Ok(answer.unread)
}

// Nothing is written for what is refused, and what is refused last is read to its end too.
#[test]
fn writes_nothing_of_what_is_refused(rt: HostRuntime) -> Result<(), Fail> {
    let table: [(&[u8], usize, FaultKind); 3] = [
        (b"<p><div>", 3, FaultKind::NotAllowedHere),
        (b"<p>a</p><p>b", 12, FaultKind::Unclosed),
        (b"<p>a</p>\0<p>", 8, FaultKind::Nul),
    ];
    for (html, place, kind) in table {
        let refused = Err(RunError::Refused { place, kind });
        expect_run(rt.alloc(), html, 100, 100, refused, b"")?;
        expect_number("unread", unread(rt.alloc(), html)?, 0)?;
    }
    Ok(())
}

// Fails unless a page with `--body` gives what its body gives by itself.
fn expect_body(alloc: Global, front: &str, body: &str, behind: &str) -> Result<(), Fail> {
    let page = format!(in alloc; "{front}{body}{behind}")?;
    let alone = called(alloc, &[], body.as_bytes())?;
    let wants = (0, alone.stdout.as_str(), "");
    expect_called(alloc, &["--body"], page.as_bytes(), wants)
}

// Fails unless a page with `--body` is refused at this place.
fn expect_refused(alloc: Global, page: &str, place: usize, kind: FaultKind) -> Result<(), Fail> {
    let said = format!(in alloc; "htmd: refused at byte {place}: {kind} (--web reads any page)\n")?;
    let wants = (1, "", said.as_str());
    expect_called(alloc, &["--body"], page.as_bytes(), wants)
}

// A page with `--body` gives what its body gives by itself, and is refused as many bytes later as its body begins.
fn expect_bodies(alloc: Global, front: &str, behind: &str) -> Result<(), Fail> {
    for body in [
        "",
        "<h1>a</h1>\r\n<p>b</p>\r\n",
        "é<!-- <body> -->",
        "a<br>b",
    ] {
        expect_body(alloc, front, body, behind)?;
    }
    for (body, place, kind) in [
        ("<p>é<div></p>", 5, FaultKind::NotAllowedHere),
        ("a<body>b", 1, FaultKind::TagOutside),
        ("a</body>b", 1, FaultKind::TagOutside),
        ("<p>a", 4, FaultKind::Unclosed),
        ("a\0", 1, FaultKind::Nul),
    ] {
        let page = format!(in alloc; "{front}{body}{behind}")?;
        expect_refused(
            alloc,
            page.as_str(),
            front.len().saturating_add(place),
            kind,
        )?;
    }
    Ok(())
}

#[test]
fn converts_bodies(rt: HostRuntime) -> Result<(), Fail> {
    let long = format!(in rt.alloc(); "<head><title>{:9000}</title></head><body\n>", "t")?;
    for (front, behind) in [
        ("<body>", "</body>"),
        (
            "</body><BODY CLASS='a>b' id=\"<body>\">",
            "</bOdY\t></html>",
        ),
        (
            "\u{feff}<?xml version=\"1.0\"?>\r\n<!DOCTYPE html PUBLIC \"x\">\r\n<html>\r\n<body>",
            "</body>\r\n</html>\r\n",
        ),
        (long.as_str(), "</body>"),
    ] {
        expect_bodies(rt.alloc(), front, behind)?;
    }
    Ok(())
}
