//! What the program says about long lines and bad bytes that are refused, and about the main content. Other refusals
//! are a family of `htmd_test_cases`.
use crate::calls::called;
use htmd_test_expected::{expect_text, expect_that};
use std::alloc::{AllocError, Global};
use std::test::Fail;

// What is written on the sink for errors when the status is 1 and nothing else is written.
fn explained(alloc: Global, options: &[&str], stdin: &[u8]) -> Result<String, Fail> {
    let answer = called(alloc, options, stdin)?;
    if answer.status != 1 || !answer.stdout.is_empty() {
        return Ok(String::new(alloc));
    }
    Ok(answer.stderr)
}

const UNKNOWN: &str =
    "an unknown &name; is here, or in the tag that begins here; write the character, or &amp; for the &.";

// A reference after and before so many of these texts.
fn line_of(
    alloc: Global,
    text: &str,
    before: usize,
    reference: &str,
    behind: usize,
) -> Result<String, AllocError> {
    let mut line = text.repeat(alloc, before)?;
    line.push_str(reference)?;
    line.push_str(text.repeat(alloc, behind)?.as_str())?;
    Ok(line)
}

// Fails unless this is shown of a line with an unknown reference after so many of these texts: so many columns of them
// before it, and this.
fn expect_shown(
    alloc: Global,
    text: &str,
    before: usize,
    behind: usize,
    columns: usize,
    shown: &str,
) -> Result<(), Fail> {
    let html = line_of(alloc, text, before, "&no;", behind)?;
    let column = before.saturating_add(1);
    let place = before.saturating_mul(text.len());
    let want = format!(in alloc;
        "htmd: refused at byte {place}: UnknownReference\n\
         line 1, column {column}: {UNKNOWN}\n{shown}\n{}^\n--web reads any page.\n",
        " ".repeat(alloc, columns)?
    )?;
    let answer = explained(alloc, &["--explain"], html.as_bytes())?;
    expect_text(text, answer.as_str(), want.as_str())
}

// 100 columns of a long line are shown, with the place among them.
#[test]
fn explains_long_lines(rt: HostRuntime) -> Result<(), Fail> {
    const ROWS: &[(&str, usize, usize, usize, usize, usize)] = &[
        ("a", 1, 0, 10_000, 0, 96),
        ("a", 1, 96, 10_000, 96, 0),
        ("a", 1, 99, 10_000, 99, 0),
        ("a", 1, 100, 10_000, 50, 46),
        ("a", 1, 5_000, 5_000, 50, 46),
        ("a", 1, 10_000, 0, 50, 0),
        ("漢", 2, 50, 100, 25, 23),
        ("漢", 2, 5_000, 5_000, 25, 23),
    ];
    for &(text, width, before, behind, shown_before, shown_behind) in ROWS {
        let reference = if shown_before == 99 { "&" } else { "&no;" };
        let shown = line_of(rt.alloc(), text, shown_before, reference, shown_behind)?;
        let columns = shown_before.saturating_mul(width);
        expect_shown(rt.alloc(), text, before, behind, columns, shown.as_str())?;
    }
    Ok(())
}

#[test]
fn explains_bad_bytes(rt: HostRuntime) -> Result<(), Fail> {
    let first = "htmd: not UTF-8\nthe first bad byte is byte 3\n";
    let table: [(&[&str], &[u8], &str); 3] = [
        (&["--explain"], b"<p>\xff", first),
        (&["--explain", "--text"], b"abc\xe6\xbc", first),
        (&[], b"<p>\xff", "htmd: not UTF-8\n"),
    ];
    for (options, stdin, want) in table {
        let answer = explained(rt.alloc(), options, stdin)?;
        expect_text(want, answer.as_str(), want)?;
    }
    Ok(())
}

// What the main content is, and the rule that chose it.
#[test]
fn explains_the_main_content(rt: HostRuntime) -> Result<(), Fail> {
    const ROWS: &[(&[u8], &str)] = &[
        (
            b"a<main id=m title=t>b",
            "what the page says is its main part: <main id=\"m\">",
        ),
        (
            b"a<div itemprop=articleBody class='b c'>d</div>",
            "what the page says is the body of its article: <div class=\"b c\">",
        ),
        (
            b"<main><article>a</article>",
            "an article with most of the prose: <article>",
        ),
        (
            b"<p><a href=/>abcdefgh</a></p><div id=d><h1>i</h1><p>jklmnopq</div>",
            "the element with the most prose and few links: <div id=\"d\">",
        ),
        (
            b"<p>a",
            "the whole page, as no part of it is better: <body>",
        ),
    ];
    for &(page, said) in ROWS {
        let answer = called(rt.alloc(), &["--web", "--article", "--explain"], page)?;
        expect_that(said, answer.status == 0)?;
        let want = format!(in rt.alloc(); "main content: {said}\n")?;
        expect_text(said, answer.stderr.as_str(), want.as_str())?;
    }
    Ok(())
}
