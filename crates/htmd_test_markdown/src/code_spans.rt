//! Rows of code spans, and each short text read back by a reader of its own.
use crate::short_texts::{SHORT_TEXTS, short_text};
use htmd_markdown::write_span;
use htmd_test_expected::{expect_text, expect_that};
use std::alloc::{AllocError, Global};
use std::test::Fail;

#[test]
fn writes_code_spans(rt: HostRuntime) -> Result<(), Fail> {
    const ROWS: &[(&str, &str)] = &[
        ("a`", "`` a` ``"),
        ("`a", "`` `a ``"),
        ("``", "``` `` ```"),
        ("a`b", "``a`b``"),
        ("a``b", "`a``b`"),
        ("a`b``c", "```a`b``c```"),
        ("\t foo\nbar \r\n", "`foo\nbar`"),
        ("é", "`é`"),
        ("", "``"),
        (" \n", "``"),
    ];
    for &(content, want) in ROWS {
        let span = write_span(rt.alloc(), content, false)?;
        expect_text(content, span.as_str(), want)?;
    }
    Ok(())
}

#[test]
fn keeps_preformatted_code(rt: HostRuntime) -> Result<(), Fail> {
    const ROWS: &[(&str, &str)] = &[
        (" foo ", "`  foo  `"),
        ("a\nb", "`a b`"),
        ("\n a\n", "`   a  `"),
        ("\n\na", "`   a`"),
        ("a\r\n\n", "`a\r   `"),
        ("\n\n", "`   `"),
        ("  ", "`  `"),
        (" a", "` a`"),
        (" `", "``  ` ``"),
        ("`\n", "`` `   ``"),
        ("\n`", "``   ` ``"),
        ("", "``"),
    ];
    for &(content, want) in ROWS {
        let span = write_span(rt.alloc(), content, true)?;
        expect_text(content, span.as_str(), want)?;
    }
    Ok(())
}

#[test]
fn reads_back_line_ends_as_spaces(rt: HostRuntime) -> Result<(), Fail> {
    const ROWS: &[(&str, &str)] = &[
        ("a\r\nb", "a b"),
        ("a\rb", "a b"),
        ("a\n\rb", "a  b"),
        ("`\r\n\r\n`", "`  `"),
    ];
    for &(content, want) in ROWS {
        let span = write_span(rt.alloc(), content, false)?;
        let text = read(rt.alloc(), span.as_str())?;
        expect_that(content, text.as_deref() == Some(want))?;
    }
    Ok(())
}

#[test]
fn reads_back_each_short_text(rt: HostRuntime) -> Result<(), Fail> {
    for &(len, count) in SHORT_TEXTS {
        for number in 0..count {
            let content = short_text(rt.alloc(), len, number)?;
            let span = write_span(rt.alloc(), &content, false)?;
            let text = read(rt.alloc(), span.as_str())?;
            let want = Some(content.trim()).filter(|text| !text.is_empty());
            expect_that(content.as_str(), text.as_deref() == want)?;
        }
    }
    Ok(())
}

/// The text in the code span, if the whole text is one: equal runs of backquotes are at its ends and there is no such
/// run between them.
fn read(alloc: Global, markdown: &str) -> Result<Option<String>, AllocError> {
    let inside = markdown.trim_matches('`');
    let open = markdown.len() - markdown.trim_start_matches('`').len();
    let close = markdown.len() - markdown.trim_end_matches('`').len();
    if inside.is_empty() || open != close {
        return Ok(None);
    }
    if inside.split(|c| c != '`').any(|run| run.len() == open) {
        return Ok(None);
    }
    let line = inside.replace(alloc, "\r\n", " ")?;
    let line = line.replace(alloc, "\n", " ")?;
    let line = line.replace(alloc, "\r", " ")?;
    Ok(Some(String::from_str(alloc, without_padding(line.as_str()))?))
}

/// The line without one space at each end, if it isn't only spaces.
fn without_padding(line: &str) -> &str {
    if line.trim_matches(' ').is_empty() {
        return line;
    }
    match line.strip_prefix(' ') {
        Some(rest) => rest.strip_suffix(' ').unwrap_or(line),
        None => line,
    }
}
