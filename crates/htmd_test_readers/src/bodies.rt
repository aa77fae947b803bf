//! The body of a page, and the line and column of a place, written by hand.
use htmd_test_expected::{expect_number, expect_text};
use htmd_tree::{body_of, line_and_column};
use std::alloc::{AllocError, Global};
use std::test::Fail;

/// The body of a page, and its place.
fn expect_body(html: &str, part: &str, place: usize) -> Result<(), Fail> {
    let (body, start) = body_of(html);
    expect_text(html, body, part)?;
    expect_number(html, start, place)
}

#[test]
fn bodies() -> Result<(), Fail> {
    const ROWS: &[(&str, &str, usize)] = &[
        ("", "", 0),
        ("<p>a</p>", "<p>a</p>", 0),
        ("<p>a</body>", "<p>a</body>", 0),
        ("<body>a</body>", "a", 6),
        ("<BODY>a</Body>", "a", 6),
        ("<bOdY\n>\na\n</bODy\t>\n", "\na\n", 7),
        ("<body>", "", 6),
        ("<body>a<p>b", "a<p>b", 6),
        ("<body>a</body>b</body>c", "a</body>b", 6),
        ("<body>a<body>b</body>", "a<body>b", 6),
        ("</body><body>a", "a", 13),
        ("<body/>a</body>", "a", 7),
        ("<body a='>' b=\"</body>\" c=d>e</body>", "e", 28),
        ("<body a=1 a=1 b='&no;'>e</body>", "e", 23),
        ("<bodyguard>a</bodyguard>", "<bodyguard>a</bodyguard>", 0),
        ("<bodyguard><body>a</bodyguard>", "a</bodyguard>", 17),
        ("< body>a</ body>", "< body>a</ body>", 0),
        ("<body a=>b</body>", "<body a=>b</body>", 0),
        ("<body a='", "<body a='", 0),
        ("<body <body>a</body", "a</body", 12),
        ("<body 'a'><body>b</body x></body>", "b</body x>", 16),
        ("<!-- <body> --><body>a</body>", " --><body>a", 11),
        (
            "\u{feff}<?xml version='1.0'?>\r\n<!DOCTYPE html PUBLIC \"x\">\r\n<html>\r\n<body>\r\né</body>",
            "\r\né",
            68,
        ),
    ];
    for &(html, part, place) in ROWS {
        expect_body(html, part, place)?;
    }
    Ok(())
}

/// This many copies of a text.
fn repeated(alloc: Global, text: &str, times: usize) -> Result<String, AllocError> {
    let mut all = String::new(alloc);
    for _ in 0..times {
        all.push_str(text)?;
    }
    Ok(all)
}

// Texts in which a tag begins again and again, and none ends.
#[test]
fn tags_without_an_end(rt: HostRuntime) -> Result<(), Fail> {
    const ROWS: &[&str] = &[
        "<",
        "</",
        "<a ",
        "<body ",
        "<body",
        "<body a='",
        "<body a='<body a=\"",
        "<body a=' b=\"<body c=\" d='",
        "</body",
        "</body ",
    ];
    for &text in ROWS {
        let html = repeated(rt.alloc(), text, 20_000)?;
        expect_body(html.as_str(), html.as_str(), 0)?;
    }
    let many = repeated(rt.alloc(), "</body ", 20_000)?;
    let html = format!(in rt.alloc(); "<body>{many}")?;
    expect_body(html.as_str(), many.as_str(), 6)
}

/// The line and the column of a place.
fn expect_line_and_column(html: &str, place: usize, wants: (usize, usize)) -> Result<(), Fail> {
    let (line, column) = line_and_column(html, place);
    expect_number(html, line, wants.0)?;
    expect_number(html, column, wants.1)
}

#[test]
fn lines_and_columns() -> Result<(), Fail> {
    const ROWS: &[(&str, usize, usize, usize)] = &[
        ("", 0, 1, 1),
        ("", 9, 1, 1),
        ("ab", 0, 1, 1),
        ("ab", 1, 1, 2),
        ("ab", 2, 1, 3),
        ("ab", 9, 1, 3),
        ("a\nb", 1, 1, 2),
        ("a\nb", 2, 2, 1),
        ("a\rb", 2, 2, 1),
        ("a\r\nb", 1, 1, 2),
        ("a\r\nb", 3, 2, 1),
        ("a\n\rb\r\n\r\n", 3, 3, 1),
        ("a\n\rb\r\n\r\n", 8, 5, 1),
        ("\té漢\u{1f600}e\u{301}x", 1, 1, 2),
        ("\té漢\u{1f600}e\u{301}x", 3, 1, 3),
        ("\té漢\u{1f600}e\u{301}x", 6, 1, 4),
        ("\té漢\u{1f600}e\u{301}x", 10, 1, 5),
        ("\té漢\u{1f600}e\u{301}x", 13, 1, 7),
        ("\u{85}\u{2028}\u{c}\u{b}x", 7, 1, 5),
    ];
    for &(html, place, line, column) in ROWS {
        expect_line_and_column(html, place, (line, column))?;
    }
    Ok(())
}
