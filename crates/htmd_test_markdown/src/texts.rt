//! What no clause says: that calls succeed if there is memory, and rows of the rules, written by hand.
use crate::short_texts::{SHORT_TEXTS, short_text};
use htmd_test_expected::{expect_number, expect_text, expect_that};
use htmd_text::*;
use std::alloc::{AllocError, Global};
use std::borrow::CowStr;
use std::test::Fail;

/// The text, and whether it is borrowed.
fn parts<'a>(text: &'a CowStr<'_>) -> (&'a str, bool) {
    match text {
        CowStr::Borrowed(text) => (*text, true),
        CowStr::Owned(text) => (text.as_str(), false),
    }
}

/// A text, and whether it is borrowed.
fn expect_cow(row: &str, found: &CowStr<'_>, want: &str, borrowed: bool) -> Result<(), Fail> {
    let (text, is_borrowed) = parts(found);
    expect_text(row, text, want)?;
    expect_that(row, is_borrowed == borrowed)
}

/// A text, and what is cut off one end of it.
fn expect_cut(
    row: &str,
    found: (&str, Option<&str>),
    want: (&str, Option<&str>),
) -> Result<(), Fail> {
    expect_text(row, found.0, want.0)?;
    expect_that(row, found.1 == want.1)
}

#[test]
fn escapes_markdown(rt: HostRuntime) -> Result<(), Fail> {
    const ROWS: &[(&str, &str, bool)] = &[
        ("a.b", "a.b", true),
        ("a_b", "a\\_b", false),
        ("\\<a>", "\\\\\\<a>", false),
        ("<!\\[CDATA\\[x", "\\<!\\\\\\[CDATA\\\\\\[x", false),
        ("<![CDATA[x]]>", "<!\\[CDATA\\[x\\]\\]>", false),
        ("1. a", "1\\. a", false),
        ("1.. x", "1.\\. x", false),
        ("2½. text", "2½\\. text", false),
        ("½. text", "½. text", true),
        ("- x", "\\- x", false),
        ("--- a", "--- a", true),
        ("= ~ >", "\\= ~ >", false),
        ("# a", "\\# a", false),
        ("", "", true),
    ];
    for &(text, want, borrowed) in ROWS {
        expect_cow(text, &escape_if_needed(rt.alloc(), text)?, want, borrowed)?;
    }
    Ok(())
}

/// What Markdown means by a text with backslashes: before ASCII punctuation they are dropped.
fn read(alloc: Global, markdown: &str) -> Result<String, AllocError> {
    let mut text = String::new(alloc);
    let mut is_escaped = false;
    for c in markdown.chars() {
        if c == '\\' && !is_escaped {
            is_escaped = true;
            continue;
        }
        if is_escaped && !c.is_ascii_punctuation() {
            text.push('\\')?;
        }
        text.push(c)?;
        is_escaped = false;
    }
    if is_escaped {
        text.push('\\')?;
    }
    Ok(text)
}

#[test]
fn reads_back_each_short_text(rt: HostRuntime) -> Result<(), Fail> {
    for &(len, count) in SHORT_TEXTS {
        for number in 0..count {
            let text = short_text(rt.alloc(), len, number)?;
            let escaped = escape_if_needed(rt.alloc(), &text)?;
            let again = read(rt.alloc(), escaped.as_str())?;
            expect_text(text.as_str(), again.as_str(), text.as_str())?;
        }
    }
    Ok(())
}

#[test]
fn escapes_html(rt: HostRuntime) -> Result<(), Fail> {
    let html = [
        ("a < b", "a < b", true),
        ("<a></a><?x<!-- <1", "\\<a>\\</a>\\<?x\\<!-- <1", false),
        ("<!\\[CDATA\\[ <![CDATA[", "<!\\[CDATA\\[ <![CDATA[", true),
    ];
    for (text, want, borrowed) in html {
        expect_cow(text, &escape_html(rt.alloc(), text)?, want, borrowed)?;
    }
    Ok(())
}

#[test]
fn escapes_fences(rt: HostRuntime) -> Result<(), Fail> {
    let fences = [
        ("x", "x", true),
        ("```", "\\```", false),
        ("~~~", "\\~~~", false),
    ];
    for (text, want, borrowed) in fences {
        let found = escape_pre_text_if_needed(rt.alloc(), text)?;
        expect_cow(text, &found, want, borrowed)?;
    }
    Ok(())
}

#[test]
fn squeezes_white_space(rt: HostRuntime) -> Result<(), Fail> {
    const ROWS: &[(&str, &str, bool)] = &[
        ("a b", "a b", true),
        ("a\u{b}b", "a\u{b}b", true),
        ("a  b", "a b", false),
        ("\t é\x0C\r\n", " é ", false),
    ];
    for &(text, want, borrowed) in ROWS {
        let found = compress_whitespace(rt.alloc(), text)?;
        expect_cow(text, &found, want, borrowed)?;
    }
    Ok(())
}

#[test]
fn finds_list_markers() -> Result<(), Fail> {
    const ROWS: &[(&str, Option<usize>)] = &[
        ("2½. text", Some(3)),
        ("16.1¾ ", None),
        ("1.. x", Some(2)),
        ("Ⅷ. x", Some(3)),
    ];
    for &(text, place) in ROWS {
        expect_that(text, index_of_markdown_ordered_item_dot(text) == place)?;
    }
    expect_that("####### a", is_markdown_atx_heading("####### a"))?;
    expect_that("#a", !is_markdown_atx_heading("#a"))
}

#[test]
fn counts_digits() -> Result<(), Fail> {
    const ROWS: &[(usize, usize)] = &[(0, 1), (9, 1), (450, 3), (100000000, 9), (usize::MAX, 20)];
    for &(number, want) in ROWS {
        expect_number("digits", digits(number), want)?;
    }
    Ok(())
}

#[test]
fn knows_block_elements() -> Result<(), Fail> {
    let names = "address article aside base basefont blockquote body caption center col colgroup \
        dd details dialog dir div dl dt fieldset figcaption figure footer form frame frameset h1 \
        h2 h3 h4 h5 h6 head header hr html iframe legend li link main menu menuitem nav noframes \
        ol optgroup option p param pre script search section style summary table tbody td \
        textarea tfoot th thead title tr track ul";
    for name in names.split_whitespace() {
        expect_that(name, is_block_element(name))?;
    }
    const ROWS: &[&str] = &["h7", "d", "P", "", "tables", "noscript"];
    for &name in ROWS {
        expect_that(name, !is_block_element(name))?;
    }
    Ok(())
}

#[test]
fn trims_document_white_space() -> Result<(), Fail> {
    expect_text("both", "\r\n é \t".trim_document_whitespace(), "é")?;
    expect_text("start", "\x0C é".trim_start_document_whitespace(), "\x0C é")?;
    expect_text("end", "é \x0C\t".trim_end_document_whitespace(), "é \x0C")
}

#[test]
fn strips_white_space() -> Result<(), Fail> {
    let text = "\u{a0}\r\n\x0C é \t\n";
    let start = ("é \t\n", Some("\u{a0}\r\n\x0C "));
    expect_cut("start", text.strip_leading_whitespace(), start)?;
    let end = ("\u{a0}\r\n\x0C é", Some(" \t\n"));
    expect_cut("end", text.strip_trailing_whitespace(), end)?;
    expect_cut(
        "document",
        text.strip_leading_document_whitespace(),
        (text, None),
    )?;
    let end = ("é", Some(" \t"));
    expect_cut(
        "document's end",
        "é \t".strip_trailing_document_whitespace(),
        end,
    )
}

#[test]
fn trims_line_feeds(rt: HostRuntime) -> Result<(), Fail> {
    let mut lines = String::from_str(rt.alloc(), "\n\n \n\n")?;
    trim_newlines(&mut lines);
    expect_text("line feeds", lines.as_str(), " ")
}

/// Cuts the white space off both ends.
fn expect_ends(
    text: &str,
    start: Option<&str>,
    end: Option<&str>,
    middle: &str,
) -> Result<(), Fail> {
    let (rest, cut) = text.strip_leading_whitespace();
    expect_that(text, cut == start)?;
    expect_cut(text, rest.strip_trailing_whitespace(), (middle, end))
}

/// Finds no document white space at the ends.
fn expect_none_at_the_ends(text: &str) -> Result<(), Fail> {
    expect_text(text, text.trim_document_whitespace(), text)?;
    expect_text(text, text.trim_start_document_whitespace(), text)?;
    expect_text(text, text.trim_end_document_whitespace(), text)?;
    expect_cut(text, text.strip_leading_document_whitespace(), (text, None))?;
    expect_cut(
        text,
        text.strip_trailing_document_whitespace(),
        (text, None),
    )
}

#[test]
fn tells_white_space_from_document_white_space() -> Result<(), Fail> {
    // a character without the property White_Space, and three with it that are not ASCII
    const ROWS: &[(&str, Option<&str>, Option<&str>, &str)] = &[
        ("\u{feff}a\u{feff}", None, None, "\u{feff}a\u{feff}"),
        ("\u{a0}a\u{a0}", Some("\u{a0}"), Some("\u{a0}"), "a"),
        ("\u{2003}a\u{3000}", Some("\u{2003}"), Some("\u{3000}"), "a"),
        (
            "\u{3000} a \u{2003}",
            Some("\u{3000} "),
            Some(" \u{2003}"),
            "a",
        ),
    ];
    for &(text, start, end, middle) in ROWS {
        expect_ends(text, start, end, middle)?;
        expect_none_at_the_ends(text)?;
    }
    Ok(())
}

#[test]
fn joins_texts(rt: HostRuntime) -> Result<(), Fail> {
    let joined = ["a", "", "b"].iter().join(rt.alloc(), ", ")?;
    expect_text("texts", joined.as_str(), "a, , b")
}

#[test]
fn joins_blocks(rt: HostRuntime) -> Result<(), Fail> {
    let mut blocks = Vec::new(rt.alloc());
    for block in ["a\n", "", "\n\n\nb", "c\n"] {
        blocks.push(String::from_str(rt.alloc(), block)?)?;
    }
    let joined = join_blocks(rt.alloc(), &blocks)?;
    expect_text("blocks", joined.as_str(), "a\n\nbc\n")
}

fn expect_indented(
    alloc: Global,
    text: &str,
    indent: usize,
    trim: bool,
    want: &str,
) -> Result<(), Fail> {
    let indented = indent_text_except_first_line(alloc, text, indent, trim)?;
    expect_text(text, indented.as_str(), want)?;
    let mut item = String::from_str(alloc, "* ")?;
    push_indented(&mut item, text, indent, trim)?;
    expect_that(text, item.strip_prefix("* ") == Some(want))
}

#[test]
fn indents(rt: HostRuntime) -> Result<(), Fail> {
    expect_indented(rt.alloc(), "a \r\n\n b \n", 2, true, "a\n\n   b")?;
    expect_indented(rt.alloc(), "a \n b \n", 2, false, "a \n   b ")?;
    expect_indented(rt.alloc(), "a \n b \n", 0, true, "a \n b \n")
}

/// Trims the end of a text in place: of line feeds, of spaces, and of document white space.
fn expect_trimmed(alloc: Global, text: &str, wants: (&str, &str, &str)) -> Result<(), Fail> {
    let mut cut = String::from_str(alloc, text)?;
    trim_end_line_feeds(&mut cut);
    expect_text(text, cut.as_str(), wants.0)?;
    let mut cut = String::from_str(alloc, text)?;
    trim_end_spaces(&mut cut);
    expect_text(text, cut.as_str(), wants.1)?;
    let mut cut = String::from_str(alloc, text)?;
    trim_end_document_white_space(&mut cut);
    expect_text(text, cut.as_str(), wants.2)
}

#[test]
fn trims_ends_in_place(rt: HostRuntime) -> Result<(), Fail> {
    const ROWS: &[(&str, (&str, &str, &str))] = &[
        (" a \n\n", (" a ", " a \n\n", " a")),
        ("a\n  ", ("a\n  ", "a\n", "a")),
        ("\x0C\t\r", ("\x0C\t\r", "\x0C\t\r", "\x0C")),
        ("", ("", "", "")),
    ];
    for &(text, wants) in ROWS {
        expect_trimmed(rt.alloc(), text, wants)?;
    }
    Ok(())
}

#[test]
fn puts_texts_together(rt: HostRuntime) -> Result<(), Fail> {
    expect_text(
        "texts",
        concat(rt.alloc(), &["a", "", "é", "b"])?.as_str(),
        "aéb",
    )?;
    expect_text("no text", concat(rt.alloc(), &[])?.as_str(), "")
}

#[test]
fn adds_to_texts(rt: HostRuntime) -> Result<(), Fail> {
    let mut text = String::from_str(rt.alloc(), "a")?;
    push_repeated(&mut text, '#', 3)?;
    push_repeated(&mut text, '-', 0)?;
    expect_text("repeated", text.as_str(), "a###")?;
    surround_with_blank_lines(&mut text)?;
    expect_text("in place", text.as_str(), "\n\na###\n\n")?;
    let text = with_blank_lines(rt.alloc(), "a\n")?;
    expect_text("anew", text.as_str(), "\n\na\n\n\n")
}
