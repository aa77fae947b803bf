//! Emphasis, headings, breaks and quotes.

use htmd_markdown::*;
use htmd_test_expected::{expect_number, expect_text, expect_that};
use std::test::Fail;

#[test]
fn marks_stand_inside_white_space(rt: HostRuntime) -> Result<(), Fail> {
    const ROWS: &[(Emphasis, &str, Option<&str>)] = &[
        (Emphasis::Strong, "C ", Some("**C** ")),
        (Emphasis::Regular, "a", Some("*a*")),
        (Emphasis::Regular, " \n a b\t", Some(" \n *a b*\t")),
        (
            Emphasis::Strong,
            "\u{3000}é\u{a0}",
            Some("\u{3000}**é**\u{a0}"),
        ),
        (Emphasis::Strong, "\u{200b}", Some("**\u{200b}**")),
        (Emphasis::Strong, " \u{3000}\n", None),
        (Emphasis::Regular, "", None),
    ];
    for &(emphasis, content, want) in ROWS {
        let text = write_emphasis(emphasis, String::from_str(rt.alloc(), content)?)?;
        let text = text.as_ref().map(|s| s.as_str());
        expect_that(content, text == want)?;
    }
    Ok(())
}

#[test]
fn headings_have_signs_or_an_underline(rt: HostRuntime) -> Result<(), Fail> {
    const ROWS: &[(HeadingStyle, u8, &str, &str)] = &[
        (HeadingStyle::Atx, 1, "Hello", "\n\n# Hello\n\n"),
        (
            HeadingStyle::Setex,
            1,
            "Heading",
            "\n\nHeading\n=======\n\n",
        ),
        (
            HeadingStyle::Setex,
            2,
            " \r\n a é\u{301}\u{3000} ",
            "\n\na é\u{301}\u{3000}\n-----\n\n",
        ),
        (HeadingStyle::Setex, 3, "a", "\n\n### a\n\n"),
        (HeadingStyle::Atx, 6, "", "\n\n###### \n\n"),
        (HeadingStyle::Setex, 2, "", "\n\n\n\n\n"),
        (
            HeadingStyle::Atx,
            2,
            "\u{3000}\u{b}a",
            "\n\n## \u{3000}\u{b}a\n\n",
        ),
    ];
    for &(style, level, content, want) in ROWS {
        let text = write_heading(rt.alloc(), style, level, content)?;
        expect_text(content, text.as_str(), want)?;
    }
    Ok(())
}

#[test]
fn headings_may_be_of_any_level(rt: HostRuntime) -> Result<(), Fail> {
    let deep = write_heading(rt.alloc(), HeadingStyle::Atx, 255, "a")?;
    expect_number("bytes", deep.len(), 255 + 2 + 4)
}

#[test]
fn thematic_breaks_have_three_styles(rt: HostRuntime) -> Result<(), Fail> {
    let thematic_breaks = [
        (HrStyle::Dashes, "\n\n- - -\n\n"),
        (HrStyle::Asterisks, "\n\n* * *\n\n"),
        (HrStyle::Underscores, "\n\n_ _ _\n\n"),
    ];
    for (style, want) in thematic_breaks {
        expect_text(
            want,
            write_thematic_break(rt.alloc(), style)?.as_str(),
            want,
        )?;
    }
    Ok(())
}

#[test]
fn line_breaks_have_two_styles(rt: HostRuntime) -> Result<(), Fail> {
    let line_breaks = [(BrStyle::TwoSpaces, "  \n"), (BrStyle::Backslash, "\\\n")];
    for (style, want) in line_breaks {
        expect_text(want, write_line_break(rt.alloc(), style)?.as_str(), want)?;
    }
    Ok(())
}

#[test]
fn each_line_of_a_quote_has_a_marker(rt: HostRuntime) -> Result<(), Fail> {
    const ROWS: &[(&str, &str)] = &[
        ("\n\na\n\nb\n\n", "\n\n> a\n> \n> b\n\n"),
        ("\n a\r\nb\rc \t", "\n\n>  a\n> b\rc\n\n"),
        ("> a\n> b", "\n\n> > a\n> > b\n\n"),
        ("\n \n", "\n\n\n\n"),
        ("", "\n\n\n\n"),
        ("\r\na", "\n\n> \n> a\n\n"),
    ];
    for &(content, want) in ROWS {
        let text = write_quote(rt.alloc(), content)?;
        expect_text(content, text.as_str(), want)?;
    }
    Ok(())
}
