//! Images, links, autolinks, references and their definitions.

use htmd_markdown::*;
use htmd_test_expected::{expect_text, expect_that};
use std::test::Fail;

#[test]
fn writes_images(rt: HostRuntime) -> Result<(), Fail> {
    const ROWS: &[(&str, Option<&str>, Option<&str>, &str)] = &[
        ("/x", None, None, "![](/x)"),
        (
            "https://example.com/image name.png",
            Some("diagram"),
            Some("A title"),
            "![diagram](<https://example.com/image name.png> \"A title\")",
        ),
        ("a(b", Some(""), Some(""), "![](a\\(b \"\")"),
        ("", Some(" "), None, "![]()"),
        (
            "é(1) 2",
            Some(" a\r\n\n \tb \"c\"\n"),
            Some("\n\"\n"),
            "![a\nb \\\"c\\\"](<é\\(1\\) 2> \"\\\"\")",
        ),
        ("\t", None, None, "![](\t)"),
    ];
    for &(address, alt, title, want) in ROWS {
        let image = write_image(rt.alloc(), address, alt, title)?;
        expect_text(address, image.as_str(), want)?;
    }
    Ok(())
}

#[test]
fn writes_inline_links(rt: HostRuntime) -> Result<(), Fail> {
    const ROWS: &[(&str, &str, Option<&str>, &str)] = &[
        ("t", "/x?a=1&b=2", None, "[t](/x?a=1&b=2)"),
        (" random ", "/", None, "[random](/) "),
        ("t", "/a(b)", None, "[t](/a\\(b\\))"),
        (
            " t ",
            "/u",
            Some("say \"hi\""),
            "[t](/u \"say \\\"hi\\\"\") ",
        ),
        ("/a b", "/a b", Some("t"), "[/a b](</a b> \"t\")"),
        (" \n\t", "", None, "[]()"),
        ("\u{a0}\nx\r\n", "a\\b", None, "[\u{a0}\nx](a\\b)\r\n"),
    ];
    for &(content, address, title, want) in ROWS {
        let link = write_inline_link(rt.alloc(), content, address, title)?;
        expect_text(content, link.as_str(), want)?;
    }
    Ok(())
}

#[test]
fn writes_autolinks(rt: HostRuntime) -> Result<(), Fail> {
    const ROWS: &[(&str, &str, Option<&str>)] = &[
        (
            "https://example.com",
            "https://example.com",
            Some("<https://example.com>"),
        ),
        ("/a\\_b", "/a_b", None),
        ("a\\\\(b", "a\\(b", Some("<a\\\\(b>")),
        ("a(b", "a(b", None),
        ("a\\(b\\)", "a(b)", Some("<a\\(b\\)>")),
        ("a\\(b\\", "a(b)", None),
        ("ab", "a", None),
        ("a", "ab", None),
        ("", "", Some("<>")),
        ("a b", "a b", Some("<a b>")),
    ];
    for &(content, address, want) in ROWS {
        let link = write_autolink(rt.alloc(), content, address)?;
        let link = link.as_ref().map(|s| s.as_str());
        expect_that(content, link == want)?;
    }
    Ok(())
}

#[test]
fn writes_references_and_definitions(rt: HostRuntime) -> Result<(), Fail> {
    const ROWS: &[(
        LinkReferenceStyle,
        usize,
        &str,
        &str,
        Option<&str>,
        &str,
        &str,
    )] = &[
        (
            LinkReferenceStyle::Full,
            1,
            "t",
            "/a b",
            None,
            "[t][1]",
            "[1]: /a b",
        ),
        (
            LinkReferenceStyle::Collapsed,
            1,
            "A",
            "/x",
            None,
            "[A][]",
            "[A]: /x",
        ),
        (
            LinkReferenceStyle::Shortcut,
            7,
            " A ",
            "/x",
            None,
            "[ A ]",
            "[ A ]: /x",
        ),
        (
            LinkReferenceStyle::Full,
            usize::MAX,
            "",
            "(é)",
            Some("T\n\n\"U\" "),
            "[][18446744073709551615]",
            "[18446744073709551615]: \\(é\\) \"T\n\\\"U\\\"\"",
        ),
        (
            LinkReferenceStyle::Shortcut,
            0,
            "[x]",
            "",
            Some(""),
            "[[x]]",
            "[[x]]:  \"\"",
        ),
    ];
    for &(style, number, content, address, title, reference, definition) in ROWS {
        let link = write_reference(rt.alloc(), style, number, content)?;
        expect_text(content, link.as_str(), reference)?;
        let line = write_definition(rt.alloc(), style, number, content, address, title)?;
        expect_text(content, line.as_str(), definition)?;
    }
    Ok(())
}
