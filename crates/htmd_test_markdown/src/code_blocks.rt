//! Code blocks, and each short text read back from its fenced one by a reader of its own.
use crate::short_texts::{SHORT_TEXTS, short_text};
use htmd_markdown::{CodeBlockFence, write_fence, write_indented_code};
use htmd_test_expected::{expect_text, expect_that};
use std::test::Fail;

#[test]
fn writes_fenced_code_blocks(rt: HostRuntime) -> Result<(), Fail> {
    const ROWS: &[(&str, Option<&str>, CodeBlockFence, &str)] = &[
        ("a", None, CodeBlockFence::Backticks, "```\na\n```"),
        ("a\r", None, CodeBlockFence::Backticks, "```\na\r\n```"),
        ("\n", None, CodeBlockFence::Backticks, "```\n\n```"),
        ("", None, CodeBlockFence::Tildes, "~~~\n\n~~~"),
        (
            "a\n\n",
            Some("rs"),
            CodeBlockFence::Backticks,
            "```rs\na\n\n```",
        ),
        ("a", Some(""), CodeBlockFence::Tildes, "~~~\na\n~~~"),
        (
            "~~~~~\nx",
            None,
            CodeBlockFence::Tildes,
            "~~~~~~\n~~~~~\nx\n~~~~~~",
        ),
        (
            "~~~~~\nx",
            None,
            CodeBlockFence::Backticks,
            "```\n~~~~~\nx\n```",
        ),
        (
            "a ``` ````",
            None,
            CodeBlockFence::Backticks,
            "`````\na ``` ````\n`````",
        ),
        ("é\r\n", Some("c"), CodeBlockFence::Tildes, "~~~c\né\r\n~~~"),
    ];
    for &(content, language, fence, want) in ROWS {
        let block = write_fence(rt.alloc(), content, language, fence)?;
        expect_text(content, block.as_str(), want)?;
    }
    Ok(())
}

#[test]
fn writes_indented_code_blocks(rt: HostRuntime) -> Result<(), Fail> {
    const ROWS: &[(&str, &str)] = &[
        ("a\n\nb\n", "    a\n    \n    b"),
        ("a\n\n", "    a"),
        ("  a\r\nb\r", "      a\n    b\r"),
        ("\n", ""),
        ("", ""),
    ];
    for &(content, want) in ROWS {
        let block = write_indented_code(rt.alloc(), content)?;
        expect_text(content, block.as_str(), want)?;
    }
    Ok(())
}

#[test]
fn reads_back_fenced_code(rt: HostRuntime) -> Result<(), Fail> {
    const ROWS: &[(&str, &str)] = &[
        ("a\r", "a\r"),
        ("\n", ""),
        ("a\r\n", "a\r"),
        ("\r\n```\r ~~~\t\r\n    ~~~", "\r\n```\r ~~~\t\r\n    ~~~"),
        ("~~~ a\n\n", "~~~ a\n"),
    ];
    for &(content, want) in ROWS {
        for fence in [CodeBlockFence::Tildes, CodeBlockFence::Backticks] {
            let block = write_fence(rt.alloc(), content, Some("a b"), fence)?;
            expect_that(content, read(block.as_str(), "a b") == Some(want))?;
        }
    }
    Ok(())
}

#[test]
fn reads_back_each_short_text(rt: HostRuntime) -> Result<(), Fail> {
    for &(len, count) in SHORT_TEXTS {
        for number in 0..count {
            let content = short_text(rt.alloc(), len, number)?;
            let block = write_fence(rt.alloc(), &content, None, CodeBlockFence::Backticks)?;
            let code = read(block.as_str(), "");
            expect_that(content.as_str(), code == Some(content.as_str()))?;
        }
    }
    Ok(())
}

/// The code, if the whole text is a fenced code block: its first line is a fence and the info string, its last line a
/// fence of the same length, and no line between them closes the block.
fn read<'a>(markdown: &'a str, info: &str) -> Option<&'a str> {
    let (first, rest) = markdown.split_once('\n')?;
    let fence = first.strip_suffix(info)?;
    if fence.len() < 3 || !(is_all(fence, '`') || is_all(fence, '~')) {
        return None;
    }
    let code = rest.strip_suffix(fence)?.strip_suffix('\n')?;
    for line in code.split(['\n', '\r']) {
        let text = line.trim_start_matches(' ');
        let symbols = text.trim_end_matches([' ', '\t']);
        let is_long = symbols.len() >= fence.len() && line.len() - text.len() <= 3;
        if is_long && symbols.starts_with(fence) && (is_all(symbols, '`') || is_all(symbols, '~')) {
            return None;
        }
    }
    Some(code)
}

/// Whether the text has no other character.
fn is_all(text: &str, character: char) -> bool {
    text.trim_matches(character).is_empty()
}
