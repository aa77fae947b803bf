//! Cases, one on each line.
use htmd_chunks::{chunks, to_json_lines};
use htmd_commonmark::DocumentOptions;
use htmd_document::Document;
use htmd_document_of_tree::{Anchors, OfTree};
use htmd_html5::parse_html5;
use htmd_markdown::{BrStyle, BulletListMarker, CodeBlockFence, HeadingStyle, HrStyle, LinkStyle};
use std::alloc::{AllocError, Global};

const OPTIONS: DocumentOptions = DocumentOptions {
    heading_style: HeadingStyle::Atx,
    hr_style: HrStyle::Asterisks,
    br_style: BrStyle::TwoSpaces,
    link_style: LinkStyle::Inlined,
    code_block_fence: CodeBlockFence::Backticks,
    bullet_list_marker: BulletListMarker::Asterisk,
    ul_bullet_spacing: 3,
    ol_number_spacing: 2,
};

/// Appends the answers to all cases, up to a line that is none. Answers whether there is no such line.
pub(crate) fn push_answers(
    alloc: Global,
    answers: &mut String,
    cases: &str,
) -> Result<bool, AllocError> {
    for line in cases.lines() {
        let Some((settings, page)) = line.split_once('\t') else {
            return Ok(false);
        };
        let Some(settings) = settings_of(settings) else {
            return Ok(false);
        };
        push_answer(alloc, answers, &decoded(alloc, page)?, &settings)?;
    }
    Ok(true)
}

/// What stands before a page.
#[derive(Drop)]
struct Settings<'a> {
    /// Whether the document keeps elements that Markdown has no form for.
    rich: bool,
    name: Option<&'a str>,
    front: Option<&'a str>,
    /// How many bytes a piece may have.
    most: usize,
}

/// The settings in a text: words, of which the last is a number.
fn settings_of(text: &str) -> Option<Settings<'_>> {
    let mut settings = Settings {
        rich: false,
        name: None,
        front: None,
        most: 0,
    };
    for word in text.split(' ') {
        if word == "rich" {
            settings.rich = true;
        } else if let Some(name) = word.strip_prefix("page=") {
            settings.name = Some(name);
        } else if let Some(front) = word.strip_prefix("front=") {
            settings.front = Some(front);
        } else if let Ok(most) = word.parse::<usize>() {
            settings.most = most;
        } else {
            return None;
        }
    }
    Some(settings)
}

/// Appends the pieces of a page.
fn push_answer(
    alloc: Global,
    answers: &mut String,
    page: &str,
    settings: &Settings<'_>,
) -> Result<(), AllocError> {
    let tree = parse_html5(alloc, page, true)?;
    let document = Document::of_tree(alloc, &tree, true, &[], Anchors::Linked, settings.rich)?;
    let pieces = chunks(alloc, document, settings.most, &OPTIONS)?;
    let lines = to_json_lines(alloc, &pieces, &OPTIONS, settings.name, settings.front)?;
    answers.push_str(&lines)?;
    answers.push('\n')
}

/// A page in one line, in which `\\`, `\n`, `\r`, `\t` and `\0` stand for other characters.
fn decoded(alloc: Global, line: &str) -> Result<String, AllocError> {
    let mut page = String::with_capacity(alloc, line.len())?;
    let mut is_escaped = false;
    for c in line.chars() {
        if is_escaped {
            page.push(escaped_char(c))?;
            is_escaped = false;
        } else if c == '\\' {
            is_escaped = true;
        } else {
            page.push(c)?;
        }
    }
    Ok(page)
}

/// The character that a backslash and this one stand for.
fn escaped_char(letter: char) -> char {
    match letter {
        'n' => '\n',
        'r' => '\r',
        't' => '\t',
        '0' => '\0',
        c => c,
    }
}
