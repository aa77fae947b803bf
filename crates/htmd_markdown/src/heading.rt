//! Headings of six levels.
ghost use Rattle.std.specs.Prelude.{◌≡◌, ◌<◌, ◌≤◌, IfOk, length, string_bytes};
ghost use Rattle.std.specs.Str.{chars};
ghost use Rattle.htmd_lexical.specs.BlankLines.{with_blank_lines};
ghost use Rattle.htmd_markdown.specs.Headings as spec;

use htmd_text::{TrimDocumentWhitespace, push_repeated};
use std::alloc::{AllocError, Global};

/// How headings are written.
#[derive(Debug, Clone, Copy, PartialEq)]
pub enum HeadingStyle {
    /// `#` as many times as the level says (CommonMark 0.31.2, 4.2).
    Atx,
    /// Levels 1 and 2 are underlined (CommonMark 0.31.2, 4.3), the others as in `Atx`.
    Setex,
}

/// The content without document white space at its ends as a heading of the level, with blank lines around. `Err` means
/// out of memory.
pub fn write_heading(
    alloc: Global,
    style: HeadingStyle,
    level: u8,
    content: &str,
) -> Result<String, AllocError>
    ensures { IfOk result (λ s. string_bytes s ≡ spec.heading style level content.now) }
{
    let content = content.trim_document_whitespace();
    match style {
        HeadingStyle::Setex if level <= 2 => write_setext(alloc, level, content),
        _ => write_atx(alloc, level as usize, content),
    }
}

/// `#` as many times as the level says, a space, the content.
fn write_atx(alloc: Global, level: usize, content: &str) -> Result<String, AllocError>
    requires { level < 256 }
    ensures { IfOk result
        (λ s. string_bytes s ≡ with_blank_lines (spec.atx level content.now)) }
{
    let mut text = String::with_capacity(alloc, content.len() + level + 5)?;
    text.push_str("\n\n")?;
    push_repeated(&mut text, '#', level)?;
    text.push_str(" ")?;
    text.push_str(content)?;
    text.push_str("\n\n")?;
    Ok(text)
}

/// The content, and under it a line of as many characters.
fn write_setext(alloc: Global, level: u8, content: &str) -> Result<String, AllocError>
    ensures { IfOk result
        (λ s. string_bytes s ≡ with_blank_lines (spec.setext level content.now)) }
{
    let width = character_count(content);
    let mut text = String::with_capacity(alloc, (content.len() + width).saturating_add(5))?;
    text.push_str("\n\n")?;
    text.push_str(content)?;
    text.push_str("\n")?;
    push_repeated(&mut text, underline(level), width)?;
    text.push_str("\n\n")?;
    Ok(text)
}

fn underline(level: u8) -> char
    ensures value { result ≡ spec.underline level }
    ensures ascii { result < 128 }
{
    if level == 1 { '=' } else { '-' }
}

/// How many characters the text has.
fn character_count(text: &str) -> usize
    ensures value { result ≡ length (chars text.now) }
    ensures bound { result ≤ length text.now }
{
    text.chars().count()
}
