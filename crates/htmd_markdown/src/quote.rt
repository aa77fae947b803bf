//! Block quotes.
ghost use Rattle.std.specs.Prelude.{◌≡◌, ◌++◌, IfOk, OnOk, string_bytes};
ghost use Rattle.std.specs.Str.Lines.{lines};
ghost use Rattle.htmd_markdown.specs.Quotes as spec;

use htmd_text::TrimDocumentWhitespace;
use htmd_text::repeats::leading_len;
use std::alloc::{AllocError, Global};

/// The content's lines, each after `> `, with blank lines around; line feeds at the content's start and document white
/// space at its end are cut before that. `Err` means out of memory.
pub fn write_quote(alloc: Global, content: &str) -> Result<String, AllocError>
    ensures { IfOk result (λ s. string_bytes s ≡ spec.quote content.now) }
{
    let rest = &content[leading_len(content.as_bytes(), b'\n')..];
    let content = rest.trim_end_document_whitespace();
    // Enough for lines of sixteen bytes and more.
    let room = content.len().saturating_add(content.len() / 8);
    let mut text = String::with_capacity(alloc, room.saturating_add(6))?;
    text.push_str("\n\n")?;
    push_quoted_lines(&mut text, content)?;
    text.push_str("\n\n")?;
    Ok(text)
}

/// Appends the content's lines, each after `> `.
fn push_quoted_lines(text: &mut String, content: &str) -> Result<(), AllocError>
    ensures { OnOk result
        (string_bytes text.new ≡ string_bytes text.old ++ spec.quoted_lines (lines content.now)) }
{
    let mut is_first = true;
    for line in content.lines() {
        text.push_str(if is_first { "> " } else { "\n> " })?;
        text.push_str(line)?;
        is_first = false;
    }
    Ok(())
}
