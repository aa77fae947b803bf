//! Alternative texts and titles (CommonMark 0.31.2, 6.3).
ghost use Rattle.std.specs.Prelude.{◌≡◌, ◌++◌, OnOk, string_bytes};
ghost use Rattle.std.specs.Option.{option_copied};
ghost use Rattle.htmd_markdown.specs.Titles as spec;

use crate::address::push_escaped;
use htmd_text::TrimDocumentWhitespace;
use std::alloc::AllocError;

/// Appends the description of an image, if it has one.
pub(crate) fn push_description(out: &mut String, alt: Option<&str>) -> Result<(), AllocError>
    ensures { OnOk result
        (string_bytes out.new ≡ string_bytes out.old ++ spec.description (option_copied alt.entry)) }
{
    match alt {
        Some(alt) => push_tidied(out, alt),
        None => Ok(()),
    }
}

/// Appends a space and the title between quotation marks, if there is one.
pub(crate) fn push_title(out: &mut String, title: Option<&str>) -> Result<(), AllocError>
    ensures { OnOk result
        (string_bytes out.new ≡ string_bytes out.old ++ spec.title_text (option_copied title.entry)) }
{
    if let Some(title) = title {
        out.push_str(" \"")?;
        push_tidied(out, title)?;
        out.push('"')?;
    }
    Ok(())
}

/// Appends the lines of the text that aren't empty without document white space at their ends, with a backslash before
/// each quotation mark.
fn push_tidied(out: &mut String, text: &str) -> Result<(), AllocError>
    ensures { OnOk result (string_bytes out.new ≡ string_bytes out.old ++ spec.tidied_text text.now) }
{
    let mut is_first = true;
    for line in text.lines() {
        let line = line.trim_document_whitespace();
        if !line.is_empty() {
            if !is_first {
                out.push('\n')?;
            }
            push_escaped(out, line, b"\"")?;
            is_first = false;
        }
    }
    Ok(())
}
