//! The lines of a list item after spaces.
ghost use Rattle.std.specs.Prelude.{◌≡◌, ◌++◌, IfOk, OnOk, string_bytes};
ghost use Rattle.htmd_text.specs.Indents as spec;

use crate::repetition::push_repeated;
use crate::trim::without_document_end;
use std::alloc::{AllocError, Global};

/// The text's lines (those of `str::lines`: a line ends at LF or CR LF) joined by line feeds, each but the first and
/// the empty ones after this many spaces, and if asked, without document white space at their ends. Without spaces it
/// is the text itself. `Err` means out of memory.
pub fn indent_text_except_first_line(
    alloc: Global,
    text: &str,
    indent: usize,
    trim_line_end: bool,
) -> Result<String, AllocError>
    ensures { IfOk result (λ t. string_bytes t ≡ spec.indented_text text.now indent trim_line_end) }
{
    let mut indented = String::with_capacity(alloc, text.len())?;
    push_indented(&mut indented, text, indent, trim_line_end)?;
    Ok(indented)
}

/// Appends to a text what `indent_text_except_first_line` returns for another one. `Err` means out of memory.
pub fn push_indented(
    out: &mut String,
    text: &str,
    indent: usize,
    trim_line_end: bool,
) -> Result<(), AllocError>
    ensures { OnOk result (string_bytes out.new
        ≡ string_bytes out.old ++ spec.indented_text text.now indent trim_line_end) }
{
    if indent == 0 {
        return out.push_str(text);
    }
    let mut is_first = true;
    for line in text.lines() {
        let line = line_text(line, trim_line_end);
        if is_first {
            out.push_str(line)?;
        } else {
            push_line(out, line, indent)?;
        }
        is_first = false;
    }
    Ok(())
}

/// The line, without document white space at its end if asked.
fn line_text(line: &str, trim_line_end: bool) -> &str
    ensures { result.now ≡ spec.line_text trim_line_end line.now }
{
    if trim_line_end {
        without_document_end(line)
    } else {
        line
    }
}

/// Appends a line feed, and unless the line is empty, this many spaces and the line.
fn push_line(text: &mut String, line: &str, indent: usize) -> Result<(), AllocError>
    ensures { OnOk result
        (string_bytes text.new ≡ string_bytes text.old ++ spec.next_line indent line.now) }
{
    text.push('\n')?;
    if line.is_empty() {
        return Ok(());
    }
    push_repeated(text, ' ', indent)?;
    text.push_str(line)?;
    Ok(())
}
