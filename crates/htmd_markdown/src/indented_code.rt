//! Indented code blocks (CommonMark 0.31.2, 4.4).
ghost use Rattle.std.specs.Prelude.{◌≡◌, ◌++◌, ◌∷◌, [], not, IfOk, OnOk, if◌then◌else◌, string_bytes};
ghost use Rattle.htmd_lexical.specs.Characters.{line_feed};
ghost use Rattle.htmd_markdown.specs.IndentedCode as spec;

use crate::code_block::code_of;
use std::alloc::{AllocError, Global};

const INDENT: &str = "    ";

/// The indented code block of a content, without its one final line feed: each line (those of `str::lines`) after four
/// spaces, with a line feed between each two.
///
/// `Err` means out of memory.
pub fn write_indented_code(alloc: Global, content: &str) -> Result<String, AllocError>
    ensures { IfOk result (λ s. string_bytes s ≡ spec.indented_code_block content.now) }
{
    let code = code_of(content);
    let mut block = String::with_capacity(alloc, indented_len(code))?;
    let mut is_first = true;
    for line in code.lines() {
        push_line(&mut block, line, is_first)?;
        is_first = false;
    }
    Ok(block)
}

/// Appends the line after four spaces, and after a line feed unless it is the first.
fn push_line(block: &mut String, line: &str, is_first: bool) -> Result<(), AllocError>
    ensures { OnOk result (string_bytes block.new ≡ (string_bytes block.old
        ++ (if not is_first then line_feed ∷ [] else [])) ++ spec.indented_line line.now) }
{
    if !is_first {
        block.push('\n')?;
    }
    block.push_str(INDENT)?;
    block.push_str(line)?;
    Ok(())
}

/// How much room the lines of a text take at most with their indents, as far as a `usize` goes.
fn indented_len(text: &str) -> usize {
    let lines = text.lines().count();
    lines
        .saturating_mul(INDENT.len())
        .saturating_add(text.len())
}
