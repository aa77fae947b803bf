//! Line ends as a text without references has them.
ghost use Rattle.std.specs.Prelude.{◌≡◌, ◌++◌, ◌∷◌, IfOk, OnOk, string_bytes};
ghost use Rattle.htmd_lexical.specs.Characters.{carriage_return};
ghost use Rattle.htmd_lexical.specs.LineEnds.{normalized};

use crate::beginnings::first_is;
use std::alloc::{AllocError, Global};

/// Appends the line end that a CR stands for: none if it is part of CR LF.
fn push_line_end(lines: &mut String, after: &str) -> Result<(), AllocError>
    ensures { OnOk result (string_bytes lines.new ++ normalized after.now
        ≡ string_bytes lines.old ++ normalized (carriage_return ∷ after.now)) }
{
    if first_is(after.as_bytes(), b'\n') {
        Ok(())
    } else {
        lines.push('\n')
    }
}

/// The text with a line feed for each CR LF and each lone CR. `Err` means out of memory.
pub fn with_line_feeds(alloc: Global, text: &str) -> Result<String, AllocError>
    ensures { IfOk result (λ t. string_bytes t ≡ normalized text.now) }
{
    let mut lines = String::with_capacity(alloc, text.len())?;
    let mut rest = text;
    while let Some((line, after)) = rest.split_once('\r') {
        lines.push_str(line)?;
        push_line_end(&mut lines, after)?;
        rest = after;
    }
    lines.push_str(rest)?;
    Ok(lines)
}
