//! Blank lines around a text.
ghost use Rattle.std.specs.Prelude.{◌≡◌, IfOk, OnErr, OnOk, string_bytes};
ghost use Rattle.htmd_lexical.specs.BlankLines as spec;

use crate::join::concat;
use std::alloc::{AllocError, Global};

const BLANK_LINE: &str = "\n\n";

/// The text with a blank line before and after it, in a `String` of its own. `Err` means out of memory.
pub fn with_blank_lines(alloc: Global, text: &str) -> Result<String, AllocError>
    ensures { IfOk result (λ s. string_bytes s ≡ spec.with_blank_lines text.now) }
{
    concat(alloc, &[BLANK_LINE, text, BLANK_LINE])
}

/// Puts a blank line before and after the text, in place, with one growth at most. `Err` means out of memory; the text
/// is then as it was.
pub fn surround_with_blank_lines(text: &mut String) -> Result<(), AllocError>
    ensures ok { OnOk result
        (string_bytes text.new ≡ spec.with_blank_lines (string_bytes text.old)) }
    ensures err { OnErr result (string_bytes text.new ≡ string_bytes text.old) }
{
    text.reserve(2 * BLANK_LINE.len())?;
    text.insert_str(0, BLANK_LINE)?;
    text.push_str(BLANK_LINE)
}
