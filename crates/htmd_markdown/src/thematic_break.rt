//! Thematic breaks.
ghost use Rattle.std.specs.Prelude.{◌≡◌, IfOk, string_bytes};
ghost use Rattle.htmd_markdown.specs.ThematicBreaks as spec;

use std::alloc::{AllocError, Global};

/// How a thematic break is written.
#[derive(Debug, Clone, Copy, PartialEq)]
pub enum HrStyle {
    /// `- - -`
    Dashes,
    /// `* * *`
    Asterisks,
    /// `_ _ _`
    Underscores,
}

/// A thematic break, with blank lines around. `Err` means out of memory.
pub fn write_thematic_break(alloc: Global, style: HrStyle) -> Result<String, AllocError>
    ensures { IfOk result (λ s. string_bytes s ≡ spec.thematic_break style) }
{
    let text = match style {
        HrStyle::Dashes => "\n\n- - -\n\n",
        HrStyle::Asterisks => "\n\n* * *\n\n",
        HrStyle::Underscores => "\n\n_ _ _\n\n",
    };
    String::from_str(alloc, text)
}
