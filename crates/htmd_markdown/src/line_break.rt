//! Hard line breaks.
ghost use Rattle.std.specs.Prelude.{◌≡◌, IfOk, string_bytes};
ghost use Rattle.htmd_markdown.specs.LineBreaks as spec;

use std::alloc::{AllocError, Global};

/// How a hard line break is written.
#[derive(Debug, Clone, Copy, PartialEq)]
pub enum BrStyle {
    /// Two spaces before the line end.
    TwoSpaces,
    /// A backslash before the line end.
    Backslash,
}

/// A hard line break, with its line feed. `Err` means out of memory.
pub fn write_line_break(alloc: Global, style: BrStyle) -> Result<String, AllocError>
    ensures { IfOk result (λ s. string_bytes s ≡ spec.line_break style) }
{
    let text = match style {
        BrStyle::TwoSpaces => "  \n",
        BrStyle::Backslash => "\\\n",
    };
    String::from_str(alloc, text)
}
