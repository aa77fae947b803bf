//! Fenced code blocks (CommonMark 0.31.2, 4.5).
ghost use Rattle.std.specs.Prelude.{◌≡◌, ◌++◌, OnOk, string_bytes};
ghost use Rattle.std.specs.Option.{option_copied};
ghost use Rattle.htmd_commonmark.specs.Fences as spec;

use htmd_markdown::{CodeBlockFence, push_between_fences};
use std::alloc::AllocError;

/// Appends the code between two fences of the symbol, with the language after the first one.
pub(crate) fn push_fence(
    out: &mut String,
    code: &str,
    language: Option<&str>,
    symbol: CodeBlockFence,
) -> Result<(), AllocError>
    ensures { OnOk result (string_bytes out.new
        ≡ string_bytes out.old ++ spec.fence code.now (option_copied language.entry) symbol) }
{
    push_between_fences(out, code, language.unwrap_or(""), symbol)
}
