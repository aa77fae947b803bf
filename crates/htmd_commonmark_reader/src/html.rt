//! The HTML of Markdown.
ghost use Rattle.std.specs.Prelude.{◌≡◌, IfOk, string_bytes};
ghost use Rattle.htmd_commonmark_reading.specs.Reading as spec;
ghost use Rattle.htmd_commonmark_reading.specs.Rendering.{html_of};

use crate::reading::read_markdown;
use htmd_parts::to_html;
use std::alloc::{AllocError, Global};

/// The HTML of a text of Markdown, as the specifications of CommonMark and of GitHub write it. `Err` means out of
/// memory.
pub fn markdown_to_html(alloc: Global, text: &str) -> Result<String, AllocError>
    ensures { IfOk result (λ html. string_bytes html ≡ html_of (spec.read text.now)) }
{
    let parts = read_markdown(alloc, text)?;
    to_html(alloc, parts.as_slice())
}
