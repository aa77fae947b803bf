//! Emphasis and strong emphasis.
ghost use Rattle.std.specs.Prelude.{◌≡◌, IfOk, IfSome, string_bytes};
ghost use Rattle.std.specs.Option.{option_map};
ghost use Rattle.htmd_markdown.specs.Emphases as spec;

use std::alloc::AllocError;

/// The two kinds of emphasis (CommonMark 0.31.2, 6.2).
#[derive(Debug, Clone, Copy, PartialEq)]
pub enum Emphasis {
    /// One `*` on each side.
    Regular,
    /// Two on each side.
    Strong,
}

/// The content between marks. The white space at its ends stands outside of them, since a mark beside white space opens
/// or closes nothing; nothing if the content is only white space. `Err` means out of memory.
pub fn write_emphasis(emphasis: Emphasis, mut content: String) -> Result<Option<String>, AllocError>
    ensures text { IfOk result (λ text. option_map (λ s. string_bytes s) text
        ≡ spec.emphasised_text emphasis (string_bytes content)) }
    ensures marks { IfOk result (λ text. IfSome text
        (λ s. spec.AreMarksInside (spec.mark emphasis) (string_bytes content) (string_bytes s))) }
{
    let rest = content.trim_start();
    let middle = rest.trim_end();
    if middle.is_empty() {
        return Ok(None);
    }
    let start = content.len() - rest.len();
    let end = start + middle.len();
    let mark = mark(emphasis);
    content.reserve(2 * mark.len())?;
    content.insert_str(end, mark)?;
    content.insert_str(start, mark)?;
    Ok(Some(content))
}

/// The mark on each side.
fn mark(emphasis: Emphasis) -> &'static str
    ensures { result.now ≡ spec.mark emphasis }
{
    match emphasis {
        Emphasis::Regular => "*",
        Emphasis::Strong => "**",
    }
}
