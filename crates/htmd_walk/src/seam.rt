//! How content is appended to a text.

ghost use Rattle.std.specs.Prelude.{◌≡◌, ◌++◌, ◌&&◌, ◌==◌, OnOk, drop, string_bytes};
ghost use Rattle.std.specs.List.{prefix_len, suffix_len};
ghost use Rattle.std.specs.Str.{IsCharBoundary};
ghost use Rattle.htmd_text.specs.Trims.{is_line_feed};
ghost use Rattle.htmd_walk.specs.Seams.{begins_with_space, ends_with_space, joined_by_white_space, joined_at_seam};

use htmd_text::repeats::{leading_len, trailing_len};
use std::alloc::AllocError;

/// Whether a space meets a space, with no line feed between.
fn loses_space(out: &[u8], content: &[u8]) -> bool
    ensures { result ≡ (((suffix_len is_line_feed out.now == 0) && (prefix_len is_line_feed content.now == 0))
        && (ends_with_space out.now && begins_with_space content.now)) }
{
    let has_no_line_feed = trailing_len(out, b'\n') == 0 && leading_len(content, b'\n') == 0;
    let has_spaces = trailing_len(out, b' ') > 0 && leading_len(content, b' ') > 0;
    has_no_line_feed && has_spaces
}

/// Where the part of a content begins that is appended to a text that is not empty.
fn start_at_seam(out: &[u8], content: &str) -> usize
    ensures value { out.now ++ drop result content.now
        ≡ joined_by_white_space (suffix_len is_line_feed out.now) (prefix_len is_line_feed content.now)
        out.now content.now }
    ensures cut { IsCharBoundary content.now result }
{
    if loses_space(out, content.as_bytes()) {
        return 1;
    }
    let ending = trailing_len(out, b'\n');
    let beginning = leading_len(content.as_bytes(), b'\n');
    let kept = beginning.min(2 - ending.min(2));
    beginning - kept
}

/// Appends content to a text, whole or at a seam. If the text is empty, the content is moved; if the content is longer
/// than what there is room for, the text is put in front of it. What is left of the content is of use only for its
/// memory.
pub(crate) fn append_normalized_content(
    out: &mut String,
    content: &mut String,
    whole: bool,
) -> Result<(), AllocError>
    ensures { OnOk result (string_bytes out.new
        ≡ joined_at_seam (string_bytes out.old) (string_bytes content.old) whole) }
{
    if out.is_empty() {
        std::mem::swap(out, content);
        return Ok(());
    }
    let start = if whole {
        0
    } else {
        start_at_seam(out.as_bytes(), content.as_str())
    };
    if content.len() <= out.capacity() {
        return out.push_str(&content[start..]);
    }
    content.replace_range(..start, out.as_str())?;
    std::mem::swap(out, content);
    Ok(())
}
