//! Code spans (CommonMark 0.31.2, 6.1).
ghost use Rattle.std.specs.Prelude.{◌≡◌, ◌++◌, OnOk, string_bytes};
ghost use Rattle.htmd_markdown.specs.CodeSpans.{space_if, meets_delimiter};
ghost use Rattle.htmd_commonmark.specs.CodeSpans as spec;

use htmd_markdown::smallest_unused_len;
use htmd_text::push_repeated;
use std::alloc::AllocError;

/// Appends the code between backquotes, with a space inside of them where a backquote would meet them.
pub(crate) fn push_code_span(out: &mut String, code: &str) -> Result<(), AllocError>
    ensures { OnOk result (string_bytes out.new ≡ string_bytes out.old ++ spec.code_span code.now) }
{
    let len = smallest_unused_len(code);
    let gap = gap(code);
    push_repeated(out, '`', len)?;
    out.push_str(gap)?;
    out.push_str(code)?;
    out.push_str(gap)?;
    push_repeated(out, '`', len)
}

/// The space that is due inside of the backquotes.
fn gap(code: &str) -> &'static str
    ensures { result.now ≡ space_if (meets_delimiter code.now) }
{
    if code.starts_with('`') || code.ends_with('`') {
        " "
    } else {
        ""
    }
}
