//! What is read of a page (HTML Standard, 13.2.3.5).
ghost use Rattle.std.specs.Prelude.{◌≡◌, IfOk};
ghost use Rattle.std.specs.Cow.{cow_str_bytes};
ghost use Rattle.std.specs.List.{list_all};
ghost use Rattle.htmd_html5_tokens.specs.Preprocessing as spec;

use htmd_scanning::{behind_mark, with_line_feeds};
use std::alloc::{AllocError, Global};
use std::borrow::CowStr;

/// Whether no byte is CR. All are looked at, so that a processor can compare many at once.
fn has_no_returns(bytes: &[u8]) -> bool
    ensures { result ≡ list_all spec.is_not_return bytes.now }
{
    let mut has_none = true;
    for byte in bytes {
        has_none &= *byte != b'\r';
    }
    has_none
}

/// The text without a byte order mark at its beginning, and with a line feed for each CR LF and each lone CR. It is
/// borrowed if it has no CR. `Err` means out of memory.
#[tactic(auto, using(crate::proofs::PreprocessingLemmas::without_returns))]
pub fn preprocess(alloc: Global, text: &str) -> Result<CowStr<'_>, AllocError>
    ensures { IfOk result (λ t. cow_str_bytes t ≡ spec.preprocessed text.now) }
{
    let marked = behind_mark(text);
    if has_no_returns(marked.as_bytes()) {
        return Ok(CowStr::Borrowed(marked));
    }
    Ok(CowStr::Owned(with_line_feeds(alloc, marked)?))
}
