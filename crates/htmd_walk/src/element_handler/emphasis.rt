//! The handlers of `strong`, `b`, `em` and `i`.

ghost use Rattle.std.specs.Prelude.{◌≡◌, IfOk};
ghost use Rattle.htmd_walk.specs.Emphases.{emphasis_result};
ghost use Rattle.htmd_walk.specs.Views.{result_view, optional_result};

use super::HandlerResult;
use htmd_markdown::{Emphasis, write_emphasis};
use std::alloc::AllocError;

/// The content between marks; nothing if it is only white space.
pub(crate) fn finish(
    emphasis: Emphasis,
    content: HandlerResult,
) -> Result<Option<HandlerResult>, AllocError>
    ensures { IfOk result (λ r. optional_result r ≡ emphasis_result emphasis (result_view content)) }
{
    match write_emphasis(emphasis, content.content)? {
        Some(text) => Ok(Some(HandlerResult::from_string(text))),
        None => Ok(None),
    }
}
