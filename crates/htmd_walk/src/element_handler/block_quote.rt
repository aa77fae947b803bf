//! The handler of `blockquote`.

ghost use Rattle.std.specs.Prelude.{◌≡◌, IfOk};
ghost use Rattle.htmd_walk.specs.BlockQuotes.{quote_result};
ghost use Rattle.htmd_walk.specs.Views.{result_view, optional_result};

use super::HandlerResult;
use htmd_markdown::write_quote;
use std::alloc::{AllocError, Global};

/// The content as a block quote.
pub(crate) fn finish(
    alloc: Global,
    content: HandlerResult,
) -> Result<Option<HandlerResult>, AllocError>
    ensures { IfOk result (λ r. optional_result r ≡ quote_result (result_view content)) }
{
    let text = write_quote(alloc, content.content.as_str())?;
    Ok(Some(HandlerResult::from_string(text)))
}
