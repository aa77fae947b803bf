//! The call.
ghost use Rattle.std.specs.Prelude.{◌≡◌, IfOk};
ghost use Rattle.htmd_commonmark_reading.specs.Reading as spec;
ghost use Rattle.htmd_parts.specs.PartViews.{all_parts_of};
ghost use Rattle.htmd_parts.specs.Parts.{parts_of};

use crate::block_parts::block_parts;
use crate::blocks::closed_text;
use crate::lines::without_null;
use crate::references::References;
use htmd_parts::Part;
use std::alloc::{AllocError, Global};

/// A text may have so many bytes; there is no memory for the parts of more.
const MAX_LEN: usize = 1 << 60;

/// The parts of what a text says. `Err` means out of memory.
pub fn read_markdown(alloc: Global, text: &str) -> Result<Vec<Part>, AllocError>
    ensures { IfOk result (λ parts. all_parts_of parts.items ≡ parts_of (spec.read text.now)) }
{
    let whole = without_null(alloc, text)?;
    if whole.len() > MAX_LEN {
        return Err(AllocError);
    }
    let document = closed_text(alloc, whole.as_str())?;
    let references = References::new(alloc, document.definitions)?;
    block_parts(alloc, document.closed, &references)
}
