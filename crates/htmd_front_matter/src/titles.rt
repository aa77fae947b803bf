//! The title of a page.
ghost use Rattle.std.specs.Prelude.{◌≡◌, IfOk, string_bytes};
ghost use Rattle.std.specs.Option.{option_map};
ghost use Rattle.htmd_front_matter.specs.Titles as spec;

use crate::lines::tidied;
use crate::values::{Key, value_in};
use htmd_nodes::Tree;
use std::alloc::{AllocError, Global};

/// The title of a page in one line, if that isn't blank. `Err` means out of memory.
pub fn title_of(alloc: Global, page: &Tree) -> Result<Option<String>, AllocError>
    ensures { IfOk result (λ title. option_map string_bytes title ≡ spec.title_of page.now) }
{
    let Some(value) = value_in(Key::Title, page) else {
        return Ok(None);
    };
    let title = tidied(alloc, value)?;
    if title.is_empty() {
        return Ok(None);
    }
    Ok(Some(title))
}
