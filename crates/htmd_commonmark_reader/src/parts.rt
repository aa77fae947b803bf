//! One more part.
ghost use Rattle.std.specs.Prelude.{◌≡◌, ◌++◌, OnOk};
ghost use Rattle.htmd_parts.specs.PartViews.{part_of, all_parts_of};

use htmd_parts::Part;
use std::alloc::AllocError;

pub(crate) fn push_part(parts: &mut Vec<Part>, part: Part) -> Result<(), AllocError>
    ensures { OnOk result (all_parts_of parts.new.items ≡ all_parts_of parts.old.items ++ part_of part) }
{
    Ok(parts.push(part)?)
}
