//! Which attributes count: the first of those with one name.
ghost use Rattle.std.specs.Prelude.{◌≡◌, [], IfOk};
ghost use Rattle.htmd_lexical.specs.Attributes.{pairs_of};
ghost use Rattle.htmd_html5_tokens.specs.Firsts.{are_first};

use htmd_lexical::Attribute;
use std::alloc::{AllocError, Global};
use std::collections::BTreeSet;

/// For each attribute, whether it is the first with its name. `Err` means out of memory.
pub(crate) fn first_marks(alloc: Global, attributes: &[Attribute]) -> Result<Vec<bool>, AllocError>
    ensures { IfOk result (λ marks. marks.items ≡ are_first [] (pairs_of attributes.now)) }
{
    let mut names = BTreeSet::new(alloc);
    let mut marks = Vec::with_capacity(alloc, attributes.len())?;
    for attribute in attributes {
        let is_new = names.insert(attribute.name.as_str())?;
        marks.push(is_new)?;
    }
    Ok(marks)
}
