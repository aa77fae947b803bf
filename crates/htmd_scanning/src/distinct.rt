//! Whether the names of attributes are distinct.
ghost use Rattle.std.specs.Prelude.{◌≡◌, IfOk};
ghost use Rattle.htmd_lexical.specs.CharacterClasses as classes;
ghost use Rattle.htmd_lexical.specs.Attributes.{attribute_names};
ghost use Rattle.htmd_lexical.specs.Attributes.{pairs_of};

use htmd_lexical::Attribute;
use std::alloc::{AllocError, Global};
use std::collections::BTreeSet;

/// Up to this many names are compared pair by pair.
const FEW: usize = 12;

fn has_name(attributes: &[Attribute], name: &str) -> bool
    ensures { result ≡ classes.is_among (attribute_names (pairs_of attributes.now)) name.now }
{
    for attribute in attributes {
        if name == attribute.name.as_str() {
            return true;
        }
    }
    false
}

fn are_pairwise_distinct(attributes: &[Attribute]) -> bool
    ensures { result ≡ classes.are_distinct (attribute_names (pairs_of attributes.now)) }
{
    let mut rest = attributes;
    while let [first, others @ ..] = rest {
        if has_name(others, first.name.as_str()) {
            return false;
        }
        rest = others;
    }
    true
}

/// Whether no two attributes have the same name. `Err` means out of memory.
#[inline(always)]
pub fn are_distinct(alloc: Global, attributes: &[Attribute]) -> Result<bool, AllocError>
    ensures { IfOk result (λ answer. answer
        ≡ classes.are_distinct (attribute_names (pairs_of attributes.now))) }
{
    if attributes.len() <= FEW {
        return Ok(are_pairwise_distinct(attributes));
    }
    let mut names = BTreeSet::new(alloc);
    let mut rest = attributes;
    while let [others @ .., last] = rest {
        let is_new = names.insert(last.name.as_str())?;
        if !is_new {
            return Ok(false);
        }
        rest = others;
    }
    Ok(true)
}
