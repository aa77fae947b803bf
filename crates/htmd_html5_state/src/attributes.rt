//! Attributes of elements: copies, those that are missing, and whether two elements have the same.
ghost use Rattle.std.specs.Prelude.{◌≡◌, IfOk, OnOk, option_map};
ghost use Rattle.std.specs.List.{list_all};
ghost use Rattle.htmd_lexical.specs.Attributes.{pair_of, pairs_of};
ghost use Rattle.htmd_html5_state.specs.Nodes as spec;

use htmd_lexical::Attribute;
use std::alloc::{AllocError, Global};

fn copy(attribute: &Attribute) -> Result<Attribute, AllocError>
    ensures { IfOk result (λ a. pair_of a ≡ pair_of attribute.now) }
{
    Ok(Attribute {
        name: attribute.name.clone()?,
        value: attribute.value.clone()?,
    })
}

pub(crate) fn copy_all(
    alloc: Global,
    attributes: &[Attribute],
) -> Result<Vec<Attribute>, AllocError>
    ensures { IfOk result (λ copies. pairs_of copies.items ≡ pairs_of attributes.now) }
{
    let mut copies = Vec::with_capacity(alloc, attributes.len())?;
    for attribute in attributes {
        copies.push(copy(attribute)?)?;
    }
    Ok(copies)
}

/// Whether an attribute has this name.
fn has_attribute(attributes: &[Attribute], name: &str) -> bool
    ensures { result ≡ spec.has_attribute name.now (pairs_of attributes.now) }
{
    for attribute in attributes {
        if attribute.name.as_str() == name {
            return true;
        }
    }
    false
}

/// The value of the first attribute with this name.
pub(crate) fn value<'a>(attributes: &'a [Attribute], name: &str) -> Option<&'a str>
    ensures { option_map (λ v. v.now) result ≡ spec.value_of name.now (pairs_of attributes.now) }
{
    for attribute in attributes {
        if attribute.name.as_str() == name {
            return Some(attribute.value.as_str());
        }
    }
    None
}

/// Adds those whose name no attribute has.
pub(crate) fn add_missing(
    attributes: &mut Vec<Attribute>,
    more: Vec<Attribute>,
) -> Result<(), AllocError>
    ensures { OnOk result (pairs_of attributes.new.items
        ≡ spec.with_missing (pairs_of attributes.old.items) (pairs_of more.items)) }
{
    for attribute in more {
        if !has_attribute(attributes, attribute.name.as_str()) {
            attributes.push(attribute)?;
        }
    }
    Ok(())
}

/// Whether an attribute has this name and value.
fn has_pair(attributes: &[Attribute], wanted: &Attribute) -> bool
    ensures { result ≡ spec.has_pair (pairs_of attributes.now) (pair_of wanted.now) }
{
    for attribute in attributes {
        if wanted.name.as_str() == attribute.name.as_str()
            && wanted.value.as_str() == attribute.value.as_str()
        {
            return true;
        }
    }
    false
}

fn has_all(attributes: &[Attribute], wanted: &[Attribute]) -> bool
    ensures { result ≡ list_all (spec.has_pair (pairs_of attributes.now)) (pairs_of wanted.now) }
{
    for attribute in wanted {
        if !has_pair(attributes, attribute) {
            return false;
        }
    }
    true
}

/// Whether they are the same in any order.
pub(crate) fn are_same(these: &[Attribute], those: &[Attribute]) -> bool
    ensures { result ≡ spec.same_attributes (pairs_of these.now) (pairs_of those.now) }
{
    these.len() == those.len() && has_all(those, these)
}
