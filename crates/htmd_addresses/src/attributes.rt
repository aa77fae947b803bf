//! The attributes that hold addresses, and those with other addresses.
ghost use Rattle.std.specs.Prelude.{◌≡◌, ℕ, List, IfOk, string_bytes};
ghost use Rattle.htmd_lexical.specs.Attributes.{pair_of, pairs_of};
ghost use Rattle.htmd_addresses.specs.AddressAttributes as spec;
ghost use Rattle.htmd_addresses.specs.AddressSets.{Resolution};

use crate::sets::set_of;
use htmd_nodes::Attribute;
use std::alloc::{AllocError, Global};

/// What addresses become.
pub(crate) trait Resolve: Drop {
    /// What an address becomes.
    ghost to: { Self → Resolution };

    /// `Err` means out of memory, or an address of 4 GB.
    fn resolved(&self, alloc: Global, address: &str) -> Result<String, AllocError>
        ensures { IfOk result (λ s. string_bytes s ≡ to self.now address.now) };
}

/// Whether an element can be an image.
fn is_image(element: &str) -> bool
    ensures { result ≡ spec.is_image element.now }
{
    element == "img" || element == "input"
}

/// Whether an attribute keeps the address of an image until that is loaded.
fn is_late(name: &str) -> bool
    ensures { result ≡ spec.is_late name.now }
{
    name == "data-src" || name == "data-original" || name == "data-lazy-src"
}

/// Whether an attribute of an element is the address of a file.
fn is_of_file(element: &str, name: &str) -> bool
    ensures { result ≡ spec.is_of_file element.now name.now }
{
    name == "src" || is_image(element) && is_late(name) || element == "object" && name == "data"
}

/// Whether an attribute of an element is the address of a link; that of a `base` is none.
fn is_of_link(element: &str, name: &str) -> bool
    ensures { result ≡ spec.is_of_link element.now name.now }
{
    name == "href" && element != "base"
}

/// Whether the value of an attribute is an address; an empty one leads to the page itself, and to no file.
fn is_address(element: &str, attribute: &Attribute) -> bool
    ensures { result ≡ spec.is_address element.now (pair_of attribute.now) }
{
    let name = attribute.name.as_str();
    is_of_link(element, name) || is_of_file(element, name) && !attribute.value.is_empty()
}

/// Whether an attribute of an element is a set of addresses.
fn is_set(element: &str, name: &str) -> bool
    ensures { result ≡ spec.is_set element.now name.now }
{
    (is_image(element) || element == "source") && (name == "srcset" || name == "data-srcset")
}

/// The value of an attribute of an element, with what addresses become.
fn value_of<R: Resolve>(
    alloc: Global,
    resolve: &R,
    element: &str,
    attribute: &Attribute,
) -> Result<String, AllocError>
    ensures { IfOk result (λ s. string_bytes s
        ≡ spec.value_with (R.to resolve.now) element.now (pair_of attribute.now)) }
{
    let value = attribute.value.as_str();
    if is_address(element, attribute) {
        return resolve.resolved(alloc, value);
    }
    if is_set(element, attribute.name.as_str()) {
        return set_of(alloc, resolve, value);
    }
    String::from_str(alloc, value)
}

/// A copy of the attributes of an element, with what addresses become.
pub(crate) fn attributes_of<R: Resolve>(
    alloc: Global,
    resolve: &R,
    element: &str,
    attrs: &[Attribute],
) -> Result<Vec<Attribute>, AllocError>
    ensures { IfOk result (λ copies. pairs_of copies.items
        ≡ spec.attributes_with (R.to resolve.now) element.now (pairs_of attrs.now)) }
{
    let mut copies = Vec::with_capacity(alloc, attrs.len())?;
    for attribute in attrs {
        let name = String::from_str(alloc, attribute.name.as_str())?;
        let value = value_of(alloc, resolve, element, attribute)?;
        copies.push(Attribute { name, value })?;
    }
    Ok(copies)
}
