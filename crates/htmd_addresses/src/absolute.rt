//! A page with absolute addresses.
ghost use Rattle.std.specs.Prelude.{◌≡◌, IfOk};
ghost use Rattle.htmd_addresses.specs.Addresses as spec;

use crate::attributes::{Resolve, attributes_of};
use crate::resolving::resolved;
use htmd_nodes::{Attribute, Tree};
use htmd_selectors::{Rewrite, rewritten};
use std::alloc::{AllocError, Global};
use url::Url;

/// Addresses are resolved against a base.
#[derive(Drop)]
struct Absolute<'a> {
    base: &'a Url,
}

impl Resolve for Absolute<'_> {
    ghost use Rattle.htmd_addresses.specs.Addresses as spec;

    ghost to = { λ absolute. spec.resolved absolute.base.now };

    fn resolved(&self, alloc: Global, address: &str) -> Result<String, AllocError> {
        resolved(alloc, self.base, address)
    }
}

impl Rewrite for Absolute<'_> {
    ghost use Rattle.htmd_addresses.specs.AddressAttributes.{attributes_with};
    ghost use Rattle.htmd_addresses.specs.Addresses as spec;

    ghost rule = { λ absolute. attributes_with (spec.resolved absolute.base.now) };

    fn attributes(
        &self,
        alloc: Global,
        name: &str,
        attrs: &[Attribute],
    ) -> Result<Vec<Attribute>, AllocError> {
        attributes_of(alloc, self, name, attrs)
    }
}

/// The page with the addresses that its attributes hold resolved against the base: those of links, and of what is shown
/// in it, also of images that are loaded late, and each in a `srcset`. One that is a fragment alone, as `#part`, leads
/// into the page itself and stays, and so does one that can't be resolved.
/// `Err` means out of memory, or a URL of 4 GB.
pub fn make_absolute(alloc: Global, tree: &Tree, base: &Url) -> Result<Tree, AllocError>
    ensures ok { IfOk result (λ page. page ≡ spec.absolute_page base.now tree.now) }
{
    rewritten(alloc, tree, &Absolute { base })
}
