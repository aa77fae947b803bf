//! The base of a page.
ghost use Rattle.std.specs.Prelude.{◌≡◌, ◌<◌, length, option_copied, IfOk};
ghost use Rattle.htmd_lexical.specs.Attributes.{pairs_of};
ghost use Rattle.htmd_nodes.specs.Items.{children_of};
ghost use Rattle.htmd_nodes.specs.NumberedTrees.{tree_of, forest_of, value_forest};
ghost use Rattle.htmd_nodes.specs.NumberedTrees.{value_at};
ghost use Rattle.htmd_addresses.specs.Bases as bases;

use crate::resolving::url_of;
use htmd_nodes::{Attribute, NodeData, NodeId, Tree, value_of};
use std::alloc::AllocError;
use url::Url;

/// The address of the element, if it is `base`.
fn own_base<'a>(name: &str, attrs: &'a [Attribute]) -> Option<&'a str>
    ensures { option_copied result ≡ bases.own_base name.now (pairs_of attrs.now) }
{
    if name == "base" {
        value_of(attrs, "href")
    } else {
        None
    }
}

/// The address of the first `base` among a node and what is below it.
#[cycle(bases)]
fn base_in(tree: &Tree, node: NodeId) -> Option<&str>
    requires { node < length tree.now }
    ensures { option_copied result ≡ bases.base_in (value_at tree.now node) }
{
    match tree.data(node) {
        NodeData::Document => first_base(tree, node),
        NodeData::Element { name, attrs } => {
            let own = own_base(name.as_str(), attrs.as_slice());
            if own.is_some() {
                return own;
            }
            first_base(tree, node)
        }
        _ => None,
    }
}

#[cycle(bases)]
fn first_base(tree: &Tree, node: NodeId) -> Option<&str>
    requires { node < length tree.now }
    ensures { option_copied result
        ≡ bases.first_base (value_forest (forest_of (tree_of tree.now) (children_of tree.now node))) }
{
    for child in tree.children(node) {
        let found = base_in(tree, *child);
        if found.is_some() {
            return found;
        }
    }
    None
}

/// The address of the base that a page names: that of its first `base` with an address.
pub fn base_address(tree: &Tree) -> Option<&str>
    ensures { option_copied result ≡ bases.base_address tree.now }
{
    base_in(tree, tree.root())
}

/// Whether a page may have this base.
fn is_usable(url: &Url) -> bool
    ensures { result ≡ bases.is_usable url.now }
{
    !(url.scheme() == "data" || url.scheme() == "javascript")
}

/// The URL of the page's first `base` with an address, against the URL of the page; none where there is no such
/// element, or its address can't be resolved or has the scheme `data` or `javascript`. `Err` means out of memory, or a
/// URL of 4 GB.
pub fn base_of(tree: &Tree, url: &Url) -> Result<Option<Url>, AllocError>
    ensures ok { IfOk result (λ base. base ≡ bases.named_base url.now tree.now) }
{
    let Some(address) = base_address(tree) else {
        return Ok(None);
    };
    let Some(base) = url_of(url.join(address))? else {
        return Ok(None);
    };
    if is_usable(&base) {
        Ok(Some(base))
    } else {
        Ok(None)
    }
}
