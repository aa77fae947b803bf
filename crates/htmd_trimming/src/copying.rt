//! Nodes that are added to a tree.
ghost use Rattle.std.specs.Prelude.{◌≡◌, ◌∷◌, [], IfOk, Ok};
ghost use Rattle.std.specs.Option.{option_copied};
ghost use Rattle.htmd_lexical.specs.Attributes.{pair_of, pairs_of};
ghost use Rattle.htmd_nodes.specs.Items.{document_item};
ghost use Rattle.htmd_trimming.specs.Fates as spec;

use htmd_nodes::{Attribute, NodeId, Tree, TreeError};
use std::alloc::{AllocError, Global};

pub(crate) fn new_tree(alloc: Global) -> Result<Tree, AllocError>
    ensures { IfOk result (λ tree. tree ≡ document_item ∷ []) }
{
    match Tree::new(alloc) {
        Ok(tree) => Ok(tree),
        Err(_) => Err(AllocError),
    }
}

/// The node that was added.
pub(crate) fn added(outcome: Result<NodeId, TreeError>) -> Result<NodeId, AllocError>
    ensures { IfOk result (λ id. outcome ≡ Ok id) }
{
    match outcome {
        Ok(id) => Ok(id),
        Err(_) => Err(AllocError),
    }
}

/// Whether an attribute has the name of those that are lost.
fn is_lost(lost: Option<&str>, attribute: &Attribute) -> bool
    ensures { result ≡ spec.is_lost (option_copied lost.entry) (pair_of attribute.now) }
{
    match lost {
        Some(name) => attribute.name.as_str() == name,
        None => false,
    }
}

/// The attributes of an element, without those of this name.
pub(crate) fn attributes_without(
    alloc: Global,
    lost: Option<&str>,
    attrs: &[Attribute],
) -> Result<Vec<Attribute>, AllocError>
    ensures { IfOk result (λ copies. pairs_of copies.items
        ≡ spec.without (option_copied lost.entry) (pairs_of attrs.now)) }
{
    let mut copies = Vec::with_capacity(alloc, attrs.len())?;
    for attribute in attrs {
        if !is_lost(lost, attribute) {
            let name = String::from_str(alloc, attribute.name.as_str())?;
            let value = String::from_str(alloc, attribute.value.as_str())?;
            copies.push(Attribute { name, value })?;
        }
    }
    Ok(copies)
}

/// The attributes of a link of signs, whose class says in place of its address that it is a permalink.
#[tactic(auto, using(crate::proofs::FatesLemmas::pairs_push))]
pub(crate) fn sign_attributes(
    alloc: Global,
    attrs: &[Attribute],
) -> Result<Vec<Attribute>, AllocError>
    ensures { IfOk result (λ copies. pairs_of copies.items ≡ spec.sign_attributes (pairs_of attrs.now)) }
{
    let others = attributes_without(alloc, Some("href"), attrs)?;
    let mut copies = attributes_without(alloc, Some("class"), others.as_slice())?;
    let name = String::from_str(alloc, "class")?;
    let value = String::from_str(alloc, "headerlink")?;
    copies.push(Attribute { name, value })?;
    Ok(copies)
}
