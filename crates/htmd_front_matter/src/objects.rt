//! The front matter of a page as a JSON object.
ghost use Rattle.std.specs.Prelude.{◌≡◌, ◌++◌, IfOk, OnOk, map, string_bytes};
ghost use Rattle.htmd_nodes.specs.NumberedTrees.{value_at};
ghost use Rattle.htmd_front_matter.specs.Values.{value_in};
ghost use Rattle.htmd_front_matter.specs.Objects as spec;

use crate::lines::{KEYS, written};
use crate::values::{Key, name_of, value_in};
use htmd_nodes::Tree;
use std::alloc::{AllocError, Global};

/// A member of the object.
fn member(alloc: Global, key: Key, value: &str) -> Result<String, AllocError>
    ensures { IfOk result (λ s. string_bytes s ≡ spec.member key value.now) }
{
    let value = written(alloc, value)?;
    let mut member = String::from_str(alloc, "\"")?;
    member.push_str(name_of(key))?;
    member.push_str("\":")?;
    member.push_str(value.as_str())?;
    Ok(member)
}

/// Appends what is said under a key, if it is said.
fn push_member(
    alloc: Global,
    members: &mut Vec<String>,
    tree: &Tree,
    key: Key,
) -> Result<(), AllocError>
    ensures { OnOk result (map string_bytes members.new.items
        ≡ map string_bytes members.old.items ++ spec.member_if key (value_in key (value_at tree.now 0))) }
{
    if let Some(value) = value_in(key, tree) {
        members.push(member(alloc, key, value)?)?;
    }
    Ok(())
}

/// The members of what is said.
fn members_of(alloc: Global, tree: &Tree) -> Result<Vec<String>, AllocError>
    ensures { IfOk result (λ members. map string_bytes members.items ≡ spec.members tree.now) }
{
    let mut members = Vec::new(alloc);
    for key in &KEYS {
        push_member(alloc, &mut members, tree, *key)?;
    }
    Ok(members)
}

/// What the head of a page says about it, as one JSON object without spaces: the members are those of `front_matter`,
/// in the same order. It is `{}` if nothing is said. `Err` means out of memory.
pub fn front_object(alloc: Global, tree: &Tree) -> Result<String, AllocError>
    ensures { IfOk result (λ s. string_bytes s ≡ spec.front_object tree.now) }
{
    let members = members_of(alloc, tree)?.join(alloc, ",")?;
    let mut object = String::from_str(alloc, "{")?;
    object.push_str(members.as_str())?;
    object.push_str("}")?;
    Ok(object)
}
