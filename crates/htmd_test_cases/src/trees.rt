//! Trees that are written as outlines.
use crate::faults::LineFault;
use htmd::{Attribute, NodeData, NodeId, Tree};
use std::alloc::{AllocError, Global};

/// The tree of an outline: its nodes in order, with a bar between each two. A node has before it a full stop for each
/// node above it but the Document, a text begins with a quotation mark, and an element's name is followed by its
/// attributes, as `NAME=VALUE` after a space each.
pub(crate) fn tree_of(alloc: Global, outline: &str) -> Result<Tree, LineFault> {
    let Ok(mut tree) = Tree::new(alloc) else {
        return Err(LineFault::Memory);
    };
    let mut open = Vec::new(alloc);
    open.push(tree.root())?;
    for node in outline.split('|') {
        let written = node.trim_start_matches('.');
        let level = node.len() - written.len();
        let Some(parent) = open.get(level).copied() else {
            return Err(LineFault::NoTree);
        };
        let child = add_node(alloc, &mut tree, parent, written)?;
        open.truncate(level.saturating_add(1));
        open.push(child)?;
    }
    Ok(tree)
}

/// Adds the node that is written like this.
fn add_node(
    alloc: Global,
    tree: &mut Tree,
    parent: NodeId,
    written: &str,
) -> Result<NodeId, LineFault> {
    if !tree.contains(parent) {
        return Err(LineFault::NoTree);
    }
    match tree.data(parent) {
        NodeData::Document => {}
        NodeData::Element { .. } => {}
        _ => return Err(LineFault::NoTree),
    }
    let added = if let Some(text) = written.strip_prefix('"') {
        tree.add_text(parent, text)
    } else {
        let (name, values) = written.split_once(' ').unwrap_or((written, ""));
        tree.add_element(parent, name, attributes_of(alloc, values)?)
    };
    match added {
        Ok(node) => Ok(node),
        Err(_) => Err(LineFault::NoTree),
    }
}

/// The attributes that are written with a space between each two.
fn attributes_of(alloc: Global, values: &str) -> Result<Vec<Attribute>, AllocError> {
    let mut attributes = Vec::new(alloc);
    for word in values.split(' ') {
        if word.is_empty() {
            continue;
        }
        let (name, value) = word.split_once('=').unwrap_or((word, ""));
        attributes.push(Attribute {
            name: String::from_str(alloc, name)?,
            value: String::from_str(alloc, value)?,
        })?;
    }
    Ok(attributes)
}
