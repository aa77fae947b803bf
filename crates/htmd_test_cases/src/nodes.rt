//! The text form of a tree: a row for each node and each attribute, as in html5lib's tests.
use htmd_tree::{Attribute, NodeData, NodeId, Tree};
use std::alloc::{AllocError, Global};

/// The rows of all nodes but the Document, in document order, with a line feed between each two. A row begins with a
/// bar and a space, and two more spaces for each node above it but the Document.
pub(crate) fn rows_of(alloc: Global, tree: &Tree) -> Result<String, AllocError> {
    let mut rows = String::new(alloc);
    let mut waiting = Vec::new(alloc);
    push_children(&mut waiting, tree, tree.root())?;
    for _ in 0..u64::MAX {
        let Some(node) = waiting.pop() else {
            break;
        };
        push_node(&mut rows, tree, node)?;
        push_children(&mut waiting, tree, node)?;
    }
    Ok(rows)
}

/// Adds the children of a node, the first one last.
fn push_children(waiting: &mut Vec<NodeId>, tree: &Tree, node: NodeId) -> Result<(), AllocError> {
    if tree.contains(node) {
        for child in tree.children(node).iter().rev() {
            waiting.push(*child)?;
        }
    }
    Ok(())
}

/// Appends the rows of a node.
fn push_node(rows: &mut String, tree: &Tree, node: NodeId) -> Result<(), AllocError> {
    if !tree.contains(node) {
        return Ok(());
    }
    let depth = tree.depth(node);
    match tree.data(node) {
        NodeData::Document => Ok(()),
        NodeData::Doctype => push_row(rows, depth, &["<!DOCTYPE>"]),
        NodeData::Text(text) => push_row(rows, depth, &["\"", text.as_str(), "\""]),
        NodeData::Comment(text) => push_row(rows, depth, &["<!-- ", text.as_str(), " -->"]),
        NodeData::Element { name, attrs } => {
            push_row(rows, depth, &["<", name.as_str(), ">"])?;
            push_attributes(rows, depth.saturating_add(1), attrs.as_slice())
        }
    }
}

/// Appends a row for each attribute.
fn push_attributes(
    rows: &mut String,
    depth: usize,
    attributes: &[Attribute],
) -> Result<(), AllocError> {
    for attribute in attributes {
        push_row(
            rows,
            depth,
            &[&attribute.name, "=\"", &attribute.value, "\""],
        )?;
    }
    Ok(())
}

/// Appends a row.
fn push_row(rows: &mut String, depth: usize, parts: &[&str]) -> Result<(), AllocError> {
    if !rows.is_empty() {
        rows.push('\n')?;
    }
    rows.push_str("| ")?;
    for _ in 1..depth {
        rows.push_str("  ")?;
    }
    for part in parts {
        rows.push_str(part)?;
    }
    Ok(())
}
