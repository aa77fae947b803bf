//! A link is around its first pieces alone.
ghost use Rattle.std.specs.Prelude.{◌≡◌, IfOk, OnOk};
ghost use Rattle.htmd_shown.specs.Kinds.{content_of};
ghost use Rattle.htmd_shown.specs.Pieces as counts;
ghost use Rattle.htmd_shown.specs.SimpleViews.{simple_of, simples_of};
ghost use Rattle.htmd_document_of_tree.specs.FirstPieces as spec;
ghost use Rattle.htmd_document_of_tree.specs.PieceViews.{pieces_of};

use crate::inserted::inserted;
use crate::pieces::{Pieces, is_leaf, is_unseen};
use htmd_nodes::NodeId;
use htmd_shown::simple::role_in;
use htmd_shown::{Role, Simple};
use std::alloc::{AllocError, Global};
use std::mem;

/// A link is written around so many pieces at most.
pub(crate) const MOST_LINKED: u32 = 64;

/// Takes links away from what comes after their last pieces. `Err` means out of memory.
#[cycle(pieced)]
pub(crate) fn piece(alloc: Global, root: NodeId, trees: &mut [Simple]) -> Result<(), AllocError>
    requires { root ≡ 0 }
    ensures { OnOk result (simples_of trees.new ≡ spec.pieced_all (simples_of trees.old)) }
{
    for tree in trees.iter_mut() {
        piece_one(alloc, root, tree)?;
    }
    Ok(())
}

/// The same of a node.
#[cycle(pieced)]
fn piece_one(alloc: Global, root: NodeId, tree: &mut Simple) -> Result<(), AllocError>
    requires { root ≡ 0 }
    ensures { OnOk result (simple_of tree.new ≡ spec.pieced (simple_of tree.old)) }
{
    if is_link(tree) {
        cut_content(alloc, root, Pieces::NONE, tree)?;
        return Ok(());
    }
    piece_content(alloc, root, tree)
}

/// The same of what is in a node.
#[cycle(pieced)]
fn piece_content(alloc: Global, root: NodeId, tree: &mut Simple) -> Result<(), AllocError>
    requires { root ≡ 0 }
    ensures { OnOk result (simple_of tree.new
        ≡ spec.with_content (simple_of tree.old) (spec.pieced_all (content_of (simple_of tree.old)))) }
{
    match tree {
        Simple::Element { content, .. } => piece(alloc, root, content),
        Simple::Text(_) => Ok(()),
        Simple::Image { .. } => Ok(()),
        Simple::Formula { .. } => Ok(()),
        Simple::Embedded(_) => Ok(()),
        Simple::Anchor(_) => Ok(()),
    }
}

/// Whether a node is a link.
fn is_link(tree: &Simple) -> bool
    ensures { result ≡ spec.is_link_element (simple_of tree.now) }
{
    match tree {
        Simple::Element { role, .. } => role.is_link(),
        Simple::Text(_) => false,
        Simple::Image { .. } => false,
        Simple::Formula { .. } => false,
        Simple::Embedded(_) => false,
        Simple::Anchor(_) => false,
    }
}

/// Takes the link away from what comes after its last piece; the pieces so far, and after these nodes.
#[cycle(cut)]
fn cut(
    alloc: Global,
    root: NodeId,
    pieces: Pieces,
    trees: &mut [Simple],
) -> Result<Pieces, AllocError>
    requires { root ≡ 0 }
    ensures pieces { IfOk result (λ p. pieces_of p
        ≡ counts.pieces_after_all (pieces_of pieces) (simples_of trees.old)) }
    ensures trees { OnOk result (simples_of trees.new ≡ spec.cut_all (pieces_of pieces) (simples_of trees.old)) }
{
    let mut pieces = pieces;
    for tree in trees.iter_mut() {
        pieces = cut_one(alloc, root, pieces, tree)?;
    }
    Ok(pieces)
}

/// The same of a node.
#[cycle(cut)]
fn cut_one(
    alloc: Global,
    root: NodeId,
    pieces: Pieces,
    tree: &mut Simple,
) -> Result<Pieces, AllocError>
    requires { root ≡ 0 }
    ensures pieces { IfOk result (λ p. pieces_of p ≡ counts.pieces_after (pieces_of pieces) (simple_of tree.old)) }
    ensures tree { OnOk result (simple_of tree.new ≡ spec.cut (pieces_of pieces) (simple_of tree.old)) }
{
    if is_leaf(tree) {
        return cut_leaf(alloc, root, pieces, tree);
    }
    let Some(role) = role_in(tree) else {
        return Ok(pieces);
    };
    if role.is_line_break() {
        return Ok(pieces.with_break());
    }
    let after = cut_content(alloc, root, pieces.at_edge(role), tree)?;
    Ok(after.at_edge(role))
}

/// The same of what is in a node.
#[cycle(cut)]
fn cut_content(
    alloc: Global,
    root: NodeId,
    pieces: Pieces,
    tree: &mut Simple,
) -> Result<Pieces, AllocError>
    requires { root ≡ 0 }
    ensures pieces { IfOk result (λ p. pieces_of p
        ≡ counts.pieces_after_all (pieces_of pieces) (content_of (simple_of tree.old))) }
    ensures tree { OnOk result (simple_of tree.new ≡ spec.with_content (simple_of tree.old)
        (spec.cut_all (pieces_of pieces) (content_of (simple_of tree.old)))) }
{
    match tree {
        Simple::Element { content, .. } => cut(alloc, root, pieces, content),
        Simple::Text(_) => Ok(pieces),
        Simple::Image { .. } => Ok(pieces),
        Simple::Formula { .. } => Ok(pieces),
        Simple::Embedded(_) => Ok(pieces),
        Simple::Anchor(_) => Ok(pieces),
    }
}

/// Takes the link away from a leaf that comes after its last piece.
fn cut_leaf(
    alloc: Global,
    root: NodeId,
    pieces: Pieces,
    tree: &mut Simple,
) -> Result<Pieces, AllocError>
    requires { root ≡ 0 }
    ensures pieces { IfOk result (λ p. pieces_of p ≡ counts.after_leaf (pieces_of pieces) (simple_of tree.old)) }
    ensures tree { OnOk result (simple_of tree.new ≡ spec.cut_leaf (pieces_of pieces) (simple_of tree.old)) }
{
    let after = pieces.after_leaf(tree);
    if !is_unseen(tree) && after.count > MOST_LINKED {
        unlink(alloc, root, tree)?;
    }
    Ok(after)
}

/// Puts a leaf into an element that takes the link away.
fn unlink(alloc: Global, root: NodeId, tree: &mut Simple) -> Result<(), AllocError>
    requires { root ≡ 0 }
    ensures { OnOk result (simple_of tree.new ≡ spec.unlinked (simple_of tree.old)) }
{
    let mut content = Vec::with_capacity(alloc, 1)?;
    content.push(mem::replace(tree, Simple::Anchor(String::new(alloc))))?;
    *tree = inserted(root, Role::Unlinked, content);
    Ok(())
}
