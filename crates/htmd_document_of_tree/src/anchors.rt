//! Anchors: the ids that links lead to, before what is seen there.
ghost use Rattle.std.specs.Prelude.{◌≡◌, IfOk, OnOk, map};
ghost use Rattle.htmd_shown.specs.SimpleViews.{simples_of};
ghost use Rattle.htmd_document_of_tree.specs.Anchors as spec;
ghost use Rattle.htmd_document_of_tree.specs.Leadings.{all_leadings};
ghost use Rattle.htmd_document_of_tree.specs.TargetViews.{target_of};

use crate::leadings::{Leadings, lead_to_part};
use crate::placing::Placing;
use crate::targets::{Target, targets_of};
use htmd_nodes::NodeId;
use htmd_shown::Simple;
use std::alloc::{AllocError, Global};
use std::collections::VecDeque;

/// Which places a document has that links lead to.
#[derive(Debug, Clone, Copy, PartialEq, Eq, Default)]
pub enum Anchors {
    /// Those that links of the page lead to.
    #[default]
    Linked,
    /// All that links can lead to: each `id`, and each `name` of an `a`.
    All,
    None,
}

/// Puts anchors before the first thing to see from each element on that links lead to; what nothing follows stands at
/// the end. `Err` means out of memory.
pub(crate) fn put_anchors(
    alloc: Global,
    root: NodeId,
    anchors: Anchors,
    is_rich: bool,
    trees: &mut Vec<Simple>,
) -> Result<(), AllocError>
    requires { root ≡ 0 }
    ensures { OnOk result (simples_of trees.new.items ≡ spec.anchored anchors is_rich (simples_of trees.old.items)) }
{
    let targets = targets_by(alloc, anchors, is_rich, trees)?;
    if targets.is_empty() {
        return Ok(());
    }
    Placing::new(alloc, root, targets).place(trees)
}

/// The targets that have an anchor.
fn targets_by(
    alloc: Global,
    anchors: Anchors,
    is_rich: bool,
    trees: &[Simple],
) -> Result<VecDeque<Target>, AllocError>
    ensures { IfOk result (λ found. map target_of found.items
        ≡ spec.targets_by anchors is_rich (simples_of trees.now)) }
{
    match anchors {
        Anchors::None => Ok(VecDeque::new(alloc)),
        Anchors::All => targets_of(alloc, None, trees),
        Anchors::Linked => linked_targets(alloc, is_rich, trees),
    }
}

/// The targets that links lead to, and not only from the heading that they stand in.
fn linked_targets(
    alloc: Global,
    is_rich: bool,
    trees: &[Simple],
) -> Result<VecDeque<Target>, AllocError>
    ensures { IfOk result (λ found. map target_of found.items
        ≡ spec.linked_targets (all_leadings is_rich (simples_of trees.now)) (simples_of trees.now)) }
{
    if !lead_to_part(trees) {
        return Ok(VecDeque::new(alloc));
    }
    let leadings = Leadings::of(alloc, is_rich, trees)?;
    if leadings.is_empty() {
        return Ok(VecDeque::new(alloc));
    }
    targets_of(alloc, Some(&leadings), trees)
}
