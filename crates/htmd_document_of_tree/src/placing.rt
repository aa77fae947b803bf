//! Anchors before what is seen there.
ghost use Rattle.std.specs.Prelude.{◌≡◌, ◌<◌, ◌++◌, [], ◌∷◌, true, if◌then◌else◌, IfOk, OnOk, Some, None};
ghost use Rattle.std.specs.Prelude.{MatchOption, length, map};
ghost use Rattle.std.specs.Prelude.{string_bytes};
ghost use Rattle.htmd_shown.specs.Kinds.{content_of};
ghost use Rattle.htmd_shown.specs.SimpleTrees as simple;
ghost use Rattle.htmd_shown.specs.SimpleViews.{simple_of, simples_of};
ghost use Rattle.htmd_document_of_tree.specs.Anchors as spec;
ghost use Rattle.htmd_document_of_tree.specs.FirstPieces.{with_content};
ghost use Rattle.htmd_document_of_tree.specs.TargetViews.{begins_here, ids_here, placing_of, target_of, targets_here};

use crate::inserted::inserted;
use crate::seen::{leaf_shows, one_more};
use crate::targets::Target;
use htmd_nodes::NodeId;
use htmd_shown::{Role, Simple};
use std::alloc::{AllocError, Global};
use std::collections::VecDeque;
use std::mem;

/// Anchors that are put into nodes.
#[derive(Drop)]
pub(crate) struct Placing {
    alloc: Global,
    root: NodeId,
    /// How much was to see before.
    seen: usize,
    /// The targets that have no anchor yet.
    targets: VecDeque<Target>,
}

impl Placing {
    /// Nothing is seen yet, and these targets have no anchor.
    pub(crate) fn new(alloc: Global, root: NodeId, targets: VecDeque<Target>) -> Placing
        ensures root { result.root ≡ root }
        ensures placing { placing_of result ≡ record { seen = 0; targets = map target_of targets.items } }
    {
        Placing {
            alloc,
            root,
            seen: 0,
            targets,
        }
    }

    /// Puts the anchors into these nodes, and those that nothing follows at the end.
    pub(crate) fn place(mut self, trees: &mut Vec<Simple>) -> Result<(), AllocError>
        requires { self.root ≡ 0 }
        ensures { OnOk result (simples_of trees.new.items
            ≡ spec.with_targets (placing_of self) (simples_of trees.old.items)) }
    {
        self.among(trees)?;
        let anchors = self.last_anchors()?;
        push_apart(self.root, anchors, trees)
    }

    /// Puts the anchors into nodes.
    #[cycle(placing)]
    fn among(&mut self, trees: &mut [Simple]) -> Result<(), AllocError>
        requires { self.old.root ≡ 0 }
        ensures root { self.new.root ≡ self.old.root }
        ensures placing { OnOk result (placing_of self.new
            ≡ spec.placing_after_all (placing_of self.old) (simples_of trees.old)) }
        ensures trees { OnOk result (simples_of trees.new
            ≡ spec.all_placed (placing_of self.old) (simples_of trees.old)) }
    {
        for tree in trees.iter_mut() {
            self.node(tree)?;
        }
        Ok(())
    }

    /// Puts the anchors into a node.
    #[cycle(placing)]
    fn node(&mut self, tree: &mut Simple) -> Result<(), AllocError>
        requires { self.old.root ≡ 0 }
        ensures root { self.new.root ≡ self.old.root }
        ensures placing { OnOk result (placing_of self.new
            ≡ spec.placing_after (placing_of self.old) (simple_of tree.old)) }
        ensures tree { OnOk result (simple_of tree.new ≡ spec.placed (placing_of self.old) (simple_of tree.old)) }
    {
        match leaf_shows(tree) {
            Some(true) => self.leaf(tree),
            Some(false) => Ok(()),
            None => self.inside(tree),
        }
    }

    /// Puts the anchors into what is in a node.
    #[cycle(placing)]
    fn inside(&mut self, tree: &mut Simple) -> Result<(), AllocError>
        requires { self.old.root ≡ 0 }
        ensures root { self.new.root ≡ self.old.root }
        ensures placing { OnOk result (placing_of self.new
            ≡ spec.placing_after_all (placing_of self.old) (content_of (simple_of tree.old))) }
        ensures tree { OnOk result (simple_of tree.new ≡ with_content (simple_of tree.old)
            (spec.all_placed (placing_of self.old) (content_of (simple_of tree.old)))) }
    {
        match tree {
            Simple::Element { content, .. } => self.among(content),
            Simple::Text(_) => Ok(()),
            Simple::Image { .. } => Ok(()),
            Simple::Formula { .. } => Ok(()),
            Simple::Embedded(_) => Ok(()),
            Simple::Anchor(_) => Ok(()),
        }
    }

    /// Puts anchors before something that is seen.
    fn leaf(&mut self, tree: &mut Simple) -> Result<(), AllocError>
        requires { self.old.root ≡ 0 }
        ensures root { self.new.root ≡ self.old.root }
        ensures placing { OnOk result (placing_of self.new ≡ spec.after_leaf (placing_of self.old) true) }
        ensures tree { OnOk result (simple_of tree.new
            ≡ spec.placed_before (placing_of self.old) true (simple_of tree.old)) }
    {
        self.before(tree)?;
        self.seen = one_more(self.seen, true)?;
        Ok(())
    }

    /// Puts the anchors that stand before what is seen now before it.
    fn before(&mut self, tree: &mut Simple) -> Result<(), AllocError>
        requires { self.old.root ≡ 0 }
        ensures root { self.new.root ≡ self.old.root }
        ensures seen { self.new.seen ≡ self.old.seen }
        ensures targets { OnOk result (map target_of self.new.targets.items ≡ targets_here self.old) }
        ensures tree { OnOk result (simple_of tree.new ≡ spec.preceded (ids_here self.old) (simple_of tree.old)) }
    {
        if is_embedded(tree) {
            return self.embed(tree);
        }
        let anchors = self.anchors()?;
        if anchors.is_empty() {
            return Ok(());
        }
        put_before(self.alloc, self.root, anchors, tree)
    }

    /// Takes the next id, if it stands before what is seen now.
    fn next_id(&mut self) -> Option<String>
        ensures root { self.new.root ≡ self.old.root }
        ensures seen { self.new.seen ≡ self.old.seen }
        ensures shorter { MatchOption result (self.new.targets.items ≡ self.old.targets.items)
            (λ id. length self.new.targets.items < length self.old.targets.items) }
        ensures targets { targets_here self.new ≡ targets_here self.old }
        ensures ids { MatchOption result (ids_here self.old ≡ [])
            (λ id. ids_here self.old ≡ string_bytes id ∷ ids_here self.new) }
    {
        if !self.is_next_here() {
            return None;
        }
        match self.targets.pop_front() {
            Some(target) => Some(target.value),
            None => None,
        }
    }

    /// Whether the next target stands before what is seen now.
    fn is_next_here(&self) -> bool
        ensures { result ≡ begins_here self.now.seen (map target_of self.now.targets.items) }
    {
        match self.targets.front() {
            Some(target) => target.seen <= self.seen,
            None => false,
        }
    }

    /// Puts the ids that stand before what is embedded into it.
    fn embed(&mut self, tree: &mut Simple) -> Result<(), AllocError>
        requires { spec.is_embedded (simple_of tree.old) ≡ true }
        ensures root { self.new.root ≡ self.old.root }
        ensures seen { self.new.seen ≡ self.old.seen }
        ensures targets { OnOk result (map target_of self.new.targets.items ≡ targets_here self.old) }
        ensures tree { OnOk result (simple_of tree.new ≡ spec.with_ids (ids_here self.old) (simple_of tree.old)) }
    {
        match tree {
            Simple::Embedded(found) => self.push_ids(&mut found.anchors),
            Simple::Text(_) => Ok(()),
            Simple::Image { .. } => Ok(()),
            Simple::Formula { .. } => Ok(()),
            Simple::Anchor(_) => Ok(()),
            Simple::Element { .. } => Ok(()),
        }
    }

    /// Appends the ids that stand before what is seen now.
    fn push_ids(&mut self, ids: &mut Vec<String>) -> Result<(), AllocError>
        ensures root { self.new.root ≡ self.old.root }
        ensures seen { self.new.seen ≡ self.old.seen }
        ensures targets { OnOk result (map target_of self.new.targets.items ≡ targets_here self.old) }
        ensures ids { OnOk result (map string_bytes ids.new.items
            ≡ map string_bytes ids.old.items ++ ids_here self.old) }
    {
        while let Some(id) = self.next_id() {
            ids.push(id)?;
        }
        Ok(())
    }

    /// The anchors that stand before what is seen now.
    fn anchors<'t>(&mut self) -> Result<Vec<Simple<'t>>, AllocError>
        ensures root { self.new.root ≡ self.old.root }
        ensures seen { self.new.seen ≡ self.old.seen }
        ensures targets { OnOk result (map target_of self.new.targets.items ≡ targets_here self.old) }
        ensures anchors { IfOk result (λ found. map simple_of found.items ≡ map simple.anchor (ids_here self.old)) }
    {
        let mut anchors = Vec::new(self.alloc);
        while let Some(id) = self.next_id() {
            anchors.push(Simple::Anchor(id))?;
        }
        Ok(anchors)
    }

    /// The anchors of all targets that have none.
    fn last_anchors<'t>(&mut self) -> Result<Vec<Simple<'t>>, AllocError>
        ensures root { self.new.root ≡ self.old.root }
        ensures anchors { IfOk result (λ found. map simple_of found.items
            ≡ map simple.anchor (spec.values_of (map target_of self.old.targets.items))) }
    {
        let mut anchors = Vec::new(self.alloc);
        while let Some(target) = self.targets.pop_front() {
            anchors.push(Simple::Anchor(target.value))?;
        }
        Ok(anchors)
    }
}

/// Appends anchors in a paragraph of their own.
fn push_apart<'t>(
    root: NodeId,
    anchors: Vec<Simple<'t>>,
    trees: &mut Vec<Simple<'t>>,
) -> Result<(), AllocError>
    requires { root ≡ 0 }
    ensures { OnOk result (map simple_of trees.new.items
        ≡ map simple_of trees.old.items ++ spec.apart_if_any (map simple_of anchors.entry.items)) }
{
    if anchors.is_empty() {
        return Ok(());
    }
    trees.push(inserted(root, Role::Anchors, anchors))?;
    Ok(())
}

/// Whether a leaf is embedded.
fn is_embedded(tree: &Simple) -> bool
    ensures { result ≡ spec.is_embedded (simple_of tree.now) }
{
    match tree {
        Simple::Embedded(_) => true,
        Simple::Text(_) => false,
        Simple::Image { .. } => false,
        Simple::Formula { .. } => false,
        Simple::Element { .. } => false,
        Simple::Anchor(_) => false,
    }
}

/// Puts anchors before a leaf.
fn put_before<'t>(
    alloc: Global,
    root: NodeId,
    anchors: Vec<Simple<'t>>,
    tree: &mut Simple<'t>,
) -> Result<(), AllocError>
    requires { root ≡ 0 }
    ensures { OnOk result (simple_of tree.new
        ≡ spec.put_before (simples_of anchors.entry.items) (simple_of tree.old)) }
{
    let mut content = beside(alloc, root, anchors, stands_apart(tree))?;
    content.push(mem::replace(tree, Simple::Anchor(String::new(alloc))))?;
    *tree = inserted(root, Role::Plain, content);
    Ok(())
}

/// Anchors before a leaf, which stands apart or not: in a paragraph of their own, or as they are.
fn beside<'t>(
    alloc: Global,
    root: NodeId,
    anchors: Vec<Simple<'t>>,
    stands_apart: bool,
) -> Result<Vec<Simple<'t>>, AllocError>
    requires { root ≡ 0 }
    ensures { IfOk result (λ content. simples_of content.items
        ≡ (if stands_apart then simple.more (spec.apart (simples_of anchors.entry.items)) simple.none
        else simples_of anchors.entry.items)) }
{
    if !stands_apart {
        return Ok(anchors);
    }
    let mut content = Vec::with_capacity(alloc, 2)?;
    content.push(inserted(root, Role::Anchors, anchors))?;
    Ok(content)
}

/// Whether a leaf is a code block, or a formula that stands alone.
fn stands_apart(tree: &Simple) -> bool
    ensures { result ≡ spec.stands_apart (simple_of tree.now) }
{
    match tree {
        Simple::Formula { is_alone, .. } => *is_alone,
        Simple::Element { .. } => true,
        Simple::Text(_) => false,
        Simple::Image { .. } => false,
        Simple::Embedded(_) => false,
        Simple::Anchor(_) => false,
    }
}
