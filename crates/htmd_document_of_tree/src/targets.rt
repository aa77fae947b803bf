//! What links can lead to: ids of elements, and names of `a`.
ghost use Rattle.std.specs.Prelude.{◌≡◌, ℕ, ◌+◌, ◌++◌, ◌&&◌, ◌||◌, not, if◌then◌else◌, List, [], IfOk, OnOk, filter};
ghost use Rattle.std.specs.Prelude.{length, map, true, codes, string_bytes};
ghost use Rattle.std.specs.List.{list_any};
ghost use Rattle.std.specs.Str.{bytes_eq};
ghost use Rattle.htmd_lexical.specs.Attributes.{pairs_of};
ghost use Rattle.htmd_shown.specs.Attributes.{text_of as text_at};
ghost use Rattle.htmd_shown.specs.Kinds.{content_of};
ghost use Rattle.htmd_shown.specs.Roles.{is_among};
ghost use Rattle.htmd_shown.specs.SimpleViews.{simple_of, simples_of};
ghost use Rattle.htmd_document_of_tree.specs.Seen.{all_seen};
ghost use Rattle.htmd_document_of_tree.specs.TargetViews.{chosen, counts_of, firsts_of, holds, is_name, seen_in};
ghost use Rattle.htmd_document_of_tree.specs.TargetViews.{stays, target_of, targets_in, turned};
ghost use Rattle.htmd_document_of_tree.specs.Targets as spec;

use crate::leadings::Leadings;
use crate::seen::{leaf_shows, one_more};
use htmd_nodes::Attribute;
use htmd_shown::attributes::{in_line, text_of};
use htmd_shown::{Role, Simple};
use std::alloc::{AllocError, Global};
use std::collections::{HashSet, VecDeque};

/// A value that links can lead to.
#[derive(Drop)]
pub(crate) struct Target {
    pub(crate) value: String,
    /// Whether it is the name of an `a`, and no id.
    pub(crate) is_name: bool,
    /// How much was to see before the place that it stands for.
    pub(crate) seen: usize,
}

/// The targets so far.
#[derive(Drop)]
struct Targets<'w> {
    alloc: Global,
    /// Where links lead, if those values alone count.
    leadings: Option<&'w Leadings>,
    found: Vec<Target>,
}

/// The targets in nodes, the first of each value: all, or those that links lead to, and not only from the heading that
/// they stand in.
pub(crate) fn targets_of(
    alloc: Global,
    leadings: Option<&Leadings>,
    trees: &[Simple],
) -> Result<VecDeque<Target>, AllocError>
    ensures { IfOk result (λ found. map target_of found.items
        ≡ filter (stays leadings.entry) (spec.all_targets (counts_of leadings.entry) (simples_of trees.now))) }
{
    let mut targets = Targets {
        alloc,
        leadings,
        found: Vec::new(alloc),
    };
    targets.among(None, 0, trees)?;
    let Targets { found, .. } = targets;
    let firsts = firsts(alloc, found.as_slice())?;
    let mut targets = VecDeque::from_vec(found);
    keep(leadings, firsts.as_slice(), &mut targets)?;
    Ok(targets)
}

/// Keeps the targets that are the first of their value, and that links lead to from elsewhere, if that counts.
fn keep(
    leadings: Option<&Leadings>,
    firsts: &[bool],
    targets: &mut VecDeque<Target>,
) -> Result<(), AllocError>
    requires { length firsts.now ≡ length targets.old.items }
    ensures { OnOk result (map target_of targets.new.items
        ≡ filter (stays leadings.entry) (chosen firsts.now (map target_of targets.old.items))) }
{
    for is_first in firsts {
        keep_next(leadings, *is_first, targets)?;
    }
    Ok(())
}

/// Moves the next target to the end, if it is the first of its value and links lead to it from elsewhere; else it goes.
fn keep_next(
    leadings: Option<&Leadings>,
    is_first: bool,
    targets: &mut VecDeque<Target>,
) -> Result<(), AllocError>
    ensures { OnOk result (map target_of targets.new.items
        ≡ turned (stays leadings.entry) is_first (map target_of targets.old.items)) }
{
    let Some(target) = targets.pop_front() else {
        return Ok(());
    };
    if !is_first || !leads_elsewhere(leadings, &target) {
        return Ok(());
    }
    targets.push_back(target)?;
    Ok(())
}

/// Whether a link leads to a target from elsewhere, if that counts.
fn leads_elsewhere(leadings: Option<&Leadings>, target: &Target) -> bool
    ensures { result ≡ stays leadings.entry (target_of target.now) }
{
    match leadings {
        Some(leadings) => leadings.lead_elsewhere(target.value.as_str(), target.seen),
        None => true,
    }
}

impl<'w> Targets<'w> {
    /// Takes the targets in nodes; how much is to see up to their end. `whole`: how much was to see before the whole
    /// that they are part of.
    #[cycle(targets)]
    fn among(
        &mut self,
        whole: Option<usize>,
        seen: usize,
        trees: &[Simple],
    ) -> Result<usize, AllocError>
        ensures seen { IfOk result (λ n. n ≡ seen + all_seen (simples_of trees.now)) }
        ensures leadings { self.new.leadings ≡ self.old.leadings }
        ensures found { OnOk result (targets_in self.new ≡ targets_in self.old
            ++ spec.targets_among (counts_of self.old.leadings) whole seen (simples_of trees.now)) }
    {
        let mut seen = seen;
        for tree in trees {
            self.own(whole.unwrap_or(seen), tree)?;
            seen = self.inside(whole, seen, tree)?;
        }
        Ok(seen)
    }

    /// Takes the targets in what is in a node; how much is to see up to the end of the node.
    #[cycle(targets)]
    fn inside(
        &mut self,
        whole: Option<usize>,
        seen: usize,
        tree: &Simple,
    ) -> Result<usize, AllocError>
        ensures seen { IfOk result (λ n. n ≡ seen + seen_in (simple_of tree.now)) }
        ensures leadings { self.new.leadings ≡ self.old.leadings }
        ensures found { OnOk result (targets_in self.new ≡ targets_in self.old
            ++ spec.targets_inside (counts_of self.old.leadings) whole seen (simple_of tree.now)) }
    {
        let after = self.content(whole, seen, tree)?;
        after_node(seen, after, tree)
    }

    /// The same; how much is to see up to the end of what is in the node.
    #[cycle(targets)]
    fn content(
        &mut self,
        whole: Option<usize>,
        seen: usize,
        tree: &Simple,
    ) -> Result<usize, AllocError>
        ensures seen { IfOk result (λ n. n ≡ seen + all_seen (content_of (simple_of tree.now))) }
        ensures leadings { self.new.leadings ≡ self.old.leadings }
        ensures found { OnOk result (targets_in self.new ≡ targets_in self.old
            ++ spec.targets_inside (counts_of self.old.leadings) whole seen (simple_of tree.now)) }
    {
        match tree {
            Simple::Element { role, content, .. } => {
                self.among(whole_in(whole, seen, *role), seen, content)
            },
            Simple::Text(_) => Ok(seen),
            Simple::Image { .. } => Ok(seen),
            Simple::Formula { .. } => Ok(seen),
            Simple::Embedded(_) => Ok(seen),
            Simple::Anchor(_) => Ok(seen),
        }
    }

    /// Takes the targets of a node itself.
    fn own(&mut self, seen: usize, tree: &Simple) -> Result<(), AllocError>
        ensures leadings { self.new.leadings ≡ self.old.leadings }
        ensures found { OnOk result (targets_in self.new ≡ targets_in self.old
            ++ spec.own_targets (counts_of self.old.leadings) seen (simple_of tree.now)) }
    {
        match tree {
            Simple::Text(_) => Ok(()),
            Simple::Anchor(_) => Ok(()),
            Simple::Image { attrs, .. } => self.id(seen, attrs),
            Simple::Formula { attrs, .. } => self.id(seen, attrs),
            Simple::Embedded(found) => self.id(seen, found.attrs),
            Simple::Element { role, attrs, .. } => {
                self.id(seen, attrs)?;
                self.name(seen, role.is_anchor(), attrs)
            },
        }
    }

    /// Takes the name of an element, if it is an `a`.
    fn name(&mut self, seen: usize, is_anchor: bool, attrs: &[Attribute]) -> Result<(), AllocError>
        ensures leadings { self.new.leadings ≡ self.old.leadings }
        ensures found { OnOk result (targets_in self.new ≡ targets_in self.old ++ (if is_anchor
            then spec.target_by (counts_of self.old.leadings) seen true (text_at (codes "name") (pairs_of attrs.now))
            else [])) }
    {
        if !is_anchor {
            return Ok(());
        }
        self.take(text_of(attrs, "name"), true, seen)
    }

    /// Takes an id.
    fn id(&mut self, seen: usize, attrs: &[Attribute]) -> Result<(), AllocError>
        ensures leadings { self.new.leadings ≡ self.old.leadings }
        ensures found { OnOk result (targets_in self.new ≡ targets_in self.old
            ++ spec.id_target (counts_of self.old.leadings) seen (pairs_of attrs.now)) }
    {
        self.take(text_of(attrs, "id"), false, seen)
    }

    /// Takes a value, if it is filled and counts.
    fn take(&mut self, text: &str, is_name: bool, seen: usize) -> Result<(), AllocError>
        ensures leadings { self.new.leadings ≡ self.old.leadings }
        ensures found { OnOk result (targets_in self.new ≡ targets_in self.old
            ++ spec.target_by (counts_of self.old.leadings) seen is_name text.now) }
    {
        if text.is_empty() {
            return Ok(());
        }
        let value = in_line(self.alloc, text)?;
        if value.is_empty() || !self.counts(value.as_str()) {
            return Ok(());
        }
        self.found.push(Target {
            value,
            is_name,
            seen,
        })?;
        Ok(())
    }

    /// Whether a value counts.
    fn counts(&self, value: &str) -> bool
        ensures { result ≡ counts_of self.now.leadings value.now }
    {
        match self.leadings {
            Some(leadings) => leadings.lead_to(value),
            None => true,
        }
    }
}

/// How much is to see up to the end of a node, and up to the end of what is in it.
fn after_node(seen: usize, after: usize, tree: &Simple) -> Result<usize, AllocError>
    requires { after ≡ seen + all_seen (content_of (simple_of tree.now)) }
    ensures { IfOk result (λ n. n ≡ seen + seen_in (simple_of tree.now)) }
{
    match leaf_shows(tree) {
        Some(shows) => one_more(seen, shows),
        None => Ok(after),
    }
}

/// How much was to see before the place that targets in an element stand for: before all of it, if it is a whole.
fn whole_in(whole: Option<usize>, seen: usize, role: Role) -> Option<usize>
    ensures { result ≡ spec.whole_in whole seen role }
{
    if role.is_link() || role.is_headed() || role.is_verbatim() {
        Some(whole.unwrap_or(seen))
    } else {
        whole
    }
}

// ---- the first of each value

/// Of each target, whether it is an id that no element before has, or a name that is no id and that no element before
/// has.
fn firsts(alloc: Global, found: &[Target]) -> Result<Vec<bool>, AllocError>
    ensures { IfOk result (λ firsts. firsts.items
        ≡ firsts_of (spec.ids_among (map target_of found.now)) [] (map target_of found.now)) }
{
    let ids = ids_beside_names(alloc, found)?;
    let mut known = HashSet::new(alloc);
    let mut firsts = Vec::with_capacity(alloc, found.len())?;
    for target in found {
        firsts.push(is_first(&ids, &mut known, target)?)?;
    }
    Ok(firsts)
}

/// Whether a target is the first of its value, which is known from then on.
fn is_first<'t>(
    ids: &HashSet<&'t str>,
    known: &mut HashSet<&'t str>,
    target: &'t Target,
) -> Result<bool, AllocError>
    ensures first { IfOk result (λ is_first. is_first
        ≡ (not (holds known.old (string_bytes target.now.value))
        && not (target.now.is_name && holds ids.now (string_bytes target.now.value)))) }
    ensures known { IfOk result (λ is_first. (s : List ℕ) → holds known.new s
        ≡ (if is_first then bytes_eq (string_bytes target.now.value) s || holds known.old s else holds known.old s)) }
{
    if is_name_of(ids, target) {
        return Ok(false);
    }
    let is_first = known.insert(target.value.as_str())?;
    Ok(is_first)
}

/// Whether a target is a name that is an id too.
fn is_name_of(ids: &HashSet<&str>, target: &Target) -> bool
    ensures { result ≡ (target.now.is_name && holds ids.now (string_bytes target.now.value)) }
{
    target.is_name && ids.contains(target.value.as_str())
}

/// The ids among targets, if a name is among them, since names alone are looked for there.
fn ids_beside_names<'t>(alloc: Global, found: &'t [Target]) -> Result<HashSet<&'t str>, AllocError>
    ensures { IfOk result (λ ids. list_any is_name found.now ≡ true → (s : List ℕ)
        → holds ids s ≡ is_among (spec.ids_among (map target_of found.now)) s) }
{
    if !has_name(found) {
        return Ok(HashSet::new(alloc));
    }
    ids_of(alloc, found)
}

/// Whether a name is among targets.
fn has_name(found: &[Target]) -> bool
    ensures { result ≡ list_any is_name found.now }
{
    for target in found {
        if target.is_name {
            return true;
        }
    }
    false
}

/// The ids among targets.
fn ids_of<'t>(alloc: Global, found: &'t [Target]) -> Result<HashSet<&'t str>, AllocError>
    ensures { IfOk result (λ ids. (s : List ℕ) → holds ids s
        ≡ is_among (spec.ids_among (map target_of found.now)) s) }
{
    let mut ids = HashSet::new(alloc);
    for target in found {
        note_id(&mut ids, target)?;
    }
    Ok(ids)
}

/// Notes the value of a target, if it is an id.
fn note_id<'t>(ids: &mut HashSet<&'t str>, target: &'t Target) -> Result<(), AllocError>
    ensures { OnOk result ((s : List ℕ) → holds ids.new s
        ≡ (holds ids.old s || (not target.now.is_name && bytes_eq (string_bytes target.now.value) s))) }
{
    if target.is_name {
        return Ok(());
    }
    ids.insert(target.value.as_str())?;
    Ok(())
}
