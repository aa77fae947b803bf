//! The list of active formatting elements.
ghost use Rattle.std.specs.Prelude.{◌≡◌, ◌∷◌, ◌++◌, ◌<◌, [], length, IfSome, true, false, Some, None, IfOk, OnOk};
ghost use Rattle.std.specs.Prelude.{MatchOption, find, filter};
ghost use Rattle.htmd_lexical.specs.CharacterClasses.{is_empty};
ghost use Rattle.htmd_html5_state.specs.Adoption as adoption;
ghost use Rattle.htmd_html5_state.specs.Nodes.{same_element, kind_at};
ghost use Rattle.htmd_html5_state.specs.Formatting as spec;
ghost use Rattle.htmd_html5_state.specs.Views.{have_same_name, kind_of, kind_seen};
ghost use Rattle.htmd_html5_state.specs.OpenViews.{stack_of};
ghost use Rattle.htmd_html5_state.specs.FormattingViews.{entries_of, is_newest, IsNewest};

use crate::attributes::are_same;
use crate::document::{Document, NodeKind};
use crate::names::{ElementName, HtmlName, TagName};
use crate::open_elements::OpenElements;
use std::alloc::{AllocError, Global};
use std::marker::Model;

/// At most this many elements alike in name and attributes are on it since its last marker: the Noah's Ark clause.
const ALIKE_LIMIT: usize = 3;

/// At most this many elements are on it since its last marker: not in the standard, it bounds what a page costs.
const FORMATTING_LIMIT: usize = 16;

/// The nodes on the list, oldest first; None is a marker.
#[derive(Drop)]
pub(crate) struct FormattingList {
    entries: Vec<Option<usize>>,
}

impl Model for FormattingList {
    ghost use Rattle.std.specs.Prelude.{ℕ, List, Option};

    ghost Value = { List (Option ℕ) };

    ghost use Rattle.htmd_html5_state.specs.FormattingViews.{entries_of};

    ghost view = { λ l. entries_of l.entries.items };
}

/// Whether both are elements with the same name.
fn have_same_name(this: &NodeKind, that: &NodeKind) -> bool
    ensures { result ≡ have_same_name (kind_of this.now) (kind_of that.now) }
{
    match (this, that) {
        (NodeKind::Known { name, .. }, NodeKind::Known { name: wanted, .. }) => name.is(*wanted),
        (NodeKind::Known { name, .. }, NodeKind::Other(wanted)) => {
            ElementName::Html(HtmlName::Known(*name)).is(&wanted.name)
        }
        (NodeKind::Other(element), NodeKind::Known { name: wanted, .. }) => {
            element.name.is_html(&HtmlName::Known(*wanted))
        }
        (NodeKind::Other(element), NodeKind::Other(wanted)) => element.name.is(&wanted.name),
        _ => false,
    }
}

/// Whether both are elements with the same name and attributes.
#[tactic(auto, using(crate::proofs::FormattingLemmas::same_parts, crate::proofs::FormattingLemmas::like_none))]
fn are_alike(this: Option<&NodeKind>, that: Option<&NodeKind>) -> bool
    ensures { result ≡ same_element (kind_seen this.entry) (kind_seen that.entry) }
{
    match (this, that) {
        (Some(this), Some(that)) => {
            have_same_name(this, that) && are_same(this.attributes(), that.attributes())
        }
        _ => false,
    }
}

/// Whether it is an element with this name.
pub(crate) fn is_element(kind: Option<&NodeKind>, tag: TagName) -> bool
    ensures { result ≡ adoption.kind_is tag (kind_seen kind.entry) }
{
    match kind {
        Some(NodeKind::Known { name, .. }) => name.is(tag),
        Some(NodeKind::Other(element)) => element.name.is_tag(tag),
        _ => false,
    }
}

/// The newest entry, and those before it.
fn split_newest(entries: &[Option<usize>]) -> Option<(&[Option<usize>], Option<usize>)>
    ensures list { MatchOption result (entries_of entries.now ≡ [])
        (λ p. entries_of entries.now ≡ p.1 ∷ entries_of p.0.now) }
    ensures parts { MatchOption result (entries.now ≡ []) (λ p. entries.now ≡ p.0.now ++ p.1 ∷ []) }
    ensures shorter { IfSome result (λ p. length p.0.now < length entries.now) }
{
    match entries {
        [older @ .., entry] => Some((older, *entry)),
        [] => None,
    }
}

/// Whether it is the entry of this node.
fn is_entry(entry: Option<usize>, node: usize) -> bool
    ensures { result ≡ spec.is_entry node entry }
{
    match entry {
        Some(listed) => listed == node,
        None => false,
    }
}

/// The place of the newest entry of a node.
fn position(entries: &[Option<usize>], node: usize) -> Option<usize>
    ensures { MatchOption result (spec.is_listed node (entries_of entries.now) ≡ false)
        (λ i. IsNewest node entries.now i) }
{
    let mut rest = entries;
    while let Some((older, entry)) = split_newest(rest) {
        if is_entry(entry, node) {
            return Some(older.len());
        }
        rest = older;
    }
    None
}

/// The newest element with this name since the last marker.
fn newest(entries: &[Option<usize>], document: &Document, tag: TagName) -> Option<usize>
    ensures { result ≡ find (adoption.node_is document.now tag)
        (spec.since_marker (entries_of entries.now)) }
{
    let mut rest = entries;
    while let Some((older, entry)) = split_newest(rest) {
        let node = entry?;
        if is_element(document.kind(node), tag) {
            return Some(node);
        }
        rest = older;
    }
    None
}

/// The oldest of the elements like this one since the last marker, if there are as many as may be.
fn oldest_alike(
    entries: &[Option<usize>],
    document: &Document,
    kind: Option<&NodeKind>,
) -> Option<usize>
    ensures { result ≡ spec.one_too_many spec.alike_limit
        (filter (spec.is_alike document.now (kind_seen kind.entry)) (spec.since_marker (entries_of entries.now))) }
{
    let mut count = 0;
    let mut oldest = None;
    let mut rest = entries;
    while let Some((older, entry)) = split_newest(rest) {
        let Some(node) = entry else {
            break;
        };
        if are_alike(document.kind(node), kind) {
            count += 1;
            oldest = Some(node);
        }
        rest = older;
    }
    if count < ALIKE_LIMIT { None } else { oldest }
}

/// The oldest element since the last marker, if there are as many as may be.
fn oldest(entries: &[Option<usize>]) -> Option<usize>
    ensures { result ≡ spec.one_too_many spec.formatting_limit (spec.since_marker (entries_of entries.now)) }
{
    let mut count = 0;
    let mut oldest = None;
    let mut rest = entries;
    while let Some((older, entry)) = split_newest(rest) {
        let Some(node) = entry else {
            break;
        };
        count += 1;
        oldest = Some(node);
        rest = older;
    }
    if count < FORMATTING_LIMIT {
        None
    } else {
        oldest
    }
}

impl FormattingList {
    /// Without elements.
    pub(crate) fn new(alloc: Global) -> FormattingList
        ensures { result ≡ [] }
    {
        FormattingList {
            entries: Vec::new(alloc),
        }
    }

    pub(crate) fn push_marker(&mut self) -> Result<(), AllocError>
        ensures { OnOk result (self.new ≡ None ∷ self.old) }
    {
        self.entries.push(None)?;
        Ok(())
    }

    pub(crate) fn push(&mut self, node: usize) -> Result<(), AllocError>
        ensures { OnOk result (self.new ≡ Some node ∷ self.old) }
    {
        self.entries.push(Some(node))?;
        Ok(())
    }

    /// Removes everything up to the last marker, and the marker too.
    pub(crate) fn clear_to_marker(&mut self)
        ensures { self.new ≡ spec.after_marker self.old }
    {
        while let Some(entry) = self.entries.pop() {
            if entry.is_none() {
                return;
            }
        }
    }

    pub(crate) fn is_listed(&self, node: usize) -> bool
        ensures { result ≡ spec.is_listed node self.now }
    {
        position(&self.entries, node).is_some()
    }

    /// Whether the newest entry is that of this node.
    pub(crate) fn is_newest(&self, node: usize) -> bool
        ensures { result ≡ is_newest node self.now }
    {
        match split_newest(&self.entries) {
            Some((_, entry)) => is_entry(entry, node),
            None => false,
        }
    }

    /// Whether no element since the last marker is closed, so that there is nothing to reconstruct.
    pub(crate) fn is_reconstructed(&self, stack: &OpenElements) -> bool
        ensures { result ≡ is_empty (spec.closed_elements stack.now self.now) }
    {
        match split_newest(&self.entries) {
            Some((_, Some(node))) => stack.is_open_node(node),
            _ => true,
        }
    }

    /// The newest element with this name since the last marker.
    pub(crate) fn newest(&self, document: &Document, tag: TagName) -> Option<usize>
        ensures { result ≡ find (adoption.node_is document.now tag) (spec.since_marker self.now) }
    {
        newest(&self.entries, document, tag)
    }

    pub(crate) fn remove(&mut self, node: usize)
        ensures { self.new ≡ spec.without_entry node self.old }
    {
        if let Some(index) = position(&self.entries, node) {
            self.entries.remove(index);
        }
    }

    /// Puts a node in place of another one.
    pub(crate) fn replace(&mut self, node: usize, by: usize)
        ensures { self.new ≡ spec.replace_entry node by self.old }
    {
        if let Some(index) = position(&self.entries, node) {
            self.entries[index] = Some(by);
        }
    }

    /// Puts a node right after another one, as the next newer one.
    pub(crate) fn insert_after(&mut self, node: usize, new: usize) -> Result<(), AllocError>
        ensures { OnOk result (self.new ≡ spec.insert_after node new self.old) }
    {
        if let Some(index) = position(&self.entries, node) {
            self.entries.insert(index + 1, Some(new))?;
        }
        Ok(())
    }

    fn remove_some(&mut self, node: Option<usize>)
        ensures { self.new ≡ spec.without_some node self.old }
    {
        if let Some(node) = node {
            self.remove(node);
        }
    }

    /// Puts a new element on the list, after taking off those for which it has no room.
    pub(crate) fn add(&mut self, document: &Document, node: usize) -> Result<(), AllocError>
        ensures { OnOk result (self.new ≡ spec.push_entry document.now node self.old) }
    {
        let alike = oldest_alike(&self.entries, document, document.kind(node));
        self.remove_some(alike);
        let oldest = oldest(&self.entries);
        self.remove_some(oldest);
        self.push(node)
    }

    /// Takes off the newest elements, up to a marker or one that is open. Gives them, newest first.
    pub(crate) fn take_closed(
        &mut self,
        alloc: Global,
        stack: &OpenElements,
    ) -> Result<Vec<usize>, AllocError>
        ensures closed { IfOk result (λ v. v.items ≡ spec.closed_elements stack.now self.old) }
        ensures rest { OnOk result (self.new ≡ spec.after_closed stack.now self.old) }
    {
        let mut closed = Vec::new(alloc);
        while let Some(Some(node)) = self.entries.last() {
            let node = *node;
            if stack.is_open_node(node) {
                return Ok(closed);
            }
            closed.push(node)?;
            self.entries.pop();
        }
        Ok(closed)
    }
}
