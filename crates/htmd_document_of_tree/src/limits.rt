//! Bounds of what is written for links and abbreviations: a parser may copy an `a` into every block that follows it.
ghost use Rattle.std.specs.Prelude.{◌≡◌, ◌≤◌, ◌+◌, ◌*◌, if◌then◌else◌, true, IfOk, IfSome, OnOk, Some, string_bytes};
ghost use Rattle.std.specs.Prelude.{nat_lt};
ghost use Rattle.htmd_lexical.specs.Attributes.{pairs_of};
ghost use Rattle.htmd_shown.specs.Attributes.{address};
ghost use Rattle.htmd_shown.specs.Kinds as kinds;
ghost use Rattle.htmd_shown.specs.ShownTexts.{shown_text};
ghost use Rattle.htmd_shown.specs.SimpleViews.{simple_of, simples_of};
ghost use Rattle.htmd_document_of_tree.specs.FirstPieces.{with_content};
ghost use Rattle.htmd_document_of_tree.specs.Limits as spec;
ghost use Rattle.htmd_document_of_tree.specs.WrittenViews.{Counts, Covers, text_characters, all_text_characters};

use htmd_nodes::Attribute;
use htmd_shown::attributes::{address, is_in_address, text_of, title_of, without_controls_around};
use htmd_shown::shown_text::{is_all_shown, is_shown};
use htmd_shown::{Role, Simple};
use std::alloc::{AllocError, Global};
use std::collections::HashSet;

/// The characters that all addresses and titles may have, whatever the page has.
const ALWAYS_WRITTEN: usize = 65_536;

/// So many times the characters of all texts, and of all different addresses and titles, are allowed as well.
const MOST_WRITTEN: usize = 16;

/// What is counted of a page: the characters of texts, and of addresses and titles of links and abbreviations, each
/// pair once.
#[derive(Drop)]
struct Written {
    alloc: Global,
    count: usize,
    pairs: HashSet<String>,
}

/// Takes links away from the one on that goes past the budget: they are their content. `Err` means out of memory.
pub(crate) fn limit(alloc: Global, trees: &mut [Simple]) -> Result<(), AllocError>
    ensures { OnOk result (simples_of trees.new ≡ spec.limited (simples_of trees.old)) }
{
    // Few pages go past this, so that addresses seldom have to be compared.
    if is_within_texts(trees) {
        return Ok(());
    }
    let budget = budget(alloc, trees)?;
    keep_within(alloc, Some(budget), trees)?;
    Ok(())
}

// ---- what links cost

/// How many characters an address has.
fn address_len(text: &str) -> usize
    ensures { result ≡ spec.characters (address text.now) }
{
    without_controls_around(text)
        .chars()
        .filter(|c| is_in_address(*c))
        .count()
}

/// Whether an address has a character. It takes no longer for a long one.
fn has_address(text: &str) -> bool
    ensures { result ≡ nat_lt 0 (spec.characters (address text.now)) }
{
    without_controls_around(text)
        .chars()
        .any(|c| is_in_address(c))
}

/// How many characters the title of an element has.
fn title_len(alloc: Global, attrs: &[Attribute]) -> Result<usize, AllocError>
    ensures { IfOk result (λ n. n ≡ spec.characters (spec.title_text (pairs_of attrs.now))) }
{
    match title_of(alloc, attrs)? {
        Some(title) => Ok(title.as_str().chars().count()),
        None => Ok(0),
    }
}

/// How many characters are written with each piece of a link or an abbreviation: of its address and its title.
fn size(alloc: Global, role: Role, attrs: &[Attribute]) -> Result<usize, AllocError>
    ensures { IfOk result (λ n. n ≡ spec.size role (pairs_of attrs.now)) }
{
    let title = title_len(alloc, attrs)?;
    sum(address_len(address_in(role, attrs)), title)
}

/// Whether something is written with each piece of a link or an abbreviation.
fn has_size(alloc: Global, role: Role, attrs: &[Attribute]) -> Result<bool, AllocError>
    ensures { IfOk result (λ b. b ≡ nat_lt 0 (spec.size role (pairs_of attrs.now))) }
{
    if has_address(address_in(role, attrs)) {
        return Ok(true);
    }
    Ok(title_len(alloc, attrs)? > 0)
}

/// The address of a link, as the page has it; an abbreviation has none.
fn address_in<'t>(role: Role, attrs: &'t [Attribute]) -> &'t str
    ensures { address result.now ≡ spec.address_in role (pairs_of attrs.now) }
{
    if role.is_link() {
        text_of(attrs, "href")
    } else {
        ""
    }
}

/// Whether something is written with each piece of an element.
fn is_carrying(role: Role) -> bool
    ensures { result ≡ spec.is_carrying role }
{
    role.is_link() || role.is_abbreviation()
}

/// The sum. `Err` where that is no number.
fn sum(m: usize, n: usize) -> Result<usize, AllocError>
    ensures { IfOk result (λ k. k ≡ m + n) }
{
    match m.checked_add(n) {
        Some(sum) => Ok(sum),
        None => Err(AllocError),
    }
}

/// What is left of a budget after a link with an address and a title of this size, around so many things that show.
fn after_link(left: usize, size: usize, leaves: u32) -> Option<usize>
    ensures { result ≡ spec.paid (Some left) (spec.link_cost size leaves) }
{
    if leaves == u32::MAX {
        return None;
    }
    if leaves == 0 {
        return Some(left);
    }
    let cost = size.checked_mul(leaves as usize)?;
    left.checked_sub(cost)
}

/// What is left of a budget after a node itself; nothing once it doesn't suffice.
fn paid(alloc: Global, left: Option<usize>, tree: &Simple) -> Result<Option<usize>, AllocError>
    ensures { IfOk result (λ now. now ≡ spec.paid_for left (simple_of tree.now)) }
{
    match tree {
        Simple::Element {
            role,
            facts,
            attrs,
            ..
        } => paid_for_element(alloc, left, *role, facts.leaves, attrs),
        Simple::Text(_) => Ok(left),
        Simple::Image { .. } => Ok(left),
        Simple::Formula { .. } => Ok(left),
        Simple::Embedded(_) => Ok(left),
        Simple::Anchor(_) => Ok(left),
    }
}

/// The same after an element around so many things that show.
fn paid_for_element(
    alloc: Global,
    left: Option<usize>,
    role: Role,
    leaves: u32,
    attrs: &[Attribute],
) -> Result<Option<usize>, AllocError>
    ensures { IfOk result (λ now. now
        ≡ spec.paid left (if spec.is_carrying role then spec.link_cost (spec.size role (pairs_of attrs.now)) leaves
        else Some 0)) }
{
    match left {
        Some(left) => {
            if !is_carrying(role) {
                return Ok(Some(left));
            }
            let size = size(alloc, role, attrs)?;
            Ok(after_link(left, size, leaves))
        },
        None => Ok(None),
    }
}

// ---- without what is too dear

/// Whether a node is a link or an abbreviation with an address or a title, and nothing is left.
fn is_too_dear(alloc: Global, left: Option<usize>, tree: &Simple) -> Result<bool, AllocError>
    ensures { IfOk result (λ b. b ≡ spec.is_too_dear left (simple_of tree.now)) }
{
    match tree {
        Simple::Element { role, attrs, .. } => {
            Ok(left.is_none() && is_carrying(*role) && has_size(alloc, *role, attrs)?)
        },
        Simple::Text(_) => Ok(false),
        Simple::Image { .. } => Ok(false),
        Simple::Formula { .. } => Ok(false),
        Simple::Embedded(_) => Ok(false),
        Simple::Anchor(_) => Ok(false),
    }
}

/// What a link or an abbreviation is that is its content alone.
fn emptied(role: Role) -> Role
    ensures { result ≡ spec.emptied role }
{
    if role.is_link() {
        Role::Target
    } else {
        Role::Plain
    }
}

/// Makes a link or an abbreviation its content.
fn lose_address(tree: &mut Simple)
    ensures { simple_of tree.new ≡ spec.without_address (simple_of tree.old) }
{
    match tree {
        Simple::Element { role, .. } => *role = emptied(*role),
        Simple::Text(_) => {}
        Simple::Image { .. } => {}
        Simple::Formula { .. } => {}
        Simple::Embedded(_) => {}
        Simple::Anchor(_) => {}
    }
}

/// Takes away the links that are too dear, and gives what is left of the budget.
#[cycle(within)]
fn keep_within(
    alloc: Global,
    left: Option<usize>,
    trees: &mut [Simple],
) -> Result<Option<usize>, AllocError>
    ensures left { IfOk result (λ now. now ≡ spec.left_after_all left (simples_of trees.old)) }
    ensures trees { OnOk result (simples_of trees.new ≡ spec.all_within left (simples_of trees.old)) }
{
    let mut left = left;
    for tree in trees.iter_mut() {
        left = keep_one(alloc, left, tree)?;
    }
    Ok(left)
}

/// The same of a node.
#[cycle(within)]
fn keep_one(
    alloc: Global,
    left: Option<usize>,
    tree: &mut Simple,
) -> Result<Option<usize>, AllocError>
    ensures left { IfOk result (λ now. now ≡ spec.left_after left (simple_of tree.old)) }
    ensures tree { OnOk result (simple_of tree.new ≡ spec.within left (simple_of tree.old)) }
{
    let left = paid(alloc, left, tree)?;
    let is_too_dear = is_too_dear(alloc, left, tree)?;
    let after = keep_content(alloc, left, tree)?;
    if is_too_dear {
        lose_address(tree);
    }
    Ok(after)
}

/// The same of what is in a node.
#[cycle(within)]
fn keep_content(
    alloc: Global,
    left: Option<usize>,
    tree: &mut Simple,
) -> Result<Option<usize>, AllocError>
    ensures left { IfOk result (λ now. now ≡ spec.left_after_all left (kinds.content_of (simple_of tree.old))) }
    ensures tree { OnOk result (simple_of tree.new
        ≡ with_content (simple_of tree.old) (spec.all_within left (kinds.content_of (simple_of tree.old)))) }
{
    match tree {
        Simple::Element { content, .. } => keep_within(alloc, left, content),
        Simple::Text(_) => Ok(left),
        Simple::Image { .. } => Ok(left),
        Simple::Formula { .. } => Ok(left),
        Simple::Embedded(_) => Ok(left),
        Simple::Anchor(_) => Ok(left),
    }
}

// ---- bounds that are soon known

/// Whether links cost so little that what texts allow is enough for them.
fn is_within_texts(trees: &[Simple]) -> bool
    ensures { result ≡ true → simples_of trees.now ≡ spec.limited (simples_of trees.now) }
{
    match most_cost(0, trees) {
        Some(cost) => cost <= least_budget(cost / 4, trees),
        None => false,
    }
}

/// So much, and what the links in nodes cost at most, if that is a number.
#[cycle(cost)]
fn most_cost(count: usize, trees: &[Simple]) -> Option<usize>
    ensures { IfSome result (λ n. Covers count n (λ left. spec.left_after_all left (simples_of trees.now))) }
{
    let mut count = count;
    for tree in trees {
        count = most_cost_of(count, tree)?;
    }
    Some(count)
}

/// The same of a node.
#[cycle(cost)]
fn most_cost_of(count: usize, tree: &Simple) -> Option<usize>
    ensures { IfSome result (λ n. Covers count n (λ left. spec.left_after left (simple_of tree.now))) }
{
    match tree {
        Simple::Element {
            role,
            facts,
            attrs,
            content,
            ..
        } => {
            let count = most_own_cost(count, *role, facts.leaves, attrs)?;
            most_cost(count, content)
        },
        Simple::Text(_) => Some(count),
        Simple::Image { .. } => Some(count),
        Simple::Formula { .. } => Some(count),
        Simple::Embedded(_) => Some(count),
        Simple::Anchor(_) => Some(count),
    }
}

/// The same of an element itself, around so many things that show.
#[tactic(auto, using(crate::proofs::CoversLemmas::nothing_paid, crate::proofs::CoversLemmas::link_paid))]
fn most_own_cost(count: usize, role: Role, leaves: u32, attrs: &[Attribute]) -> Option<usize>
    ensures { IfSome result (λ n. Covers count n (λ left. spec.paid left
        (if spec.is_carrying role then spec.link_cost (spec.size role (pairs_of attrs.now)) leaves else Some 0))) }
{
    if !is_carrying(role) {
        return Some(count);
    }
    if leaves == u32::MAX {
        return None;
    }
    let cost = most_size(role, attrs)?.checked_mul(leaves as usize)?;
    count.checked_add(cost)
}

/// How many characters are written with each piece of a link or an abbreviation at most, by the bytes of its
/// attributes.
#[tactic(auto, using(crate::proofs::TextLengths::size_le))]
fn most_size(role: Role, attrs: &[Attribute]) -> Option<usize>
    ensures { IfSome result (λ n. spec.size role (pairs_of attrs.now) ≤ n) }
{
    let address = text_of(attrs, "href").len();
    let title = text_of(attrs, "title").len();
    address.checked_add(title)?.checked_mul(2)?.checked_add(1)
}

/// What the budget is at least, by the bytes of texts alone, of which so many are enough: a character has at most four,
/// and counts 16 times.
fn least_budget(enough: usize, trees: &[Simple]) -> usize
    ensures { result ≤ spec.budget (simples_of trees.now) }
{
    text_bytes(0, enough, trees)
        .saturating_mul(4)
        .saturating_add(ALWAYS_WRITTEN)
}

/// So many bytes, and those of the texts in nodes that show as they are, as far as they are needed.
#[cycle(bytes)]
fn text_bytes(count: usize, enough: usize, trees: &[Simple]) -> usize
    ensures { result ≤ count + 4 * all_text_characters (simples_of trees.now) }
{
    let mut count = count;
    for tree in trees {
        if count >= enough {
            return count;
        }
        count = text_bytes_of(count, enough, tree);
    }
    count
}

/// The same of a node.
#[cycle(bytes)]
fn text_bytes_of(count: usize, enough: usize, tree: &Simple) -> usize
    ensures { result ≤ count + 4 * text_characters (simple_of tree.now) }
{
    match tree {
        Simple::Text(text) => shown_bytes(count, text),
        Simple::Element { content, .. } => text_bytes(count, enough, content),
        Simple::Image { .. } => count,
        Simple::Formula { .. } => count,
        Simple::Embedded(_) => count,
        Simple::Anchor(_) => count,
    }
}

/// So many bytes, and those of a text that shows as it is.
fn shown_bytes(count: usize, text: &str) -> usize
    ensures { result ≤ count + 4 * spec.characters (shown_text text.now) }
{
    if is_all_shown(text) {
        count.saturating_add(text.len())
    } else {
        count
    }
}

// ---- the budget

/// How many characters may be written of all addresses and titles.
fn budget(alloc: Global, trees: &[Simple]) -> Result<usize, AllocError>
    ensures { IfOk result (λ n. n ≡ spec.budget (simples_of trees.now)) }
{
    let mut written = Written {
        alloc,
        count: 0,
        pairs: HashSet::new(alloc),
    };
    written.note_all(trees)?;
    match written.count.checked_mul(MOST_WRITTEN) {
        Some(often) => sum(often, ALWAYS_WRITTEN),
        None => Err(AllocError),
    }
}

impl Written {
    /// Counts what texts have, and what links have that are new.
    #[cycle(written)]
    fn note_all(&mut self, trees: &[Simple]) -> Result<(), AllocError>
        ensures { OnOk result ((w : spec.Written) → Counts self.old w
            → Counts self.new (spec.written_all w (simples_of trees.now))) }
    {
        for tree in trees {
            self.note(tree)?;
        }
        Ok(())
    }

    /// The same of a node.
    #[cycle(written)]
    fn note(&mut self, tree: &Simple) -> Result<(), AllocError>
        ensures { OnOk result ((w : spec.Written) → Counts self.old w
            → Counts self.new (spec.written w (simple_of tree.now))) }
    {
        match tree {
            Simple::Text(text) => {
                self.count = sum(self.count, shown_len(text))?;
                Ok(())
            },
            Simple::Element {
                role,
                attrs,
                content,
                ..
            } => {
                self.note_element(*role, attrs)?;
                self.note_all(content)
            },
            Simple::Image { .. } => Ok(()),
            Simple::Formula { .. } => Ok(()),
            Simple::Embedded(_) => Ok(()),
            Simple::Anchor(_) => Ok(()),
        }
    }

    /// Counts what an element itself has, which is a link, an abbreviation or neither.
    fn note_element(&mut self, role: Role, attrs: &[Attribute]) -> Result<(), AllocError>
        ensures { OnOk result ((w : spec.Written) → Counts self.old w
            → Counts self.new (spec.with_element w role (pairs_of attrs.now))) }
    {
        if !is_carrying(role) {
            return Ok(());
        }
        self.note_pair(role, attrs)
    }

    /// Counts the address and the title of a link or an abbreviation, if they are new.
    fn note_pair(&mut self, role: Role, attrs: &[Attribute]) -> Result<(), AllocError>
        ensures { OnOk result ((w : spec.Written) → Counts self.old w
            → Counts self.new (spec.with_pair w role (pairs_of attrs.now))) }
    {
        let is_new = self.pairs.insert(pair_of(self.alloc, role, attrs)?)?;
        if !is_new {
            return Ok(());
        }
        self.count = sum(self.count, size(self.alloc, role, attrs)?)?;
        Ok(())
    }
}

/// How many characters of a text show.
fn shown_len(text: &str) -> usize
    ensures { result ≡ spec.characters (shown_text text.now) }
{
    text.chars().filter(|c| is_shown(*c)).count()
}

/// The address and the title with U+0000 between, which neither of them has.
fn pair_of(alloc: Global, role: Role, attrs: &[Attribute]) -> Result<String, AllocError>
    ensures { IfOk result (λ s. string_bytes s ≡ spec.pair_of role (pairs_of attrs.now)) }
{
    let mut pair = address(alloc, address_in(role, attrs))?;
    pair.push('\0')?;
    if let Some(title) = title_of(alloc, attrs)? {
        pair.push_str(title.as_str())?;
    }
    Ok(pair)
}
