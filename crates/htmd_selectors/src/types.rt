//! The places of elements among those of their parent with the same name, counted once for all children of a node.
ghost use Rattle.std.specs.Prelude.{◌≡◌, ◌+◌, ◌<◌, ◌^◌, ℕ, if◌then◌else◌, List, [], drop, length, map, IfOk, OnOk};
ghost use Rattle.std.specs.Str.{bytes_eq};
ghost use Rattle.htmd_nodes.specs.Items.{children_of};
ghost use Rattle.htmd_nodes.specs.NumberedTrees.{tree_of, forest_of, value_forest};
ghost use Rattle.htmd_selectors.specs.Types as spec;
ghost use Rattle.htmd_selectors.specs.TypeViews.{names_of, seen_of};
ghost use Rattle.htmd_selectors.specs.SelectedParts as parts;
ghost use Rattle.htmd_selectors.specs.Views.{condition_of, compounds_of, test_of, steps_of};

use crate::matching::Counts;
use crate::selectors::{Compound, Condition, Peers, Step, Test};
use htmd_nodes::{NodeData, NodeId, Tree};
use std::alloc::{AllocError, Global};
use std::collections::BTreeMap;

/// Whether a condition is about elements with the same name.
fn is_of_type(condition: &Condition) -> bool
    ensures { result ≡ spec.is_of_type (condition_of condition.now) }
{
    let peers = match condition {
        Condition::First(peers) | Condition::Last(peers) | Condition::Only(peers) => *peers,
        Condition::Nth { row, .. } => row.peers,
        _ => return false,
    };
    matches!(peers, Peers::SameName)
}

fn some_of_type(conditions: &[Condition]) -> bool
    ensures { result ≡ spec.some_of_type (map condition_of conditions.now) }
{
    for condition in conditions {
        if is_of_type(condition) {
            return true;
        }
    }
    false
}

fn any_of_type(compounds: &[Compound]) -> bool
    ensures { result ≡ spec.any_of_type (compounds_of compounds.now) }
{
    for compound in compounds {
        if some_of_type(compound.conditions.as_slice()) {
            return true;
        }
    }
    false
}

fn asks_type(test: &Test) -> bool
    ensures { result ≡ spec.asks_type (test_of test.now) }
{
    match test {
        Test::Asks(condition) => is_of_type(condition),
        Test::Among { compounds, .. } => any_of_type(compounds.as_slice()),
    }
}

/// Whether a step asks for places among elements with the same name.
pub(crate) fn asks_types(steps: &[Step]) -> bool
    ensures { result ≡ spec.asks_types (steps_of steps.now) }
{
    for step in steps {
        if asks_type(&step.test) {
            return true;
        }
    }
    false
}

/// The names of the elements among the children of a node.
pub(crate) fn element_names<'a>(
    alloc: Global,
    tree: &'a Tree,
    node: NodeId,
) -> Result<Vec<&'a str>, AllocError>
    requires { node < length tree.now }
    ensures { IfOk result (λ names. names_of names.items
        ≡ parts.element_names (value_forest (forest_of (tree_of tree.now) (children_of tree.now node)))) }
{
    let mut names = Vec::new(alloc);
    for child in tree.children(node) {
        if let NodeData::Element { name, .. } = tree.data(*child) {
            names.push(name.as_str())?;
        }
    }
    Ok(names)
}

/// How often a name was seen.
fn times(seen: &BTreeMap<&str, usize>, name: &str) -> usize
    ensures { result ≡ seen_of seen.now name.now }
{
    match seen.get(name) {
        Some(count) => *count,
        None => 0,
    }
}

/// A name is seen once more; how often it was before.
fn see<'a>(seen: &mut BTreeMap<&'a str, usize>, name: &'a str) -> Result<usize, AllocError>
    requires { seen_of seen.old name.now + 1 < 2 ^ 64 }
    ensures count { IfOk result (λ count. count ≡ seen_of seen.old name.now) }
    ensures seen { OnOk result ((other : List ℕ) → seen_of seen.new other
        ≡ (if bytes_eq name.now other then 1 else 0) + seen_of seen.old other) }
{
    let count = times(seen, name);
    seen.insert(name, count.saturating_add(1))?;
    Ok(count)
}

/// How often each of these names is there.
fn totals<'a>(alloc: Global, names: &[&'a str]) -> Result<BTreeMap<&'a str, usize>, AllocError>
    ensures { IfOk result (λ seen. (name : List ℕ) → seen_of seen name
        ≡ spec.occurrences name (names_of names.now)) }
{
    let mut seen = BTreeMap::new(alloc);
    for name in names {
        see(&mut seen, name)?;
    }
    Ok(seen)
}

/// For each of these names, how many of the same are before it, and how many are after it.
pub(crate) fn type_counts(alloc: Global, names: &[&str]) -> Result<Vec<Counts>, AllocError>
    ensures { IfOk result (λ counts. counts.items ≡ spec.type_counts [] (names_of names.now)) }
{
    let totals = totals(alloc, names)?;
    let mut seen = BTreeMap::new(alloc);
    let mut counts = Vec::with_capacity(alloc, names.len())?;
    for name in names {
        let before = see(&mut seen, name)?;
        let after = times(&totals, name)
            .saturating_sub(before)
            .saturating_sub(1);
        counts.push(Counts { before, after })?;
    }
    Ok(counts)
}

/// The counts of the element after so many others, if they were counted.
pub(crate) fn type_at(types: &[Counts], before: usize) -> Counts
    ensures { result ≡ spec.first_counts (drop before types.now) }
{
    match types.get(before) {
        Some(counts) => *counts,
        None => {
            Counts {
                before: 0,
                after: 0,
            }
        }
    }
}
