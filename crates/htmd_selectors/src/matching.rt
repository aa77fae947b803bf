//! Which elements a selector names.
ghost use Rattle.std.specs.Prelude.{◌≡◌, ◌&&◌, length, map, codes, true, false, vec_len, IfOk};
ghost use Rattle.htmd_lexical.specs.Attributes.{pairs_of};
ghost use Rattle.htmd_selectors.specs.Matching as spec;
ghost use Rattle.htmd_selectors.specs.ElementViews.{element_of, place_of};
ghost use Rattle.htmd_selectors.specs.declared.selectors.Operator.TheVariants as spec_operator;
ghost use Rattle.htmd_selectors.specs.SelectorStates as spec_states;
ghost use Rattle.htmd_selectors.specs.Views.{condition_of, compounds_of, test_of, steps_of};

use crate::selectors::{
    Comparison, Compound, Condition, Operator, Peers, Relation, Row, Side, Step, Test,
};
use htmd_nodes::Attribute;
use std::alloc::{AllocError, Global};

/// Whether two names are the same, ASCII letters in either case.
pub(crate) fn is_same_name(a: &[u8], b: &[u8]) -> bool
    ensures { result ≡ spec.same_name a.now b.now }
{
    a.eq_ignore_ascii_case(b)
}

fn has_attribute(attrs: &[Attribute], name: &[u8]) -> bool
    ensures { result ≡ spec.has_such name.now (λ value. true) (pairs_of attrs.now) }
{
    for attribute in attrs {
        if is_same_name(attribute.name.as_bytes(), name) {
            return true;
        }
    }
    false
}

/// Whether two values are the same, or are so with ASCII letters in either case.
fn is_same_value(caseless: bool, a: &[u8], b: &[u8]) -> bool
    ensures { result ≡ spec.same_value caseless a.now b.now }
{
    if caseless {
        return is_same_name(a, b);
    }
    a == b
}

fn begins_with(caseless: bool, wanted: &[u8], value: &[u8]) -> bool
    ensures { result ≡ spec.begins_with caseless wanted.now value.now }
{
    let len = wanted.len();
    len <= value.len() && is_same_value(caseless, &value[..len], wanted)
}

fn ends_with(caseless: bool, wanted: &[u8], value: &[u8]) -> bool
    ensures { result ≡ spec.ends_with caseless wanted.now value.now }
{
    let len = wanted.len();
    len <= value.len() && is_same_value(caseless, &value[value.len() - len..], wanted)
}

/// Whether a value has a text somewhere.
fn contains(caseless: bool, wanted: &[u8], value: &[u8]) -> bool
    ensures { result ≡ spec.contains caseless wanted.now value.now }
{
    for place in 0..value.len() {
        if begins_with(caseless, wanted, &value[place..]) {
            return true;
        }
    }
    false
}

/// Whether a word is between ASCII white space.
fn has_word(caseless: bool, word: &[u8], value: &[u8]) -> bool
    ensures { result ≡ spec.has_word caseless word.now value.now }
{
    value
        .split(|b| b.is_ascii_whitespace())
        .any(|part| is_same_value(caseless, part, word))
}

/// Whether a value begins with a text, and then ends or goes on with a hyphen.
fn begins_subtag(caseless: bool, wanted: &[u8], value: &[u8]) -> bool
    ensures { result ≡ spec.compares spec_operator.Dash caseless wanted.now value.now }
{
    if !begins_with(caseless, wanted, value) {
        return false;
    }
    match value[wanted.len()..].first() {
        Some(b) => *b == b'-',
        None => true,
    }
}

/// Whether a value is to the wanted one what the operator says.
fn is_such(comparison: Comparison, wanted: &[u8], value: &[u8]) -> bool
    ensures { result ≡ spec.is_such comparison wanted.now value.now }
{
    let caseless = comparison.caseless;
    match comparison.operator {
        Operator::Equals => is_same_value(caseless, value, wanted),
        Operator::Includes => !wanted.is_empty() && has_word(caseless, wanted, value),
        Operator::Dash => begins_subtag(caseless, wanted, value),
        Operator::Prefix => !wanted.is_empty() && begins_with(caseless, wanted, value),
        Operator::Suffix => !wanted.is_empty() && ends_with(caseless, wanted, value),
        Operator::Substring => !wanted.is_empty() && contains(caseless, wanted, value),
    }
}

/// The case counts.
fn exactly(operator: Operator) -> Comparison
    ensures { result ≡ spec.exactly operator }
{
    Comparison {
        operator,
        caseless: false,
    }
}

/// Whether an attribute with this name has a value that compares so to the wanted one.
fn has_value(attrs: &[Attribute], name: &[u8], comparison: Comparison, wanted: &[u8]) -> bool
    ensures { result ≡ spec.has_such name.now (spec.is_such comparison wanted.now) (pairs_of attrs.now) }
{
    for attribute in attrs {
        if is_same_name(attribute.name.as_bytes(), name)
            && is_such(comparison, wanted, attribute.value.as_bytes())
        {
            return true;
        }
    }
    false
}

/// How many elements of a parent are before an element, and how many are after it.
#[derive(Clone, Copy, Drop)]
pub(crate) struct Counts {
    pub(crate) before: usize,
    pub(crate) after: usize,
}

/// Where an element is.
#[derive(Clone, Copy)]
pub(crate) struct Place {
    /// Among all elements of its parent.
    pub(crate) among_all: Counts,
    /// Among those with its name, where a step asks for that.
    pub(crate) of_type: Counts,
    /// It holds neither an element nor a text.
    pub(crate) holds_nothing: bool,
    /// No element is around it.
    pub(crate) has_no_parent: bool,
}

/// An element, as a selector sees it.
#[derive(Clone, Copy)]
pub(crate) struct Element<'a> {
    pub(crate) name: &'a str,
    pub(crate) attrs: &'a [Attribute],
    pub(crate) place: Place,
}

fn counts_among(peers: Peers, place: Place) -> Counts
    ensures { result ≡ spec.counts_among peers (place_of place) }
{
    match peers {
        Peers::All => place.among_all,
        Peers::SameName => place.of_type,
    }
}

/// How many elements are before a place in a row.
fn count_in(row: Row, place: Place) -> usize
    ensures { result ≡ spec.count_in row (place_of place) }
{
    let counts = counts_among(row.peers, place);
    match row.side {
        Side::First => counts.before,
        Side::Last => counts.after,
    }
}

/// Whether none of these elements of its parent is before an element.
fn is_first(peers: Peers, place: Place) -> bool
    ensures { result ≡ spec.is_first_among peers (place_of place) }
{
    counts_among(peers, place).before == 0
}

/// Whether none is after it.
fn is_last(peers: Peers, place: Place) -> bool
    ensures { result ≡ spec.is_last_among peers (place_of place) }
{
    counts_among(peers, place).after == 0
}

/// Whether an element meets a condition.
fn meets(e: &Element<'_>, condition: &Condition) -> bool
    ensures { result ≡ spec.meets (element_of e.now) (condition_of condition.now) }
{
    match condition {
        Condition::Any => true,
        Condition::Tag(wanted) => is_same_name(e.name.as_bytes(), wanted.as_slice()),
        Condition::Class(class) => {
            has_value(
                e.attrs,
                b"class",
                exactly(Operator::Includes),
                class.as_slice(),
            )
        }
        Condition::Id(id) => has_value(e.attrs, b"id", exactly(Operator::Equals), id.as_slice()),
        Condition::Attribute(name) => has_attribute(e.attrs, name.as_slice()),
        Condition::Value {
            name,
            comparison,
            value,
        } => has_value(e.attrs, name.as_slice(), *comparison, value.as_slice()),
        Condition::First(peers) => is_first(*peers, e.place),
        Condition::Last(peers) => is_last(*peers, e.place),
        Condition::Only(peers) => is_first(*peers, e.place) && is_last(*peers, e.place),
        Condition::Empty => e.place.holds_nothing,
        Condition::Root => e.place.has_no_parent,
        Condition::Nth { row, series } => series.has(count_in(*row, e.place)),
    }
}

fn meets_all(e: &Element<'_>, conditions: &[Condition]) -> bool
    ensures { result ≡ spec.meets_all (element_of e.now) (map condition_of conditions.now) }
{
    for condition in conditions {
        if !meets(e, condition) {
            return false;
        }
    }
    true
}

/// Whether an element meets all conditions of one of the compounds.
fn meets_any(e: &Element<'_>, compounds: &[Compound]) -> bool
    ensures { result ≡ spec.meets_any (element_of e.now) (compounds_of compounds.now) }
{
    for compound in compounds {
        if meets_all(e, compound.conditions.as_slice()) {
            return true;
        }
    }
    false
}

/// Whether an element passes what a step asks.
fn passes(e: &Element<'_>, test: &Test) -> bool
    ensures { result ≡ spec.passes (element_of e.now) (test_of test.now) }
{
    match test {
        Test::Asks(condition) => meets(e, condition),
        Test::Among { negated, compounds } => {
            let found = meets_any(e, compounds.as_slice());
            if *negated { !found } else { found }
        }
    }
}

/// What is known at a step of elements in a row, those around a place or those before it: that the steps up to it name
/// the nearest of them, and that they name one of them.
#[derive(Clone, Copy, Drop)]
pub(crate) struct StepState {
    here: bool,
    within: bool,
}

/// What is known of no elements.
pub(crate) const NO_MARK: StepState = StepState {
    here: false,
    within: false,
};

/// What is known before a node: the states of the elements around it, and of those of its parent before it; how many
/// these are, and how many are still to come; how many of its name are before and after each element of its parent,
/// where a step asks for that; and whether no element is around it.
#[derive(Drop)]
pub(crate) struct Known<'a> {
    pub(crate) parent: &'a [StepState],
    pub(crate) beside: Vec<StepState>,
    pub(crate) before: usize,
    pub(crate) left: usize,
    pub(crate) types: Vec<Counts>,
    pub(crate) has_no_parent: bool,
}

/// Whether the steps before this one name what this one needs: `same` is said of the element itself, `parent` of those
/// around it, and `beside` of those before it.
fn is_reached(relation: Relation, same: bool, parent: StepState, beside: StepState) -> bool
    ensures { result ≡ spec_states.is_reached relation same parent beside }
{
    match relation {
        Relation::Start => true,
        Relation::Same => same,
        Relation::Child => parent.here,
        Relation::Below => parent.within,
        Relation::Next => beside.here,
        Relation::After => beside.within,
    }
}

/// Which steps name an element.
pub(crate) fn named_steps(
    alloc: Global,
    steps: &[Step],
    known: &Known<'_>,
    e: &Element<'_>,
) -> Result<Vec<bool>, AllocError>
    requires parent { length known.now.parent.now ≡ length steps.now }
    requires beside { vec_len known.now.beside ≡ length steps.now }
    ensures value { IfOk result (λ m. m.items ≡ spec_states.named_steps false spec_states.no_state
        spec_states.no_state (element_of e.now) (steps_of steps.now) known.now.parent.now known.now.beside.items) }
    ensures count { IfOk result (λ m. vec_len m ≡ length steps.now) }
{
    let mut named = Vec::with_capacity(alloc, steps.len())?;
    let mut same = false;
    let mut above = NO_MARK;
    let mut near = NO_MARK;
    for (i, step) in steps.iter().enumerate() {
        same = is_reached(step.relation, same, above, near) && passes(e, &step.test);
        named.push(same)?;
        above = known.parent[i];
        near = known.beside[i];
    }
    Ok(named)
}

/// The states of elements and one more, which these steps name.
pub(crate) fn with_element(
    alloc: Global,
    named: &[bool],
    states: &[StepState],
) -> Result<Vec<StepState>, AllocError>
    requires { length states.now ≡ length named.now }
    ensures value { IfOk result (λ m. m.items ≡ spec_states.with_element named.now states.now) }
    ensures count { IfOk result (λ m. vec_len m ≡ length named.now) }
{
    let mut more = Vec::with_capacity(alloc, named.len())?;
    for (i, here) in named.iter().enumerate() {
        let here = *here;
        let within = here || states[i].within;
        more.push(StepState { here, within })?;
    }
    Ok(more)
}

/// Whether an element that these steps name is named by one of the selectors.
pub(crate) fn is_named(steps: &[Step], named: &[bool]) -> bool
    requires { length named.now ≡ length steps.now }
    ensures { result ≡ spec_states.is_named_by false (steps_of steps.now) named.now }
{
    let mut here = false;
    for (i, step) in steps.iter().enumerate() {
        if step.relation == Relation::Start && here {
            return true;
        }
        here = named[i];
    }
    here
}
