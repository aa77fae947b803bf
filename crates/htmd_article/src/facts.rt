//! What is known of a node.
ghost use Rattle.std.specs.Prelude.{◌≡◌, ◌+◌, ◌*◌, nat_lt, IfOk};
ghost use Rattle.htmd_lexical.specs.Attributes.{pairs_of};
ghost use Rattle.htmd_nodes.specs.Views.{data_of};
ghost use Rattle.htmd_article.specs.Facts as spec;

use crate::letters::counts_of;
use crate::names::{is_block, is_heading, is_unseen};
use crate::sayings::is_main;
use htmd_nodes::{Attribute, Name, NodeData};
use std::alloc::AllocError;

/// Characters in a node, shown or not.
#[derive(Clone, Copy, Drop)]
pub(crate) struct Counts {
    pub(crate) letters: usize,
    /// Those that aren't ASCII white space.
    pub(crate) characters: usize,
    /// The signs of links to headings.
    pub(crate) signs: usize,
}

impl Counts {
    pub(crate) const NONE: Counts = Counts {
        letters: 0,
        characters: 0,
        signs: 0,
    };
}

/// What is known of a node.
#[derive(Clone, Copy, Drop)]
pub(crate) struct Facts {
    pub(crate) counts: Counts,
    /// Letters in it but in no block in it, and those of them in links.
    pub(crate) own: usize,
    pub(crate) own_linked: usize,
    /// Letters in blocks in it: of prose, and of links.
    pub(crate) prose: usize,
    pub(crate) links: usize,
    pub(crate) has_heading: bool,
    pub(crate) has_h1: bool,
    pub(crate) has_main: bool,
}

impl Facts {
    /// Of a node in which nothing is.
    pub(crate) const NONE: Facts = Facts {
        counts: Counts::NONE,
        own: 0,
        own_linked: 0,
        prose: 0,
        links: 0,
        has_heading: false,
        has_h1: false,
        has_main: false,
    };

    /// Whether letters of it show.
    pub(crate) fn shows(self) -> bool
        ensures { result ≡ spec.shows self }
    {
        self.prose > 0 || self.links > 0
    }

    /// Whether more of its letters are links than prose.
    pub(crate) fn is_linked(self) -> bool
        ensures { result ≡ spec.is_linked self }
    {
        self.links > self.prose
    }
}

/// `Err` means that the sum is no number of letters in memory.
pub(crate) fn sum(a: usize, b: usize) -> Result<usize, AllocError>
    ensures { IfOk result (λ n. n ≡ a + b) }
{
    match a.checked_add(b) {
        Some(n) => Ok(n),
        None => Err(AllocError),
    }
}

fn counts_sum(a: Counts, b: Counts) -> Result<Counts, AllocError>
    ensures { IfOk result (λ counts. counts ≡ spec.counts_sum a b) }
{
    Ok(Counts {
        letters: sum(a.letters, b.letters)?,
        characters: sum(a.characters, b.characters)?,
        signs: sum(a.signs, b.signs)?,
    })
}

/// Of two nodes beside each other.
pub(crate) fn facts_sum(a: Facts, b: Facts) -> Result<Facts, AllocError>
    ensures { IfOk result (λ facts. facts ≡ spec.facts_sum a b) }
{
    Ok(Facts {
        counts: counts_sum(a.counts, b.counts)?,
        own: sum(a.own, b.own)?,
        own_linked: sum(a.own_linked, b.own_linked)?,
        prose: sum(a.prose, b.prose)?,
        links: sum(a.links, b.links)?,
        has_heading: a.has_heading || b.has_heading,
        has_h1: a.has_h1 || b.has_h1,
        has_main: a.has_main || b.has_main,
    })
}

/// Of a text, in a link or not.
pub(crate) fn text_facts(is_linked: bool, text: &str) -> Facts
    ensures { result ≡ spec.text_facts is_linked text.now }
{
    let counts = counts_of(text);
    let letters = counts.letters;
    Facts {
        counts,
        own: if is_linked { 0 } else { letters },
        own_linked: if is_linked { letters } else { 0 },
        ..Facts::NONE
    }
}

/// Whether more than two thirds of so many letters and so many linked ones are linked.
fn are_linked(own: usize, own_linked: usize) -> bool
    ensures { result ≡ nat_lt (2 * own) own_linked }
{
    own < own_linked.saturating_sub(own)
}

/// Of a block, by the letters in no block in it.
fn with_block(facts: Facts) -> Result<Facts, AllocError>
    ensures { IfOk result (λ block. block ≡ spec.with_block facts) }
{
    let own = sum(facts.own, facts.own_linked)?;
    let (prose, links) = if are_linked(facts.own, facts.own_linked) {
        (facts.prose, sum(facts.links, own)?)
    } else {
        (sum(facts.prose, own)?, facts.links)
    };
    Ok(Facts {
        own: 0,
        own_linked: 0,
        prose,
        links,
        ..facts
    })
}

/// Of an element, by what is below it.
fn element_facts(name: &Name, attrs: &[Attribute], below: Facts) -> Result<Facts, AllocError>
    ensures { IfOk result (λ facts. facts ≡ spec.element_facts name.now (pairs_of attrs.now) below) }
{
    if is_unseen(name) {
        return Ok(Facts {
            counts: below.counts,
            ..Facts::NONE
        });
    }
    let facts = Facts {
        has_heading: is_heading(name) || below.has_heading,
        has_h1: name.as_str() == "h1" || below.has_h1,
        has_main: is_main(name, attrs) || below.has_main,
        ..below
    };
    if is_block(name) {
        return with_block(facts);
    }
    Ok(facts)
}

/// Of a node, by what is below it.
pub(crate) fn facts_over(node: &NodeData, below: Facts) -> Result<Facts, AllocError>
    ensures { IfOk result (λ facts. facts ≡ spec.facts_over (data_of node.now) below) }
{
    match node {
        NodeData::Document => with_block(below),
        NodeData::Element { name, attrs } => element_facts(name, attrs.as_slice(), below),
        NodeData::Doctype | NodeData::Text(_) | NodeData::Comment(_) => Ok(below),
    }
}
