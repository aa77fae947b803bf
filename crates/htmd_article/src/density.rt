//! The part with the most prose, where the page says nothing.
ghost use Rattle.std.specs.Prelude.{◌≡◌};
ghost use Rattle.htmd_nodes.specs.Views.{data_of};
ghost use Rattle.htmd_article.specs.ChoiceViews.{best_of};
ghost use Rattle.htmd_article.specs.Density as spec;
ghost use Rattle.htmd_article.specs.PartViews.{part_of};

use crate::choices::Chosen;
use crate::facts::Facts;
use crate::names::is_container;
use crate::parts::Part;
use htmd_nodes::NodeData;

/// The best part so far, and whether it is the body or was found by density.
#[derive(Clone, Copy, Drop)]
pub(crate) struct Best<'p, 't> {
    pub(crate) chosen: Chosen,
    pub(crate) part: &'p Part<'t>,
}

/// Whether it has more prose above half its links than another.
fn is_denser(facts: Facts, than: Facts) -> bool
    ensures { result ≡ spec.is_denser facts than }
{
    let (prose, links) = (facts.prose as u128, facts.links as u128);
    let (other_prose, other_links) = (than.prose as u128, than.links as u128);
    2 * other_prose + links < 2 * prose + other_links
}

/// Whether the node can be chosen: it is a container of a heading.
fn holds_title(node: &NodeData, facts: Facts) -> bool
    ensures { result ≡ spec.holds_title (data_of node.now) facts }
{
    match node {
        NodeData::Element { name, .. } => is_container(name) && facts.has_heading,
        NodeData::Document | NodeData::Doctype | NodeData::Text(_) | NodeData::Comment(_) => false,
    }
}

/// Whether so many letters are at least nine tenths of a whole.
fn holds_most(total: usize, prose: usize) -> bool
    ensures { result ≡ spec.holds_most total prose }
{
    total.saturating_sub(prose) <= total / 10
}

/// The part, if it is better than the best so far.
fn better<'p, 't>(best: Best<'p, 't>, part: &'p Part<'t>) -> Best<'p, 't>
    ensures { best_of result ≡ spec.better (best_of best.entry) (part_of part.now) }
{
    if holds_title(part.node, part.facts) && is_denser(part.facts, best.part.facts) {
        let chosen = Chosen::Density;
        return Best { chosen, part };
    }
    best
}

/// The best part in this one, going down while a part holds nine tenths of the prose.
fn densest_below<'p, 't>(total: usize, best: Best<'p, 't>, part: &'p Part<'t>) -> Best<'p, 't>
    ensures { best_of result ≡ spec.densest_below total (best_of best.entry) (part_of part.now) }
{
    for inner in &part.parts {
        if holds_most(total, inner.facts.prose) {
            return densest_below(total, better(best, inner), inner);
        }
    }
    best
}

/// The part of a body with the most prose and few links.
pub(crate) fn densest<'p, 't>(body: &'p Part<'t>) -> Best<'p, 't>
    ensures { best_of result ≡ spec.densest_of (part_of body.now) }
{
    let chosen = Chosen::Body;
    let best = Best { chosen, part: body };
    if body.facts.prose == 0 {
        return best;
    }
    densest_below(body.facts.prose, best, body)
}
