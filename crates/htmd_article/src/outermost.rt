//! What a page says of its parts.
ghost use Rattle.std.specs.Prelude.{◌≡◌, length, IfOk};
ghost use Rattle.htmd_nodes.specs.Views.{data_of};
ghost use Rattle.htmd_article.specs.Choices.{first_large, large_article, prose_in};
ghost use Rattle.htmd_article.specs.Choices as choices;
ghost use Rattle.htmd_article.specs.Outermost as spec;
ghost use Rattle.htmd_article.specs.declared.outermost.Landmark.TheVariants as landmark;
ghost use Rattle.htmd_article.specs.PartViews.{part_of, part_found};

use crate::facts::{Facts, sum};
use crate::names::is_unseen;
use crate::parts::{Part, is_entered};
use crate::sayings::{is_article, is_article_body, is_main};
use htmd_nodes::NodeData;
use std::alloc::AllocError;

/// What an element can say that it is.
#[derive(Clone, Copy, Drop)]
pub(crate) enum Landmark {
    Main,
    ArticleBody,
    Article,
}

/// Whether the node is such an element, and shows.
pub(crate) fn is_landmark(mark: Landmark, node: &NodeData, facts: Facts) -> bool
    ensures { result ≡ spec.is_landmark mark (data_of node.now) facts }
{
    let NodeData::Element { name, attrs } = node else {
        return false;
    };
    match mark {
        Landmark::Main => is_main(name, attrs.as_slice()) && facts.shows(),
        Landmark::ArticleBody => is_article_body(attrs.as_slice()) && facts.shows(),
        Landmark::Article => is_article(name, attrs.as_slice()) && !is_unseen(name),
    }
}

/// How many such elements are outermost, the node with them.
#[tactic(auto, using(crate::proofs::OutermostLemmas::outermost_steps))]
pub(crate) fn outermost_count(mark: Landmark, part: &Part) -> Result<usize, AllocError>
    ensures { IfOk result (λ count. count ≡ length (spec.outermost mark (part_of part.now))) }
{
    if is_landmark(mark, part.node, part.facts) {
        return Ok(1);
    }
    if !is_entered(part.node) {
        return Ok(0);
    }
    let mut count = 0;
    for inner in &part.parts {
        count = sum(count, outermost_count(mark, inner)?)?;
    }
    Ok(count)
}

/// How many letters of prose are in the outermost such elements.
#[tactic(auto, using(crate::proofs::OutermostLemmas::outermost_steps))]
pub(crate) fn outermost_prose(mark: Landmark, part: &Part) -> Result<usize, AllocError>
    ensures { IfOk result (λ prose. prose ≡ prose_in (spec.outermost mark (part_of part.now))) }
{
    if is_landmark(mark, part.node, part.facts) {
        return Ok(part.facts.prose);
    }
    if !is_entered(part.node) {
        return Ok(0);
    }
    let mut prose = 0;
    for inner in &part.parts {
        prose = sum(prose, outermost_prose(mark, inner)?)?;
    }
    Ok(prose)
}

/// Whether so many letters are more than half of a whole.
fn is_large(whole: usize, prose: usize) -> bool
    ensures { result ≡ choices.is_large whole prose }
{
    whole.saturating_sub(prose) < prose
}

/// The first of the outermost articles with more than half of so many letters of prose, the node with them.
#[tactic(auto, using(crate::proofs::OutermostLemmas::outermost_steps))]
pub(crate) fn large_in<'p, 't>(whole: usize, part: &'p Part<'t>) -> Option<&'p Part<'t>>
    ensures { part_found result ≡ first_large whole (spec.outermost landmark.Article (part_of part.now)) }
{
    if is_landmark(Landmark::Article, part.node, part.facts) {
        return if is_large(whole, part.facts.prose) {
            Some(part)
        } else {
            None
        };
    }
    if !is_entered(part.node) {
        return None;
    }
    for inner in &part.parts {
        if let Some(found) = large_in(whole, inner) {
            return Some(found);
        }
    }
    None
}

/// The same in the outermost elements that say that they are something.
#[tactic(auto, using(crate::proofs::OutermostLemmas::large_steps))]
pub(crate) fn large_within<'p, 't>(
    whole: usize,
    mark: Landmark,
    part: &'p Part<'t>,
) -> Option<&'p Part<'t>>
    ensures { part_found result ≡ large_article whole (spec.outermost mark (part_of part.now)) }
{
    if is_landmark(mark, part.node, part.facts) {
        return large_in(whole, part);
    }
    if !is_entered(part.node) {
        return None;
    }
    for inner in &part.parts {
        if let Some(found) = large_within(whole, mark, inner) {
            return Some(found);
        }
    }
    None
}
