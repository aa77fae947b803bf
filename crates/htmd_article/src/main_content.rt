//! The main content of a page, as a page of its own.
ghost use Rattle.std.specs.Prelude.{◌≡◌, ◌<◌, ◌++◌, ◌∷◌, [], length, IfOk, OnOk};
ghost use Rattle.htmd_nodes.specs.Items.{document_item};
ghost use Rattle.htmd_nodes.specs.Layout.{forest_items};
ghost use Rattle.htmd_nodes.specs.NumberedTrees.{value_at};
ghost use Rattle.htmd_article.specs.Articles as spec;
ghost use Rattle.htmd_article.specs.Density.{densest_of};
ghost use Rattle.htmd_article.specs.PartViews.{part_of};
ghost use Rattle.htmd_article.specs.TopLinks.{without_top_links};
ghost use Rattle.htmd_article.specs.Writing.{written_whole};

use crate::choices::{Chosen, chosen_by, large_article, said_by, said_prose};
use crate::density::densest;
use crate::frame::without_frame;
use crate::outermost::Landmark;
use crate::parts::{Part, first_body, known};
use crate::writing::{push_below_links, push_block, push_outermost, push_part, push_parts};
use htmd_nodes::{NodeData, NodeId, Tree};
use std::alloc::{AllocError, Global};

/// The main content of a page, and the rule by which it was chosen.
#[derive(Drop)]
pub struct Article {
    pub tree: Tree,
    pub chosen: Chosen,
}

fn new_tree(alloc: Global) -> Result<Tree, AllocError>
    ensures { IfOk result (λ tree. tree ≡ document_item ∷ []) }
{
    match Tree::new(alloc) {
        Ok(tree) => Ok(tree),
        Err(_) => Err(AllocError),
    }
}

/// Appends a part to the Document of a tree; of a Document what is below it.
#[tactic(auto, using(crate::proofs::ContentLemmas::whole_steps))]
fn push_whole(out: &mut Tree, part: &Part, alloc: Global) -> Result<(), AllocError>
    ensures { OnOk result (out.new ≡ out.old ++ forest_items 1 0 (length out.old)
        (written_whole (part_of part.now))) }
{
    let root = out.root();
    match part.node {
        NodeData::Document => push_parts(out, root, part.parts.as_slice(), false, alloc),
        _ => push_part(out, root, part, false, alloc),
    }
}

/// The same without the links above the content, unless all is links.
#[tactic(auto, using(crate::proofs::ContentLemmas::linkless_steps))]
fn push_content(out: &mut Tree, part: &Part, alloc: Global) -> Result<(), AllocError>
    ensures { OnOk result (out.new ≡ out.old ++ forest_items 1 0 (length out.old)
        (written_whole (without_top_links (part_of part.now)))) }
{
    if part.facts.is_linked() {
        return push_whole(out, part, alloc);
    }
    let root = out.root();
    match part.node {
        NodeData::Document => push_below_links(out, root, part.parts.as_slice(), false, alloc),
        _ => push_block(out, root, part, false, alloc),
    }
}

/// Appends the part with the most prose in a body to the Document of a tree, without the links above the content.
fn push_densest(out: &mut Tree, body: &Part, alloc: Global) -> Result<Chosen, AllocError>
    ensures out { OnOk result (out.new ≡ out.old ++ forest_items 1 0 (length out.old)
        (spec.by_density (densest_of (part_of body.now))).content) }
    ensures chosen { IfOk result (λ chosen. chosen ≡ (spec.by_density (densest_of (part_of body.now))).chosen) }
{
    let best = densest(body);
    push_content(out, best.part, alloc)?;
    Ok(best.chosen)
}

/// Appends what the page says is its main content to the Document of a tree; where it says nothing, the densest part.
#[tactic(auto, using(crate::proofs::ContentLemmas::root_steps))]
fn push_said(
    out: &mut Tree,
    said: Option<Landmark>,
    body: &Part,
    alloc: Global,
) -> Result<Chosen, AllocError>
    ensures out { OnOk result (out.new ≡ out.old ++ forest_items 1 0 (length out.old)
        (spec.by_saying (part_of body.now) said).content) }
    ensures chosen { IfOk result (λ chosen. chosen ≡ (spec.by_saying (part_of body.now) said).chosen) }
{
    let Some(mark) = said else {
        return push_densest(out, body, alloc);
    };
    let root = out.root();
    push_outermost(out, root, mark, body, alloc)?;
    Ok(chosen_by(mark))
}

/// Appends the main content of a body without frame to the Document of a tree.
#[tactic(auto, using(crate::proofs::ContentLemmas::root_steps))]
fn push_chosen(out: &mut Tree, body: &Part, alloc: Global) -> Result<Chosen, AllocError>
    ensures out { OnOk result (out.new ≡ out.old ++ forest_items 1 0 (length out.old)
        (spec.chosen_in (part_of body.now)).content) }
    ensures chosen { IfOk result (λ chosen. chosen ≡ (spec.chosen_in (part_of body.now)).chosen) }
{
    let said = said_by(body)?;
    let prose = said_prose(said, body)?;
    let Some(article) = large_article(prose, said, body) else {
        return push_said(out, said, body, alloc);
    };
    let root = out.root();
    push_part(out, root, article, false, alloc)?;
    Ok(Chosen::Article)
}

/// Appends the main content of a body to the Document of a tree: all, if nothing shows outside of the frame.
fn push_article(out: &mut Tree, whole: &Part, alloc: Global) -> Result<Chosen, AllocError>
    ensures out { OnOk result (out.new ≡ out.old ++ forest_items 1 0 (length out.old)
        (spec.article_in (part_of whole.now)).content) }
    ensures chosen { IfOk result (λ chosen. chosen ≡ (spec.article_in (part_of whole.now)).chosen) }
{
    let body = without_frame(alloc, Some(whole.facts.prose), whole)?;
    if body.facts.shows() {
        return push_chosen(out, &body, alloc);
    }
    push_whole(out, whole, alloc)?;
    Ok(Chosen::Body)
}

/// The body of a page, or the Document if it has none.
fn body_of(tree: &Tree) -> NodeId
    ensures within { result < length tree.now }
    ensures value { value_at tree.now result ≡ spec.body_of (value_at tree.now 0) }
{
    let root = tree.root();
    match first_body(tree, root) {
        Some(body) => body,
        None => root,
    }
}

/// The main content of a page. `Err` means out of memory.
pub fn article_of(alloc: Global, tree: &Tree) -> Result<Article, AllocError>
    ensures tree { IfOk result (λ article. article.tree ≡ spec.article_page tree.now) }
    ensures chosen { IfOk result (λ article. article.chosen ≡ (spec.article_of (value_at tree.now 0)).chosen) }
{
    let whole = known(alloc, tree, body_of(tree), false)?;
    let mut out = new_tree(alloc)?;
    let chosen = push_article(&mut out, &whole, alloc)?;
    Ok(Article { tree: out, chosen })
}
