//! What there is to see in nodes, one thing after the other.
ghost use Rattle.std.specs.Prelude.{◌≡◌, ◌+◌, IfOk};
ghost use Rattle.htmd_shown.specs.Kinds.{content_of};
ghost use Rattle.htmd_shown.specs.SimpleViews.{simple_of, simples_of};
ghost use Rattle.htmd_document_of_tree.specs.Seen as spec;

use htmd_shown::Simple;
use htmd_shown::showing::{code_shows, image_shows};
use htmd_shown::shown_text::is_blank_when_shown;
use std::alloc::AllocError;

/// Whether there is something to see of a leaf; none of what has its leaves in it. Most nodes are texts, or elements
/// that have theirs in them.
pub(crate) fn leaf_shows(tree: &Simple) -> Option<bool>
    ensures { result ≡ spec.leaf_shows (simple_of tree.now) }
{
    match tree {
        Simple::Text(text) => Some(!is_blank_when_shown(text)),
        Simple::Element { role, .. } if !role.is_verbatim() => None,
        _ => any_leaf_shows(tree),
    }
}

/// The same of any node.
fn any_leaf_shows(tree: &Simple) -> Option<bool>
    ensures { result ≡ spec.leaf_shows (simple_of tree.now) }
{
    match tree {
        Simple::Text(text) => Some(!is_blank_when_shown(text)),
        Simple::Image { address, attrs } => Some(image_shows(*address, attrs)),
        Simple::Formula { .. } | Simple::Embedded(_) => Some(true),
        Simple::Anchor(_) => None,
        Simple::Element { role, content, .. } => {
            if role.is_verbatim() {
                Some(code_shows(content))
            } else {
                None
            }
        },
    }
}

/// One more than how much was seen. `Err` where that is no number.
pub(crate) fn one_more(seen: usize, shows: bool) -> Result<usize, AllocError>
    ensures { IfOk result (λ n. n ≡ seen + spec.one_if shows) }
{
    if !shows {
        return Ok(seen);
    }
    match seen.checked_add(1) {
        Some(seen) => Ok(seen),
        None => Err(AllocError),
    }
}

/// How much was seen after a node.
#[cycle(seen)]
fn seen_after(seen: usize, tree: &Simple) -> Result<usize, AllocError>
    ensures { IfOk result (λ n. n ≡ seen + spec.seen (simple_of tree.now)) }
{
    match any_leaf_shows(tree) {
        Some(shows) => one_more(seen, shows),
        None => seen_inside(seen, tree),
    }
}

/// How much was seen after all in a node.
#[cycle(seen)]
fn seen_inside(seen: usize, tree: &Simple) -> Result<usize, AllocError>
    ensures { IfOk result (λ n. n ≡ seen + spec.all_seen (content_of (simple_of tree.now))) }
{
    match tree {
        Simple::Element { content, .. } => all_seen(seen, content),
        Simple::Text(_) => Ok(seen),
        Simple::Image { .. } => Ok(seen),
        Simple::Formula { .. } => Ok(seen),
        Simple::Embedded(_) => Ok(seen),
        Simple::Anchor(_) => Ok(seen),
    }
}

/// How much was seen after nodes.
#[cycle(seen)]
pub(crate) fn all_seen(seen: usize, trees: &[Simple]) -> Result<usize, AllocError>
    ensures { IfOk result (λ n. n ≡ seen + spec.all_seen (simples_of trees.now)) }
{
    let mut seen = seen;
    for tree in trees {
        seen = seen_after(seen, tree)?;
    }
    Ok(seen)
}
