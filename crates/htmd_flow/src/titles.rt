//! Titles among nodes: summaries, and captions of figures.
ghost use Rattle.std.specs.Prelude.{◌≡◌, ◌≤◌, length, map};
ghost use Rattle.std.specs.List.{list_any, prefix_len};
ghost use Rattle.htmd_shown.specs.Kinds.{has};
ghost use Rattle.htmd_shown.specs.SimpleViews.{simple_of};
ghost use Rattle.htmd_flow.specs.Flows as spec;
ghost use Rattle.htmd_flow.specs.TitleViews as views;

use htmd_document::BlockElement;
use htmd_shown::showing::show;
use htmd_shown::{Simple, content_of, is_figure_caption, is_summary};

/// Whether a node is a title that becomes this element.
pub(crate) fn is_title_of(title: BlockElement, node: &Simple) -> bool
    ensures { result ≡ has (spec.is_title_of title) (simple_of node.now) }
{
    match title {
        BlockElement::Summary => is_summary(node),
        BlockElement::FigureCaption => is_figure_caption(node),
        _ => false,
    }
}

/// How many nodes come before the first title.
pub(crate) fn before_title_len(title: BlockElement, nodes: &[Simple]) -> usize
    ensures bound { result ≤ length nodes.now }
    ensures value { result ≡ prefix_len (views.is_no_title title) (map simple_of nodes.now) }
{
    for (len, node) in nodes.iter().enumerate() {
        if is_title_of(title, node) {
            return len;
        }
    }
    nodes.len()
}

/// Whether a node is a title that shows something.
fn shows_title(title: BlockElement, node: &Simple) -> bool
    ensures { result ≡ spec.shows_title title (simple_of node.now) }
{
    is_title_of(title, node) && show(content_of(node))
}

/// Whether a title among nodes shows something.
pub(crate) fn show_title(title: BlockElement, nodes: &[Simple]) -> bool
    ensures { result ≡ list_any (spec.shows_title title) (map simple_of nodes.now) }
{
    for node in nodes {
        if shows_title(title, node) {
            return true;
        }
    }
    false
}
